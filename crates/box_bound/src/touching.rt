//! The weights that count for a relay.
ghost use Rattle.std.specs.Prelude.{◌≡◌, ◌<◌, ◌≤◌, length, take};
ghost use Rattle.margin_rows.specs.Case.{rows_in};
ghost use Rattle.box_bound.specs.Weighing.{FitWeights, touches, touching};

use coord_model::Weight;
use coord_model::limits::MOST_WEIGHTS;
use margin_rows::Instance;

/// The weights of the rows that touch a relay, in the front of an array, and how many they are.
pub fn touching(inst: &Instance, weights: &[Weight], relay: u16) -> ([Weight; MOST_WEIGHTS], usize)
    requires { FitWeights inst.now weights.now }

    ensures front { take result.1 result.0 ≡ touching inst.now relay weights.now }
    ensures few { result.1 ≤ 64 }
{
    let mut front = [Weight { row: 0, weight: 0 }; MOST_WEIGHTS];
    let mut count = 0;
    for &weight in weights {
        if touches(inst, weight, relay) {
            front[count] = weight;
            count += 1;
        }
    }
    (front, count)
}

/// Whether the row of a weight touches a relay: the relay is its primary or its backup.
fn touches(inst: &Instance, weight: Weight, relay: u16) -> bool
    requires { weight.row < length (rows_in inst.now) }
    ensures { result ≡ touches inst.now relay weight }
{
    let row = inst.row(weight.row);
    row.primary == relay || row.backup == relay
}
