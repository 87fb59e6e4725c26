//! What a unit of a relay's dial adds to the dual value.
ghost use Rattle.std.specs.Prelude.{◌≡◌, ◌<◌, ◌≤◌, ◌^◌};
ghost use Rattle.margin_rows.specs.FirstBox.{IsFirstStep};
ghost use Rattle.box_bound.specs.RelayParts.{at_dial, gain, loss};
ghost use Rattle.box_bound.specs.Weighing.{FitWeights};

use crate::shares::{backup_sum, primary_sum};
use coord_model::Weight;
use margin_rows::Instance;

/// What a unit of a relay's dial adds, and what it takes away, in nanoseconds times lambda.
#[derive(Clone, Copy)]
pub struct Coefficient {
    pub gain: u128,
    pub loss: u128,
}

/// The coefficient of a relay's dial at a pickup step.
pub fn coefficient_at(
    inst: &Instance,
    lambda: u32,
    weights: &[Weight],
    relay: u16,
    step: u16,
) -> Coefficient
    requires fit { FitWeights inst.now weights.now }
    requires step { IsFirstStep inst.now relay step }

    ensures gain { result.gain ≡ gain inst.now lambda weights.now relay step }
    ensures loss { result.loss ≡ loss inst.now weights.now relay step }
    ensures gain_small { result.gain ≤ 2 ^ 92 }
    ensures loss_small { result.loss ≤ 2 ^ 92 }
{
    let cost = u128::from(lambda) * u128::from(inst.term_sum(relay, step));
    Coefficient {
        gain: cost + primary_sum(inst, weights, relay, step),
        loss: backup_sum(inst, weights, relay, step),
    }
}

/// The gain less the loss at a dial, in picoseconds times lambda.
pub fn at_dial(coefficient: Coefficient, dial: u64) -> i128
    requires dial { dial ≤ 15000 }
    requires gain_small { coefficient.gain ≤ 2 ^ 92 }
    requires loss_small { coefficient.loss ≤ 2 ^ 92 }
    ensures { result ≡ at_dial dial coefficient.gain coefficient.loss }
{
    let dial = u128::from(dial);
    (dial * coefficient.gain) as i128 - (dial * coefficient.loss) as i128
}
