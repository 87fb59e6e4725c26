//! The cost of a choice, in whole weighted microseconds.
ghost use Rattle.std.specs.Prelude.{◌≡◌, ◌*◌, ◌^◌, ◌<◌, ◌≤◌, length};
ghost use Rattle.coord_model.specs.Choice.{choice_data};
ghost use Rattle.coord_model.specs.Cost.{CostsAtLeast, CostsAtMost};
ghost use Rattle.margin_rows.specs.Case.{terms_in, term_at, FitsCase};
ghost use Rattle.margin_rows.specs.FirstBox.{IsInFirstBox};
ghost use Rattle.margin_rows.specs.Price.{cost_of, lower_cost_of, greatest_sum, least_sum, greatest_part, least_part};

use crate::instance::Instance;
use crate::margin::dial;
use coord_model::Choice;

/// The picoseconds of a microsecond.
pub const PICOSECONDS: u128 = 1_000_000;

/// The cost of a choice: the weighted sum of its primary operating times at their upper ends, rounded up.
pub fn cost(inst: &Instance, choice: &Choice) -> u64
    requires { IsInFirstBox inst.now (choice_data choice.now) }

    ensures exact { result ≡ cost_of inst.now (choice_data choice.now) }
    ensures at_most { CostsAtMost inst.now.study inst.now.currents (choice_data choice.now) result }
    ensures small { result < 10 ^ 16 }
    ensures fits { FitsCase inst.now }
{
    let (_least, greatest) = sums(inst, choice);
    greatest.div_ceil(PICOSECONDS) as u64
}

/// The least that a choice can cost: the weighted sum of its primary operating times at their lower ends, rounded
/// down.
pub fn lower_cost(inst: &Instance, choice: &Choice) -> u64
    requires { IsInFirstBox inst.now (choice_data choice.now) }

    ensures exact { result ≡ lower_cost_of inst.now (choice_data choice.now) }
    ensures at_least { CostsAtLeast inst.now.study inst.now.currents (choice_data choice.now) result }
    ensures small { result < 10 ^ 16 }
    ensures fits { FitsCase inst.now }
{
    let (least, _greatest) = sums(inst, choice);
    (least / PICOSECONDS) as u64
}

/// The weighted sums of the primary operating times at their lower and at their upper ends, in weighted picoseconds.
fn sums(inst: &Instance, choice: &Choice) -> (u128, u128)
    requires { IsInFirstBox inst.now (choice_data choice.now) }

    ensures least { result.0 ≡ least_sum inst.now (choice_data choice.now) }
    ensures greatest { result.1 ≡ greatest_sum inst.now (choice_data choice.now) }
    ensures least_small { result.0 ≤ 512 * 16500000000000000000 }
    ensures greatest_small { result.1 ≤ 512 * 16500000000000000000 }
    ensures fits { FitsCase inst.now }
{
    let mut least: u128 = 0;
    let mut greatest: u128 = 0;
    for term in 0..inst.terms().len() as u16 {
        let (lower, upper) = weighted_times(inst, choice, term);
        least += u128::from(lower);
        greatest += u128::from(upper);
    }
    (least, greatest)
}

/// The ends of the relay's weighted time at a term, in weighted picoseconds.
fn weighted_times(inst: &Instance, choice: &Choice, term: u16) -> (u64, u64)
    requires first_box { IsInFirstBox inst.now (choice_data choice.now) }
    requires term { term < length (terms_in inst.now) }

    ensures least { result.0 ≡ least_part inst.now (choice_data choice.now) (term_at inst.now term) }
    ensures greatest { result.1 ≡ greatest_part inst.now (choice_data choice.now) (term_at inst.now term) }
    ensures least_small { result.0 ≤ 16500000000000000000 }
    ensures greatest_small { result.1 ≤ 16500000000000000000 }
{
    let at = inst.term(term);
    let time = inst.term_time(term, choice.pickup[usize::from(at.relay)]);
    weighted(time, inst.weight(at.fault), dial(inst, choice, at.relay))
}

/// The ends of a time at a dial and a weight, in weighted picoseconds.
fn weighted(time: (u64, u64), weight: u64, dial: u64) -> (u64, u64)
    requires time { (time.0 < 2 ^ 40) × (time.1 < 2 ^ 40) }
    requires weight { weight ≤ 1000 }
    requires dial { dial ≤ 15000 }

    ensures lower { result.0 ≡ weight * dial * time.0 }
    ensures upper { result.1 ≡ weight * dial * time.1 }
    ensures lower_small { result.0 ≤ 16500000000000000000 }
    ensures upper_small { result.1 ≤ 16500000000000000000 }
{
    (weight * dial * time.0, weight * dial * time.1)
}
