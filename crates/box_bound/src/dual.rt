//! The dual value of a box.
ghost use Rattle.std.specs.Prelude.{◌≡◌, ◌<◌, ◌≤◌, ◌*◌, ◌^◌, ℕ, ℤ, pos, ◌+ℤ◌, ◌<ℤ◌, ◌≤ℤ◌, length, map, All};
ghost use Rattle.coord_model.specs.Allowed.{IsAllowed};
ghost use Rattle.coord_model.specs.Choice.{Settings};
ghost use Rattle.coord_model.specs.Cost.{CostsAtLeast};
ghost use Rattle.margin_rows.specs.Box.{Box, FitsBox, HasNoEmptySpan, LiesIn};
ghost use Rattle.margin_rows.specs.Case.{rows_in, FitsCase};
ghost use Rattle.margin_rows.specs.Lowest.{HasOnePickup, lowest_of};
ghost use Rattle.margin_rows.specs.Margin.{MeetsLoosely};
ghost use Rattle.margin_rows.specs.Price.{least_sum, lower_cost_of};
ghost use Rattle.margin_rows.specs.Within.{IsWithin};
ghost use Rattle.box_bound.specs.DualValue.{IsDualValue, total, weighted_constant};
ghost use Rattle.box_bound.specs.LowerBound.{IsPlainBound, bound_at};
ghost use Rattle.box_bound.specs.Weighing.{FitWeights};

use crate::bound::bound_of;
use crate::least::least_part;
use coord_model::Weight;
use margin_rows::{Instance, Ranges};

/// The dual value of a box, in picoseconds times `lambda`.
///
/// `lambda` weighs the cost, `weights` the margins of rows: at most 64, each of a row. No span of the box is empty.
pub fn value(inst: &Instance, ranges: &Ranges, lambda: u32, weights: &[Weight]) -> i128
    requires fits { FitsBox inst.now ranges.now }
    requires steps { HasNoEmptySpan ranges.now }
    requires weights { FitWeights inst.now weights.now }

    ensures exact { IsDualValue inst.now ranges.now lambda weights.now result }
    ensures limits { FitsCase inst.now }

    // There is no other dual value, and that of a box round it is not greater.
    ensures only { (other : ℤ) → IsDualValue inst.now ranges.now lambda weights.now other → other ≡ result }
    ensures rises { (outer : Box) (other : ℤ) → IsWithin ranges.now outer → IsDualValue inst.now outer lambda weights.now other → other ≤ℤ result }

    // Weak duality: settings of the box that loosely meet every row cost at least the value over lambda.
    ensures at_most_cost { (settings : Settings) → LiesIn ranges.now settings → All (MeetsLoosely inst.now settings) (rows_in inst.now)
        → result ≤ℤ pos (lambda * least_sum inst.now settings) }

    // So they cost at least the bound of the value.
    ensures costs { 1 ≤ lambda → (settings : Settings) → LiesIn ranges.now settings → All (MeetsLoosely inst.now settings) (rows_in inst.now)
        → CostsAtLeast inst.now.study inst.now.currents settings (bound_at result lambda) }

    // And without the cost there are none where the value is above 0.
    ensures void { lambda ≡ 0 → pos 0 <ℤ result → (settings : Settings) → LiesIn ranges.now settings
        → ¬ (All (MeetsLoosely inst.now settings) (rows_in inst.now)) }
{
    let mut sum = constants(inst, weights);
    for relay in 0..inst.study().relays.len() as u16 {
        sum += least_part(inst, ranges, lambda, weights, relay);
    }
    sum
}

/// The plain bound of a box without an empty span, in whole weighted microseconds: that of its dual value at lambda 1
/// and without weights, rounded down.
pub fn plain(inst: &Instance, ranges: &Ranges) -> u64
    requires fits { FitsBox inst.now ranges.now }
    requires steps { HasNoEmptySpan ranges.now }

    ensures exact { IsPlainBound inst.now ranges.now result }

    // There is no other plain bound, and that of a box round it is not greater.
    ensures only { (other : ℕ) → IsPlainBound inst.now ranges.now other → other ≡ result }
    ensures rises { (outer : Box) (other : ℕ) → IsWithin ranges.now outer → IsPlainBound inst.now outer other → other ≤ result }

    // With one pickup step for each relay it is what the lowest settings cost at least.
    ensures lowest { HasOnePickup ranges.now → result ≡ lower_cost_of inst.now (lowest_of ranges.now) }
    ensures at_least { (settings : Settings) → LiesIn ranges.now settings → IsAllowed inst.now.study inst.now.currents settings
        → CostsAtLeast inst.now.study inst.now.currents settings result }
{
    bound_of(value(inst, ranges, 1, &[]), 1)
}

/// The sum of the constants of rows, each as often as its weight says, in picoseconds.
fn constants(inst: &Instance, weights: &[Weight]) -> i128
    requires { FitWeights inst.now weights.now }
    ensures exact { result ≡ total (map (weighted_constant inst.now) weights.now) }
    ensures not_low { pos 0 ≤ℤ (result +ℤ pos (2 ^ 93)) }
    ensures not_high { result ≤ℤ pos (2 ^ 93) }
{
    let mut sum = 0;
    for &weight in weights {
        sum += weighted_constant(inst, weight);
    }
    sum
}

/// The constant of a weight's row as often as the weight says, in picoseconds.
fn weighted_constant(inst: &Instance, weight: Weight) -> i128
    requires { weight.row < length (rows_in inst.now) }
    ensures exact { result ≡ weighted_constant inst.now weight }
    ensures not_low { pos 0 ≤ℤ (result +ℤ pos (2 ^ 87)) }
    ensures not_high { result ≤ℤ pos (2 ^ 87) }
{
    i128::from(weight.weight) * i128::from(inst.row_constant(weight.row))
}
