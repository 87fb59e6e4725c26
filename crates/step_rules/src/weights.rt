//! Weights of a bound, as an adviser or a box before gives them.
ghost use Rattle.std.specs.Prelude.{◌≡◌, ◌-◌, ◌^◌, ◌<◌, ◌≤◌, ◌↔◌, map, All, IfOk, IsTrue};
ghost use Rattle.std.specs.List.Sorted.{IsStrictlyIncreasing};
ghost use Rattle.margin_rows.specs.Box.{FitsBox, HasNoEmptySpan};
ghost use Rattle.step_rules.specs.Premises.{IsVoidBy};
ghost use Rattle.step_rules.specs.Usable.{AreUsable, CanBound, HasBound, leaf_weights, plain_weights};

use box_bound::{bound_of, value};
use coord_model::limits::MOST_WEIGHTS;
use coord_model::{NoMemory, Weight, Weights};
use margin_rows::{Instance, Ranges};
use std::alloc::Global;

/// Lambda 1 and no rows: the weights of the plain bound.
pub fn plain_weights(alloc: Global) -> Weights
    ensures { leaf_weights result ≡ plain_weights }
{
    Weights {
        lambda: 1,
        rows: Vec::new(alloc),
    }
}

/// Equal weights.
pub fn copy(weights: &Weights) -> Result<Weights, NoMemory>
    ensures { IfOk result (λ equal. leaf_weights equal ≡ leaf_weights weights.now) }
{
    Ok(Weights {
        lambda: weights.lambda,
        rows: weights.rows.clone()?,
    })
}

/// Whether weights may be used: at most 64, in the rising order of their rows, of rows of the study, each from 1 to
/// 2^32 - 1.
pub fn are_usable(inst: &Instance, rows: &[Weight]) -> bool
    ensures { IsTrue result ↔ AreUsable inst.now rows.now }
{
    rows.len() <= MOST_WEIGHTS && are_named(rows, inst.rows().len()) && are_rising(rows)
}

/// Whether weights are of rows below a count, each from 1 to 2^32 - 1.
fn are_named(rows: &[Weight], count: usize) -> bool
    ensures { IsTrue result ↔ (All (λ w. 1 ≤ w.weight) rows.now × All (λ w. w.weight ≤ 2 ^ 32 - 1) rows.now × All (λ w. w.row < count) rows.now) }
{
    rows.iter().all(|w| (1..=u32::MAX).contains(&w.weight) && usize::from(w.row) < count)
}

/// Whether weights are in the rising order of their rows.
fn are_rising(rows: &[Weight]) -> bool
    ensures { IsTrue result ↔ IsStrictlyIncreasing (map (λ w. w.row) rows.now) }
{
    for next in 1..rows.len() {
        if rows[next].row <= rows[next - 1].row {
            return false;
        }
    }
    true
}

/// Whether weights give a bound: those of rows are usable, and there is a lambda.
pub fn can_bound(inst: &Instance, weights: &Weights) -> bool
    ensures { IsTrue result ↔ CanBound inst.now (leaf_weights weights.now) }
{
    weights.lambda >= 1 && are_usable(inst, &weights.rows)
}

/// The bound that weights give a box without an empty span, in whole weighted microseconds.
pub fn bound_by(inst: &Instance, ranges: &Ranges, weights: &Weights) -> u64
    requires fits { FitsBox inst.now ranges.now }
    requires steps { HasNoEmptySpan ranges.now }
    requires weights { CanBound inst.now (leaf_weights weights.now) }
    ensures { HasBound inst.now ranges.now (leaf_weights weights.now) result }
{
    let value = value(inst, ranges, weights.lambda, &weights.rows);
    bound_of(value, weights.lambda)
}

/// Whether weights are usable and show that no settings of a box loosely meet every row.
pub fn is_void(inst: &Instance, ranges: &Ranges, rows: &[Weight]) -> bool
    requires fits { FitsBox inst.now ranges.now }
    requires steps { HasNoEmptySpan ranges.now }
    ensures { IsTrue result ↔ IsVoidBy inst.now ranges.now rows.now }
{
    are_usable(inst, rows) && value(inst, ranges, 0, rows) > 0
}
