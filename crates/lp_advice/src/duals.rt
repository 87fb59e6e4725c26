//! Weights of rows in fixed point as the whole weights that bound a box.
ghost use Rattle.std.specs.Prelude.{◌<◌, ◌≤◌, ◌^◌, ◌==◌, map, All, IfOk};
ghost use Rattle.std.specs.Int.RustNames.{unsigned_abs};
ghost use Rattle.std.specs.List.{IsDistinct};

use crate::fixed::{Stop, at};
use coord_model::Weights;
use dual_round::round;
use std::alloc::Global;

/// The bits of a whole weight.
const WEIGHT_BITS: u32 = 32;

/// Whole weights in the proportions of these, and of the cost: `cost` is its weight, or 0.
pub fn whole(alloc: Global, cost: i64, weights: &[i64]) -> Result<Weights, Stop> {
    let rows = listed(alloc, weights)?;
    let places = places(most(cost, weights));
    Ok(round(alloc, i128::from(cost), &rows, places)?)
}

/// The rows with their weights.
fn listed(alloc: Global, weights: &[i64]) -> Result<Vec<(u16, i128)>, Stop>
    ensures fit { IfOk result (λ rows. All (λ r. unsigned_abs r.1 < 2 ^ 126) rows.items) }
    ensures distinct { IfOk result (λ rows. IsDistinct ◌==◌ (map (λ r. r.0) rows.items)) }
{
    let Ok(count) = u16::try_from(weights.len()) else {
        return Err(Stop::Beyond);
    };
    let mut rows = Vec::new(alloc);
    for row in 0..count {
        let weight = at(weights, usize::from(row))?;
        rows.push((row, widened(weight)))?;
    }
    Ok(rows)
}

/// The same weight with more room.
fn widened(weight: i64) -> i128
    ensures { unsigned_abs result < 2 ^ 126 }
{
    i128::from(weight)
}

/// The largest of the weights and the cost's.
fn most(cost: i64, weights: &[i64]) -> u64 {
    let mut most = cost.max(1).unsigned_abs();
    for &weight in weights {
        most = most.max(weight.max(0).unsigned_abs());
    }
    most
}

/// The places to round by, so that the largest number has the bits of a whole weight, or fewer.
fn places(most: u64) -> u32
    ensures at_least_one { 1 ≤ result }
    ensures at_most_64 { result ≤ 64 }
{
    (u64::BITS - most.leading_zeros())
        .saturating_sub(WEIGHT_BITS)
        .max(1)
}
