//! The weights of a dual value, rounded.
ghost use Rattle.std.specs.Prelude.{◌≡◌, ◌≤◌, ◌<◌, ◌^◌, ◌==◌, ◌↔◌, map, All, Contains, IfOk, vec_len};
ghost use Rattle.std.specs.Int.RustNames.{unsigned_abs};
ghost use Rattle.std.specs.List.{IsDistinct};
ghost use Rattle.std.specs.List.Sorted.{IsStrictlyIncreasing};
ghost use Rattle.coord_model.specs.declared.weights.Weight.{Weight};
ghost use Rattle.dual_round.specs.Kept.{Stays};
ghost use Rattle.dual_round.specs.Scaled.{rounded_weight, weighed};

use crate::kept::largest;
use crate::scaled::{rounded_weight, weigh};
use coord_model::{NoMemory, Weights};
use std::alloc::Global;

/// The whole weights nearest to a dual point in fixed point with `places` binary places.
///
/// A half goes up; a negative number becomes 0, and one above 32 bits the greatest of 32 bits. A row with 0 has
/// no weight. The 64 largest stay, of equal ones those of the lower rows.
pub fn round(
    alloc: Global,
    lambda: i128,
    rows: &[(u16, i128)],
    places: u32,
) -> Result<Weights, NoMemory>
    requires at_least_one { 1 ≤ places }
    requires at_most_64 { places ≤ 64 }
    requires lambda_fits { unsigned_abs lambda < 2 ^ 126 }
    requires rows_fit { All (λ r. unsigned_abs r.1 < 2 ^ 126) rows.now }
    requires distinct { IsDistinct ◌==◌ (map (λ r. r.0) rows.now) }

    ensures lambda { IfOk result (λ weights. weights.lambda ≡ rounded_weight places lambda) }
    ensures kept { IfOk result (λ weights.
        (w : Weight) → Contains weights.rows.items w ↔ Stays (weighed places rows.now) w) }

    // Usable in a leaf.
    ensures ascending { IfOk result (λ weights. IsStrictlyIncreasing (map (λ w. w.row) weights.rows.items)) }
    ensures at_least_one { IfOk result (λ weights. All (λ w. 1 ≤ w.weight) weights.rows.items) }
    ensures few { IfOk result (λ weights. vec_len weights.rows ≤ 64) }
{
    let weights = weigh(alloc, rows, places)?;
    Ok(Weights {
        lambda: rounded_weight(lambda, places),
        rows: largest(weights),
    })
}

#[cfg(test)]
mod tests;
