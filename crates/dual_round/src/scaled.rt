//! From a fixed-point number to a whole weight.
ghost use Rattle.std.specs.Prelude.{◌≡◌, ◌≤◌, ◌<◌, ◌^◌, All, IfOk};
ghost use Rattle.std.specs.Int.RustNames.{unsigned_abs};
ghost use Rattle.dual_round.specs.Scaled.{rounded_weight, weighed};

use coord_model::{NoMemory, Weight};
use std::alloc::Global;

/// The weight of a number with `places` binary places.
///
/// Rounded to the nearest whole number, a half up; then 0 where negative, and `u32::MAX` where larger.
pub fn rounded_weight(v: i128, places: u32) -> u32
    requires at_least_one { 1 ≤ places }
    requires at_most_64 { places ≤ 64 }
    requires fits { unsigned_abs v < 2 ^ 126 }
    ensures { result ≡ rounded_weight places v }
{
    let half = 1i128 << (places - 1);
    let whole = (v + half) >> places;
    whole.clamp(0, i128::from(u32::MAX)) as u32
}

/// The weights of the rows in their order, without those that are 0.
pub fn weigh(alloc: Global, rows: &[(u16, i128)], places: u32) -> Result<Vec<Weight>, NoMemory>
    requires at_least_one { 1 ≤ places }
    requires at_most_64 { places ≤ 64 }
    requires fits { All (λ r. unsigned_abs r.1 < 2 ^ 126) rows.now }
    ensures { IfOk result (λ weights. weights.items ≡ weighed places rows.now) }
{
    let mut weights = Vec::new(alloc);
    for &(row, v) in rows {
        let weight = rounded_weight(v, places);
        if weight > 0 {
            weights.push(Weight { row, weight })?;
        }
    }
    Ok(weights)
}
