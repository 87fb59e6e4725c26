//! Weights that are rounded by hand.
ghost use Rattle.std.specs.Prelude.{◌≡◌, ◌<◌, ◌^◌, ◌-◌, map, All, IfOk};
ghost use Rattle.std.specs.Int.RustNames.{unsigned_abs};
ghost use Rattle.std.specs.List.{range_with_len};

use super::round;
use coord_model::{NoMemory, Weight};
use std::alloc::Global;
use std::test::Fail;

#[test]
fn rounds_to_the_nearest(rt: HostRuntime) -> Result<(), Fail> {
    let weights = round(rt.alloc(), 3 << 20, &[(0, 1 << 20), (1, -5)], 20)?;
    assert_eq!(rt; weights.lambda, 3);
    assert_eq!(rt;
        weights.rows.as_slice(),
        [Weight { row: 0, weight: 1 }].as_slice()
    );
    Ok(())
}

#[test]
fn rounds_halves_up_and_caps(rt: HostRuntime) -> Result<(), Fail> {
    let rows = [(9, 5 << 40), (3, 3), (4, 1), (5, 2), (2, -40)];
    let weights = round(rt.alloc(), -2, &rows, 2)?;
    assert_eq!(rt; weights.lambda, 0);
    assert_eq!(rt;
        weights.rows.as_slice(),
        [
            Weight { row: 3, weight: 1 },
            Weight { row: 5, weight: 1 },
            Weight {
                row: 9,
                weight: 4_294_967_295
            },
        ]
        .as_slice()
    );
    Ok(())
}

// Of 65 rows the one with the least weight goes, and of rows with the same weight the last.
#[test]
fn of_65_rows_the_least_goes(rt: HostRuntime) -> Result<(), Fail> {
    for (light, gone) in [(0, 0), (10, 10), (64, 64), (65, 64)] {
        assert_eq!(rt;
            rows_left(rt.alloc(), light)?,
            all_but(rt.alloc(), gone)?,
            "{light}"
        );
    }
    Ok(())
}

/// The rows that keep a weight of 65 rows of weight 2, of which one has the weight 1.
fn rows_left(alloc: Global, light: u16) -> Result<Vec<u16>, NoMemory> {
    let rows = rows_down(alloc, light)?;
    let weights = round(alloc, 0, rows.as_slice(), 1)?;
    let mut left = Vec::new(alloc);
    for weight in weights.rows.as_slice() {
        left.push(weight.row)?;
    }
    Ok(left)
}

/// The rows from 0 to 64 but one.
fn all_but(alloc: Global, gone: u16) -> Result<Vec<u16>, NoMemory> {
    let mut rows = Vec::new(alloc);
    for row in 0..65 {
        if row != gone {
            rows.push(row)?;
        }
    }
    Ok(rows)
}

/// The rows from 64 down to 0, of which one has the weight 1 and the others 2, with one binary place.
fn rows_down(alloc: Global, light: u16) -> Result<Vec<(u16, i128)>, NoMemory>
    ensures fits { IfOk result (λ rows. All (λ r. unsigned_abs r.1 < 2 ^ 126) rows.items) }
    ensures rows { IfOk result (λ rows. map (λ r. r.0) rows.items ≡ map (λ k. 64 - k) (range_with_len 0 65)) }
{
    let mut rows = Vec::new(alloc);
    for k in 0..65 {
        let row = 64 - k;
        rows.push((row, half_units(row == light)))?;
    }
    Ok(rows)
}

/// A light weight, 1, or a heavy one, 2, with one binary place.
fn half_units(light: bool) -> i128
    ensures { unsigned_abs result < 2 ^ 126 }
{
    if light { 2 } else { 4 }
}
