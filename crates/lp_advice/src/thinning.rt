//! Fewer rows with weights: a certificate's leaf has at most 64.
use crate::basis::{Basis, Point};
use crate::fixed::{Stop, at, put};
use crate::programme::Programme;
use crate::simplex::{Solved, solve};
use coord_model::limits::MOST_WEIGHTS;
use std::alloc::Global;

/// The most times that rows are taken out of use for one box.
const ROUNDS: u32 = 12;

/// Solves a programme, with rows taken out of use until few enough have weights.
pub fn solve_thin(
    programme: &mut Programme<'_>,
    value: i64,
    pivots: &mut u32,
) -> Result<Solved, Stop> {
    for _ in 0..ROUNDS {
        let solved = solve(programme, value, pivots)?;
        let Solved::At(basis, point) = solved else {
            return Ok(solved);
        };
        if !thin(programme, &basis, &point)? {
            return Ok(Solved::At(basis, point));
        }
    }
    solve(programme, value, pivots)
}

/// Takes half of the rows that are too many out of use, those without which the most is left. `false`: they are few.
fn thin(programme: &mut Programme<'_>, basis: &Basis, point: &Point) -> Result<bool, Stop> {
    let excess = basis.rows.len().saturating_sub(MOST_WEIGHTS);
    if excess == 0 {
        return Ok(false);
    }
    let mut left = values_without(programme, basis, point)?;
    let mut unused = unused_of(programme)?;
    for _ in 0..excess.div_ceil(2) {
        drop_most(basis, &mut left, &mut unused)?;
    }
    programme.unused = unused;
    Ok(true)
}

/// Which rows are not in use.
fn unused_of(programme: &Programme<'_>) -> Result<Vec<bool>, Stop> {
    let mut unused = Vec::new(programme.alloc);
    for row in 0..programme.tables.asked.len() {
        unused.push(!programme.has(row))?;
    }
    Ok(unused)
}

/// The rows that are not active, as those that are not in use.
pub fn inactive(programme: &Programme<'_>, basis: &Basis) -> Result<Vec<bool>, Stop> {
    let mut unused = Vec::new(programme.alloc);
    for row in 0..programme.tables.asked.len() {
        unused.push(!basis.rows.contains(&row))?;
    }
    Ok(unused)
}

/// The dual value without the weight of each active row.
fn values_without(
    programme: &Programme<'_>,
    basis: &Basis,
    point: &Point,
) -> Result<Vec<i64>, Stop> {
    let mut weights = point.weights.clone()?;
    let mut values = Vec::new(programme.alloc);
    for &row in &basis.rows {
        let weight = at(&weights, row)?;
        put(&mut weights, row, 0)?;
        values.push(programme.value(&weights)?)?;
        put(&mut weights, row, weight)?;
    }
    Ok(values)
}

/// Takes the active row without which the most is left out of use.
fn drop_most(basis: &Basis, left: &mut [i64], unused: &mut [bool]) -> Result<(), Stop> {
    let mut most = i64::MIN;
    let mut found = None;
    for (place, &value) in left.iter().enumerate() {
        if value > most {
            most = value;
            found = Some(place);
        }
    }
    let Some(place) = found else {
        return Err(Stop::Beyond);
    };
    put(left, place, i64::MIN)?;
    put(unused, at(&basis.rows, place)?, true)
}
