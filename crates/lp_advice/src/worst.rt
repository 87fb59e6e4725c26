//! What a basis has that is not allowed: a row that is missed, or a share below 0.
use crate::basis::{Basis, Point};
use crate::fixed::{Stop, at, sub};
use crate::programme::Programme;
use std::alloc::Global;

/// A row that misses more than this, or a share that is further below 0, is not allowed: 2^-24.
pub const MISSES: i64 = 1 << 8;

/// What is not allowed at a point, and by how much.
#[derive(Clone, Copy)]
pub enum Worst {
    Row { row: usize, missed: i64 },
    Extra { place: usize, missed: i64 },
    /// The box does not leave the extra column.
    Gone { place: usize, share: i64 },
    Key { relay: usize },
}

/// What is furthest from being allowed.
pub fn furthest(
    programme: &Programme<'_>,
    basis: &Basis,
    point: &Point,
) -> Result<Option<Worst>, Stop> {
    if let Some((place, share)) = gone_extra(programme, basis, point)? {
        return Ok(Some(Worst::Gone { place, share }));
    }
    if let Some(relay) = low_key(point) {
        return Ok(Some(Worst::Key { relay }));
    }
    let missed = basis.missed(programme, point)?;
    let row = most_missed(programme, basis, &missed);
    let most = match row {
        Some((_, missed)) => missed,
        None => MISSES,
    };
    if let Some((place, missed)) = lowest_extra(basis, point, most)? {
        return Ok(Some(Worst::Extra { place, missed }));
    }
    match row {
        Some((row, missed)) => Ok(Some(Worst::Row { row, missed })),
        None => Ok(None),
    }
}

/// The first extra column with a share that the box does not leave.
fn gone_extra(
    programme: &Programme<'_>,
    basis: &Basis,
    point: &Point,
) -> Result<Option<(usize, i64)>, Stop> {
    for (place, extra) in basis.extras.iter().enumerate() {
        let share = at(&point.extras, place)?;
        if share > MISSES && !programme.local(extra.relay)?.leaves(extra) {
            return Ok(Some((place, share)));
        }
    }
    Ok(None)
}

/// The first relay whose key has a share below 0.
fn low_key(point: &Point) -> Option<usize> {
    point.keys.iter().position(|&share| share < -MISSES)
}

/// The row that misses most, of those that are in use and not active.
fn most_missed(programme: &Programme<'_>, basis: &Basis, missed: &[i64]) -> Option<(usize, i64)> {
    let mut most = MISSES;
    let mut found = None;
    for (row, &miss) in missed.iter().enumerate() {
        if miss > most && programme.has(row) && !basis.rows.contains(&row) {
            most = miss;
            found = Some((row, miss));
        }
    }
    found
}

/// The extra column with the lowest share, of those that are further below 0 than this.
fn lowest_extra(basis: &Basis, point: &Point, mut most: i64) -> Result<Option<(usize, i64)>, Stop> {
    let mut found = None;
    for place in 0..basis.extras.len() {
        let short = sub(0, at(&point.extras, place)?)?;
        if short > most {
            most = short;
            found = Some((place, short));
        }
    }
    Ok(found)
}
