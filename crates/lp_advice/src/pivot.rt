//! One pivot of the dual simplex.
use crate::basis::{Basis, Point};
use crate::blocking::{Blocker, Motion, blocked};
use crate::factors::{Line, MOST};
use crate::fixed::{ONE, Stop, at, put, sub};
use crate::programme::{Column, Programme};
use crate::worst::{Worst, furthest};
use std::alloc::Global;

/// What a pivot came to.
#[derive(Drop)]
pub enum Turn {
    /// The weights are the best.
    Best,
    /// Nothing stops these weights from growing: the rows can't be met together.
    Void(Vec<i64>),
    /// The most active rows are reached.
    Full,
    /// The basis has changed.
    On,
}

/// One pivot from a basis and its point.
pub fn pivot(programme: &Programme<'_>, basis: &mut Basis, point: &Point) -> Result<Turn, Stop> {
    match furthest(programme, basis, point)? {
        None => Ok(Turn::Best),
        Some(Worst::Key { relay }) => {
            exchange_key(basis, point, relay)?;
            Ok(Turn::On)
        }
        Some(Worst::Row { row, missed }) => enter(programme, basis, point, row, missed),
        Some(Worst::Extra { place, missed }) => {
            leave(programme, basis, point, place, missed, -ONE)
        }
        Some(Worst::Gone { place, share }) => { leave(programme, basis, point, place, share, ONE) }
    }
}

/// Makes the extra column with the greatest share the key of its relay.
fn exchange_key(basis: &mut Basis, point: &Point, relay: usize) -> Result<(), Stop> {
    let mut most = i64::MIN;
    let mut found = None;
    for (place, extra) in basis.extras.iter().enumerate() {
        let share = at(&point.extras, place)?;
        if extra.relay == relay && share > most {
            most = share;
            found = Some((place, *extra));
        }
    }
    let Some((place, extra)) = found else {
        return Err(Stop::Beyond);
    };
    let key = basis.key(relay)?;
    put(&mut basis.extras, place, key)?;
    put(&mut basis.keys, relay, extra)
}

/// A row that is missed becomes active.
fn enter(
    programme: &Programme<'_>,
    basis: &mut Basis,
    point: &Point,
    row: usize,
    missed: i64,
) -> Result<Turn, Stop> {
    let active = point
        .factors
        .solve_turned(&row_steps(programme, basis, row)?)?;
    let mut moves = basis.spread(programme, &active)?;
    put(&mut moves, row, ONE)?;
    let motion = Motion {
        weights: &point.weights,
        moves: &moves,
    };
    match blocked(programme, basis, motion, &active, missed)? {
        None => Ok(Turn::Void(moves)),
        Some(Blocker::Row(place)) => {
            put(&mut basis.rows, place, row)?;
            Ok(Turn::On)
        }
        Some(Blocker::Column(column)) => {
            if basis.rows.len() >= MOST {
                return Ok(Turn::Full);
            }
            basis.extras.push(column)?;
            basis.rows.push(row)?;
            Ok(Turn::On)
        }
    }
}

/// What each extra column has less than its key in a row.
fn row_steps(programme: &Programme<'_>, basis: &Basis, row: usize) -> Result<Line, Stop> {
    let mut steps = [0; MOST];
    for (place, extra) in basis.extras.iter().enumerate() {
        let less = row_step(programme, basis, row, extra)?;
        put(&mut steps, place, less)?;
    }
    Ok(steps)
}

fn row_step(
    programme: &Programme<'_>,
    basis: &Basis,
    row: usize,
    extra: &Column,
) -> Result<i64, Stop> {
    let local = programme.local(extra.relay)?;
    let key = basis.key(extra.relay)?;
    for touch in &local.part.touches {
        if touch.row == row {
            return sub(
                local.entry(&key, &touch.times)?,
                local.entry(extra, &touch.times)?,
            );
        }
    }
    Ok(0)
}

/// An extra column leaves: its reduced cost rises, or falls if the box does not leave it.
fn leave(
    programme: &Programme<'_>,
    basis: &mut Basis,
    point: &Point,
    place: usize,
    missed: i64,
    step: i64,
) -> Result<Turn, Stop> {
    let mut steps = [0; MOST];
    put(&mut steps, place, step)?;
    let active = point.factors.solve_turned(&steps)?;
    let moves = basis.spread(programme, &active)?;
    let motion = Motion {
        weights: &point.weights,
        moves: &moves,
    };
    match blocked(programme, basis, motion, &active, missed)? {
        None => Ok(Turn::Void(moves)),
        Some(Blocker::Row(row)) => {
            drop_pair(basis, row, place)?;
            Ok(Turn::On)
        }
        Some(Blocker::Column(column)) => {
            put(&mut basis.extras, place, column)?;
            Ok(Turn::On)
        }
    }
}

/// Drops an active row and an extra column.
fn drop_pair(basis: &mut Basis, row: usize, place: usize) -> Result<(), Stop> {
    if row >= basis.rows.len() || place >= basis.extras.len() {
        return Err(Stop::Beyond);
    }
    let _row = basis.rows.swap_remove(row);
    let _extra = basis.extras.swap_remove(place);
    Ok(())
}
