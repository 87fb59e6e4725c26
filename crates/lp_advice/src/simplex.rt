//! The dual simplex over the weights of rows.
use crate::basis::{Basis, Point, plain_basis};
use crate::fixed::Stop;
use crate::pivot::{Turn, pivot};
use crate::programme::Programme;
use std::alloc::Global;

/// What a programme came to.
#[derive(Drop)]
pub enum Solved {
    /// The weights and shares of a basis, the best ones or those that the pivots reached.
    At(Basis, Point),
    /// Weights by which the rows can't be met together.
    Void(Vec<i64>),
}

/// Solves a programme, from no weights on.
pub fn solve(programme: &Programme<'_>, value: i64, pivots: &mut u32) -> Result<Solved, Stop> {
    let basis = plain_basis(programme)?;
    solve_from(programme, basis, value, pivots)
}

/// Solves a programme from a basis on, until the pivots are spent or a dual value is reached.
pub fn solve_from(
    programme: &Programme<'_>,
    mut basis: Basis,
    value: i64,
    pivots: &mut u32,
) -> Result<Solved, Stop> {
    for _ in 0..*pivots {
        *pivots = pivots.saturating_sub(1);
        let point = basis.point(programme)?;
        if programme.value(&point.weights)? >= value {
            return Ok(Solved::At(basis, point));
        }
        match pivot(programme, &mut basis, &point)? {
            Turn::Best | Turn::Full => return Ok(Solved::At(basis, point)),
            Turn::Void(weights) => return Ok(Solved::Void(weights)),
            Turn::On => {}
        }
    }
    let point = basis.point(programme)?;
    Ok(Solved::At(basis, point))
}
