//! A look ahead: what the halves of a box gain over its bound.
ghost use Rattle.std.specs.Prelude.{◌<◌, length};
ghost use Rattle.margin_rows.specs.Box.{FitsBox};

use crate::basis::{Basis, Point};
use crate::fixed::{Stop, add, sub};
use crate::pivot::{Turn, pivot};
use crate::programme::{Programme, programme_of};
use crate::simplex::{Solved, solve_from};
use box_range::{Tightened, tighten};
use margin_rows::{Instance, Ranges};
use std::alloc::Global;

/// A box with its programme solved.
#[derive(Clone, Copy)]
pub struct Solution<'a> {
    pub alloc: Global,
    pub inst: &'a Instance,
    pub ranges: &'a Ranges,
    pub programme: &'a Programme<'a>,
    pub basis: &'a Basis,
    pub point: &'a Point,
    /// The dual value of the box.
    pub value: i64,
    /// How much more closes a box.
    pub room: i64,
}

/// A half of a box that is split.
#[derive(Clone, Copy)]
pub enum Half {
    Low,
    High,
}

/// What a half gains where a relay is split after a step, at most the room. `None`: it can't be split there.
pub fn gain_of(
    solution: Solution<'_>,
    relay: u16,
    at: u16,
    half: Half,
    pivots: &mut u32,
) -> Result<Option<i64>, Stop>
    requires { FitsBox solution.inst.now solution.ranges.now }
{
    if usize::from(relay) >= solution.inst.study().relays.len()
        || !solution.ranges.can_split(relay, at)
    {
        return Ok(None);
    }
    let (low, high) = solution.ranges.split(relay, at)?;
    let gain = match half {
        Half::Low => gain(solution, low, relay, pivots)?,
        Half::High => gain(solution, high, relay, pivots)?,
    };
    Ok(Some(gain))
}

/// What a half gains.
fn gain(solution: Solution<'_>, mut half: Ranges, relay: u16, pivots: &mut u32) -> Result<i64, Stop>
    requires fits { FitsBox solution.inst.now half }
    requires relay { relay < length solution.inst.now.study.relays }
{
    let span = half.pickup(relay);
    if tighten(solution.inst, &mut half) == Tightened::Emptied {
        return Ok(solution.room);
    }
    let tables = solution.programme.tables;
    let tight = programme_of(solution.alloc, tables, solution.inst, &half)?;
    let same = sub(tight.value(&solution.point.weights)?, solution.value)?;
    if same >= solution.room {
        return Ok(solution.room);
    }
    let relay = usize::from(relay);
    let Some(part) = tables.parts.get(relay) else {
        return Err(Stop::Beyond);
    };
    let low = usize::from(span.lo.saturating_sub(part.first));
    let past = usize::from(span.hi.saturating_sub(part.first)) + 1;
    let programme = solution.programme.narrowed(relay, low, past)?;
    let better = warm(solution, &programme, &tight, relay, pivots)?;
    Ok(better.max(same).max(0).min(solution.room))
}

/// What a half gains by weights of its own. `tight` is its programme with tight spans.
fn warm(
    solution: Solution<'_>,
    programme: &Programme<'_>,
    tight: &Programme<'_>,
    relay: usize,
    pivots: &mut u32,
) -> Result<i64, Stop> {
    let enough = add(solution.value, solution.room)?;
    let solved = match first_step(solution, programme, relay)? {
        Step::Basis(basis) => solve_from(programme, basis, enough, pivots)?,
        Step::Void => return Ok(solution.room),
        Step::Stays => return Ok(0),
    };
    match solved {
        Solved::Void(_) => Ok(solution.room),
        Solved::At(_, point) => sub(tight.value(&point.weights)?, solution.value),
    }
}

/// What the first step from the box's basis towards that of a half came to.
#[derive(Drop)]
enum Step {
    Basis(Basis),
    Void,
    Stays,
}

/// The first step from the box's basis towards that of a half, with the factors that are there if the keys stay.
fn first_step(
    solution: Solution<'_>,
    programme: &Programme<'_>,
    relay: usize,
) -> Result<Step, Stop> {
    let mut basis = solution.basis.copy()?;
    if !programme.local(relay)?.leaves(&basis.key(relay)?) {
        return if basis.rekey(programme, relay, &solution.point.weights)? {
            Ok(Step::Basis(basis))
        } else {
            Ok(Step::Stays)
        };
    }
    match pivot(programme, &mut basis, solution.point)? {
        Turn::Best | Turn::Full => Ok(Step::Stays),
        Turn::Void(_) => Ok(Step::Void),
        Turn::On => Ok(Step::Basis(basis)),
    }
}
