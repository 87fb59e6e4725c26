//! The first search for pickups: from several lists of them, and from the best ones with a few steps changed.
ghost use Rattle.margin_rows.specs.Box.{FitsBox};

use crate::fixed::{Stop, put};
use crate::pickups::{Field, Found, better, descend, steps_of};
use std::alloc::Global;

/// Where a relay's span is taken.
#[derive(Clone, Copy)]
enum Level {
    Lowest,
    Middle,
    Highest,
}

/// The most lists that a first search judges.
const CALLS: u32 = 3_000;

/// The most changed lists that a first search begins from.
const ROUNDS: u64 = 200;

/// The best pickups that a search finds from the lists given, the lowest, the middle and the highest ones.
pub fn sought(field: Field<'_>, mut found: Option<Found>) -> Result<Option<Found>, Stop>
    requires { FitsBox field.inst.now field.ranges.now }
{
    for level in [Level::Lowest, Level::Middle, Level::Highest] {
        found = better(field, found, level_of(field, level)?)?;
    }
    match found {
        Some(found) => Ok(Some(improved(field, found)?)),
        None => Ok(None),
    }
}

fn level_of(field: Field<'_>, level: Level) -> Result<Vec<u16>, Stop>
    requires { FitsBox field.inst.now field.ranges.now }
{
    let mut pickups = Vec::new(field.alloc);
    for relay in 0..field.inst.study().relays.len() {
        let (low, high) = steps_of(field, relay)?;
        pickups.push(match level {
            Level::Lowest => low,
            Level::Middle => low.midpoint(high),
            Level::Highest => high,
        })?;
    }
    Ok(pickups)
}

/// The best pickups from these, and from the best ones with a few steps changed.
fn improved(field: Field<'_>, found: Found) -> Result<Found, Stop>
    requires { FitsBox field.inst.now field.ranges.now }
{
    let mut calls = CALLS;
    let mut best = descend(field, found, &mut calls)?;
    for round in 0..ROUNDS {
        if calls > 0 {
            best = once_more(field, best, round, &mut calls)?;
        }
    }
    Ok(best)
}

/// The better of the best pickups and those from a changed list.
fn once_more(field: Field<'_>, best: Found, round: u64, calls: &mut u32) -> Result<Found, Stop>
    requires { FitsBox field.inst.now field.ranges.now }
{
    let changed = changed(field, best.pickups.clone()?, round)?;
    let Some(start) = better(field, None, changed)? else {
        *calls = calls.saturating_sub(1);
        return Ok(best);
    };
    let found = descend(field, start, calls)?;
    Ok(if found.cost < best.cost { found } else { best })
}

/// Pickups with 2 to 6 steps changed, by a fixed rule.
fn changed(field: Field<'_>, mut pickups: Vec<u16>, round: u64) -> Result<Vec<u16>, Stop>
    requires { FitsBox field.inst.now field.ranges.now }
{
    let mut state = scrambled(round);
    for _ in 0..2 + state % 5 {
        state = scrambled(state);
        let relay = part_of(state, pickups.len());
        let (low, high) = steps_of(field, relay)?;
        let count = usize::from(high.saturating_sub(low)) + 1;
        state = scrambled(state);
        let Ok(step) = u16::try_from(part_of(state, count)) else {
            return Err(Stop::Beyond);
        };
        put(&mut pickups, relay, low.saturating_add(step))?;
    }
    Ok(pickups)
}

/// The next number of a fixed pseudo-random rule.
fn scrambled(state: u64) -> u64 {
    state
        .wrapping_mul(6_364_136_223_846_793_005)
        .wrapping_add(1_442_695_040_888_963_407)
}

/// A number below a count, or 0.
fn part_of(state: u64, count: usize) -> usize {
    ((state >> 33) as usize).checked_rem(count).unwrap_or(0)
}
