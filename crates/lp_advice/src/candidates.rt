//! The places that a look ahead tries, from three lists of relays: by the weights of their rows, by what their cost
//! depends on the pickup, and by whether a neighbour has one step left.
use crate::ahead::Solution;
use crate::fixed::{ONE, Stop, add, at, put, sub, times};
use crate::mixing::{Mix, weight_of};
use crate::programme::Local;
use std::alloc::Global;

/// A relay, and the last pickup step of the lower half.
#[derive(Clone, Copy)]
pub struct Place {
    pub relay: u16,
    pub at: u16,
}

/// A place to split at, and how promising it is by each list.
#[derive(Clone, Copy)]
struct Candidate {
    place: Place,
    promises: [i64; LISTS],
}

const LISTS: usize = 3;

/// How many places are looked at.
const CANDIDATES: usize = 9;

/// A fraction counts as this much more, 0.03.
const LEAST_FRACTION: i64 = ONE / 33;

/// What a backup of a relay with one step counts, and what a primary of one counts.
const BACKUP: i64 = ONE;

const PRIMARY: i64 = ONE / 10 * 9;

/// The places to look at, the first of the three lists in turn.
pub fn places_of(solution: Solution<'_>, mixes: &[Mix]) -> Result<Vec<Place>, Stop> {
    let mut candidates = candidates_of(solution, mixes)?;
    let mut places = Vec::new(solution.alloc);
    for turn in 0..CANDIDATES {
        if let Some(candidate) = take_best(&mut candidates, turn % LISTS) {
            places.push(candidate.place)?;
        }
    }
    Ok(places)
}

/// Takes the most promising candidate of a list.
fn take_best(candidates: &mut Vec<Candidate>, list: usize) -> Option<Candidate> {
    let mut most = -1;
    let mut best = None;
    for (place, candidate) in candidates.iter().enumerate() {
        let promise = candidate.promises.get(list).copied().unwrap_or(0);
        if promise > most {
            most = promise;
            best = Some(place);
        }
    }
    match best {
        Some(place) if place < candidates.len() => Some(candidates.remove(place)),
        _ => None,
    }
}

/// A candidate for each relay with two steps.
fn candidates_of(solution: Solution<'_>, mixes: &[Mix]) -> Result<Vec<Candidate>, Stop> {
    let nearness = nearness_of(solution)?;
    let mut candidates = Vec::new(solution.alloc);
    for (relay, mix) in mixes.iter().enumerate() {
        if let Some(place) = place_at(solution, relay, mix.mean)? {
            candidates.push(Candidate {
                place,
                promises: promises_of(solution, relay, *mix, at(&nearness, relay)?)?,
            })?;
        }
    }
    Ok(candidates)
}

/// How promising a relay is by each list.
fn promises_of(
    solution: Solution<'_>,
    relay: usize,
    mix: Mix,
    nearness: i64,
) -> Result<[i64; LISTS], Stop> {
    let fraction = fraction(mix.mean);
    let raised = add(fraction, LEAST_FRACTION)?;
    let weight = weight_of(solution.programme, relay, &solution.point.weights)?;
    let spread = spread_of(solution.programme.local(relay)?)?;
    Ok([
        times(raised, weight)?,
        times(raised, spread)?,
        add(nearness, add(fraction, fraction)?)?,
    ])
}

/// How far a number is from a whole one.
fn fraction(number: i64) -> i64 {
    let part = number & (ONE - 1);
    part.min(ONE.saturating_sub(part))
}

/// How far the costs of a relay's steps at its low dial lie apart.
fn spread_of(local: Local<'_>) -> Result<i64, Stop> {
    let mut least = i64::MAX;
    let mut most = 0;
    for step in local.window.low..local.window.past {
        let cost = at(&local.part.costs, step)?;
        least = least.min(cost);
        most = most.max(cost);
    }
    local.at_dial(false, most.saturating_sub(least))
}

/// For each relay whether it is a neighbour of one with one step.
fn nearness_of(solution: Solution<'_>) -> Result<Vec<i64>, Stop> {
    let mut nearness = Vec::new(solution.alloc);
    for _ in 0..solution.programme.windows.len() {
        nearness.push(0)?;
    }
    for row in solution.inst.rows() {
        let backup = usize::from(row.backup);
        let primary = usize::from(row.primary);
        if has_one_step(solution, primary)? {
            raise(&mut nearness, backup, BACKUP)?;
        }
        if has_one_step(solution, backup)? {
            raise(&mut nearness, primary, PRIMARY)?;
        }
    }
    Ok(nearness)
}

fn has_one_step(solution: Solution<'_>, relay: usize) -> Result<bool, Stop> {
    let window = solution.programme.local(relay)?.window;
    Ok(window.low.saturating_add(1) >= window.past)
}

fn raise(numbers: &mut [i64], place: usize, number: i64) -> Result<(), Stop> {
    let held = at(numbers, place)?;
    put(numbers, place, held.max(number))
}

/// The place at a relay's mean step, rounded down. `None`: it has one step.
fn place_at(solution: Solution<'_>, relay: usize, mean: i64) -> Result<Option<Place>, Stop> {
    if has_one_step(solution, relay)? {
        return Ok(None);
    }
    let local = solution.programme.local(relay)?;
    let Ok(whole) = usize::try_from(mean.max(0) >> 32) else {
        return Err(Stop::Beyond);
    };
    let step = whole
        .max(local.window.low)
        .min(local.window.past.saturating_sub(2));
    let (Ok(step), Ok(relay)) = (u16::try_from(step), u16::try_from(relay)) else {
        return Err(Stop::Beyond);
    };
    Ok(Some(Place {
        relay,
        at: local.part.first.saturating_add(step),
    }))
}
