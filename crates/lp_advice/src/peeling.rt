//! Splits that close one half at once: the outer steps of a relay with many, where the programme has no share.
ghost use Rattle.std.specs.Prelude.{◌<◌, length};
ghost use Rattle.margin_rows.specs.Box.{FitsBox};

use crate::ahead::{Half, Solution, gain_of};
use crate::candidates::Place;
use crate::fixed::{Stop, at};
use crate::worst::MISSES;
use std::alloc::Global;

/// A relay has many steps if the first box has so many.
const MANY: u16 = 6;

/// Steps of a relay that may be taken from one end of its span.
#[derive(Clone, Copy)]
struct Peel {
    place: Place,
    kept: u16,
    of: u16,
}

/// The place to split at where one half closes and the other keeps the least share of the relay's steps.
pub fn peeled(solution: Solution<'_>, pivots: &mut u32) -> Result<Option<Place>, Stop>
    requires { FitsBox solution.inst.now solution.ranges.now }
{
    let mut best = None;
    for relay in 0..solution.inst.study().relays.len() as u16 {
        if has_many(solution, relay) {
            for half in [Half::Low, Half::High] {
                best = smaller(best, peel_of(solution, relay, half, pivots)?);
            }
        }
    }
    Ok(best.map(|peel| peel.place))
}

/// The peel that keeps less, if it keeps at most four fifths.
fn smaller(best: Option<Peel>, other: Option<Peel>) -> Option<Peel> {
    let Some(peel) = other else {
        return best;
    };
    if u32::from(peel.kept) * 5 > u32::from(peel.of) * 4 {
        return best;
    }
    match best {
        Some(best) if !keeps_less(peel, best) => Some(best),
        _ => Some(peel),
    }
}

fn keeps_less(a: Peel, b: Peel) -> bool {
    u32::from(a.kept) * u32::from(b.of) < u32::from(b.kept) * u32::from(a.of)
}

fn has_many(solution: Solution<'_>, relay: u16) -> bool
    requires { relay < length solution.inst.now.study.relays }
{
    match solution.inst.first_pickups(relay) {
        Some((low, high)) => high.saturating_sub(low) >= MANY - 1,
        None => false,
    }
}

/// The longest end of a relay's steps that closes.
fn peel_of(
    solution: Solution<'_>,
    relay: u16,
    half: Half,
    pivots: &mut u32,
) -> Result<Option<Peel>, Stop>
    requires fits { FitsBox solution.inst.now solution.ranges.now }
    requires relay { relay < length solution.inst.now.study.relays }
{
    let most = free_steps(solution, relay, half)?;
    let taken = longest(solution, relay, half, most, pivots)?;
    if taken == 0 {
        return Ok(None);
    }
    let span = solution.ranges.pickup(relay);
    let of = span.hi.saturating_sub(span.lo).saturating_add(1);
    Ok(Some(Peel {
        place: Place {
            relay,
            at: last_low(solution, relay, half, taken),
        },
        kept: of.saturating_sub(taken),
        of,
    }))
}

/// The last step of the lower half where so many steps are taken from an end.
fn last_low(solution: Solution<'_>, relay: u16, half: Half, taken: u16) -> u16
    requires fits { FitsBox solution.inst.now solution.ranges.now }
    requires relay { relay < length solution.inst.now.study.relays }
{
    let span = solution.ranges.pickup(relay);
    match half {
        Half::Low => span.lo.saturating_add(taken).saturating_sub(1),
        Half::High => span.hi.saturating_sub(taken),
    }
}

/// The most steps, up to so many, that close as an end of a relay's span.
fn longest(
    solution: Solution<'_>,
    relay: u16,
    half: Half,
    most: u16,
    pivots: &mut u32,
) -> Result<u16, Stop>
    requires fits { FitsBox solution.inst.now solution.ranges.now }
    requires relay { relay < length solution.inst.now.study.relays }
{
    let mut closing = 0;
    let mut tried = most;
    let mut past = most.saturating_add(1);
    for _ in 0..8_u32 {
        if tried == closing {
            return Ok(closing);
        }
        if closes(solution, relay, half, tried, pivots)? {
            closing = tried;
        } else {
            past = tried;
        }
        tried = closing.midpoint(past);
    }
    Ok(closing)
}

fn closes(
    solution: Solution<'_>,
    relay: u16,
    half: Half,
    taken: u16,
    pivots: &mut u32,
) -> Result<bool, Stop>
    requires fits { FitsBox solution.inst.now solution.ranges.now }
    requires relay { relay < length solution.inst.now.study.relays }
{
    let at = last_low(solution, relay, half, taken);
    let gain = gain_of(solution, relay, at, half, pivots)?;
    Ok(gain.is_some_and(|gain| gain >= solution.room))
}

/// How many steps at an end of a relay's span have no share.
fn free_steps(solution: Solution<'_>, relay: u16, half: Half) -> Result<u16, Stop> {
    let relay = usize::from(relay);
    let window = solution.programme.local(relay)?.window;
    let mut least = window.past;
    let mut past = window.low;
    let key = solution.basis.key(relay)?;
    if at(&solution.point.keys, relay)? > MISSES {
        least = key.step;
        past = key.step.saturating_add(1);
    }
    for (place, extra) in solution.basis.extras.iter().enumerate() {
        if extra.relay == relay && at(&solution.point.extras, place)? > MISSES {
            least = least.min(extra.step);
            past = past.max(extra.step.saturating_add(1));
        }
    }
    let free = match half {
        Half::Low => least.saturating_sub(window.low),
        Half::High => window.past.saturating_sub(past),
    };
    u16::try_from(free).map_err(|_| Stop::Beyond)
}
