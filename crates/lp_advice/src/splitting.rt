//! Which relay's pickups to split.
ghost use Rattle.margin_rows.specs.Box.{FitsBox};

use crate::ahead::{Half, Solution, gain_of};
use crate::candidates::{Place, places_of};
use crate::fixed::{ONE, Stop, add, add_product, fit, over, sub, times};
use crate::mixing::Mix;
use crate::peeling::peeled;
use std::alloc::Global;

/// The best place to split a box at. `None`: no relay has two steps.
pub fn split_place(
    solution: Solution<'_>,
    mixes: &[Mix],
    may_peel: bool,
    pivots: &mut u32,
) -> Result<Option<Place>, Stop>
    requires { FitsBox solution.inst.now solution.ranges.now }
{
    if may_peel {
        if let Some(place) = peeled(solution, pivots)? {
            return Ok(Some(place));
        }
    }
    let places = places_of(solution, mixes)?;
    let mut best = places.first().copied();
    let mut most = -1;
    for &place in &places {
        let score = place_score(solution, place, pivots)?;
        if score > most {
            most = score;
            best = Some(place);
        }
    }
    Ok(best)
}

/// How good it is to split at a place; 0 where the box is as good as closed.
fn place_score(solution: Solution<'_>, place: Place, pivots: &mut u32) -> Result<i64, Stop>
    requires { FitsBox solution.inst.now solution.ranges.now }
{
    if solution.room <= 1 {
        return Ok(0);
    }
    let low = gain_of(solution, place.relay, place.at, Half::Low, pivots)?;
    let high = gain_of(solution, place.relay, place.at, Half::High, pivots)?;
    match (low, high) {
        (Some(low), Some(high)) => score(low, high, solution.room),
        _ => Ok(0),
    }
}

/// How good a split is: the less the halves gain, the more boxes follow.
fn score(low: i64, high: i64, room: i64) -> Result<i64, Stop> {
    let least = (room / 100).max(1);
    let low = low.max(least);
    let high = high.max(least);
    let less = low.min(high);
    let more = low.max(high);
    fit(add_product(0, less, factor_at(over(more, less)?)?)?)
}

/// What a gain counts for where the other gain is so many times as much.
#[derive(Clone, Copy)]
struct Factor {
    ratio: i64,
    value: i64,
}

/// 1024 over the rate at which a tree of such splits grows, for some ratios.
const FACTORS: [Factor; 14] = [
    Factor {
        ratio: 1,
        value: 1_477,
    },
    Factor {
        ratio: 2,
        value: 2_128,
    },
    Factor {
        ratio: 3,
        value: 2_679,
    },
    Factor {
        ratio: 4,
        value: 3_177,
    },
    Factor {
        ratio: 5,
        value: 3_642,
    },
    Factor {
        ratio: 6,
        value: 4_081,
    },
    Factor {
        ratio: 8,
        value: 4_907,
    },
    Factor {
        ratio: 10,
        value: 5_682,
    },
    Factor {
        ratio: 15,
        value: 7_473,
    },
    Factor {
        ratio: 20,
        value: 9_129,
    },
    Factor {
        ratio: 30,
        value: 12_195,
    },
    Factor {
        ratio: 50,
        value: 17_764,
    },
    Factor {
        ratio: 75,
        value: 24_141,
    },
    Factor {
        ratio: 101,
        value: 30_362,
    },
];

/// The factor at a ratio in fixed point, linear between those that are known.
fn factor_at(ratio: i64) -> Result<i64, Stop> {
    let mut last = FACTORS[0];
    for factor in &FACTORS {
        if ratio <= factor.ratio.saturating_mul(ONE) {
            return between(last, *factor, ratio);
        }
        last = *factor;
    }
    Ok(last.value)
}

fn between(from: Factor, to: Factor, ratio: i64) -> Result<i64, Stop> {
    let steps = sub(to.ratio, from.ratio)?;
    if steps <= 0 {
        return Ok(to.value);
    }
    let rest = sub(ratio, from.ratio.saturating_mul(ONE))?;
    let share = over(rest, steps.saturating_mul(ONE))?;
    let more = times(share, sub(to.value, from.value)?)?;
    add(from.value, more)
}
