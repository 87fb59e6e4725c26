//! Which pickup steps the programme mixes for each relay.
use crate::basis::{Basis, Point};
use crate::fixed::{Stop, add, add_product, at, fit};
use crate::programme::Programme;
use std::alloc::Global;

/// What the programme mixes for a relay, in steps from the lowest of its span.
#[derive(Clone, Copy)]
pub struct Mix {
    /// The mean of its steps, in fixed point.
    pub mean: i64,
    /// The step with the greatest share, and that share.
    pub heaviest: usize,
    pub share: i64,
}

/// What the programme mixes for each relay.
pub fn mixes(programme: &Programme<'_>, basis: &Basis, point: &Point) -> Result<Vec<Mix>, Stop> {
    let mut mixes = Vec::new(programme.alloc);
    for relay in 0..programme.windows.len() {
        mixes.push(mix_of(basis, point, relay)?)?;
    }
    Ok(mixes)
}

fn mix_of(basis: &Basis, point: &Point, relay: usize) -> Result<Mix, Stop> {
    let key = basis.key(relay)?;
    let share = at(&point.keys, relay)?;
    let mut mix = Mix {
        mean: mean(0, share, key.step)?,
        heaviest: key.step,
        share,
    };
    for (place, extra) in basis.extras.iter().enumerate() {
        if extra.relay == relay {
            mix = mixed(mix, extra.step, at(&point.extras, place)?)?;
        }
    }
    Ok(mix)
}

/// A mix with a further share of a step.
fn mixed(mix: Mix, step: usize, share: i64) -> Result<Mix, Stop> {
    let mean = mean(mix.mean, share, step)?;
    Ok(if share > mix.share {
        Mix {
            mean,
            heaviest: step,
            share,
        }
    } else {
        Mix { mean, ..mix }
    })
}

fn mean(sum: i64, share: i64, step: usize) -> Result<i64, Stop> {
    let Ok(step) = i64::try_from(step) else {
        return Err(Stop::Beyond);
    };
    fit(add_product(i128::from(sum), share, step)?)
}

/// The sum of the weights of a relay's rows.
pub fn weight_of(programme: &Programme<'_>, relay: usize, weights: &[i64]) -> Result<i64, Stop> {
    let mut sum = 0;
    for touch in &programme.local(relay)?.part.touches {
        sum = add(sum, at(weights, touch.row)?.max(0))?;
    }
    Ok(sum)
}
