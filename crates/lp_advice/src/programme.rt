//! The linear programme of a box: a row for each row of the study, a column for each pickup step at each dial end, and
//! for each relay that the shares of its columns add up to 1.
ghost use Rattle.margin_rows.specs.Box.{FitsBox};

use crate::fixed::{Stop, add, add_product, at, fit, narrow, times};
use crate::tables::{Part, Tables};
use margin_rows::{Instance, Ranges, Span};
use std::alloc::Global;

/// A pickup step of a relay, counted from its first in the tables, at one end of its dials.
#[derive(Clone, Copy, PartialEq, Eq)]
pub struct Column {
    pub relay: usize,
    pub step: usize,
    pub high: bool,
}

/// What a box leaves of a relay: pickup steps from `low` to before `past`, counted as in the tables, and dials from
/// `low_dial` to `high_dial`, in thousandths.
#[derive(Clone, Copy)]
pub struct Window {
    pub low: usize,
    pub past: usize,
    pub low_dial: i64,
    pub high_dial: i64,
}

/// A linear programme: the tables of a study, and what a box leaves of each relay.
#[derive(Drop)]
pub struct Programme<'a> {
    pub alloc: Global,
    pub tables: &'a Tables,
    pub windows: Vec<Window>,
    /// Which rows are not in use; those past its end are.
    pub unused: Vec<bool>,
}

/// A relay of a programme.
#[derive(Clone, Copy)]
pub struct Local<'a> {
    pub part: &'a Part,
    pub window: Window,
}

/// The binary places of a number at dial 1 more than of one at a dial.
const DIAL_PLACES: u32 = 14;

/// The programme of a box.
pub fn programme_of<'a>(
    alloc: Global,
    tables: &'a Tables,
    inst: &Instance,
    ranges: &Ranges,
) -> Result<Programme<'a>, Stop>
    requires { FitsBox inst.now ranges.now }
{
    let mut windows = Vec::new(alloc);
    for (relay, part) in tables.parts.iter().enumerate() {
        windows.push(window_of(inst, ranges, part, relay)?)?;
    }
    Ok(Programme {
        alloc,
        tables,
        windows,
        unused: Vec::new(alloc),
    })
}

fn window_of(inst: &Instance, ranges: &Ranges, part: &Part, relay: usize) -> Result<Window, Stop>
    requires { FitsBox inst.now ranges.now }
{
    let (pickups, dials) = spans_of(inst, ranges, relay)?;
    if pickups.lo < part.first || pickups.hi < pickups.lo || dials.hi < dials.lo {
        return Err(Stop::Beyond);
    }
    Ok(Window {
        low: usize::from(pickups.lo) - usize::from(part.first),
        past: usize::from(pickups.hi) - usize::from(part.first) + 1,
        low_dial: dial_of(inst, relay, dials.lo)?,
        high_dial: dial_of(inst, relay, dials.hi)?,
    })
}

/// The pickups and the dials of a relay in a box.
pub fn spans_of(inst: &Instance, ranges: &Ranges, relay: usize) -> Result<(Span, Span), Stop>
    requires { FitsBox inst.now ranges.now }
{
    if relay >= inst.study().relays.len() {
        return Err(Stop::Beyond);
    }
    let relay = relay as u16;
    Ok((ranges.pickup(relay), ranges.dial(relay)))
}

/// The dial at a step, in thousandths.
fn dial_of(inst: &Instance, relay: usize, step: u16) -> Result<i64, Stop> {
    let Some(held) = inst.study().relays.get(relay) else {
        return Err(Stop::Beyond);
    };
    let raised = add_product(
        i128::from(held.dial_first),
        i64::from(held.dial_step),
        i64::from(step),
    )?;
    fit(raised)
}

impl<'a> Programme<'a> {
    pub fn local(&self, relay: usize) -> Result<Local<'a>, Stop> {
        match (self.tables.parts.get(relay), self.windows.get(relay)) {
            (Some(part), Some(&window)) => Ok(Local { part, window }),
            _ => Err(Stop::Beyond),
        }
    }

    /// Whether a row is in use.
    pub fn has(&self, row: usize) -> bool {
        !self.unused.get(row).copied().unwrap_or(false)
    }

    /// The programme with other pickup steps of a relay.
    pub fn narrowed(&self, relay: usize, low: usize, past: usize) -> Result<Programme<'a>, Stop> {
        let mut windows = Vec::new(self.alloc);
        windows.extend_from_slice(&self.windows)?;
        match windows.get_mut(relay) {
            Some(window) => {
                window.low = low;
                window.past = past;
            }
            None => return Err(Stop::Beyond),
        }
        Ok(Programme {
            alloc: self.alloc,
            tables: self.tables,
            windows,
            unused: self.unused.clone()?,
        })
    }

    /// The dual value at weights, for cost weight 1.
    pub fn value(&self, weights: &[i64]) -> Result<i64, Stop> {
        let mut sum = 0;
        for (row, &asked) in self.tables.asked.iter().enumerate() {
            sum = add(sum, times(asked, at(weights, row)?)?)?;
        }
        for relay in 0..self.windows.len() {
            sum = add(sum, self.local(relay)?.least(relay, weights)?.cost)?;
        }
        Ok(sum)
    }
}

/// A column and its reduced cost.
#[derive(Clone, Copy)]
pub struct Priced {
    pub column: Column,
    pub cost: i64,
}

impl<'a> Local<'a> {
    /// A column's number, of its number at dial 1.
    pub fn at_dial(&self, high: bool, number: i64) -> Result<i64, Stop> {
        let dial = if high {
            self.window.high_dial
        } else {
            self.window.low_dial
        };
        fit(add_product(0, dial, number)? >> DIAL_PLACES)
    }

    /// A column's number, of the numbers of its relay's steps.
    pub fn entry(&self, column: &Column, numbers: &[i64]) -> Result<i64, Stop> {
        self.at_dial(column.high, at(numbers, column.step)?)
    }

    /// What the weights of rows take from the cost of a step, at dial 1.
    pub fn taken(&self, step: usize, weights: &[i64]) -> Result<i64, Stop> {
        let mut sum = 0;
        for touch in &self.part.touches {
            let weight = at(weights, touch.row)?;
            if weight != 0 {
                sum = add_product(sum, weight, at(&touch.times, step)?)?;
            }
        }
        narrow(sum)
    }

    /// The cost of a step less what the weights of rows take from it, at dial 1.
    pub fn reduced(&self, step: usize, weights: &[i64]) -> Result<i64, Stop> {
        add(
            at(&self.part.costs, step)?,
            self.taken(step, weights)?.saturating_neg(),
        )
    }

    /// Whether some row of the relay has a weight.
    pub fn is_touched(&self, weights: &[i64]) -> Result<bool, Stop> {
        for touch in &self.part.touches {
            if at(weights, touch.row)? != 0 {
                return Ok(true);
            }
        }
        Ok(false)
    }

    /// The cheapest column at weights.
    pub fn least(&self, relay: usize, weights: &[i64]) -> Result<Priced, Stop> {
        let mut least = self.cheaper_end(relay, self.window.low, weights)?;
        for step in self.window.low..self.window.past {
            let other = self.cheaper_end(relay, step, weights)?;
            if other.cost < least.cost {
                least = other;
            }
        }
        Ok(least)
    }

    /// The cheaper column of a step at weights.
    fn cheaper_end(&self, relay: usize, step: usize, weights: &[i64]) -> Result<Priced, Stop> {
        let number = self.reduced(step, weights)?;
        let high = number < 0;
        Ok(Priced {
            column: Column { relay, step, high },
            cost: self.at_dial(high, number)?,
        })
    }

    /// Whether the box leaves a column.
    pub fn leaves(&self, column: &Column) -> bool {
        self.window.low <= column.step && column.step < self.window.past
    }
}
