//! Studies that are worked out by hand: curve B takes 13.5/(M - 1) seconds at the multiple of pickup M and dial 1.
mod liars;
mod searches;
mod steps;

use advice::{Advice, Adviser};
use coord_model::{NoMemory, Weight, Weights};
use margin_rows::{Instance, Ranges};
use std::alloc::Global;

/// The gap of the searches, in whole weighted microseconds.
const GAP: u64 = 1_000;

/// The budget of boxes.
const BUDGET: u32 = 20_000;

const FIRST_ROW: Weight = Weight { row: 0, weight: 1 };

const SECOND_ROW: Weight = Weight { row: 1, weight: 1 };

/// An adviser that gives the same advice for every box.
#[derive(Clone, Copy)]
struct Told {
    lambda: u32,
    rows: &'static [Weight],
    relay: u16,
    at: u16,
    pickups: &'static [u16],
}

/// Lambda 1 without weights, a step that no relay has, and the lowest pickups.
const NOTHING: Told = Told {
    lambda: 1,
    rows: &[],
    relay: 0,
    at: 65_535,
    pickups: &[0, 0],
};

impl Adviser for Told {
    fn advise(
        &mut self,
        alloc: Global,
        _inst: &Instance,
        _ranges: &Ranges,
    ) -> Result<Advice, NoMemory> {
        Ok(Advice {
            weights: Weights {
                lambda: self.lambda,
                rows: Vec::from_slice(alloc, self.rows)?,
            },
            relay: self.relay,
            at: self.at,
            pickups: Vec::from_slice(alloc, self.pickups)?,
        })
    }
}
