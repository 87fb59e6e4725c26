//! The adviser that says nothing of use.
use crate::adviser::{Advice, Adviser};
use coord_model::{NoMemory, Weights};
use margin_rows::{Instance, Ranges};
use std::alloc::Global;

/// An adviser that advises lambda 1 without weights, the lowest pickups, and a split at a step that no relay has.
#[derive(Clone, Copy)]
pub struct NullAdviser;

/// A step that no relay has.
const NO_STEP: u16 = u16::MAX;

impl Adviser for NullAdviser {
    fn advise(
        &mut self,
        alloc: Global,
        _inst: &Instance,
        ranges: &Ranges,
    ) -> Result<Advice, NoMemory> {
        Ok(Advice {
            weights: Weights {
                lambda: 1,
                rows: Vec::new(alloc),
            },
            relay: 0,
            at: NO_STEP,
            pickups: ranges.lowest()?.pickup,
        })
    }
}
