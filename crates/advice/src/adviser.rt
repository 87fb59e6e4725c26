//! What a search asks of an adviser.
ghost use Rattle.margin_rows.specs.Box.{FitsBox};

use coord_model::{NoMemory, Weights};
use margin_rows::{Instance, Ranges};
use std::alloc::Global;

/// Advice for a box: weights for its bound, the relay to split and the pickup step after which, and pickups whose
/// settings may be good.
#[derive(Drop)]
pub struct Advice {
    pub weights: Weights,
    pub relay: u16,
    pub at: u16,
    pub pickups: Vec<u16>,
}

/// Whoever gives advice. Any advice may come: weights of rows that are none, a relay that is none, too few pickups.
pub trait Adviser {
    /// Advice for a box. `NoMemory` is its one refusal.
    fn advise(
        &mut self,
        alloc: Global,
        inst: &Instance,
        ranges: &Ranges,
    ) -> Result<Advice, NoMemory>
        requires { FitsBox inst.now ranges.now };
}
