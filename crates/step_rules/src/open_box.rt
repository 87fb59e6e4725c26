//! The open boxes of a search.
ghost use Rattle.std.specs.Prelude.{◌≡◌, IfOk};
ghost use Rattle.margin_rows.specs.Box.{FitsBox, HasEmptySpan, HasNoEmptySpan};
ghost use Rattle.step_rules.specs.Usable.{HasBound, plain_weights};

use crate::weights::plain_weights;
use box_bound::{Parts, plain};
use coord_model::{NoMemory, Weights};
use margin_rows::{Instance, Ranges};
use search_tree::Weighed;
use std::alloc::Global;

/// An open box, with the weights that an open leaf writes and the bound that they give it.
///
/// The bound is in whole weighted microseconds; it is 0 if a span is empty, as only the first box may have it. The
/// parts of the plain bound are there for every box but the first.
#[derive(Drop)]
pub struct OpenBox {
    pub ranges: Ranges,
    pub parts: Option<Parts>,
    pub weights: Weights,
    pub bound: u64,
}

impl OpenBox {
    ghost use Rattle.margin_rows.specs.Case.{FitsCase};
    ghost use Rattle.margin_rows.specs.Box.{IsFirstBox};
    ghost use Rattle.step_rules.specs.OpenBoxes.{IsOpenBox};
    ghost use Rattle.step_rules.specs.Usable.{leaf_weights, plain_weights};

    /// The first box, with lambda 1 and no weights.
    pub fn first(alloc: Global, inst: &Instance) -> Result<OpenBox, NoMemory>
        ensures limits { IfOk result (λ _. FitsCase inst.now) }
        ensures fits { IfOk result (IsOpenBox inst.now) }
        ensures ranges { IfOk result (λ first. IsFirstBox inst.now first.ranges) }
        ensures weights { IfOk result (λ first. leaf_weights first.weights ≡ plain_weights) }
    {
        let ranges = Ranges::first(alloc, inst)?;
        let bound = first_bound(inst, &ranges);
        Ok(OpenBox {
            ranges,
            parts: None,
            weights: plain_weights(alloc),
            bound,
        })
    }
}

/// The plain bound of a box, or 0 if a span is empty.
fn first_bound(inst: &Instance, ranges: &Ranges) -> u64
    requires { FitsBox inst.now ranges.now }
    ensures bound { HasNoEmptySpan ranges.now → HasBound inst.now ranges.now plain_weights result }
    ensures none { HasEmptySpan ranges.now → result ≡ 0 }
{
    if ranges.has_empty_span() {
        0
    } else {
        plain(inst, ranges)
    }
}

impl Weighed for OpenBox {
    ghost weights = { λ value. value.weights };

    fn into_weights(self) -> Weights {
        self.weights
    }
}
