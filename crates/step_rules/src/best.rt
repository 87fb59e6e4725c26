//! The best weights for a half of a box.
ghost use Rattle.std.specs.Prelude.{◌≡◌, ◌≤◌, ℕ, List, [], ◌∷◌, ◌++◌, IfOk, IfSome};
ghost use Rattle.std.specs.Option.{option_map};
ghost use Rattle.margin_rows.specs.Box.{FitsBox, HasNoEmptySpan};
ghost use Rattle.box_bound.specs.LowerBound.{IsPlainBound};
ghost use Rattle.step_rules.specs.Splits.{candidates};
ghost use Rattle.step_rules.specs.Usable.{AreBestOf, CanBound, IsBoundBelow, LeafWeights, leaf_weights};

use crate::weights::{bound_by, copy, plain_weights};
use coord_model::{NoMemory, Weights};
use margin_rows::{Instance, Ranges};
use std::alloc::Global;

/// Weights and the bound that they give a box, in whole weighted microseconds.
#[derive(Drop)]
pub struct Best {
    pub weights: Weights,
    pub bound: u64,
}

/// The best of the plain weights, those of the box before and the advised ones; at a tie the first of them.
///
/// `plain` is the plain bound of the box.
pub fn best_of(
    alloc: Global,
    inst: &Instance,
    ranges: &Ranges,
    plain: u64,
    own: &Weights,
    advised: Option<&Weights>,
) -> Result<Best, NoMemory>
    requires fits { FitsBox inst.now ranges.now }
    requires steps { HasNoEmptySpan ranges.now }
    requires plain { IsPlainBound inst.now ranges.now plain }
    requires own { CanBound inst.now (leaf_weights own.now) }
    requires advised { IfSome advised (λ w. CanBound inst.now (leaf_weights w.now)) }
    ensures best { IfOk result (λ best. AreBestOf inst.now ranges.now (candidates (leaf_weights own.now) (option_map (λ w. leaf_weights w.now) advised.entry)) (leaf_weights best.weights) best.bound) }
    ensures weights { IfOk result (λ best. CanBound inst.now (leaf_weights best.weights)) }

    // The weights of the box before give no more.
    ensures own { IfOk result (λ best. IsBoundBelow inst.now ranges.now (leaf_weights own.now) best.bound) }
{
    let best = Best {
        weights: plain_weights(alloc),
        bound: plain,
    };
    let best = better(inst, ranges, best, own)?;
    match advised {
        Some(advised) => better(inst, ranges, best, advised),
        None => Ok(best),
    }
}

/// The best of several weights and these.
fn better(inst: &Instance, ranges: &Ranges, best: Best, other: &Weights) -> Result<Best, NoMemory>
    requires fits { FitsBox inst.now ranges.now }
    requires steps { HasNoEmptySpan ranges.now }
    requires best { CanBound inst.now (leaf_weights best.weights) }
    requires other { CanBound inst.now (leaf_weights other.now) }
    ensures best { IfOk result (λ later. (several : List LeafWeights) → AreBestOf inst.now ranges.now several (leaf_weights best.weights) best.bound
        → AreBestOf inst.now ranges.now (several ++ (leaf_weights other.now ∷ [])) (leaf_weights later.weights) later.bound) }
    ensures weights { IfOk result (λ later. CanBound inst.now (leaf_weights later.weights)) }
    ensures rises { IfOk result (λ later. best.bound ≤ later.bound) }
    ensures other { IfOk result (λ later. IsBoundBelow inst.now ranges.now (leaf_weights other.now) later.bound) }
{
    let bound = bound_by(inst, ranges, other);
    if bound <= best.bound {
        return Ok(best);
    }
    let weights = copy(other)?;
    Ok(Best { weights, bound })
}
