//! The rules of a step, in their order.
ghost use Rattle.std.specs.Prelude.{◌≡◌, ◌↔◌, ℕ, Option, IfOk, IfSome, IsTrue};
ghost use Rattle.std.specs.Option.{option_map};
ghost use Rattle.coord_model.specs.Choice.{Settings};
ghost use Rattle.margin_rows.specs.Box.{Box, FitsBox, HasNoEmptySpan};
ghost use Rattle.margin_rows.specs.Gap.{IsGapEnough};
ghost use Rattle.margin_rows.specs.Lowest.{HasOnePickup};
ghost use Rattle.box_range.specs.Drops.{TightensTo};
ghost use Rattle.step_rules.specs.Handlings.{IsDivided, LeavesHalves, advised_of, tree_of};
ghost use Rattle.step_rules.specs.Issuing.{IsPriced, costs, latest, settings_of};
ghost use Rattle.step_rules.specs.Offers.{PlainReaches};
ghost use Rattle.step_rules.specs.OpenBoxes.{IsOpenBox, IsTightBox};
ghost use Rattle.step_rules.specs.Premises.{ClosesBy, IsAsked};
ghost use Rattle.step_rules.specs.Rules.{Handled};
ghost use Rattle.step_rules.specs.Splits.{IsUsedAdvice, candidates};
ghost use Rattle.step_rules.specs.Usable.{AreBestOf, CanBound, IsBoundBelow, LeafWeights, leaf_weights};
ghost use Rattle.step_rules.specs.declared.open_box.OpenBox.{OpenBox};

use crate::best::best_of;
use crate::handling::Handling;
use crate::issued::{Issued, latest_cost, offer, reaches};
use crate::offers::{advised_offer, lowest_offer};
use crate::open_box::OpenBox;
use crate::place::split_place;
use crate::tight_box::{TightBox, tight_box};
use crate::weights::{bound_by, can_bound, is_void, plain_weights};
use advice::{Advice, Adviser};
use box_range::{Tightened, tighten};
use coord_model::{NoMemory, Weights};
use margin_rows::{Instance, Ranges, first_unmet};
use std::alloc::Global;

/// What becomes of an open box, and the settings that are issued in its place if they changed.
///
/// `gap` is in whole weighted microseconds. Any advice may come. The open box stays as it is.
pub fn handle<A: Adviser>(
    alloc: Global,
    inst: &Instance,
    parent: &OpenBox,
    issued: &Option<Issued>,
    gap: u64,
    adviser: &mut A,
) -> Result<(Handling, Option<Issued>), NoMemory>
    requires parent { IsOpenBox inst.now parent.now }
    requires issued { IfSome issued.now (IsPriced inst.now) }
    requires gap { IsGapEnough inst.now gap }

    // By the rules of a step.
    ensures handled { IfOk result (λ done. Handled inst.now gap parent.now.ranges (leaf_weights parent.now.weights) (settings_of issued.now) (latest issued.now done.1) (tree_of done.0)) }

    // What is issued has its cost.
    ensures priced { IfOk result (λ done. IfSome done.1 (IsPriced inst.now)) }

    // The halves of a split are open boxes, and their bounds are not below that of the box.
    ensures halves { IfOk result (λ done. LeavesHalves inst.now parent.now done.0) }
{
    let mut ranges = parent.ranges.copy()?;
    match tighten(inst, &mut ranges) {
        Tightened::Emptied => Ok((Handling::Empty, None)),
        Tightened::Tight => {
            let tight = tight_box(alloc, inst, parent, ranges)?;
            handle_tight(alloc, inst, parent, tight, issued, gap, adviser)
        }
    }
}

/// What becomes of the tight box of an open box.
fn handle_tight<A: Adviser>(
    alloc: Global,
    inst: &Instance,
    parent: &OpenBox,
    tight: TightBox,
    issued: &Option<Issued>,
    gap: u64,
    adviser: &mut A,
) -> Result<(Handling, Option<Issued>), NoMemory>
    requires parent { IsOpenBox inst.now parent.now }
    requires tight { IsTightBox inst.now tight }
    requires tightens { TightensTo inst.now parent.now.ranges tight.ranges }
    requires issued { IfSome issued.now (IsPriced inst.now) }
    requires gap { IsGapEnough inst.now gap }
    ensures handled { IfOk result (λ done. Handled inst.now gap parent.now.ranges (leaf_weights parent.now.weights) (settings_of issued.now) (latest issued.now done.1) (tree_of done.0)) }
    ensures priced { IfOk result (λ done. IfSome done.1 (IsPriced inst.now)) }
    ensures halves { IfOk result (λ done. LeavesHalves inst.now parent.now done.0) }
{
    if tight.ranges.has_one_pickup() {
        return settle(alloc, inst, &tight, issued, gap);
    }
    if reaches(tight.parts.plain(), gap, latest_cost(inst, issued, &None)) {
        return Ok((Handling::Bound(plain_weights(alloc)), None));
    }
    let advice = adviser.advise(alloc, inst, &tight.ranges)?;
    let new = offer_both(alloc, inst, &tight.ranges, &advice, issued)?;
    let cost = latest_cost(inst, issued, &new);
    let handling = judge(alloc, inst, parent, tight, advice, gap, cost)?;
    Ok((handling, new))
}

/// What becomes of a tight box with one pickup step for each relay: a bound or a hairline.
fn settle(
    alloc: Global,
    inst: &Instance,
    tight: &TightBox,
    issued: &Option<Issued>,
    gap: u64,
) -> Result<(Handling, Option<Issued>), NoMemory>
    requires tight { IsTightBox inst.now tight.now }
    requires one { HasOnePickup tight.now.ranges }
    requires issued { IfSome issued.now (IsPriced inst.now) }
    requires gap { IsGapEnough inst.now gap }
    ensures handled { IfOk result (λ done. (box : Box) (own : LeafWeights) → TightensTo inst.now box tight.now.ranges
        → Handled inst.now gap box own (settings_of issued.now) (latest issued.now done.1) (tree_of done.0)) }
    ensures priced { IfOk result (λ done. IfSome done.1 (IsPriced inst.now)) }
    ensures halves { IfOk result (λ done. (parent : OpenBox) → LeavesHalves inst.now parent done.0) }
{
    let choice = lowest_offer(alloc, inst, &tight.ranges)?;
    let new = offer(inst, issued, None, choice);
    if reaches(tight.parts.plain(), gap, latest_cost(inst, issued, &new)) {
        return Ok((Handling::Bound(plain_weights(alloc)), new));
    }
    let lowest = tight.ranges.lowest()?;
    let row = first_unmet(inst, &lowest).unwrap();
    Ok((Handling::Hair { row }, new))
}

/// The new settings once those of the advised pickups are offered, and then those of the lowest pickups.
fn offer_both(
    alloc: Global,
    inst: &Instance,
    ranges: &Ranges,
    advice: &Advice,
    issued: &Option<Issued>,
) -> Result<Option<Issued>, NoMemory>
    requires fits { FitsBox inst.now ranges.now }
    requires steps { HasNoEmptySpan ranges.now }
    requires several { ¬ (HasOnePickup ranges.now) }
    requires issued { IfSome issued.now (IsPriced inst.now) }
    ensures asked { IfOk result (λ new. (gap : ℕ) → ¬ (PlainReaches inst.now gap ranges.now (settings_of issued.now))
        → IsAsked inst.now gap ranges.now (advised_of advice.now) (settings_of issued.now) (latest issued.now new)) }
    ensures priced { IfOk result (λ new. IfSome new (IsPriced inst.now)) }
{
    let advised = advised_offer(alloc, inst, ranges, &advice.pickups)?;
    let new = offer(inst, issued, None, advised);
    let lowest = lowest_offer(alloc, inst, ranges)?;
    Ok(offer(inst, issued, new, lowest))
}

/// What becomes of a tight box after the adviser was asked. `cost` is that of what is issued now.
fn judge(
    alloc: Global,
    inst: &Instance,
    parent: &OpenBox,
    tight: TightBox,
    advice: Advice,
    gap: u64,
    cost: Option<u64>,
) -> Result<Handling, NoMemory>
    requires parent { IsOpenBox inst.now parent.now }
    requires tight { IsTightBox inst.now tight }
    requires tightens { TightensTo inst.now parent.now.ranges tight.ranges }
    requires several { ¬ (HasOnePickup tight.ranges) }
    ensures handled { IfOk result (λ handling. (issued later : Option Settings) → cost ≡ costs inst.now later → IsAsked inst.now gap tight.ranges (advised_of advice) issued later
        → Handled inst.now gap parent.now.ranges (leaf_weights parent.now.weights) issued later (tree_of handling)) }
    ensures halves { IfOk result (LeavesHalves inst.now parent.now) }
{
    if reaches(tight.parts.plain(), gap, cost) {
        return Ok(Handling::Bound(plain_weights(alloc)));
    }
    if is_void(inst, &tight.ranges, &advice.weights.rows) {
        return Ok(Handling::Void(advice.weights.rows));
    }
    if closes(inst, &tight.ranges, &advice.weights, gap, cost) {
        return Ok(Handling::Bound(advice.weights));
    }
    divide(alloc, inst, parent, &tight, &advice)
}

/// Whether the bound that weights give a box reaches the cost of what is issued, less the gap.
fn closes(inst: &Instance, ranges: &Ranges, weights: &Weights, gap: u64, cost: Option<u64>) -> bool
    requires fits { FitsBox inst.now ranges.now }
    requires steps { HasNoEmptySpan ranges.now }
    ensures { (issued : Option Settings) → cost ≡ costs inst.now issued → IsTrue result ↔ ClosesBy inst.now gap ranges.now (leaf_weights weights.now) issued }
{
    can_bound(inst, weights) && reaches(bound_by(inst, ranges, weights), gap, cost)
}

/// Splits a tight box.
fn divide(
    alloc: Global,
    inst: &Instance,
    parent: &OpenBox,
    tight: &TightBox,
    advice: &Advice,
) -> Result<Handling, NoMemory>
    requires parent { IsOpenBox inst.now parent.now }
    requires tight { IsTightBox inst.now tight.now }
    requires tightens { TightensTo inst.now parent.now.ranges tight.now.ranges }
    requires several { ¬ (HasOnePickup tight.now.ranges) }
    ensures split { IfOk result (IsDivided inst.now tight.now.ranges (leaf_weights parent.now.weights) (advised_of advice.now)) }
    ensures halves { IfOk result (LeavesHalves inst.now parent.now) }
{
    let (relay, at) = split_place(inst, &tight.ranges, advice);
    let (lower, upper) = tight.ranges.split(relay, at)?;
    let advised = used(inst, &advice.weights);
    Ok(Handling::Split {
        relay,
        at,
        low: half(alloc, inst, tight, lower, &parent.weights, advised)?,
        high: half(alloc, inst, tight, upper, &parent.weights, advised)?,
    })
}

/// The advised weights, if they give a bound.
fn used<'a>(inst: &Instance, weights: &'a Weights) -> Option<&'a Weights>
    ensures used { IsUsedAdvice inst.now (leaf_weights weights.now) (option_map (λ w. leaf_weights w.now) result) }
    ensures weights { IfSome result (λ w. CanBound inst.now (leaf_weights w.now)) }
{
    if can_bound(inst, weights) {
        Some(weights)
    } else {
        None
    }
}

/// A half of a tight box, with its best weights. `own` are those of the box before.
fn half(
    alloc: Global,
    inst: &Instance,
    tight: &TightBox,
    ranges: Ranges,
    own: &Weights,
    advised: Option<&Weights>,
) -> Result<OpenBox, NoMemory>
    requires tight { IsTightBox inst.now tight.now }
    requires fits { FitsBox inst.now ranges }
    requires steps { HasNoEmptySpan ranges }
    requires own { CanBound inst.now (leaf_weights own.now) }
    requires advised { IfSome advised (λ w. CanBound inst.now (leaf_weights w.now)) }
    ensures ranges { IfOk result (λ half. half.ranges ≡ ranges) }
    ensures fits { IfOk result (IsOpenBox inst.now) }
    ensures best { IfOk result (λ half. AreBestOf inst.now ranges (candidates (leaf_weights own.now) (option_map (λ w. leaf_weights w.now) advised.entry)) (leaf_weights half.weights) half.bound) }

    // The weights of the box before give no more.
    ensures own { IfOk result (λ half. IsBoundBelow inst.now ranges (leaf_weights own.now) half.bound) }
{
    let mut parts = tight.parts.copy()?;
    parts.follow(inst, &tight.ranges, &ranges);
    let best = best_of(alloc, inst, &ranges, parts.plain(), own, advised)?;
    Ok(OpenBox {
        ranges,
        parts: Some(parts),
        weights: best.weights,
        bound: best.bound,
    })
}
