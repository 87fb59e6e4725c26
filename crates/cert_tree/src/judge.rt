//! What a node by itself asks of its box.
ghost use Rattle.std.specs.Prelude.{◌≡◌, ℕ, ◌<◌, ◌↔◌, List, length, All, OnOk, IsTrue};
ghost use Rattle.coord_model.specs.TreeLimits.{AreLeafWeights};
ghost use Rattle.coord_model.specs.declared.weights.Weight.{Weight as WeightData};
ghost use Rattle.margin_rows.specs.Box.{FitsBox};
ghost use Rattle.margin_rows.specs.Case.{rows_in, FitsCase};
ghost use Rattle.margin_rows.specs.Within.{IsWithin};
ghost use Rattle.box_range.specs.Drops.{TightensTo};
ghost use Rattle.box_bound.specs.Weighing.{FitWeights};
ghost use Rattle.cert_tree.specs.Judgement.{single, HasLambda, IsJudged};
ghost use Rattle.cert_tree.specs.NodeRules.{NamesRows};

use crate::kind::NodeKind;
use box_bound::{bound_of, plain, value};
use box_range::{Tightened, tighten};
use coord_model::{NodeLine, Weight};
use margin_rows::{Instance, Ranges, lowest_meet};

/// Judges a node at its box: the bound that it gives, or the first that is wrong with it.
///
/// The bound is in whole weighted microseconds. The box is tightened, unless something is wrong before that, or the node
/// is an open leaf.
pub fn judge(
    inst: &Instance,
    ranges: &mut Ranges,
    line: NodeLine,
    weights: &[Weight],
) -> Result<Option<u64>, NodeKind>
    requires fits { FitsBox inst.now ranges.old }
    requires weights { AreLeafWeights weights.now }
    requires lambda { HasLambda line }

    ensures exact { IsJudged inst.now ranges.old (single line weights.now) result }
    ensures tight { OnOk result ((relay at : ℕ) → line ≡ NodeLine.Split relay at → TightensTo inst.now ranges.old ranges.new) }
    ensures within { IsWithin ranges.new ranges.old }
    ensures limits { FitsCase inst.now }
{
    let rows = inst.rows().len();
    if !names_rows(rows, line, weights) {
        return Err(NodeKind::RowNumber);
    }
    match line {
        NodeLine::Split { relay, at } => split(inst, ranges, relay, at),
        NodeLine::Empty => empty(inst, ranges),
        NodeLine::Void => void(inst, ranges, weights),
        NodeLine::Bound { lambda } => bound(inst, ranges, lambda, weights),
        NodeLine::Hair { row } => hair(inst, ranges, row),
        NodeLine::OpenLeaf { lambda } => open_leaf(inst, ranges, lambda, weights),
    }
}

/// Whether each row that a node names is below the count of rows.
fn names_rows(rows: usize, line: NodeLine, weights: &[Weight]) -> bool
    ensures weighed { IsTrue result → All (λ w. w.row < rows) weights.now }
    ensures hair { IsTrue result → (row : ℕ) → line ≡ NodeLine.Hair row → row < rows }
    ensures no { All (λ w. w.row < rows) weights.now → ((row : ℕ) → line ≡ NodeLine.Hair row → row < rows) → IsTrue result }
{
    are_below(rows, weights) && is_below(rows, line)
}

/// Whether each weight is of a row below the count.
fn are_below(rows: usize, weights: &[Weight]) -> bool
    ensures { IsTrue result ↔ All (λ w. w.row < rows) weights.now }
{
    weights.iter().all(|weight| usize::from(weight.row) < rows)
}

/// Whether the row of a `Hair` is below the count.
fn is_below(rows: usize, line: NodeLine) -> bool
    ensures { IsTrue result ↔ ((row : ℕ) → line ≡ NodeLine.Hair row → row < rows) }
{
    match line {
        NodeLine::Hair { row } => usize::from(row) < rows,
        _ => true,
    }
}

/// A split's relay is one of the study, and has the step and the next one in the tight box.
fn split(inst: &Instance, ranges: &mut Ranges, relay: u16, at: u16) -> Result<Option<u64>, NodeKind>
    requires { FitsBox inst.now ranges.old }
    ensures exact { (weights : List WeightData) → NamesRows inst.now (single (NodeLine.Split relay at) weights)
        → IsJudged inst.now ranges.old (single (NodeLine.Split relay at) weights) result }
    ensures tight { OnOk result (TightensTo inst.now ranges.old ranges.new) }
    ensures within { IsWithin ranges.new ranges.old }
{
    if usize::from(relay) >= inst.study().relays.len() {
        return Err(NodeKind::SplitRelay);
    }
    let tightened = tighten(inst, ranges);
    match tightened {
        Tightened::Emptied => Err(NodeKind::Emptied),
        Tightened::Tight => {
            if ranges.can_split(relay, at) {
                Ok(None)
            } else {
                Err(NodeKind::SplitAt)
            }
        }
    }
}

/// The box of an `Empty` is emptied.
fn empty(inst: &Instance, ranges: &mut Ranges) -> Result<Option<u64>, NodeKind>
    requires { FitsBox inst.now ranges.old }
    ensures exact { (weights : List WeightData) → NamesRows inst.now (single NodeLine.Empty weights)
        → IsJudged inst.now ranges.old (single NodeLine.Empty weights) result }
    ensures within { IsWithin ranges.new ranges.old }
{
    match tighten(inst, ranges) {
        Tightened::Emptied => Ok(None),
        Tightened::Tight => Err(NodeKind::NotEmpty),
    }
}

/// The dual value of a `Void` without the cost is above 0 in the tight box.
fn void(inst: &Instance, ranges: &mut Ranges, weights: &[Weight]) -> Result<Option<u64>, NodeKind>
    requires fits { FitsBox inst.now ranges.old }
    requires weights { FitWeights inst.now weights.now }
    ensures exact { NamesRows inst.now (single NodeLine.Void weights.now)
        → IsJudged inst.now ranges.old (single NodeLine.Void weights.now) result }
    ensures within { IsWithin ranges.new ranges.old }
{
    match tighten(inst, ranges) {
        Tightened::Emptied => Err(NodeKind::Emptied),
        Tightened::Tight => {
            if value(inst, ranges, 0, weights) > 0 {
                Ok(None)
            } else {
                Err(NodeKind::NotVoid)
            }
        }
    }
}

/// The box of a `Bound` is not emptied. It gives the bound of the tight box's dual value.
fn bound(
    inst: &Instance,
    ranges: &mut Ranges,
    lambda: u32,
    weights: &[Weight],
) -> Result<Option<u64>, NodeKind>
    requires fits { FitsBox inst.now ranges.old }
    requires weights { FitWeights inst.now weights.now }
    requires lambda { HasLambda (NodeLine.Bound lambda) }
    ensures exact { NamesRows inst.now (single (NodeLine.Bound lambda) weights.now)
        → IsJudged inst.now ranges.old (single (NodeLine.Bound lambda) weights.now) result }
    ensures within { IsWithin ranges.new ranges.old }
{
    match tighten(inst, ranges) {
        Tightened::Emptied => Err(NodeKind::Emptied),
        Tightened::Tight => Ok(Some(bound_of(value(inst, ranges, lambda, weights), lambda))),
    }
}

/// The tight box of a `Hair` has one pickup step for each relay, and its lowest settings do not strictly meet the row.
/// It gives the plain bound.
fn hair(inst: &Instance, ranges: &mut Ranges, row: u16) -> Result<Option<u64>, NodeKind>
    requires fits { FitsBox inst.now ranges.old }
    requires row { row < length (rows_in inst.now) }
    ensures exact { (weights : List WeightData) → NamesRows inst.now (single (NodeLine.Hair row) weights)
        → IsJudged inst.now ranges.old (single (NodeLine.Hair row) weights) result }
    ensures within { IsWithin ranges.new ranges.old }
{
    match tighten(inst, ranges) {
        Tightened::Emptied => Err(NodeKind::Emptied),
        Tightened::Tight => {
            if !ranges.has_one_pickup() {
                Err(NodeKind::ManyPickups)
            } else if lowest_meet(inst, ranges, row) {
                Err(NodeKind::NotHair)
            } else {
                Ok(Some(plain(inst, ranges)))
            }
        }
    }
}

/// The box of an open leaf has no empty span. It gives the bound of that box's dual value.
fn open_leaf(
    inst: &Instance,
    ranges: &Ranges,
    lambda: u32,
    weights: &[Weight],
) -> Result<Option<u64>, NodeKind>
    requires fits { FitsBox inst.now ranges.now }
    requires weights { FitWeights inst.now weights.now }
    requires lambda { HasLambda (NodeLine.OpenLeaf lambda) }
    ensures { NamesRows inst.now (single (NodeLine.OpenLeaf lambda) weights.now)
        → IsJudged inst.now ranges.now (single (NodeLine.OpenLeaf lambda) weights.now) result }
{
    if ranges.has_empty_span() {
        Err(NodeKind::Emptied)
    } else {
        Ok(Some(bound_of(value(inst, ranges, lambda, weights), lambda)))
    }
}
