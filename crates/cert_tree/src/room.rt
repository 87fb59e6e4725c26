//! Room for the boxes that are due: they stand at its end, the first of them foremost.
ghost use Rattle.std.specs.Prelude.{◌≡◌, ℕ, ◌+◌, ◌-◌, ◌<◌, ◌∷◌, length, drop, IfOk, IfErr, OnErr};
ghost use Rattle.coord_model.specs.TreeLimits.{AreLeafWeights};
ghost use Rattle.margin_rows.specs.Box.{Box, FitsBox, IsShownAs};
ghost use Rattle.margin_rows.specs.Case.{FitsCase};
ghost use Rattle.margin_rows.specs.Halves.{CanSplit, AreHalves};
ghost use Rattle.margin_rows.specs.declared.span.Steps.{Steps};
ghost use Rattle.cert_tree.specs.Judgement.{single, HasLambda, IsRightWith};
ghost use Rattle.cert_tree.specs.NodeFaults.{IsFirstWrong};
ghost use Rattle.cert_tree.specs.Room.{AreAlike, IsLike, IsRoom, box_at, splits_left, splits_of};
ghost use Rattle.cert_tree.specs.Walks.{AreDueAfter};

use crate::judge::judge;
use crate::kind::NodeKind;
use coord_model::{NoMemory, NodeLine, Weight};
use margin_rows::{Instance, Ranges, Span};
use std::mem;

/// The places for the boxes that can be due from this box on: one more than the splits that it allows.
///
/// `NoMemory` also if they or the relays are too many to count: a room that great can't be made.
pub fn places_from(ranges: &Ranges) -> Result<u32, NoMemory>
    ensures { IfOk result (λ places. places ≡ splits_left ranges.now + 1) }
{
    splits_left(ranges)?.checked_add(1).ok_or(NoMemory)
}

/// The splits that a box allows, one below another.
fn splits_left(ranges: &Ranges) -> Result<u32, NoMemory>
    ensures { IfOk result (λ splits. splits ≡ splits_left ranges.now) }
{
    let relays = u16::try_from(ranges.relays()).map_err(|_| NoMemory)?;
    let mut splits: u32 = 0;
    for relay in 0..relays {
        let more = splits_of(ranges.pickup(relay));
        splits = splits.checked_add(more).ok_or(NoMemory)?;
    }
    Ok(splits)
}

/// The splits that a span allows: one fewer than its steps.
fn splits_of(shown: Span) -> u32
    ensures { (span : Steps) → IsShownAs span shown → result ≡ splits_of span }
{
    u32::from(shown.hi.saturating_sub(shown.lo))
}

/// Takes a node at the first due box: where the due boxes begin then, and the bound that the node gives.
///
/// The halves of a split take the place of the first due box and the one before it, the low half first.
pub fn take_first(
    room: &mut [Ranges],
    first: usize,
    inst: &Instance,
    line: NodeLine,
    weights: &[Weight],
) -> Result<(usize, Option<u64>), NodeKind>
    requires place { first < length room.old }
    requires room { IsRoom room.old first }
    requires fits { FitsBox inst.now (box_at room.old first) }
    requires weights { AreLeafWeights weights.now }
    requires lambda { HasLambda line }

    ensures right { IfOk result (λ taken. IsRightWith inst.now (box_at room.old first) (single line weights.now) taken.1) }
    ensures due { IfOk result (λ taken. AreDueAfter inst.now (box_at room.old first) (drop (first + 1) room.old) line (drop taken.0 room.new)) }
    ensures wrong { IfErr result (IsFirstWrong inst.now (box_at room.old first) (single line weights.now)) }
    ensures room { IfOk result (λ taken. IsRoom room.new taken.0) }
    ensures kept { OnErr result (IsRoom room.new first) }
    ensures limits { FitsCase inst.now }
{
    let given = judge(inst, &mut room[first], line, weights)?;
    match line {
        NodeLine::Split { relay, at } => {
            cut_first(room, first, relay, at);
            Ok((first - 1, given))
        }
        _ => Ok((first + 1, given)),
    }
}

/// Cuts the first due box: its low half takes the place before it, its high half its own.
fn cut_first(room: &mut [Ranges], first: usize, relay: u16, at: u16)
    requires place { first < length room.old }
    requires spare { 0 < first }
    requires alike { AreAlike room.old }
    requires can { CanSplit (box_at room.old first) relay at }

    ensures halves { (low : Box) × (high : Box) × AreHalves (box_at room.old first) relay at low high
        × (drop (first - 1) room.new ≡ low ∷ high ∷ drop (first + 1) room.old) }
    ensures alike { AreAlike room.new }
{
    let (spare, due) = room.split_at_mut(first);
    cut_into(&mut spare[first - 1], &mut due[0], relay, at);
}

/// Cuts a box: `low` becomes its low half, and it its high half.
fn cut_into(low: &mut Ranges, high: &mut Ranges, relay: u16, at: u16)
    requires can { CanSplit high.old relay at }
    requires alike { IsLike high.old low.old }

    ensures exact { AreHalves high.old relay at low.new high.new }
    ensures low { IsLike high.old low.new }
    ensures high { IsLike high.old high.new }
{
    mem::swap(low, high);
    low.cut(relay, at, high);
}
