//! A walk over the nodes of a tree, one at a time.
ghost use Rattle.std.specs.Prelude.{◌≡◌, ℕ, ◌<◌, ◌≤◌, ◌↔◌, true, false, [], ◌∷◌, None, length, replicate, All, IfOk, IfErr, IsOk, IsErr, OnOk, OnErr};
ghost use Rattle.coord_model.specs.TreeLimits.{AreLeafWeights};
ghost use Rattle.margin_rows.specs.Box.{Box, FitsBox, IsFirstBox};
ghost use Rattle.margin_rows.specs.Case.{FitsCase};
ghost use Rattle.cert_tree.specs.Counting.{no_counts};
ghost use Rattle.cert_tree.specs.Endings.{ending_by};
ghost use Rattle.cert_tree.specs.Holding.{lower};
ghost use Rattle.cert_tree.specs.Judgement.{single, HasLambda};
ghost use Rattle.cert_tree.specs.NodeFaults.{IsFirstWrong};
ghost use Rattle.cert_tree.specs.NodeRules.{IsRight};
ghost use Rattle.cert_tree.specs.TreeWalks.{walk_at};
ghost use Rattle.cert_tree.specs.Walks.{AtFirst, Takes};

use crate::counts::Counts;
use crate::kind::NodeKind;
use crate::room::{places_from, take_first};
use coord_model::{Ending, NoMemory, NodeLine, Weight};
use margin_rows::{Instance, Ranges};
use std::alloc::Global;
use std::marker::Model;

/// A walk over the nodes of a tree in pre-order: the boxes that are due, and what the nodes so far come to.
#[derive(Drop)]
pub struct TreeWalk {
    room: Vec<Ranges>,
    first: usize,
    nodes: u32,
    counts: Counts,
    bound: Option<u64>,
    refused: bool,
}

impl Model for TreeWalk {
    ghost use Rattle.std.specs.Prelude.{◌≤◌, ◌<◌, ◌^◌, drop, length};
    ghost use Rattle.cert_tree.specs.Room.{IsRoom};
    ghost use Rattle.cert_tree.specs.Walks.{Walk};

    ghost Value = { Walk };

    ghost view = { λ a. record {
      due = drop a.first a.room.items;
      nodes = a.nodes;
      counts = a.counts;
      bound = a.bound;
      refused = a.refused;
    } };

    ghost invariant = { λ a. IsRoom a.room.items a.first × (a.counts.boxes ≤ a.nodes) × (length a.room.items < 2 ^ 32) };
}

impl TreeWalk {
    /// A walk that begins at the first box. It reserves the room for all boxes that can be due: one more than the splits
    /// that the box allows.
    pub fn new(alloc: Global, inst: &Instance) -> Result<TreeWalk, NoMemory>
        ensures first { IfOk result (λ walk. (box : Box) × IsFirstBox inst.now box × (walk ≡ walk_at box)) }

        // There is only one first box.
        ensures only { IfOk result (λ walk. (box : Box) → IsFirstBox inst.now box → walk ≡ walk_at box) }
        ensures fits { IfOk result (λ walk. All (FitsBox inst.now) walk.due) }
    {
        TreeWalk::at(alloc, &Ranges::first(alloc, inst)?)
    }

    /// A walk that begins at a box. It reserves the room for all boxes that can be due: one more than the splits that the
    /// box allows.
    pub fn at(alloc: Global, ranges: &Ranges) -> Result<TreeWalk, NoMemory>
        ensures { IfOk result (λ walk. walk ≡ walk_at ranges.now) }
    {
        let room = copies(alloc, ranges, places_from(ranges)?)?;
        let first = room.len() - 1;
        Ok(TreeWalk {
            room,
            first,
            nodes: 0,
            counts: Counts::none(),
            bound: None,
            refused: false,
        })
    }

    /// Takes the next node, at the first due box. It takes no memory.
    ///
    /// An error says what is wrong with the node first; then the walk has refused.
    pub fn node(
        &mut self,
        inst: &Instance,
        line: NodeLine,
        weights: &[Weight],
    ) -> Result<(), NodeKind>
        requires due { 0 < length self.old.due }
        requires going { self.old.refused ≡ false }
        requires fits { All (FitsBox inst.now) self.old.due }
        requires weights { AreLeafWeights weights.now }
        requires lambda { HasLambda line }
        requires nodes { self.old.nodes < 400001 }

        ensures taken { OnOk result (Takes inst.now self.old (single line weights.now) self.new) }

        // A node that is right is taken.
        ensures right { AtFirst (λ box. IsRight inst.now box (single line weights.now)) self.old.due → IsOk result }
        ensures wrong { IfErr result (λ kind. AtFirst (λ box. IsFirstWrong inst.now box (single line weights.now) kind) self.old.due) }
        ensures refused { OnErr result (self.new.refused ≡ true) }
        ensures kept { OnErr result (self.new.nodes ≡ self.old.nodes) }
        ensures fits { OnOk result (All (FitsBox inst.now) self.new.due) }
        ensures limits { FitsCase inst.now }
    {
        match take_first(&mut self.room, self.first, inst, line, weights) {
            Ok((first, given)) => {
                self.first = first;
                self.nodes += 1;
                self.counts = self.counts.and(Counts::of(line));
                self.bound = lower(self.bound, given);
                Ok(())
            }
            Err(kind) => {
                self.refused = true;
                Err(kind)
            }
        }
    }

    /// How many boxes are due.
    pub fn due(&self) -> u32
        ensures { result ≡ length self.now.due }
    {
        (self.room.len() - self.first) as u32
    }

    /// How many nodes were taken.
    pub fn nodes(&self) -> u32
        ensures { result ≡ self.now.nodes }
    {
        self.nodes
    }

    /// The boxes that were worked on: the splits, and the leaves that are not open.
    pub fn boxes(&self) -> u32
        ensures { result ≡ self.now.counts.boxes }
    {
        self.counts.boxes
    }

    /// The lowest bound of the leaves so far, in whole weighted microseconds. `None`: each is `Empty` or `Void`.
    pub fn bound(&self) -> Option<u64>
        ensures { result ≡ self.now.bound }
    {
        self.bound
    }

    /// The ending that is true, if there is one. Nothing is due any more.
    ///
    /// `cost` and `gap` are in weighted microseconds, `budget` counts boxes.
    pub fn ending(&self, cost: Option<u64>, gap: u64, budget: u32) -> Option<Ending>
        requires { self.now.due ≡ [] }
        ensures { result ≡ ending_by self.now.counts self.now.bound cost gap budget }
    {
        self.counts.ending(self.bound, cost, gap, budget)
    }
}

/// So many boxes, each equal to this one.
fn copies(alloc: Global, ranges: &Ranges, places: u32) -> Result<Vec<Ranges>, NoMemory>
    ensures { IfOk result (λ room. room.items ≡ replicate places ranges.now) }
{
    let mut room = Vec::with_capacity(alloc, places as usize)?;
    for _ in 0..places {
        room.push(ranges.copy()?)?;
    }
    Ok(room)
}

/// The lower of two bounds, if there are any.
fn lower(one: Option<u64>, other: Option<u64>) -> Option<u64>
    ensures { result ≡ lower one other }
{
    match (one, other) {
        (Some(one), Some(other)) => Some(one.min(other)),
        (Some(one), None) => Some(one),
        (None, other) => other,
    }
}
