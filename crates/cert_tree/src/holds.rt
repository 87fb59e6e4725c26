//! Whether a tree holds at a box: the walk over its nodes.
ghost use Rattle.std.specs.Prelude.{◌≡◌, ℕ, ◌+◌, ◌<◌, ◌≤◌, Option, false, length, suc, All, IfOk, IfErr, OnOk};
ghost use Rattle.coord_model.specs.Tree.{nodes_of, shape};
ghost use Rattle.coord_model.specs.TreeLimits.{FitLeaves, FitsTree};
ghost use Rattle.margin_rows.specs.Box.{FitsBox};
ghost use Rattle.margin_rows.specs.Case.{FitsCase};
ghost use Rattle.cert_tree.specs.Holding.{Fails, Holds};
ghost use Rattle.cert_tree.specs.Proving.{IsProved};
ghost use Rattle.cert_tree.specs.TreeWalks.{GivesAsTree, LeadsToOne, RefusesIfFails, TakesIfHolds};
ghost use Rattle.cert_tree.specs.Verdict.{IsTold, GivesBound, GivesFault, HoldsOrFails, NeverBoth};
ghost use Rattle.cert_tree.specs.Walks.{Refuses, Walked};
ghost use Rattle.cert_tree.specs.declared.kind.NodeKind.{NodeKind as NodeKindData};

use crate::kind::NodeKind;
use crate::walk::TreeWalk;
use coord_model::{NoMemory, Node, NodeLine};
use margin_rows::{Instance, Ranges};
use std::alloc::Global;

/// Why no bound of a tree is told.
#[derive(Clone, Copy, PartialEq, Eq, Debug)]
pub enum TreeRefusal {
    /// The node with this number, counted from 1 in pre-order, is the first that is wrong, and in this way.
    Fault { number: u32, kind: NodeKind },
    /// Memory ran out.
    NoMemory,
}

impl From<NoMemory> for TreeRefusal {
    ghost use Rattle.std.specs.Prelude.{◌≡◌};
    ghost use Rattle.cert_tree.specs.declared.holds.TreeRefusal.TheVariants as refusal;

    ghost from_gives = { λ _ e. e ≡ refusal.NoMemory };

    fn from(_refused: NoMemory) -> TreeRefusal {
        TreeRefusal::NoMemory
    }
}

/// The bound of a tree at a box, in whole weighted microseconds. `None`: each leaf is `Empty` or `Void`.
pub fn holds_at(
    alloc: Global,
    inst: &Instance,
    ranges: &Ranges,
    node: &Node,
) -> Result<Option<u64>, TreeRefusal>
    requires fits { FitsBox inst.now ranges.now }
    requires tree { FitsTree (shape node.now) }

    ensures exact { IsTold inst.now ranges.now (shape node.now) result }
    ensures holds { (bound : Option ℕ) → Holds inst.now ranges.now (shape node.now) bound → GivesBound bound result }
    ensures fails { (number : ℕ) (kind : NodeKindData) → Fails inst.now ranges.now (shape node.now) number kind → GivesFault number kind result }

    // All allowed settings of the box cost at least the bound, and with none there are none.
    ensures proves { IfOk result (IsProved inst.now ranges.now) }
{
    let mut walk = TreeWalk::at(alloc, ranges)?;
    match take_tree(&mut walk, inst, node) {
        Ok(()) => Ok(walk.bound()),
        Err(kind) => Err(TreeRefusal::Fault {
            number: walk.nodes() + 1,
            kind,
        }),
    }
}

/// Each tree holds at a box, with some bound, or fails there at some node, and none does both. By the definitions of
/// the two alone; no walk is spoken of.
pub fn each_tree_holds_or_fails()
    ensures either { HoldsOrFails }
    ensures never_both { NeverBoth }
{}

/// A walk that takes the nodes of a tree in pre-order, the first of them at its first due box, takes all exactly if the
/// tree holds there, and is past it then: the other boxes are due, and the tree's bound and boxes are added. It refuses
/// one exactly if the tree fails there, at that node and in that way. `TreeWalk::node` takes each node so.
pub fn each_walk_passes_or_refuses()
    ensures takes { TakesIfHolds }
    ensures refuses { RefusesIfFails }

    // A walk from a box has the bound, the boxes and the ending of the tree that it took.
    ensures whole { GivesAsTree }

    // A walk goes on in one way only.
    ensures one { LeadsToOne }
{}

/// Takes the nodes of a tree in pre-order, the first of them at the first due box.
fn take_tree(walk: &mut TreeWalk, inst: &Instance, node: &Node) -> Result<(), NodeKind>
    requires due { 0 < length walk.old.due }
    requires going { walk.old.refused ≡ false }
    requires fits { All (FitsBox inst.now) walk.old.due }
    requires leaves { FitLeaves (shape node.now) }
    requires nodes { walk.old.nodes + length (nodes_of (shape node.now)) ≤ 400001 }

    ensures walked { OnOk result (Walked inst.now walk.old (nodes_of (shape node.now)) walk.new) }
    ensures refused { IfErr result (λ kind. (number : ℕ) × Refuses inst.now walk.old (nodes_of (shape node.now)) number kind × (suc walk.new.nodes ≡ walk.old.nodes + number)) }
    ensures going { OnOk result (walk.new.refused ≡ false) }
    ensures fits { OnOk result (All (FitsBox inst.now) walk.new.due) }
    ensures limits { FitsCase inst.now }
{
    match node {
        Node::Split {
            relay,
            at,
            low,
            high,
        } => {
            walk.node(
                inst,
                NodeLine::Split {
                    relay: *relay,
                    at: *at,
                },
                &[],
            )?;
            take_tree(walk, inst, low)?;
            take_tree(walk, inst, high)
        }
        Node::Empty => walk.node(inst, NodeLine::Empty, &[]),
        Node::Void(weights) => walk.node(inst, NodeLine::Void, weights),
        Node::Bound(weights) => {
            let lambda = weights.lambda;
            walk.node(inst, NodeLine::Bound { lambda }, &weights.rows)
        }
        Node::Hair { row } => walk.node(inst, NodeLine::Hair { row: *row }, &[]),
        Node::OpenLeaf(weights) => {
            let lambda = weights.lambda;
            walk.node(inst, NodeLine::OpenLeaf { lambda }, &weights.rows)
        }
    }
}
