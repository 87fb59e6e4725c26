//! The tree of a certificate, made of the slots at the end of a search.
ghost use Rattle.std.specs.Prelude.{◌≡◌, ◌≤◌, ◌<◌, length, slice_get, slice_set, Some, IfOk, OnOk};
ghost use Rattle.search_tree.specs.declared.leaf.Leaf.TheVariants.{Empty};
ghost use Rattle.search_tree.specs.declared.slot.Slot.TheVariants.{Closed};
ghost use Rattle.coord_model.specs.Tree.{shape};
ghost use Rattle.search_tree.specs.Arena.{IsTreeAt, Spares};
ghost use Rattle.search_tree.specs.Harvest.{tree_of, leaf_tree, weighed};
ghost use Rattle.search_tree.specs.Plan.{plan_at};

use crate::leaf::Leaf;
use crate::slot::Slot;
use coord_model::{NoMemory, Node, Weights};
use std::alloc::Global;
use std::boxed::Box;
use std::mem;

/// The value of an open leaf, which has weights for the tree at the end.
pub trait Weighed {
    ghost use Rattle.coord_model.specs.declared.weights.Weights.{Weights as WeightsData};

    ghost weights: { Self → WeightsData };

    /// The weights whose bound the open leaf has.
    fn into_weights(self) -> Weights
        ensures exact { result ≡ weights self };
}

/// The node of a closed leaf.
fn closed_node(leaf: Leaf) -> Node
    ensures { shape result ≡ leaf_tree leaf }
{
    match leaf {
        Leaf::Empty => Node::Empty,
        Leaf::Void(weights) => Node::Void(weights),
        Leaf::Bound(weights) => Node::Bound(weights),
        Leaf::Hair { row } => Node::Hair { row },
    }
}

/// Takes a slot out of the table, where an empty leaf stays.
fn take_slot<T: Drop>(slots: &mut Vec<Slot<T>>, number: u32) -> Slot<T>
    requires within { number < length slots.old.items }
    ensures taken { slice_get slots.old.items number ≡ Some result }
    ensures rest { slots.new.items ≡ slice_set slots.old.items number (Closed Empty) }
{
    mem::replace(&mut slots[number as usize], Slot::Closed(Leaf::Empty))
}

/// Takes the tree from a number down out of the slots.
pub(crate) fn plant<T: Weighed + Drop>(
    alloc: Global,
    slots: &mut Vec<Slot<T>>,
    number: u32,
) -> Result<Node, NoMemory>
    requires tree { IsTreeAt slots.old.items number }
    requires places { length slots.old.items ≤ 400001 }
    ensures exact { IfOk result (λ node. shape node ≡ tree_of (λ value. weighed (T.weights value)) (plan_at slots.old.items number)) }
    ensures rest { OnOk result (Spares slots.old.items slots.new.items (plan_at slots.old.items number)) }
    ensures count { OnOk result (length slots.new.items ≡ length slots.old.items) }
{
    match take_slot(slots, number) {
        Slot::Split { relay, at, low } => {
            let below = plant(alloc, slots, low)?;
            let above = plant(alloc, slots, low + 1)?;
            Ok(Node::Split {
                relay,
                at,
                low: Box::new(alloc, below)?,
                high: Box::new(alloc, above)?,
            })
        }
        Slot::Closed(leaf) => Ok(closed_node(leaf)),
        Slot::Open { value, .. } => Ok(Node::OpenLeaf(value.into_weights())),
    }
}
