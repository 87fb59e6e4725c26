//! The tree of a search, with its open leaves in order.
ghost use Rattle.std.specs.Prelude.{◌≡◌, ◌+◌, ◌≤◌, ◌<◌, [], ◌∷◌, ◌++◌, length, slice_set, vec_len, IfOk, OnOk, OnErr, IsSome, MatchOption};
ghost use Rattle.std.specs.Vec.{vec_capacity};
ghost use Rattle.search_tree.specs.Harvest.{tree_of, weighed};
ghost use Rattle.search_tree.specs.Plan.{plan_of, opened, entries};
ghost use Rattle.coord_model.specs.Tree.{shape};
ghost use Rattle.search_tree.specs.Arena.{IsArena};
ghost use Rattle.search_tree.specs.Steps.{IsOpen, IsFirst, IsLead, Closes, IsSplitInto};
ghost use Rattle.search_tree.specs.declared.slot.Slot.TheVariants.{Open};

use crate::harvest::{Weighed, plant};
use crate::leaf::Leaf;
use crate::queue::Queue;
use crate::slot::Slot;
use coord_model::{NoMemory, Node};
use std::alloc::Global;
use std::marker::Model;

/// The tree of a search. Its open leaves carry a value each, and are taken up by their bounds.
#[derive(Drop)]
pub struct SearchTree<T> {
    slots: Vec<Slot<T>>,
    queue: Queue,
}

impl<T> Model for SearchTree<T> {
    ghost use Rattle.std.specs.Prelude.{List};
    ghost use Rattle.search_tree.specs.declared.slot.Slot.{Slot};
    ghost use Rattle.coord_model.specs.Tree.{shape};
    ghost use Rattle.search_tree.specs.Arena.{IsArena};

    ghost Value = { List (Slot T) };

    ghost view = { λ a. a.slots.items };

    ghost invariant = { λ a. IsArena a.slots.items a.queue };
}

impl<T: Drop> SearchTree<T> {
    /// A tree of one open leaf.
    pub fn new(alloc: Global, bound: u64, value: T) -> Result<SearchTree<T>, NoMemory>
        ensures exact { IfOk result (λ tree. plan_of tree ≡ opened 0 bound value) }
        ensures count { IfOk result (λ tree. length tree ≡ 1) }
    {
        let mut slots = Vec::new(alloc);
        slots.push(Slot::Open { bound, value })?;
        let queue = Queue::new(alloc, (bound, 0))?;
        Ok(SearchTree { slots, queue })
    }

    /// The count of nodes, which is the number of the next one. It is at most 400,001.
    pub fn nodes(&self) -> u32
        ensures exact { result ≡ length self.now }
        ensures limit { result ≤ 400001 }
    {
        self.slots.len() as u32
    }

    /// The least bound of the open leaves. `None`: no leaf is open.
    pub fn lead(&self) -> Option<u64>
        ensures exact { IsLead (plan_of self.now) result }
        ensures open { IsSome result → IsOpen (plan_of self.now) }
    {
        match self.queue.first() {
            Some((bound, _)) => Some(bound),
            None => None,
        }
    }

    /// The number and the value of the open leaf that comes first. `None`: no leaf is open.
    pub fn first(&self) -> Option<(u32, &T)>
        ensures exact { MatchOption result (entries (plan_of self.now) ≡ []) (λ leaf. IsFirst (plan_of self.now) leaf.0 leaf.1.now) }
        ensures open { IsSome result → IsOpen (plan_of self.now) }
    {
        let Some((_, number)) = self.queue.first() else {
            return None;
        };
        match &self.slots[number as usize] {
            Slot::Open { value, .. } => Some((number, value)),
            _ => unreachable(),
        }
    }

    /// Closes the open leaf that comes first. Its value is dropped. It takes no memory.
    pub fn close(&mut self, leaf: Leaf)
        requires open { IsOpen (plan_of self.old) }
        ensures exact { Closes leaf (plan_of self.old) (plan_of self.new) }
        ensures count { length self.new ≡ length self.old }
    {
        close_first(&mut self.slots, &mut self.queue, leaf);
    }

    /// Splits the open leaf that comes first over two open leaves, each of a bound and a value. Its value is dropped.
    ///
    /// The halves have the next two numbers. On a fault the tree is as before, and the two values are dropped.
    pub fn split(
        &mut self,
        relay: u16,
        at: u16,
        low: (u64, T),
        high: (u64, T),
    ) -> Result<(), NoMemory>
        requires open { IsOpen (plan_of self.old) }
        requires room { length self.old + 2 ≤ 400001 }
        ensures exact { OnOk result (IsSplitInto relay at low high (length self.old) (plan_of self.old) (plan_of self.new)) }
        ensures count { OnOk result (length self.new ≡ length self.old + 2) }
        ensures unchanged { OnErr result (self.new ≡ self.old) }
    {
        split_first(&mut self.slots, &mut self.queue, relay, at, low, high)
    }
}

impl<T: Weighed + Drop> SearchTree<T> {
    /// The tree of a certificate: each open leaf has the weights of its value.
    pub fn into_tree(self, alloc: Global) -> Result<Node, NoMemory>
        ensures exact { IfOk result (λ node. shape node ≡ tree_of (λ value. weighed (T.weights value)) (plan_of self)) }
    {
        let mut slots = self.slots;
        plant(alloc, &mut slots, 0)
    }
}

/// Closes the open leaf that comes first.
fn close_first<T: Drop>(slots: &mut Vec<Slot<T>>, queue: &mut Queue, leaf: Leaf)
    requires arena { IsArena slots.old.items queue.old }
    requires open { IsOpen (plan_of slots.old.items) }
    ensures exact { Closes leaf (plan_of slots.old.items) (plan_of slots.new.items) }
    ensures arena { IsArena slots.new.items queue.new }
    ensures count { length slots.new.items ≡ length slots.old.items }
{
    let (_, number) = queue.take();
    slots[number as usize] = Slot::Closed(leaf);
}

/// Splits the open leaf that comes first.
fn split_first<T: Drop>(
    slots: &mut Vec<Slot<T>>,
    queue: &mut Queue,
    relay: u16,
    at: u16,
    low: (u64, T),
    high: (u64, T),
) -> Result<(), NoMemory>
    requires arena { IsArena slots.old.items queue.old }
    requires open { IsOpen (plan_of slots.old.items) }
    requires room { length slots.old.items + 2 ≤ 400001 }
    ensures exact { OnOk result (IsSplitInto relay at low high (length slots.old.items) (plan_of slots.old.items) (plan_of slots.new.items)) }
    ensures arena { IsArena slots.new.items queue.new }
    ensures count { OnOk result (length slots.new.items ≡ length slots.old.items + 2) }
    ensures unchanged { OnErr result (slots.new.items ≡ slots.old.items) }
{
    slots.reserve(2)?;
    let next = slots.len() as u32;
    let (_, number) = queue.exchange((low.0, next), (high.0, next + 1))?;
    let split = Slot::Split {
        relay,
        at,
        low: next,
    };
    branch(slots, number, split, low, high);
    Ok(())
}

/// Writes a split at a number, and its halves at the end. Room for them is kept.
fn branch<T: Drop>(
    slots: &mut Vec<Slot<T>>,
    number: u32,
    split: Slot<T>,
    low: (u64, T),
    high: (u64, T),
)
    requires within { number < vec_len slots.old }
    requires room { vec_len slots.old + 2 ≤ vec_capacity slots.old }
    ensures { slots.new.items ≡ slice_set slots.old.items number split ++ Open low.0 low.1 ∷ Open high.0 high.1 ∷ [] }
{
    slots[number as usize] = split;
    let _ = slots.push(Slot::Open {
        bound: low.0,
        value: low.1,
    });
    let _ = slots.push(Slot::Open {
        bound: high.0,
        value: high.1,
    });
}
