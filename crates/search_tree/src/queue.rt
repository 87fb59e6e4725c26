//! The open leaves in their order: the least bound first, at equal bounds the least number.
ghost use Rattle.std.specs.Prelude.{◌≡◌, ℕ, ◌+◌, ◌<◌, [], length, IfOk, IfSome, OnErr, MatchOption};
ghost use Rattle.std.specs.List.{sum_by};
ghost use Rattle.search_tree.specs.Steps.{IsFirstOf};

use coord_model::NoMemory;
use std::alloc::Global;
use std::cmp::Reverse;
use std::collections::BinaryHeap;
use std::marker::Model;

/// The bounds and the numbers of the open leaves.
#[derive(Drop)]
pub(crate) struct Queue {
    heap: BinaryHeap<Reverse<(u64, u32)>>,
}

impl Model for Queue {
    ghost use Rattle.std.specs.Prelude.{ℕ, List, map};
    ghost use Rattle.std.specs.BinaryHeap.{IsHeap, heap_items};
    ghost use Rattle.std.specs.Ordering.{nat_cmp, ordering_then};

    ghost Value = { List (ℕ × ℕ) };

    ghost view = { λ a. map (λ e. e.0) (heap_items a.heap) };

    ghost invariant = { λ a. IsHeap (λ x y. ordering_then (nat_cmp y.0.0 x.0.0) (nat_cmp y.0.1 x.0.1)) (heap_items a.heap) };
}

impl Queue {
    /// A queue of one entry.
    pub(crate) fn new(alloc: Global, entry: (u64, u32)) -> Result<Queue, NoMemory>
        ensures { IfOk result (λ queue. (f : ℕ × ℕ → ℕ) → sum_by f queue ≡ f entry) }
    {
        let mut heap = BinaryHeap::new(alloc);
        heap.push(Reverse(entry))?;
        Ok(Queue { heap })
    }

    /// The entry that comes first.
    pub(crate) fn first(&self) -> Option<(u64, u32)>
        ensures { MatchOption result (self.now ≡ []) (IsFirstOf self.now) }
    {
        match self.heap.peek() {
            Some(entry) => Some(entry.0),
            None => None,
        }
    }

    /// Takes the entry that comes first.
    pub(crate) fn take(&mut self) -> (u64, u32)
        requires some { 0 < length self.old }
        ensures first { IsFirstOf self.old result }
        ensures rest { (f : ℕ × ℕ → ℕ) → sum_by f self.old ≡ f result + sum_by f self.new }
    {
        let Some(entry) = self.heap.pop() else {
            unreachable()
        };
        entry.0
    }

    /// Takes the entry that comes first, and puts two in its place. On a fault the queue is as before.
    pub(crate) fn exchange(
        &mut self,
        low: (u64, u32),
        high: (u64, u32),
    ) -> Result<(u64, u32), NoMemory>
        requires some { 0 < length self.old }
        ensures first { IfOk result (IsFirstOf self.old) }
        ensures rest { IfOk result (λ taken. (f : ℕ × ℕ → ℕ) →
            f low + f high + sum_by f self.old ≡ f taken + sum_by f self.new) }
        ensures unchanged { OnErr result (self.new ≡ self.old) }
    {
        self.heap.reserve(1)?;
        let Some(taken) = self.heap.pop() else {
            unreachable()
        };
        self.heap.push(Reverse(low))?;
        self.heap.push(Reverse(high))?;
        Ok(taken.0)
    }
}
