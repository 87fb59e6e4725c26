//! The nodes that are due in a tree that is read in pre-order.
ghost use Rattle.std.specs.Prelude.{◌≡◌, ℕ, ◌+◌, ◌<◌, ◌≤◌, List, [], ◌∷◌, length, get_or, IfOk, IsTrue, IsFalse};
ghost use Rattle.coord_model.specs.declared.tree.NodeLine.TheVariants.{Split};
ghost use Rattle.cert_text.specs.DueNodes.{Takes, stack, due_after, MayStand};

use coord_model::limits::{MOST_NODES, MOST_SPLITS};
use coord_model::{NoMemory, NodeLine};
use std::alloc::Global;

/// The due nodes, each by the number of splits above it, and how many nodes were read.
#[derive(Drop)]
pub struct Dues {
    depths: Vec<u16>,
    pending: u32,
    taken: u32,
    ghost room: { length depths.items ≡ 3073 },
    ghost pending_room: { pending ≤ 3073 },
    ghost nodes: { taken + pending ≤ 400001 },
    ghost stairs: { (k : ℕ) → k < pending → k ≤ get_or depths.items k 0 },
}

impl Dues {
    /// Room for the due nodes of each tree. None is due.
    pub fn new(alloc: Global) -> Result<Dues, NoMemory> {
        Ok(Dues {
            depths: vec![in alloc; 0; MOST_SPLITS as usize + 1]?,
            pending: 0,
            taken: 0,
        })
    }

    /// The first node of a tree is due.
    pub fn begin(&mut self)
        ensures dues { stack self.new.depths.items self.new.pending ≡ 0 ∷ [] }
        ensures taken { self.new.taken ≡ 0 }
    {
        self.depths[0] = 0;
        self.pending = 1;
        self.taken = 0;
    }

    /// Whether no node is due.
    pub fn is_empty(&self) -> bool
        ensures none { IsTrue result → stack self.now.depths.items self.now.pending ≡ [] }
        ensures some { stack self.now.depths.items self.now.pending ≡ [] → IsTrue result }
    {
        self.pending == 0
    }

    /// Takes a node at the first of the due nodes, if it may stand there.
    pub fn take(&mut self, node: NodeLine) -> bool
        ensures taken { IsTrue result → Takes node (stack self.old.depths.items self.old.pending) self.old.taken
            (stack self.new.depths.items self.new.pending) self.new.taken }
        ensures refused { IsFalse result → (d : ℕ) (dues : List ℕ) → stack self.old.depths.items self.old.pending ≡ d ∷ dues
            → MayStand node d → ¬ (self.old.taken + 1 + length (due_after node d dues) ≤ 400001) }
    {
        let Some(top) = self.pending.checked_sub(1) else {
            return false;
        };
        match node {
            NodeLine::Split { .. } => self.split(top),
            _ => {
                self.pending = top;
                self.taken += 1;
                true
            }
        }
    }

    /// Takes a split at the due node with this place, which is the first.
    fn split(&mut self, top: u32) -> bool
        requires first { top + 1 ≡ self.now.pending }
        ensures taken { IsTrue result → (relay at : ℕ) → Takes (Split relay at) (stack self.old.depths.items self.old.pending) self.old.taken
            (stack self.new.depths.items self.new.pending) self.new.taken }
        ensures refused { IsFalse result → (d : ℕ) (dues : List ℕ) → stack self.old.depths.items self.old.pending ≡ d ∷ dues
            → d + 1 ≤ 3072 → ¬ (self.old.taken + 1 + (length dues + 2) ≤ 400001) }
    {
        let above = self.depths[top as usize];
        if above >= MOST_SPLITS {
            return false;
        }
        if self.taken + top + 3 > MOST_NODES {
            return false;
        }
        self.depths[top as usize] = above + 1;
        self.depths[top as usize + 1] = above + 1;
        self.pending = top + 2;
        self.taken += 1;
        true
    }
}
