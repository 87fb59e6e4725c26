//! The nodes of a certificate, as they come in.
ghost use Rattle.std.specs.Prelude.{◌≡◌, List, [], ◌∷◌, ◌++◌, None, IfOk};
ghost use Rattle.coord_model.specs.Tree.{Single};
ghost use Rattle.cert_check.specs.Seen.{CanTake, IsGoing, Saw};
ghost use Rattle.cert_tree.specs.Judgement.{single};
ghost use Rattle.margin_rows.specs.Box.{Box, IsFirstBox};

use cert_tree::{NodeKind, TreeWalk};
use coord_model::{NoMemory, NodeLine, Weight};
use margin_rows::Instance;
use std::alloc::Global;

/// The first node that is wrong, by its number, counted from 1 in pre-order.
#[derive(Clone, Copy)]
pub(crate) struct NodeFault {
    pub(crate) number: u32,
    pub(crate) kind: NodeKind,
}

/// A walk over the nodes of a certificate, up to the first that is wrong.
#[derive(Drop)]
pub(crate) struct NodeCheck {
    pub(crate) walk: TreeWalk,
    pub(crate) fault: Option<NodeFault>,
}

impl NodeCheck {
    /// A walk that begins at the first box. It reserves the room for all boxes that can be due: one more than the splits
    /// that the box allows.
    pub(crate) fn new(alloc: Global, inst: &Instance) -> Result<NodeCheck, NoMemory>
        ensures { IfOk result (λ check. (box : Box) × IsFirstBox inst.now box × Saw inst.now box check.walk check.fault []) }
    {
        Ok(NodeCheck {
            walk: TreeWalk::new(alloc, inst)?,
            fault: None,
        })
    }

    /// Takes the next node, unless one was wrong.
    pub(crate) fn take(&mut self, inst: &Instance, line: NodeLine, weights: &[Weight])
        requires going { self.old.fault ≡ None → IsGoing inst.now self.old.walk }
        requires can { self.old.fault ≡ None → CanTake inst.now self.old.walk line weights.now }
        ensures { (box : Box) (nodes : List Single) → Saw inst.now box self.old.walk self.old.fault nodes
            → Saw inst.now box self.new.walk self.new.fault (nodes ++ single line weights.now ∷ []) }
    {
        if self.fault.is_some() {
            return;
        }
        if let Err(kind) = self.walk.node(inst, line, weights) {
            self.fault = Some(NodeFault {
                number: self.walk.nodes() + 1,
                kind,
            });
        }
    }
}
