//! A tree that is read node by node, in pre-order.
ghost use Rattle.std.specs.Prelude.{◌≡◌, None, [], ◌∷◌, ◌++◌, IfOk, IfSome, OnOk};
ghost use Rattle.coord_model.specs.Tree.{nodes_of, shape, split};
ghost use Rattle.cert_text.specs.Growth.{nodes_grown, nodes_if, nodes_within};
ghost use Rattle.cert_text.specs.Nodes.{IsNodeWith};

use crate::tree::{GrowingTree, OpenSplit};
use coord_model::{NoMemory, Node, NodeLine, Weight, Weights};
use std::alloc::Global;
use std::boxed::Box;

impl GrowingTree {
    /// A tree of which no node is read.
    pub fn new(alloc: Global) -> GrowingTree
        ensures { nodes_grown result ≡ [] }
    {
        GrowingTree {
            splits: Vec::new(alloc),
            tree: None,
        }
    }

    /// Takes the next node with its weights.
    pub fn take(
        &mut self,
        alloc: Global,
        line: NodeLine,
        weights: &[Weight],
    ) -> Result<(), NoMemory>
        requires growing { self.now.tree ≡ None }
        requires is { IsNodeWith line weights.now }
        ensures { OnOk result (nodes_grown self.new ≡ nodes_grown self.old ++ record { line = line; weights = weights.now } ∷ []) }
    {
        match line {
            NodeLine::Split { relay, at } => self.open(relay, at),
            NodeLine::Empty => self.put(alloc, Node::Empty),
            NodeLine::Void => self.put(alloc, Node::Void(Vec::from_slice(alloc, weights)?)),
            NodeLine::Bound { lambda } => {
                self.put(alloc, Node::Bound(weighing(alloc, lambda, weights)?))
            }
            NodeLine::Hair { row } => self.put(alloc, Node::Hair { row }),
            NodeLine::OpenLeaf { lambda } => {
                self.put(alloc, Node::OpenLeaf(weighing(alloc, lambda, weights)?))
            }
        }
    }

    /// Puts an open split in the place of the next node.
    fn open(&mut self, relay: u16, at: u16) -> Result<(), NoMemory>
        requires growing { self.now.tree ≡ None }
        ensures { OnOk result (nodes_grown self.new ≡ nodes_grown self.old ++ record { line = NodeLine.Split relay at; weights = [] } ∷ []) }
    {
        self.splits.push(OpenSplit {
            relay,
            at,
            low: None,
        })?;
        Ok(())
    }

    /// Puts a whole tree in the place of the next node.
    fn put(&mut self, alloc: Global, node: Node) -> Result<(), NoMemory>
        requires growing { self.now.tree ≡ None }
        ensures { OnOk result (nodes_grown self.new ≡ nodes_grown self.old ++ nodes_of (shape node)) }
    {
        self.tree = close(alloc, &mut self.splits, node)?;
        Ok(())
    }
}

/// Puts a whole tree in the place of the next node. A split whose high half it is becomes whole itself. If no split is
/// left, the answer is the whole tree.
fn close(alloc: Global, splits: &mut Vec<OpenSplit>, node: Node) -> Result<Option<Node>, NoMemory>
    ensures nodes { IfOk result (λ tree. nodes_within splits.new.items ++ nodes_if tree ≡ nodes_within splits.old.items ++ nodes_of (shape node)) }
    ensures whole { IfOk result (λ tree. IfSome tree (λ _. splits.new.items ≡ [])) }
{
    let mut node = node;
    while let Some(OpenSplit { relay, at, low }) = splits.pop() {
        match low {
            None => {
                let low = Some(node);
                splits.push(OpenSplit { relay, at, low })?;
                return Ok(None);
            }
            Some(low) => node = join(alloc, relay, at, low, node)?,
        }
    }
    Ok(Some(node))
}

/// A split of two halves.
fn join(alloc: Global, relay: u16, at: u16, low: Node, high: Node) -> Result<Node, NoMemory>
    ensures { IfOk result (λ node. shape node ≡ split relay at (shape low) (shape high)) }
{
    Ok(Node::Split {
        relay,
        at,
        low: Box::new(alloc, low)?,
        high: Box::new(alloc, high)?,
    })
}

/// Weights of rows with a lambda.
fn weighing(alloc: Global, lambda: u32, rows: &[Weight]) -> Result<Weights, NoMemory>
    ensures lambda { IfOk result (λ weights. weights.lambda ≡ lambda) }
    ensures rows { IfOk result (λ weights. weights.rows.items ≡ rows.now) }
{
    Ok(Weights {
        lambda,
        rows: Vec::from_slice(alloc, rows)?,
    })
}
