//! What the nodes of a tree come to, and the ending that follows.
ghost use Rattle.std.specs.Prelude.{◌≡◌, ◌≤◌, length};
ghost use Rattle.coord_model.specs.Tree.{nodes_of, shape};
ghost use Rattle.cert_tree.specs.Endings.{boxes as boxes_of, counts_of, ending_of as ending_by_tree};

use crate::counts::Counts;
use coord_model::{Ending, Node, NodeLine};

/// The boxes that were worked on: the splits of a tree, and the leaves that are not open.
pub fn boxes(node: &Node) -> u32
    requires { length (nodes_of (shape node.now)) ≤ 400001 }
    ensures { result ≡ boxes_of (shape node.now) }
{
    counts_in(node).boxes
}

/// The ending that is true of a tree with its bound, if there is one.
///
/// `bound`, `cost` and `gap` are in whole weighted microseconds, `budget` counts boxes.
pub fn ending_of(
    node: &Node,
    bound: Option<u64>,
    cost: Option<u64>,
    gap: u64,
    budget: u32,
) -> Option<Ending>
    requires { length (nodes_of (shape node.now)) ≤ 400001 }
    ensures { result ≡ ending_by_tree (shape node.now) bound cost gap budget }
{
    counts_in(node).ending(bound, cost, gap, budget)
}

/// What the nodes of a tree come to.
fn counts_in(node: &Node) -> Counts
    requires { length (nodes_of (shape node.now)) ≤ 400001 }
    ensures { result ≡ counts_of (shape node.now) }
{
    match node {
        Node::Split {
            relay,
            at,
            low,
            high,
        } => {
            let split = NodeLine::Split {
                relay: *relay,
                at: *at,
            };
            let below = counts_in(low).and(counts_in(high));
            Counts::of(split).and(below)
        }
        Node::Empty => Counts::of(NodeLine::Empty),
        Node::Void(_) => Counts::of(NodeLine::Void),
        Node::Bound(weights) => Counts::of(NodeLine::Bound {
            lambda: weights.lambda,
        }),
        Node::Hair { row } => Counts::of(NodeLine::Hair { row: *row }),
        Node::OpenLeaf(weights) => Counts::of(NodeLine::OpenLeaf {
            lambda: weights.lambda,
        }),
    }
}
