//! What became of an open box, put into the tree.
ghost use Rattle.std.specs.Prelude.{◌≡◌, ◌+◌, ◌≤◌, length, OnErr, OnOk};
ghost use Rattle.search_tree.specs.Plan.{plan_of};
ghost use Rattle.search_tree.specs.Steps.{IsOpen};
ghost use Rattle.branch_bound.specs.Taking.{Takes};

use coord_model::NoMemory;
use search_tree::{Leaf, SearchTree};
use step_rules::{Handling, OpenBox};

/// Puts what became of the open box that comes first into the tree. On a fault the tree is as before.
pub fn take(tree: &mut SearchTree<OpenBox>, handling: Handling) -> Result<(), NoMemory>
    requires open { IsOpen (plan_of tree.old) }
    requires room { length tree.old + 2 ≤ 400001 }
    ensures exact { OnOk result (Takes handling (length tree.old) (plan_of tree.old) (plan_of tree.new)) }
    ensures count { OnOk result (length tree.new ≤ length tree.old + 2) }
    ensures unchanged { OnErr result (tree.new ≡ tree.old) }
{
    let leaf = match handling {
        Handling::Split {
            relay,
            at,
            low,
            high,
        } => return tree.split(relay, at, (low.bound, low), (high.bound, high)),
        Handling::Empty => Leaf::Empty,
        Handling::Void(rows) => Leaf::Void(rows),
        Handling::Bound(weights) => Leaf::Bound(weights),
        Handling::Hair { row } => Leaf::Hair { row },
    };
    tree.close(leaf);
    Ok(())
}
