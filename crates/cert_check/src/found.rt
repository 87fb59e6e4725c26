//! What the tree of a certificate gives.
ghost use Rattle.std.specs.Prelude.{◌≡◌, ◌↔◌, ℕ, [], Option};
ghost use Rattle.coord_model.specs.Tree.{Tree, nodes_of};
ghost use Rattle.margin_rows.specs.Box.{Box, FitsBox};
ghost use Rattle.margin_rows.specs.Case.{Case};
ghost use Rattle.cert_check.specs.TreeGives.{found_by, found_of};
ghost use Rattle.cert_tree.specs.Holding.{Holds};
ghost use Rattle.cert_tree.specs.TreeWalks.{past_tree, walk_at};
ghost use Rattle.cert_tree.specs.Walks.{Walked};

use cert_text::CertHead;
use cert_tree::TreeWalk;
use coord_model::Ending;

/// What the tree of a certificate gives: the boxes that were worked on, the bound in weighted microseconds, and the
/// ending that is true, if there is one.
#[derive(Clone, Copy)]
pub struct Found {
    pub boxes: u32,
    pub bound: Option<u64>,
    pub ending: Option<Ending>,
}

/// What the nodes of a walk give. Nothing is due any more.
pub fn found_in(walk: &TreeWalk, head: &CertHead) -> Found
    requires { walk.now.due ≡ [] }
    ensures exact { result ≡ found_by walk.now.counts walk.now.bound head.now }

    // A walk from a box took the nodes of a tree exactly if the tree holds there and the walk is past it.
    ensures tree { (case : Case) (box : Box) (tree : Tree) → Walked case (walk_at box) (nodes_of tree) walk.now
        ↔ (Holds case box tree walk.now.bound × (walk.now ≡ past_tree (walk_at box) [] tree walk.now.bound)) }

    // Then it is what the tree gives, which has no other bound.
    ensures gives { (case : Case) (box : Box) (tree : Tree) → Walked case (walk_at box) (nodes_of tree) walk.now
        → result ≡ found_of tree walk.now.bound head.now }
    ensures only { (case : Case) (box : Box) (tree : Tree) (bound : Option ℕ) → FitsBox case box → Holds case box tree bound
        → Walked case (walk_at box) (nodes_of tree) walk.now → result ≡ found_of tree bound head.now }
{
    read_walk(walk, head)
}

/// The boxes, the bound and the ending of a walk.
fn read_walk(walk: &TreeWalk, head: &CertHead) -> Found
    requires { walk.now.due ≡ [] }
    ensures { result ≡ found_by walk.now.counts walk.now.bound head.now }
{
    Found {
        boxes: walk.boxes(),
        bound: walk.bound(),
        ending: walk.ending(head.cost, head.gap, head.budget),
    }
}
