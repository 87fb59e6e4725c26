//! What is kept of a tree that is read.
ghost use Rattle.std.specs.Prelude.{◌≡◌, []};
ghost use Rattle.std.specs.Option.{ForSome};

use coord_model::Node;

/// A split whose high half is not whole. Its low half is there once it is whole.
#[derive(Drop)]
pub struct OpenSplit {
    pub(crate) relay: u16,
    pub(crate) at: u16,
    pub(crate) low: Option<Node>,
}

/// What is read of a tree: the open splits from the root down, and the tree once it is whole.
#[derive(Drop)]
pub struct GrowingTree {
    pub(crate) splits: Vec<OpenSplit>,
    pub(crate) tree: Option<Node>,
    ghost whole: { ForSome tree (λ _. splits.items ≡ []) },
}
