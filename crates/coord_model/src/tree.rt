//! The tree of a certificate: what is shown of each box.
use crate::weights::{Weight, Weights};
use std::boxed::Box;

/// A node of a tree, with what is below it.
#[derive(Drop)]
pub enum Node {
    /// The pickup span of a relay is cut after step `at`.
    Split {
        relay: u16,
        at: u16,
        low: Box<Node>,
        high: Box<Node>,
    },
    /// No settings of the box loosely meet every row, since drops empty it.
    Empty,
    /// The same, since these weights of rows show it.
    Void(Vec<Weight>),
    /// No settings of the box cost less than the bound that these weights give.
    Bound(Weights),
    /// The lowest settings of the box do not strictly meet this row.
    Hair {
        row: u16,
    },
    /// The box was left open, with the bound that these weights give.
    OpenLeaf(Weights),
}

/// A node by itself, as a line of a certificate gives it. The weights of its rows are given beside it.
#[derive(Clone, Copy, PartialEq, Eq, Debug)]
pub enum NodeLine {
    Split { relay: u16, at: u16 },
    Empty,
    Void,
    Bound { lambda: u32 },
    Hair { row: u16 },
    OpenLeaf { lambda: u32 },
}
