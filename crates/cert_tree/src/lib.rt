//! A tree of boxes: whether it holds, and the bound on the cost that it proves.
//!
//! Bounds are in whole weighted microseconds. How a tree is found is left to others; nothing here searches.
#![tactic(auto)]

mod counts;
mod holds;
mod judge;
mod kind;
mod room;
mod tree;
mod walk;

pub use holds::{TreeRefusal, each_tree_holds_or_fails, each_walk_passes_or_refuses, holds_at};
pub use kind::NodeKind;
pub use tree::{boxes, ending_of};
pub use walk::TreeWalk;
