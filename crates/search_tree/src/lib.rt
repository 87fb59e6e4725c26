//! The growing tree of a branch-and-bound search: numbered nodes in one vector, and a heap of the open leaves.
//!
//! Bounds are in whole weighted microseconds. What an open leaf carries, and when it is closed or split, is left to
//! others: they work on the open leaf that comes first, which has the least bound, and at equal bounds the least number.
#![tactic(auto)]

mod harvest;
mod leaf;
mod queue;
mod slot;
mod tree;

pub use harvest::Weighed;
pub use leaf::Leaf;
pub use tree::SearchTree;

#[cfg(test)]
mod tests;
