//! Why the dial of a relay can't be lower with given pickups: a chain of rows, each of which asks for a dial step once
//! the link before it has given the step of its primary.
//!
//! Steps are dial steps. Which settings are asked about is left to others, and so is every name and text.
#![tactic(auto)]

mod back;
mod climb;
mod fault;
mod link;
mod why;

pub use fault::ChainFault;
pub use link::{Link, Reason};
pub use why::chain;
