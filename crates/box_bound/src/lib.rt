//! The dual value of a box, and the bound on the cost that follows from it.
//!
//! Dual values are in picoseconds times lambda, bounds in whole weighted microseconds. The weights are taken as they
//! are: which of them give a good bound is left to others.
#![tactic(auto)]

mod bound;
mod coefficient;
mod dual;
mod least;
mod parts;
mod shares;
mod touching;

pub use bound::bound_of;
pub use dual::{plain, value};
pub use parts::Parts;

#[cfg(test)]
mod tests;
