//! The tight box: what is left of a box once each end of a span that no choice can use is dropped.
//!
//! Spans are of steps, pickup steps and dial steps. Which box is tightened, and what becomes of it, is left to others.
#![tactic(auto)]

mod ends;
mod kind;
mod look;
mod round;
mod row;
mod tightening;

pub use tightening::{Tightened, tighten};

#[cfg(test)]
mod tests;
