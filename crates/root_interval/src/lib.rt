//! The 50th root of a multiple of pickup, enclosed in fixed point.
//!
//! Numbers are in units of 2^-56. The root lies between the two ends that `root50` answers, which are
//! at most 2^14 units apart. They are fixed exactly, so that all who enclose a curve's time enclose it
//! alike. Which curves need the root, and what is made of it, is left to the crates of the curves.
#![tactic(auto)]

mod power;
mod product;
mod root;

pub use power::{pow50_down, pow50_up};
pub use product::{ONE, mul_down, mul_up};
pub use root::{ends_never_fall, root50};
