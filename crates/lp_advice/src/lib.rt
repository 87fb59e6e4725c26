//! Advice for a search: weights that may bound a box, pickups that may be good, and where to split.
//!
//! No clause says anything of what is advised: whoever asks checks the answer.
#![tactic(auto)]

mod advising;
mod ahead;
mod basis;
mod blocking;
mod candidates;
mod duals;
mod factors;
mod fixed;
mod memory;
mod mixing;
mod peeling;
mod pickups;
mod pivot;
mod programme;
mod scale;
mod seeking;
mod simplex;
mod splitting;
mod tables;
mod thinning;
mod worst;

pub use advice::{Advice, Adviser, NullAdviser};
pub use advising::LpAdviser;
