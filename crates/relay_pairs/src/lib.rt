//! Which relays back which.
//!
//! A relay backs another where it stands at the far end of another line that meets the other's bus, unless the two are
//! exempt. Parallel lines back each other by this rule. Whether a backup has a current at a fault is left to others.
#![tactic(auto)]

mod backing;

pub use backing::pairs;

#[cfg(test)]
mod tests;
