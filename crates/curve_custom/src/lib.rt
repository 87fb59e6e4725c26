//! A dependent-time curve of its own constants, as an enclosure of its operating time.
//!
//! A time is at dial 1 in whole nanoseconds, between a lower end and an upper end. Which multiple of pickup a relay
//! sees, its cap and its dial are left to the crates above.
#![tactic(auto)]

mod curve;
mod power;
mod root;

pub use curve::CustomCurve;
pub use root::roots_are_best;
