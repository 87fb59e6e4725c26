//! The curves A, B and C of IEC 60255-151, as enclosures of their operating times.
//!
//! A time is at dial 1 in whole nanoseconds, between a lower end and an upper end. Which multiple of pickup a
//! relay sees, its cap and its dial are left to the crates above.
#![tactic(auto)]

mod curve;

pub use curve::IecCurve;
