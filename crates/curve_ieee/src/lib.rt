//! The curves MI, VI and EI of IEEE C37.112, as enclosures of their operating times.
//!
//! A time is at dial 1 in whole nanoseconds, between a lower end and an upper end. The curve's constant term
//! is inside the ends, so that the dial multiplies the whole bracket (ours). Which multiple of pickup a relay
//! sees, its cap and its dial are left to the crates above.
#![tactic(auto)]

mod curve;

pub use curve::IeeeCurve;
