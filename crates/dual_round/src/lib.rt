//! Dual values in fixed point, rounded to the whole weights that a certificate states.
//!
//! A value has up to 64 binary places. At most 64 rows keep a weight.
#![tactic(auto)]

mod kept;
mod scaled;
mod weights;

pub use weights::round;
