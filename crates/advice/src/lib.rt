//! What a search asks of an adviser, and the adviser that says nothing of use.
//!
//! No clause says anything of what is advised: whoever asks checks the answer.
#![tactic(auto)]

mod adviser;
mod null;

pub use adviser::{Advice, Adviser};
pub use null::NullAdviser;
