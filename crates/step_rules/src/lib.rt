//! What becomes of an open box of a search: the rules of a step.
//!
//! Bounds, costs and gaps are in whole weighted microseconds. Which box is handled next, and when the search ends, is
//! left to others.
#![tactic(auto)]

mod best;
mod handling;
mod issued;
mod offers;
mod open_box;
mod place;
mod rules;
mod tight_box;
mod weights;

pub use handling::Handling;
pub use issued::Issued;
pub use open_box::OpenBox;
pub use rules::handle;
