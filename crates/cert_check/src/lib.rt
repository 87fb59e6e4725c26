//! Certificates checked: the file of one, read piece by piece, against the study and its currents.
//!
//! Costs, bounds and gaps are in whole weighted microseconds. Nothing here searches, advises or rounds, and nothing that
//! a certificate says is believed: its tree is walked, its settings are tried, and its claim is compared with both.
#![tactic(auto)]

mod checker;
mod claim;
mod found;
mod kind;
mod lines;
mod nodes;
mod refusal;
mod room;
mod settings;
mod stream;

pub use checker::{Checker, check};
pub use claim::{Claim, check_claim, study_head};
pub use found::{Found, found_in};
pub use kind::ClaimKind;
pub use refusal::CheckRefusal;
