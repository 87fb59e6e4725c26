//! The search: branch and bound over the pickups of the relays, the box with the least bound first.
//!
//! Costs, bounds and gaps are in whole weighted microseconds. Whoever advises, the outcome is one of the machine that
//! `specs/Machine` describes: what is advised is checked.
#![tactic(auto)]

mod ending;
mod fault;
mod finish;
mod hair;
mod outcome;
mod solver;
mod taking;
mod whole;

pub use fault::SearchFault;
pub use outcome::{HairPlace, Outcome};
pub use solver::Solver;
pub use whole::search;
