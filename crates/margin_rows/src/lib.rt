//! A study with its currents, ready to be coordinated: which operating times count, where a backup has to wait, which
//! times have limits of their own, and the enclosure of each time. Over that the margins and the cost of a choice, the
//! least dials for given pickups, the least gap, and boxes of choices.
//!
//! Times are in nanoseconds at dial 1, each with a lower and an upper end. Dials are in thousandths, so that a
//! dial times a time, and a margin, is in picoseconds. Costs and gaps are in whole weighted microseconds. Which pickups
//! are best is left to others.
#![tactic(auto)]

mod demand;
mod dial;
mod enclose;
mod ends;
mod fault;
mod gap;
mod given;
mod instance;
mod least;
mod lowest;
mod margin;
mod price;
mod ranges;
mod rows;
mod runs;
mod span;
mod spans;
mod sums;
mod tables;
mod terms;
mod unmet;

pub use dial::dial_at;
pub use ends::Ends;
pub use fault::BuildFault;
pub use gap::least_gap;
pub use instance::{Instance, build};
pub use least::{loose_least, loose_step, strict_least};
pub use lowest::lowest_meet;
pub use margin::{loose_row, row_margin, strict_row};
pub use price::{cost, lower_cost};
pub use ranges::Ranges;
pub use span::Span;
pub use unmet::{first_outside, first_unmet, strict_ok};
