//! The settings sheet: what the engineer sets on the relays, with the ending, the cost and the bound.
//!
//! Plugs are printed in secondary amperes with two decimals, dials with three, costs and bounds in weighted
//! microseconds. A text is read back only where it is the one spelling of a sheet of the study; else the first line is
//! named at which it stops being one.
#![tactic(auto)]

mod elements;
mod head;
mod lines;
mod reader;
mod refusal;
mod relay_lines;
mod sheet;
mod text;

pub use coord_text::push_amount;
pub use lines::push_relay_lines;
pub use reader::read_sheet;
pub use refusal::{SheetKind, SheetRefusal};
pub use sheet::Sheet;
pub use text::sheet_bytes;

#[cfg(test)]
mod tests;
