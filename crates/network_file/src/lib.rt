//! The network file: a TOML document, read as a study or as its first fault, and printed from a study.
//!
//! A fault tells the table, which of its kind it is, from 1 (0 for the top and the study), and the key. Plugs
//! are in hundredths of a secondary ampere, dials in thousandths.
#![tactic(auto)]

mod entries;
mod fault;
mod fields;
mod named;
mod names;
mod network;
mod new_table;
mod numbered;
mod pairs;
mod print;
mod study;
mod told;
mod words;

pub use fault::NetFault;
pub use network::read_network;
pub use print::print_network;
pub use words::word;
