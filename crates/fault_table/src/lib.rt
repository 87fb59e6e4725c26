//! The currents table: which relay carries how many primary amperes at which fault.
//!
//! A CSV text whose header is `fault,relay,amps`. Amperes are whole, from 0 to 100,000; 0 is no current.
#![tactic(auto)]

mod entry;
mod fault;
mod records;
mod table;

pub use fault::TableFault;
pub use table::read_currents;
