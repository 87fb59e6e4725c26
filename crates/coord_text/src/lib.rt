//! Numbers and lines as the program writes them in its files and on its output.
//!
//! Decimal digits without leading zeros; a fixed-point number has a point before its last places. A line has at
//! most 2,048 printable characters and ends in a line feed.
#![tactic(auto)]

mod claims;
mod lines;
mod numbers;
mod words;

pub use claims::{
    bound_goes_with, cost_goes_with, ending_word, push_amount, read_amount, read_ending,
};
pub use lines::{NextLine, next_line, split_line};
pub use numbers::{push_fixed, push_number, push_signed};
pub use words::{read_fixed, read_number};
