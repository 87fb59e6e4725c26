//! The words that the program is called with: the command that they are, with its names and numbers.
//!
//! The first word is the command. `clap` reads the words after it, by the same rules for every command, and a command's
//! line in the table says what it takes of them: how many names, whether no two may be equal, the number after them, and
//! the options.
//!
//! A new command is a variant of `Command` and an entry in the table, both here (`read_words`) and among the definitions
//! (`Words`, `Table`), with the function that makes the variant of what the line read. No proof is added for it.
#![tactic(auto)]

mod command;
mod line;
mod numbers;
mod rules;
#[cfg(test)]
mod tests;

pub use command::{Command, WordsRefusal, read_words};
