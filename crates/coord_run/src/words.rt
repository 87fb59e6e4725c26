//! The words that the program is called with, and the files that they name.
pub use coord_words::{Command, WordsRefusal, read_words};

/// The network, the currents table, the sheet and the certificate that a command names.
#[derive(Clone, Copy)]
pub struct Names<'a> {
    pub network: &'a str,
    pub currents: &'a str,
    pub sheet: &'a str,
    pub cert: &'a str,
}
