//! Printing a text, with the status that goes with it.
ghost use Rattle.std.specs.Prelude.{◌≡◌, IfOk, IfErr};
ghost use Rattle.coord_run.specs.Printing.{Prints};

use crate::status::{NO_MEMORY, WRITE_FAULT};
use coord_io::{Failed, Sink, write_whole};
use coord_model::NoMemory;

/// Prints the line of a refusal, and answers its status. Without memory for the line nothing is printed.
pub fn refuse<K: Sink>(out: &mut K, line: Result<Vec<u8>, NoMemory>, status: u8) -> u8
    ensures line { IfOk line (λ text. Prints text.items status (K.state out.old) (K.state out.new) result) }
    ensures memory { IfErr line (λ _. (result ≡ 30) × (K.state out.new ≡ K.state out.old)) }
{
    match line {
        Ok(text) => print(out, text.as_slice(), status),
        Err(NoMemory) => NO_MEMORY,
    }
}

/// Prints a text, and answers the status: its own, or 11 if printing failed.
pub fn print<K: Sink>(out: &mut K, text: &[u8], status: u8) -> u8
    ensures { Prints text.now status (K.state out.old) (K.state out.new) result }
{
    match write_whole(out, text) {
        Ok(()) => status,
        Err(Failed) => WRITE_FAULT,
    }
}
