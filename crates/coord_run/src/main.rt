//! Coord: settings for directional overcurrent relays, coordinated and certified.
//!
//! `coord solve NETWORK CURRENTS SHEET CERT` reads a network and its fault currents, and writes a certificate and a settings
//! sheet. `coord check NETWORK CURRENTS CERT` believes a certificate only after trying all of it. `coord pairs NETWORK` prints
//! which relay backs which, `coord margins NETWORK CURRENTS SHEET` the margins of a settings sheet. `coord drill N` searches a
//! ring of that many buses.
#![tactic(auto)]

mod cert_refusal_line;
mod check;
mod claim_fault;
mod drill;
mod end;
mod inputs;
mod margins;
mod pairs;
mod pieces;
mod printing;
mod program;
mod refusal;
mod refusal_line;
mod refusal_words;
mod report;
mod row_line;
mod settings;
mod solve;
mod status;
#[cfg(test)]
mod tests;
mod words;

use coord_io::{DiskFolder, StdSink};
use program::{print_usage, run};
use status::NO_MEMORY;
use std::env;
use std::io::ErrorKind;
use std::process::ExitCode;

fn main(rt: HostRuntime) -> ExitCode {
    let mut out = StdSink::new(&rt);
    let args = match env::args(&rt) {
        Ok(args) => args,
        // a word is not UTF-8
        Err(error) if error.kind() == ErrorKind::InvalidData => {
            return ExitCode::from(print_usage(&mut out));
        }
        Err(_) => return ExitCode::from(NO_MEMORY),
    };
    let mut words = Vec::new(rt.alloc());
    for word in args.skip(1) {
        if words.push(word).is_err() {
            return ExitCode::from(NO_MEMORY);
        }
    }
    let mut folder = DiskFolder::new(&rt);
    ExitCode::from(run(rt.alloc(), words.as_slice(), &mut folder, &mut out))
}
