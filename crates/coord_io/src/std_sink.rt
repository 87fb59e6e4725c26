//! Standard output. What a terminal shows is outside what is proved.
ghost use Rattle.std.specs.Prelude.{◌≡◌, None};

use crate::counts::raise;
use crate::{Failed, Sink};
use std::marker::Model;

/// Standard output. It tells nothing of what was written, and counts each error.
#[derive(Drop)]
pub struct StdSink<'a, R: Print> {
    rt: &'a R,
    faults: u64,
}

impl<'a, R: Print> Model for StdSink<'a, R> {
    ghost use Rattle.std.specs.Prelude.{ℕ};

    ghost Value = { ℕ };

    ghost view = { λ s. s.faults };
}

impl<'a, R: Print> StdSink<'a, R> {
    /// The output of the runtime. A contract sees the sink as its count of faults.
    pub fn new(rt: &'a R) -> StdSink<'a, R>
        ensures { result ≡ 0 }
    {
        StdSink { rt, faults: 0 }
    }
}

impl<'a, R: Print> Sink for StdSink<'a, R> {
    ghost state = { λ s. record { written = None; faults = s } };

    fn write(&mut self, piece: &[u8]) -> Result<usize, Failed> {
        match self.rt.write_some(piece) {
            Ok(count) if count > 0 || piece.is_empty() => Ok(count),
            _ => {
                raise(&mut self.faults);
                Err(Failed)
            }
        }
    }
}
