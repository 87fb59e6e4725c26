//! A sink in memory, with failures that are planned.
ghost use Rattle.std.specs.Prelude.{◌≡◌, [], Some};

use crate::counts::raise;
use crate::fail::counts_out;
use crate::{Failed, Sink};
use std::alloc::Global;
use std::marker::Model;

/// A sink in memory. It tells all its bytes, and fails where a failure is planned or memory runs out.
#[derive(Drop)]
pub struct MemSink {
    bytes: Vec<u8>,
    fails: Vec<u32>,
    faults: u64,
}

impl Model for MemSink {
    ghost use Rattle.coord_io.specs.Memory.{MemSinkData};

    ghost Value = { MemSinkData };

    ghost view = { λ s. record { written = s.bytes.items; faults = s.faults } };
}

impl MemSink {
    /// An empty sink whose calls of these numbers fail, counted from 1. It takes no memory.
    ///
    /// Which call fails is shown by tests alone.
    pub fn new(alloc: Global, fails: Vec<u32>) -> MemSink
        ensures { result ≡ record { written = []; faults = 0 } }
    {
        MemSink {
            bytes: Vec::new(alloc),
            fails,
            faults: 0,
        }
    }

    /// All bytes that were written.
    pub fn bytes(&self) -> &[u8]
        ensures { result.now ≡ self.now.written }
    {
        &self.bytes
    }
}

impl Sink for MemSink {
    ghost state = { λ s. record { written = Some s.written; faults = s.faults } };

    fn write(&mut self, piece: &[u8]) -> Result<usize, Failed> {
        if is_due(&mut self.fails) {
            raise(&mut self.faults);
            return Err(Failed);
        }
        let Ok(()) = self.bytes.extend_from_slice(piece) else {
            raise(&mut self.faults);
            return Err(Failed);
        };
        Ok(piece.len())
    }
}

/// Counts a call in each entry, and says whether it is to fail.
fn is_due(fails: &mut [u32]) -> bool {
    let mut due = false;
    for left in fails.iter_mut() {
        due |= counts_out(left);
    }
    due
}
