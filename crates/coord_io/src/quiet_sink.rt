//! A sink that never fails.
ghost use Rattle.std.specs.Prelude.{◌≡◌, ◌++◌, [], Some, IfOk, option_copied};
ghost use Rattle.std.specs.Option.{option_and_then};
ghost use Rattle.coord_io.specs.Quiet.{within};

use crate::room::add_within;
use crate::{Failed, Sink};
use coord_model::NoMemory;
use std::alloc::Global;
use std::marker::Model;

/// A sink in memory that takes every piece. It tells its bytes until a piece outgrows its room, and nothing from then on.
#[derive(Drop)]
pub struct QuietSink {
    bytes: Vec<u8>,
    room: u32,
    tells: bool,
}

impl Model for QuietSink {
    ghost use Rattle.std.specs.Prelude.{◌≤◌, if◌then◌else◌, Some, None};
    ghost use Rattle.std.specs.Vec.{vec_capacity};
    ghost use Rattle.coord_io.specs.Quiet.{QuietSinkData};

    ghost Value = { QuietSinkData };

    ghost view = { λ s. record { written = if s.tells then Some s.bytes.items else None; room = s.room } };

    ghost invariant = { λ s. s.room ≤ vec_capacity s.bytes };
}

impl QuietSink {
    /// An empty sink of that room, the most bytes that it tells.
    pub fn new(alloc: Global, room: u32) -> Result<QuietSink, NoMemory>
        ensures { IfOk result (λ sink. sink ≡ record { written = Some []; room = room }) }
    {
        let bytes = Vec::with_capacity(alloc, room as usize)?;
        Ok(QuietSink {
            bytes,
            room,
            tells: true,
        })
    }

    /// All bytes that were written. `None`: they outgrew the room.
    pub fn bytes(&self) -> Option<&[u8]>
        ensures { option_copied result ≡ self.now.written }
    {
        if self.tells {
            Some(self.bytes.as_slice())
        } else {
            None
        }
    }

    /// Takes the piece. The sink tells it, if it told all before and stays within its room.
    fn take(&mut self, piece: &[u8])
        ensures { self.new ≡ record { written = option_and_then (λ had. within self.old.room (had ++ piece.now)) self.old.written; room = self.old.room } }
    {
        if self.tells {
            self.tells = add_within(&mut self.bytes, self.room, piece);
        }
    }
}

impl Sink for QuietSink {
    ghost use Rattle.std.specs.Prelude.{ℕ, ◌≤◌, List, length, IsOkAnd, IsSome};
    ghost use Rattle.coord_io.specs.Goes.{Goes};
    ghost use Rattle.coord_io.specs.Written.{Gained};

    ghost state = { λ s. record { written = s.written; faults = 0 } };

    fn write(&mut self, piece: &[u8]) -> Result<usize, Failed>
        ensures exact { self.new ≡ record { written = option_and_then (λ had. within self.old.room (had ++ piece.now)) self.old.written; room = self.old.room } }
        ensures whole { IsOkAnd result (λ count. count ≡ length piece.now) }

        // A sink that tells goes on telling, if it has room for the piece.
        ensures tells { (had : List ℕ) → self.old.written ≡ Some had → length (had ++ piece.now) ≤ self.old.room → IsSome self.new.written }
        ensures added { Goes self.old.written self.new.written (Gained piece.now) }
    {
        self.take(piece);
        Ok(piece.len())
    }
}
