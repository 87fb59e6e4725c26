//! Where a program prints, which may fail.
ghost use Rattle.std.specs.Prelude.{◌<◌, ◌≤◌, length, take, IfOk, OnErr};
ghost use Rattle.coord_io.specs.Faults.{Rose};
ghost use Rattle.coord_io.specs.Outside.{SinkState, Takes};
ghost use Rattle.coord_io.specs.Written.{Gained, GainedPart};

use crate::Failed;

/// Takes bytes in order. Writing may fail at any call, and each failure is counted.
pub trait Sink {
    /// What the sink tells: the bytes that were written, if it tells them, and how often writing failed.
    ghost state: { Self → SinkState };

    /// Takes the first bytes of the piece, and answers how many: at least one, unless the piece is empty.
    fn write(&mut self, piece: &[u8]) -> Result<usize, Failed>
        ensures within { IfOk result (λ count. count ≤ length piece.now) }
        ensures some { IfOk result (λ count. 0 < length piece.now → 0 < count) }
        ensures added { IfOk result (λ count. Takes (state self.old) (state self.new) (Gained (take count piece.now))) }

        ensures part { OnErr result (Takes (state self.old) (state self.new) (GainedPart piece.now)) }
        ensures failed { OnErr result (Rose (state self.old).faults (state self.new).faults) }
        ensures counted { (state self.old).faults ≤ (state self.new).faults };
}
