//! Files by name, which may fail.
ghost use Rattle.std.specs.Prelude.{◌≡◌, ◌<◌, ◌≤◌, [], length, take, IfOk, OnOk, OnErr, IsErrOf};
ghost use Rattle.std.specs.Option.{ForSome};
ghost use Rattle.coord_io.specs.Faults.{Rose};
ghost use Rattle.coord_io.specs.Files.{HasFile, Becomes, StaysOrEmpty, Gains, GainsPart, ReadsAt};
ghost use Rattle.coord_io.specs.Goes.{Stays};
ghost use Rattle.coord_io.specs.Outside.{Changes, FolderState, IsMissing};

use crate::{Failed, ReadFail};

/// Files by name. Reading and writing may fail at any call, and each failure is counted.
pub trait Folder {
    /// What the folder tells: its files, if it tells them, and how often reading and writing failed.
    ghost state: { Self → FolderState };

    /// Puts the bytes of the file from that place on into the front of `buf`, and answers how many.
    fn read_at(&mut self, name: &str, place: u64, buf: &mut [u8]) -> Result<usize, ReadFail>
        ensures within { IfOk result (λ count. count ≤ length buf.old) }
        ensures bytes { IfOk result (λ count. Changes (state self.old) (state self.new)
            (λ m _. ReadsAt name.now place buf.new count m)) }

        ensures missing { IsErrOf result ReadFail.Missing → IsMissing name.now (state self.old) (state self.new) }
        ensures failed { IsErrOf result ReadFail.Failed → Rose (state self.old).reads (state self.new).reads }

        ensures unchanged { Changes (state self.old) (state self.new) Stays }
        ensures reads_counted { (state self.old).reads ≤ (state self.new).reads }
        ensures writes_left { (state self.new).writes ≡ (state self.old).writes };

    /// Makes the file, empty, or empties it.
    fn start(&mut self, name: &str) -> Result<(), Failed>
        ensures started { OnOk result (Changes (state self.old) (state self.new) (Becomes name.now [])) }
        ensures unstarted { OnErr result (Changes (state self.old) (state self.new) (StaysOrEmpty name.now)) }
        ensures failed { OnErr result (Rose (state self.old).writes (state self.new).writes) }
        ensures writes_counted { (state self.old).writes ≤ (state self.new).writes }
        ensures reads_left { (state self.new).reads ≡ (state self.old).reads };

    /// Adds the first bytes of the piece to the file, and answers how many: at least one, unless the piece is empty.
    fn append(&mut self, name: &str, piece: &[u8]) -> Result<usize, Failed>
        requires { ForSome (state self.old).files (λ m. HasFile m name.now) }

        ensures within { IfOk result (λ count. count ≤ length piece.now) }
        ensures some { IfOk result (λ count. 0 < length piece.now → 0 < count) }
        ensures added { IfOk result (λ count. Changes (state self.old) (state self.new)
            (Gains name.now (take count piece.now))) }

        ensures part { OnErr result (Changes (state self.old) (state self.new) (GainsPart name.now piece.now)) }
        ensures failed { OnErr result (Rose (state self.old).writes (state self.new).writes) }

        ensures writes_counted { (state self.old).writes ≤ (state self.new).writes }
        ensures reads_left { (state self.new).reads ≡ (state self.old).reads };
}
