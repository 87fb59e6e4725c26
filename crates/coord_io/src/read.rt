//! Reading a whole file.
ghost use Rattle.std.specs.Prelude.{◌≡◌, ℕ, ◌<◌, ◌≤◌, List, Some, length, IfOk, IsErrOf};
ghost use Rattle.coord_io.specs.Faults.{Rose};
ghost use Rattle.coord_io.specs.Files.{held, IsLonger};
ghost use Rattle.coord_io.specs.Goes.{Stays};
ghost use Rattle.coord_io.specs.Outside.{Changes, IsMissing, Told};

use crate::{Folder, ReadRefusal};
use std::alloc::Global;

/// The most bytes that are asked for, or handed over, at once.
pub const PIECE: usize = 65_536;

/// Reads the file of that name to its end, if it has at most `limit` bytes.
///
/// `TooLong`: one byte more than the limit was read. `Missing`: there is no such file. `Failed`: the folder
/// failed. Each turn of the reading takes at least one byte or ends it, whatever the folder answers.
pub fn read_whole<F: Folder>(
    alloc: Global,
    folder: &mut F,
    name: &str,
    limit: u64,
) -> Result<Vec<u8>, ReadRefusal>
    ensures within { IfOk result (λ read. length read.items ≤ limit) }
    ensures whole { IfOk result (λ read. Told (F.state folder.old) (F.state folder.new) (λ m. held m name.now ≡ Some read.items)) }

    ensures too_long { (most : ℕ) → IsErrOf result (ReadRefusal.TooLong most) →
        (most ≡ limit) × Told (F.state folder.old) (F.state folder.new) (λ m. IsLonger m name.now limit) }
    ensures missing { IsErrOf result ReadRefusal.Missing → IsMissing name.now (F.state folder.old) (F.state folder.new) }
    ensures failed { IsErrOf result ReadRefusal.Failed →
        Rose (F.state folder.old).reads (F.state folder.new).reads }

    ensures unchanged { Changes (F.state folder.old) (F.state folder.new) Stays }
    ensures reads_counted { (F.state folder.old).reads ≤ (F.state folder.new).reads }
    ensures writes_left { (F.state folder.new).writes ≡ (F.state folder.old).writes }
{
    let mut piece = [0; PIECE];
    let mut read = Vec::new(alloc);
    loop {
        let room = limit - read.len() as u64;
        let wanted = room.min(PIECE as u64 - 1) as usize + 1;
        let count = folder.read_at(name, read.len() as u64, &mut piece[..wanted])?;
        if count == 0 {
            return Ok(read);
        }
        if count as u64 > room {
            return Err(ReadRefusal::TooLong { limit });
        }
        read.extend_from_slice(&piece[..count])?;
    }
}
