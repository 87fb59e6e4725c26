//! Files with a room of their own.
ghost use Rattle.std.specs.Prelude.{◌≡◌, ◌≤◌, ◌↔◌, All, IsTrue, OnOk, if◌then◌else◌, Some, None, position, bytes_eq, option_copied, length};
ghost use Rattle.coord_io.specs.Files.{held};
ghost use Rattle.coord_io.specs.Quiet.{AreDistinct, AreQuiet, IsReserved, IsWithin, emptied, grown, quiet_files, rooms_of};

use crate::room::add_within;
use coord_model::Name;
use std::alloc::AllocError;

/// A file with its room, the most bytes that it can come to.
#[derive(Drop)]
pub struct QuietFile {
    pub name: Name,
    pub bytes: Vec<u8>,
    pub room: u32,
}

/// Whether no two of the files have one name, and each is within its room.
pub fn are_quiet(files: &[QuietFile]) -> bool
    ensures { IsTrue result ↔ AreQuiet files.now }
{
    files.iter().all(is_within) && names_differ(files)
}

/// Whether the file is within its room.
fn is_within(file: &QuietFile) -> bool
    ensures { IsTrue result ↔ IsWithin file.now }
{
    file.bytes.len() <= file.room as usize
}

/// Whether no two of the files have one name.
fn names_differ(files: &[QuietFile]) -> bool
    ensures { IsTrue result ↔ AreDistinct files.now }
{
    for (i, file) in files.iter().enumerate() {
        if place_of(&files[i + 1..], file.name.bytes()).is_some() {
            return false;
        }
    }
    true
}

/// The place of the first file of that name.
fn place_of(files: &[QuietFile], name: &[u8]) -> Option<usize>
    ensures { result ≡ position (λ file. bytes_eq name.now file.name) files.now }
{
    files.iter().position(|file| name == file.name.bytes())
}

/// The bytes of the file of that name.
pub fn bytes_of<'a>(files: &'a [QuietFile], name: &str) -> Option<&'a [u8]>
    ensures { option_copied result ≡ held (quiet_files files.now) name.now }
{
    let at = place_of(files, name.as_bytes())?;
    Some(files[at].bytes.as_slice())
}

/// Reserves the memory for the room of each file.
pub fn reserve_rooms(files: &mut [QuietFile]) -> Result<(), AllocError>
    requires { All IsWithin files.old }
    ensures files { OnOk result (quiet_files files.new ≡ quiet_files files.old) }
    ensures rooms { OnOk result (rooms_of files.new ≡ rooms_of files.old) }
    ensures reserved { OnOk result (All IsReserved files.new) }
{
    for file in files.iter_mut() {
        reserve_room(file)?;
    }
    Ok(())
}

/// Reserves the memory for the room of the file.
fn reserve_room(file: &mut QuietFile) -> Result<(), AllocError>
    requires { IsWithin file.old }
    ensures name { file.new.name ≡ file.old.name }
    ensures bytes { file.new.bytes.items ≡ file.old.bytes.items }
    ensures room { file.new.room ≡ file.old.room }
    ensures reserved { OnOk result (IsReserved file.new) }
{
    file.bytes
        .reserve_exact(file.room as usize - file.bytes.len())
}

/// Empties the file of that name, and says whether there is one.
pub fn empty(files: &mut Vec<QuietFile>, name: &str) -> bool
    requires { All IsReserved files.old.items }
    ensures exact { (if result then Some (quiet_files files.new.items) else None) ≡ emptied name.now (quiet_files files.old.items) }
    ensures rooms { rooms_of files.new.items ≡ rooms_of files.old.items }
    ensures reserved { All IsReserved files.new.items }
{
    let Some(at) = place_of(files, name.as_bytes()) else {
        return false;
    };
    files[at].bytes.clear();
    true
}

/// Adds the piece to the file of that name, and says whether there is one and the piece is within its room.
pub fn add(files: &mut Vec<QuietFile>, name: &str, piece: &[u8]) -> bool
    requires { All IsReserved files.old.items }
    ensures exact { (if result then Some (quiet_files files.new.items) else None) ≡ grown (rooms_of files.old.items) name.now piece.now (quiet_files files.old.items) }
    ensures rooms { rooms_of files.new.items ≡ rooms_of files.old.items }
    ensures reserved { All IsReserved files.new.items }
{
    let Some(at) = place_of(files, name.as_bytes()) else {
        return false;
    };
    let file = &mut files[at];
    add_within(&mut file.bytes, file.room, piece)
}
