//! Files in memory.
ghost use Rattle.std.specs.Prelude.{◌≡◌, ◌≤◌, ◌↔◌, [], IsTrue, OnOk, OnErr, length, position, bytes_eq, option_copied};
ghost use Rattle.coord_io.specs.Files.{held, HasFile, Becomes, Gains, CopiesFront};
ghost use Rattle.coord_io.specs.Memory.{files_of, name_of, HaveDistinctNames};

use std::alloc::{AllocError, Global};

/// A file in memory.
#[derive(Drop)]
pub struct MemFile {
    pub name: String,
    pub bytes: Vec<u8>,
}

/// Whether no two of the files have one name.
pub fn names_differ(files: &[MemFile]) -> bool
    ensures { IsTrue result ↔ HaveDistinctNames files.now }
{
    for (i, file) in files.iter().enumerate() {
        if place_of(&files[i + 1..], file.name.as_str()).is_some() {
            return false;
        }
    }
    true
}

/// The place of the first file of that name.
fn place_of(files: &[MemFile], name: &str) -> Option<usize>
    ensures { result ≡ position (λ file. bytes_eq name.now (name_of file)) files.now }
{
    files
        .iter()
        .position(|file| name.as_bytes() == file.name.as_bytes())
}

/// The bytes of the file of that name.
pub fn bytes_of<'a>(files: &'a [MemFile], name: &str) -> Option<&'a [u8]>
    ensures { option_copied result ≡ held (files_of files.now) name.now }
{
    let at = place_of(files, name)?;
    Some(files[at].bytes.as_slice())
}

/// Copies the bytes from that place on into the front of `buf`, and answers how many.
pub fn copy_from(bytes: &[u8], place: u64, buf: &mut [u8]) -> usize
    ensures within { result ≤ length buf.old }
    ensures front { CopiesFront bytes.now place buf.new result }
{
    let rest = &bytes[place.min(bytes.len() as u64) as usize..];
    let count = rest.len().min(buf.len());
    buf[..count].copy_from_slice(&rest[..count]);
    count
}

/// Makes the file of that name, empty, or empties it.
pub fn make_empty(alloc: Global, files: &mut Vec<MemFile>, name: &str) -> Result<(), AllocError>
    ensures ok { OnOk result (Becomes name.now [] (files_of files.old.items) (files_of files.new.items)) }
    ensures err { OnErr result (files_of files.new.items ≡ files_of files.old.items) }
{
    match place_of(files, name) {
        Some(at) => files[at].bytes.clear(),
        None => {
            let name = String::from_str(alloc, name)?;
            files.push(MemFile {
                name,
                bytes: Vec::new(alloc),
            })?;
        }
    }
    Ok(())
}

/// Adds the piece to the file of that name.
pub fn add(files: &mut Vec<MemFile>, name: &str, piece: &[u8]) -> Result<(), AllocError>
    requires { HasFile (files_of files.old.items) name.now }
    ensures ok { OnOk result (Gains name.now piece.now (files_of files.old.items) (files_of files.new.items)) }
    ensures err { OnErr result (files_of files.new.items ≡ files_of files.old.items) }
{
    let at = place_of(files, name).unwrap();
    files[at].bytes.extend_from_slice(piece)
}
