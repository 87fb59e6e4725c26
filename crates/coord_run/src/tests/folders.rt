//! Folders in memory that are slow or have no end.
ghost use Rattle.std.specs.Prelude.{◌^◌, ◌-◌, None, Some};

use coord_io::{Failed, Folder, MemFolder, ReadFail};

/// Files in memory, of which each call gives one byte or takes one byte.
#[derive(Drop)]
pub struct ByteFolder {
    pub files: MemFolder,
}

impl Folder for ByteFolder {
    ghost state = { λ s. record { files = Some s.files.files; reads = s.files.reads; writes = s.files.writes } };

    fn read_at(&mut self, name: &str, place: u64, buf: &mut [u8]) -> Result<usize, ReadFail> {
        let wanted = buf.len().min(1);
        self.files.read_at(name, place, &mut buf[..wanted])
    }

    fn start(&mut self, name: &str) -> Result<(), Failed> {
        self.files.start(name)
    }

    fn append(&mut self, name: &str, piece: &[u8]) -> Result<usize, Failed> {
        self.files.append(name, &piece[..piece.len().min(1)])
    }
}

/// Files in memory, but that the file `c` has no end: each of its bytes is `x`. It can't be written to.
///
/// It tells nothing, and its counts stand at their last value, which counts as rising at each call.
#[derive(Drop)]
pub struct EndlessFolder {
    pub files: MemFolder,
}

impl Folder for EndlessFolder {
    ghost state = { λ s. record { files = None; reads = 2 ^ 64 - 1; writes = 2 ^ 64 - 1 } };

    fn read_at(&mut self, name: &str, place: u64, buf: &mut [u8]) -> Result<usize, ReadFail> {
        if name == "c" {
            buf.fill(b'x');
            return Ok(buf.len());
        }
        self.files.read_at(name, place, buf)
    }

    fn start(&mut self, _name: &str) -> Result<(), Failed> {
        Err(Failed)
    }

    fn append(&mut self, _name: &str, _piece: &[u8]) -> Result<usize, Failed> {
        Err(Failed)
    }
}
