//! A folder in memory, with failures that are planned.
ghost use Rattle.std.specs.Prelude.{◌≡◌, Some, option_copied};
ghost use Rattle.coord_io.specs.Files.{held};
ghost use Rattle.coord_io.specs.Memory.{files_of, HaveDistinctNames};

use crate::counts::raise;
use crate::fail::is_due;
use crate::mem_file::{add, bytes_of, copy_from, make_empty};
use crate::{CallKind, Fail, Failed, Folder, MemFile, ReadFail};
use std::alloc::Global;
use std::marker::Model;

/// Files in memory. It tells them all, and fails where a failure is planned or memory runs out.
#[derive(Drop)]
pub struct MemFolder {
    alloc: Global,
    files: Vec<MemFile>,
    fails: Vec<Fail>,
    read_faults: u64,
    write_faults: u64,
}

impl Model for MemFolder {
    ghost use Rattle.coord_io.specs.Memory.{files_of, folder_code, MemFolderData};

    ghost Value = { MemFolderData };

    ghost coded = { folder_code };

    ghost view = { λ s. record {
      files = files_of s.files.items;
      reads = s.read_faults;
      writes = s.write_faults;
    } };
}

impl MemFolder {
    /// A folder of these files that fails at these calls. It takes no memory.
    ///
    /// Which call fails is shown by tests alone.
    pub fn new(alloc: Global, files: Vec<MemFile>, fails: Vec<Fail>) -> MemFolder
        requires { HaveDistinctNames files.items }
        ensures { result ≡ record { files = files_of files.items; reads = 0; writes = 0 } }
    {
        MemFolder {
            alloc,
            files,
            fails,
            read_faults: 0,
            write_faults: 0,
        }
    }

    /// The bytes of the file of that name. `None`: there is none.
    pub fn bytes(&self, name: &str) -> Option<&[u8]>
        ensures { option_copied result ≡ held self.now.files name.now }
    {
        bytes_of(&self.files, name)
    }
}

impl Folder for MemFolder {
    ghost state = { λ s. record { files = Some s.files; reads = s.reads; writes = s.writes } };

    fn read_at(&mut self, name: &str, place: u64, buf: &mut [u8]) -> Result<usize, ReadFail> {
        if is_due(&mut self.fails, CallKind::ReadAt, name) {
            raise(&mut self.read_faults);
            return Err(ReadFail::Failed);
        }
        let Some(bytes) = bytes_of(&self.files, name) else {
            return Err(ReadFail::Missing);
        };
        Ok(copy_from(bytes, place, buf))
    }

    fn start(&mut self, name: &str) -> Result<(), Failed> {
        if is_due(&mut self.fails, CallKind::Start, name) {
            raise(&mut self.write_faults);
            return Err(Failed);
        }
        let Ok(()) = make_empty(self.alloc, &mut self.files, name) else {
            raise(&mut self.write_faults);
            return Err(Failed);
        };
        Ok(())
    }

    fn append(&mut self, name: &str, piece: &[u8]) -> Result<usize, Failed> {
        if is_due(&mut self.fails, CallKind::Append, name) {
            raise(&mut self.write_faults);
            return Err(Failed);
        }
        let Ok(()) = add(&mut self.files, name, piece) else {
            raise(&mut self.write_faults);
            return Err(Failed);
        };
        Ok(piece.len())
    }
}
