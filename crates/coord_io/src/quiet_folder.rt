//! A folder that never fails.
ghost use Rattle.std.specs.Prelude.{◌≡◌, Some, IfOk, option_copied};
ghost use Rattle.std.specs.Option.{option_and_then};
ghost use Rattle.coord_io.specs.Files.{held};
ghost use Rattle.coord_io.specs.Quiet.{AreQuiet, emptied, grown, quiet_files, rooms_of};

use crate::mem_file::copy_from;
use crate::quiet_file::{add, bytes_of, empty, reserve_rooms};
use crate::{Failed, Folder, QuietFile, ReadFail};
use coord_model::NoMemory;
use std::marker::Model;

/// Files in memory, each with its room. No call on it fails, and none takes memory.
///
/// It tells its files until a file that it doesn't have is started or a piece outgrows a file's room. From then on it
/// tells nothing: a read gives no bytes, and what is written is taken and dropped.
#[derive(Drop)]
pub struct QuietFolder {
    files: Vec<QuietFile>,
    tells: bool,
}

impl Model for QuietFolder {
    ghost use Rattle.std.specs.Prelude.{All, if◌then◌else◌, Some, None};
    ghost use Rattle.coord_io.specs.Quiet.{IsReserved, QuietFolderData, quiet_code, quiet_files, rooms_of};

    ghost Value = { QuietFolderData };

    ghost coded = { quiet_code };

    ghost view = { λ s. record {
      files = if s.tells then Some (quiet_files s.files.items) else None;
      rooms = rooms_of s.files.items;
    } };

    ghost invariant = { λ s. All IsReserved s.files.items };
}

impl QuietFolder {
    /// A folder of these files, and of no others. It reserves the room of each.
    pub fn new(files: Vec<QuietFile>) -> Result<QuietFolder, NoMemory>
        requires { AreQuiet files.items }
        ensures { IfOk result (λ folder. folder ≡ record { files = Some (quiet_files files.items); rooms = rooms_of files.items }) }
    {
        let mut files = files;
        reserve_rooms(&mut files)?;
        Ok(QuietFolder { files, tells: true })
    }

    /// The bytes of the file of that name. `None`: there is none, or the folder tells no more.
    pub fn bytes(&self, name: &str) -> Option<&[u8]>
        ensures { option_copied result ≡ option_and_then (λ m. held m name.now) self.now.files }
    {
        if self.tells {
            bytes_of(&self.files, name)
        } else {
            None
        }
    }

    /// Empties the file of that name. The folder tells its files, if it told them before and has that one.
    fn empty(&mut self, name: &str)
        ensures { self.new ≡ record { files = option_and_then (emptied name.now) self.old.files; rooms = self.old.rooms } }
    {
        if self.tells {
            self.tells = empty(&mut self.files, name);
        }
    }

    /// Adds the piece to the file of that name. The folder tells its files, if it told them before and that one stays
    /// within its room.
    fn add(&mut self, name: &str, piece: &[u8])
        ensures { self.new ≡ record { files = option_and_then (grown self.old.rooms name.now piece.now) self.old.files; rooms = self.old.rooms } }
    {
        if self.tells {
            self.tells = add(&mut self.files, name, piece);
        }
    }
}

impl Folder for QuietFolder {
    ghost use Rattle.std.specs.Prelude.{ℕ, ◌≤◌, ◌++◌, List, [], length, IsOk, IsOkAnd, IsErrOf, IsSome};
    ghost use Rattle.std.specs.Option.{ForSome};
    ghost use Rattle.coord_io.specs.Files.{Files, HasFile, Becomes, Gains, ReadsAt};
    ghost use Rattle.coord_io.specs.Goes.{Goes, Stays};
    ghost use Rattle.coord_io.specs.Outside.{IsMissing};
    ghost use Rattle.coord_io.specs.Quiet.{room_of};

    ghost state = { λ s. record { files = s.files; reads = 0; writes = 0 } };

    fn read_at(&mut self, name: &str, place: u64, buf: &mut [u8]) -> Result<usize, ReadFail>
        // A folder that tells goes on telling.
        ensures same { self.new ≡ self.old }
        ensures unchanged { Goes self.old.files self.new.files Stays }

        ensures within { IfOk result (λ count. count ≤ length buf.old) }
        ensures bytes { IfOk result (λ count. Goes self.old.files self.new.files (λ m _. ReadsAt name.now place buf.new count m)) }

        ensures missing { IsErrOf result ReadFail.Missing → IsMissing name.now
            (record { files = self.old.files; reads = 0; writes = 0 }) (record { files = self.new.files; reads = 0; writes = 0 }) }
        ensures only_missing { ¬ (IsErrOf result ReadFail.Failed) }
    {
        if !self.tells {
            return Ok(0);
        }
        let Some(bytes) = bytes_of(&self.files, name) else {
            return Err(ReadFail::Missing);
        };
        Ok(copy_from(bytes, place, buf))
    }

    fn start(&mut self, name: &str) -> Result<(), Failed>
        ensures exact { self.new ≡ record { files = option_and_then (emptied name.now) self.old.files; rooms = self.old.rooms } }
        ensures never_fails { IsOk result }

        // A folder that tells goes on telling, if it has the file.
        ensures tells { (m : Files) → self.old.files ≡ Some m → HasFile m name.now → IsSome self.new.files }
        ensures started { Goes self.old.files self.new.files (Becomes name.now []) }
    {
        self.empty(name);
        Ok(())
    }

    fn append(&mut self, name: &str, piece: &[u8]) -> Result<usize, Failed>
        requires { ForSome self.old.files (λ m. HasFile m name.now) }

        ensures exact { self.new ≡ record { files = option_and_then (grown self.old.rooms name.now piece.now) self.old.files; rooms = self.old.rooms } }
        ensures whole { IsOkAnd result (λ count. count ≡ length piece.now) }

        // A folder that tells goes on telling, if the file has room for the piece.
        ensures tells { (had : List ℕ) → option_and_then (λ m. held m name.now) self.old.files ≡ Some had
            → length (had ++ piece.now) ≤ room_of self.old.rooms name.now → IsSome self.new.files }
        ensures added { Goes self.old.files self.new.files (Gains name.now piece.now) }
    {
        self.add(name, piece);
        Ok(piece.len())
    }
}
