//! The files of the disk. What a real file holds is outside what is proved.
ghost use Rattle.std.specs.Prelude.{◌≡◌, None, ◌≤◌, IfOk, length};
ghost use Rattle.coord_io.specs.Refusals.{fail_of};

use crate::counts::raise;
use crate::inodes::{Inode, Inodes, Started, inode_of};
use crate::{Failed, Folder, ReadFail};
use std::fs::{OpenFile, OpenOptions};
use std::io::{ErrorKind, Read, Seek, SeekFrom, Write};
use std::marker::Model;
use std::rt::Files;
use std::{fs, io};

/// The files of the disk, by path. It tells nothing of what they hold, and counts each error.
///
/// The file that was read last stays open, so that its pieces are those of one file. A file that was read isn't started,
/// whatever path leads to it, nor is the one that was started last under another name: `start` fails and leaves it as it is.
#[derive(Drop)]
pub struct DiskFolder<'a, R: Files> {
    rt: &'a R,
    last: Option<Opened<R::File>>,
    read: Inodes,
    started: Option<Started>,
    read_faults: u64,
    write_faults: u64,
}

/// An open file with its name.
#[derive(Drop)]
struct Opened<F> {
    name: String,
    file: F,
}

impl<'a, R: Files> Model for DiskFolder<'a, R> {
    ghost use Rattle.coord_io.specs.Faults.{FolderFaults};

    ghost Value = { FolderFaults };

    ghost view = { λ s. record { reads = s.read_faults; writes = s.write_faults } };
}

impl<'a, R: Files> DiskFolder<'a, R> {
    /// The files that the runtime reaches.
    pub fn new(rt: &'a R) -> DiskFolder<'a, R>
        ensures { result ≡ record { reads = 0; writes = 0 } }
    {
        DiskFolder {
            rt,
            last: None,
            read: Inodes::new(),
            started: None,
            read_faults: 0,
            write_faults: 0,
        }
    }
}

impl<'a, R: Files + AllocGlobal> Folder for DiskFolder<'a, R> {
    ghost state = { λ s. record { files = None; reads = s.reads; writes = s.writes } };

    fn read_at(&mut self, name: &str, place: u64, buf: &mut [u8]) -> Result<usize, ReadFail> {
        match read_from(self.rt, &mut self.last, &mut self.read, name, place, buf) {
            Ok(count) => Ok(count),
            Err(error) => {
                raise(&mut self.read_faults);
                Err(read_fail(error.kind()))
            }
        }
    }

    fn start(&mut self, name: &str) -> Result<(), Failed> {
        self.last = None;
        match start_new(self.rt, &self.read, &mut self.started, name) {
            Ok(()) => Ok(()),
            Err(_error) => {
                raise(&mut self.write_faults);
                Err(Failed)
            }
        }
    }

    fn append(&mut self, name: &str, piece: &[u8]) -> Result<usize, Failed> {
        match append_to(self.rt, name, piece) {
            Ok(count) if count > 0 || piece.is_empty() => Ok(count),
            _ => {
                raise(&mut self.write_faults);
                Err(Failed)
            }
        }
    }
}

/// What a read answers at an error of that kind.
fn read_fail(kind: ErrorKind) -> ReadFail
    ensures { result ≡ fail_of kind }
{
    match kind {
        ErrorKind::NotFound => ReadFail::Missing,
        _ => ReadFail::Failed,
    }
}

/// Reads once from that place on. A reading from the start opens the file of that name anew, and notes that it was read.
fn read_from<R: Files + AllocGlobal>(
    rt: &R,
    last: &mut Option<Opened<R::File>>,
    read: &mut Inodes,
    name: &str,
    place: u64,
    buf: &mut [u8],
) -> io::Result<usize>
    ensures { IfOk result (λ count. count ≤ length buf.old) }
{
    if let Some(opened) = last {
        if place > 0 && opened.name.as_bytes() == name.as_bytes() {
            return read_once(&mut opened.file, place, buf);
        }
    }
    let mut file = fs::open(rt, name)?;
    read.note(inode_of(&file.metadata()?));
    let count = read_once(&mut file, place, buf)?;
    // Without memory for the name the next piece opens the file again.
    *last = match String::from_str(rt.alloc(), name) {
        Ok(name) => Some(Opened { name, file }),
        Err(_) => None,
    };
    Ok(count)
}

/// Reads once from that place of an open file on.
fn read_once<F: Read + Seek>(file: &mut F, place: u64, buf: &mut [u8]) -> io::Result<usize>
    ensures { IfOk result (λ count. count ≤ length buf.old) }
{
    file.seek(SeekFrom::Start(place))?;
    file.read(buf)
}

/// Makes the file, empty, or empties it, unless it was read, or started last under another name.
///
/// It is opened as it is, and emptied only once it is known which file it is.
fn start_new(
    rt: &(impl Files + AllocGlobal),
    read: &Inodes,
    started: &mut Option<Started>,
    name: &str,
) -> io::Result<()> {
    let file = OpenOptions::new().write(true).create(true).open(rt, name)?;
    let metadata = file.metadata()?;
    let inode = inode_of(&metadata);
    if read.may_have(inode) || is_under_another(started, inode, name) {
        return Err(io::Error::from(ErrorKind::AlreadyExists));
    }
    *started = Some(Started::new(rt.alloc(), inode, name));
    // What has no length, as a terminal, can't be cut.
    if metadata.len() == 0 {
        return Ok(());
    }
    file.set_len(0)
}

/// Whether the file was started last, and may have been under another name than this.
fn is_under_another(started: &Option<Started>, inode: Inode, name: &str) -> bool {
    match started {
        Some(last) => last.is_under_another(inode, name),
        None => false,
    }
}

/// Writes once at the end of a file that is there.
fn append_to(rt: &impl Files, name: &str, piece: &[u8]) -> io::Result<usize>
    ensures { IfOk result (λ count. count ≤ length piece.now) }
{
    OpenOptions::new().append(true).open(rt, name)?.write(piece)
}
