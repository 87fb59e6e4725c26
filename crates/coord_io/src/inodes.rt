//! Which files of the disk were read, and which was started, whatever path leads to them.
use std::alloc::Global;
use std::fs::Metadata;
use std::os::unix::fs::MetadataExt;

/// The most files that are told apart.
const MOST_READ: usize = 4;

/// A file of the disk: its device, and its number there.
#[derive(Clone, Copy, PartialEq, Eq)]
pub struct Inode {
    device: u64,
    number: u64,
}

/// The file that the metadata are of.
pub fn inode_of(metadata: &Metadata) -> Inode {
    Inode {
        device: metadata.dev(),
        number: metadata.ino(),
    }
}

/// The files that were read, at most four of them; after a fifth any file may be one of them. It takes no memory.
///
/// That a file which was read is known again is shown by tests alone.
#[derive(Drop)]
pub struct Inodes {
    known: [Option<Inode>; MOST_READ],
    more: bool,
}

impl Inodes {
    /// None was read.
    pub fn new() -> Inodes {
        Inodes {
            known: [None; MOST_READ],
            more: false,
        }
    }

    /// Notes that the file was read.
    pub fn note(&mut self, inode: Inode) {
        if !note_in(&mut self.known, inode) {
            self.more = true;
        }
    }

    /// Whether the file may be one that was read.
    pub fn may_have(&self, inode: Inode) -> bool {
        self.more || is_in(&self.known, inode)
    }
}

/// A file that was started, and its name, if there was memory for it.
///
/// That it is known again under another name is shown by tests alone.
#[derive(Drop)]
pub struct Started {
    inode: Inode,
    name: Option<String>,
}

impl Started {
    /// The file was started under that name.
    pub fn new(alloc: Global, inode: Inode, name: &str) -> Started {
        let name = String::from_str(alloc, name).ok();
        Started { inode, name }
    }

    /// Whether it is that file, and may have been started under another name than this.
    pub fn is_under_another(&self, inode: Inode, name: &str) -> bool {
        let same = match &self.name {
            Some(own) => own.as_bytes() == name.as_bytes(),
            None => false,
        };
        self.inode == inode && !same
    }
}

/// Notes the file at the first free place, and says whether it is noted.
fn note_in(known: &mut [Option<Inode>], inode: Inode) -> bool {
    for place in known.iter_mut() {
        match place {
            Some(other) if *other == inode => return true,
            Some(_) => {}
            None => {
                *place = Some(inode);
                return true;
            }
        }
    }
    false
}

/// Whether the file is noted.
fn is_in(known: &[Option<Inode>], inode: Inode) -> bool {
    known.iter().any(|place| *place == Some(inode))
}
