//! Files by name and a sink for what is printed, with counts of faults that say why a call failed.
//!
//! A contract sees a folder and a sink as their state: what they tell, and how often a call failed. Those in memory tell
//! their files and their bytes, the disk and standard output don't. `Failed` is answered only if the count of faults rose in
//! that call. The quiet ones never fail: they tell all until something outgrows its room, and nothing from then on. Nothing
//! here interprets a byte.
#![tactic(auto)]

mod counts;
mod disk;
mod fail;
mod folder;
mod inodes;
mod mem_file;
mod mem_folder;
mod mem_sink;
mod quiet_file;
mod quiet_folder;
mod quiet_sink;
mod read;
mod refusals;
mod room;
mod sink;
mod std_sink;
mod write;

pub use disk::DiskFolder;
pub use fail::{CallKind, Fail};
pub use folder::Folder;
pub use mem_file::{MemFile, names_differ};
pub use mem_folder::MemFolder;
pub use mem_sink::MemSink;
pub use quiet_file::{QuietFile, are_quiet};
pub use quiet_folder::QuietFolder;
pub use quiet_sink::QuietSink;
pub use read::{PIECE, read_whole};
pub use refusals::{Failed, ReadFail, ReadRefusal};
pub use sink::Sink;
pub use std_sink::StdSink;
pub use write::{append_whole, put_whole, write_whole};
