//! What is wrong with a network file, and where.
ghost use Rattle.std.specs.Prelude.{◌≡◌, None};
ghost use Rattle.network_file.specs.declared.fault.NetFault.TheVariants as of;
ghost use Rattle.network_file.specs.Fault.{fault_at, fault_in};

use coord_model::{Key, NetKind, TableName, What};
use std::alloc::{AllocError, AllocFailed};
use thiserror::Error;

/// Why a network file isn't read.
///
/// `index` counts the elements of a table from 1, and is 0 for the top and the study. An unknown key and an
/// element that is no table have no `key`.
#[derive(Clone, Copy, PartialEq, Eq, Debug, Error)]
pub enum NetFault {
    #[error("the bytes are no text")]
    NotText,
    #[error("the text is no TOML document")]
    NotToml,
    #[error("{kind:?} in {table:?} {index}")]
    At {
        kind: NetKind,
        table: TableName,
        index: u16,
        key: Option<Key>,
    },
    #[error("more than {limit} {what:?}")]
    TooMany {
        what: What,
        limit: u32,
    },
    #[error("memory ran out")]
    NoMemory,
}

impl From<AllocError> for NetFault {
    ghost from_gives = { λ _ fault. fault ≡ of.NoMemory };

    fn from(_refused: AllocError) -> NetFault {
        NetFault::NoMemory
    }
}

impl<T: Drop> From<AllocFailed<T>> for NetFault {
    ghost from_gives = { λ _ fault. fault ≡ of.NoMemory };

    fn from(_refused: AllocFailed<T>) -> NetFault {
        NetFault::NoMemory
    }
}

/// One of the tables of a kind: which one, from 1, or 0 for the top and the study.
#[derive(Clone, Copy)]
pub(crate) struct Place {
    pub table: TableName,
    pub index: u16,
}

impl Place {
    /// A fault of the place at a key.
    pub(crate) fn fault(self, kind: NetKind, key: Key) -> NetFault
        ensures { result ≡ fault_at self kind key }
    {
        NetFault::At {
            kind,
            table: self.table,
            index: self.index,
            key: Some(key),
        }
    }

    /// A fault of the place as a whole.
    pub(crate) fn whole_fault(self, kind: NetKind) -> NetFault
        ensures { result ≡ fault_in self kind }
    {
        NetFault::At {
            kind,
            table: self.table,
            index: self.index,
            key: None,
        }
    }
}
