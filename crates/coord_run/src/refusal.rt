//! All that the program may refuse.
use crate::claim_fault::ClaimFault;
use cert_text::CertKind;
use cert_tree::NodeKind;
use coord_model::{Key, Name, NetKind, NoMemory, TableName, What};
use settings_sheet::SheetKind;

/// A file that a command names.
#[derive(Clone, Copy)]
pub enum File {
    Network,
    Currents,
    Sheet,
    Cert,
}

/// Why a command ends before its work is done.
#[derive(Clone, Copy)]
pub enum Refusal {
    /// The folder has no such file.
    Missing(File),
    /// The folder failed while the file was read.
    ReadFault(File),
    /// The file has more bytes than may be read: 512 MiB of a certificate, 4 MiB of any other.
    TooLong(File),
    /// The network file isn't UTF-8.
    NotText,
    /// The network file isn't TOML.
    NotToml,
    /// The first fault of the network file, at this place of it.
    Network {
        kind: NetKind,
        table: TableName,
        index: u16,
        key: Option<Key>,
    },
    /// There are more of this than the limit.
    TooMany {
        what: What,
        limit: u32,
    },
    /// The currents table doesn't begin with its header.
    BadHeader,
    /// The record of this number hasn't three fields.
    BadRecord {
        n: u32,
    },
    /// The record names no fault of the study.
    UnknownFault {
        n: u32,
    },
    /// The record names no relay of the study.
    UnknownRelay {
        n: u32,
    },
    /// The record has no current in amperes.
    BadAmps {
        n: u32,
    },
    /// The record repeats the fault and the relay of an earlier one.
    DoubleEntry {
        n: u32,
    },
    /// No relay on its line has a current at the fault of this name.
    NoPrimary(Name),
    /// The gap is below the study's least gap, both in whole weighted microseconds.
    GapTooSmall {
        given: u64,
        least: u64,
    },
    /// The lines before this one begin a certificate, and with it they begin none.
    CertLine {
        line: u32,
        kind: CertKind,
    },
    /// This node of the certificate's tree, counted from 1 in pre-order, is the first that is wrong, and in this way.
    CertNode {
        number: u32,
        kind: NodeKind,
    },
    /// This is wrong with the certificate's claim first.
    CertClaim(ClaimFault),
    /// The lines before this one begin a sheet of the study, and with it they begin none.
    SheetLine {
        line: u32,
        kind: SheetKind,
    },
    /// The first box doesn't have the pickup of the relay of this name.
    SheetPickup(Name),
}

/// Why a step answers nothing: it is refused, or memory ran out.
#[derive(Clone, Copy)]
pub enum Stop {
    Refused(Refusal),
    NoMemory,
}

impl From<NoMemory> for Stop {
    ghost use Rattle.std.specs.Prelude.{◌≡◌};
    ghost use Rattle.coord_run.specs.declared.refusal.Stop.TheVariants as of;

    ghost from_gives = { λ _ stop. stop ≡ of.NoMemory };

    fn from(_refused: NoMemory) -> Stop {
        Stop::NoMemory
    }
}
