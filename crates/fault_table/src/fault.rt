//! What is wrong with a currents table.

use coord_model::NoMemory;
use std::alloc::AllocFailed;
use thiserror::Error;

/// The first fault of a currents table. Records are counted from 1 after the header, faults by study order.
#[derive(Clone, Copy, PartialEq, Eq, Debug, Drop, Error)]
pub enum TableFault {
    #[error("the first record is not the header fault,relay,amps")]
    BadHeader,
    #[error("record {n} has not three fields")]
    BadRecord { n: u32 },
    #[error("record {n} names no fault of the study")]
    UnknownFault { n: u32 },
    #[error("record {n} names no relay of the study")]
    UnknownRelay { n: u32 },
    #[error("record {n} has no whole number of amperes up to 100000")]
    BadAmps { n: u32 },
    #[error("record {n} repeats the fault and relay of an earlier one")]
    DoubleEntry { n: u32 },
    #[error("there are more than {limit} records")]
    TooMany { limit: u32 },
    #[error("no relay on its line has a current at fault {fault}")]
    NoPrimary { fault: u16 },
    #[error("memory ran out")]
    NoMemory,
}

impl<T: Drop> From<AllocFailed<T>> for TableFault {
    ghost use Rattle.std.specs.Prelude.{◌≡◌};
    ghost use Rattle.fault_table.specs.declared.fault.TableFault.TheVariants as variant;

    ghost from_gives = { λ _ fault. fault ≡ variant.NoMemory };

    fn from(_refused: AllocFailed<T>) -> TableFault {
        TableFault::NoMemory
    }
}

impl From<NoMemory> for TableFault {
    ghost use Rattle.std.specs.Prelude.{◌≡◌};
    ghost use Rattle.fault_table.specs.declared.fault.TableFault.TheVariants as variant;

    ghost from_gives = { λ _ fault. fault ≡ variant.NoMemory };

    fn from(_refused: NoMemory) -> TableFault {
        TableFault::NoMemory
    }
}
