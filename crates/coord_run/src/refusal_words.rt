//! The words in which refusals are printed.
ghost use Rattle.std.specs.Prelude.{◌≡◌};
ghost use Rattle.coord_run.specs.RefusalWords.{due_word, kind_word, table_word, what_word};

use coord_model::{NetKind, TableName, What};
use settings_sheet::SheetKind;

/// The kind of a fault of the network file.
pub fn kind_word(kind: NetKind) -> &'static [u8]
    ensures { result.now ≡ kind_word kind }
{
    match kind {
        NetKind::Missing => b"missing",
        NetKind::WrongKind => b"wrong-kind",
        NetKind::OutOfRange => b"out-of-range",
        NetKind::UnknownKey => b"unknown-key",
        NetKind::UnknownCurve => b"unknown-curve",
        NetKind::UnknownName => b"unknown-name",
        NetKind::DoubleName => b"double-name",
        NetKind::LoopLine => b"loop-line",
        NetKind::NotAtLine => b"not-at-line",
        NetKind::TwoRelaysAtEnd => b"two-relays-at-end",
    }
}

/// The table of a fault of the network file.
pub fn table_word(table: TableName) -> &'static [u8]
    ensures { result.now ≡ table_word table }
{
    match table {
        TableName::Top => b"top",
        TableName::Study => b"study",
        TableName::Line => b"line",
        TableName::Relay => b"relay",
        TableName::Fault => b"fault",
        TableName::Exempt => b"exempt",
        TableName::Interval => b"interval",
    }
}

/// What passes its limit.
pub fn what_word(what: What) -> &'static [u8]
    ensures { result.now ≡ what_word what }
{
    match what {
        What::Lines => b"lines",
        What::Relays => b"relays",
        What::Faults => b"faults",
        What::Exempt => b"exempt",
        What::Intervals => b"intervals",
        What::Buses => b"buses",
        What::PickupSteps => b"pickup-steps",
        What::Currents => b"currents",
        What::Rows => b"rows",
    }
}

/// What is due at a line of a sheet.
pub fn due_word(kind: SheetKind) -> &'static [u8]
    ensures { result.now ≡ due_word kind }
{
    match kind {
        SheetKind::Format => b"format",
        SheetKind::Ending => b"ending",
        SheetKind::Cost => b"cost",
        SheetKind::Bound => b"bound",
        SheetKind::Relay => b"relay",
        SheetKind::End => b"end",
        SheetKind::After => b"after",
    }
}
