//! The statuses that the program ends with.
ghost use Rattle.std.specs.Prelude.{◌≡◌};
ghost use Rattle.coord_run.specs.Status.{ending_status, outcome_status, refusal_status};

use crate::refusal::Refusal;
use branch_bound::Outcome;
use coord_model::Ending;

/// The words fit no command.
pub const USAGE: u8 = 2;

/// A write failed.
pub const WRITE_FAULT: u8 = 11;

/// Memory ran out.
pub const NO_MEMORY: u8 = 30;

/// The status of a refusal.
pub fn refusal_status(refusal: &Refusal) -> u8
    ensures { result ≡ refusal_status refusal.now }
{
    match refusal {
        Refusal::Missing(_) => 9,
        Refusal::ReadFault(_) => 10,
        Refusal::TooLong(_) => 12,
        Refusal::NotText | Refusal::NotToml | Refusal::Network { .. } => 13,
        Refusal::BadHeader
        | Refusal::BadRecord { .. }
        | Refusal::UnknownFault { .. }
        | Refusal::UnknownRelay { .. }
        | Refusal::BadAmps { .. }
        | Refusal::DoubleEntry { .. }
        | Refusal::NoPrimary(_) => 14,
        Refusal::TooMany { .. } => 15,
        Refusal::GapTooSmall { .. } => 16,
        Refusal::CertLine { .. } => 17,
        Refusal::CertNode { .. } => 18,
        Refusal::CertClaim(_) => 19,
        Refusal::SheetLine { .. } => 20,
        Refusal::SheetPickup(_) => 22,
    }
}

/// The status of an outcome.
pub fn outcome_status(outcome: &Outcome) -> u8
    ensures { result ≡ outcome_status outcome.now }
{
    ending_status(outcome.ending, outcome.issued.is_some())
}

/// The status of an ending, with issued settings or without.
fn ending_status(ending: Ending, issued: bool) -> u8
    ensures { result ≡ ending_status ending issued }
{
    match (ending, issued) {
        (Ending::Closed, _) => 0,
        (Ending::NoSettings, _) => 3,
        (Ending::BudgetSpent, true) => 4,
        (Ending::BudgetSpent, false) => 5,
        (Ending::Hairline, true) => 6,
        (Ending::Hairline, false) => 7,
    }
}
