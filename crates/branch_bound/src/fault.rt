//! Why a search does not begin or end.
use coord_model::NoMemory;
use thiserror::Error;

/// Why a search does not begin, or want of memory.
#[derive(Clone, Copy, PartialEq, Eq, Debug, Error)]
pub enum SearchFault {
    /// The gap is below the least gap of the study; both are in whole weighted microseconds.
    #[error("the gap {given} is below the least gap {least}")]
    GapTooSmall { given: u64, least: u64 },
    #[error("memory ran out")]
    NoMemory,
}

impl From<NoMemory> for SearchFault {
    ghost use Rattle.std.specs.Prelude.{◌≡◌};
    ghost use Rattle.branch_bound.specs.declared.fault.SearchFault.{SearchFault};
    ghost use Rattle.branch_bound.specs.declared.fault.SearchFault.TheVariants.{NoMemory};

    ghost from_gives = { λ _ fault. fault ≡ NoMemory };

    fn from(_refused: NoMemory) -> SearchFault {
        SearchFault::NoMemory
    }
}
