//! What calls on the outside answer where they don't succeed.
ghost use Rattle.std.specs.Prelude.{◌≡◌};
ghost use Rattle.coord_io.specs.Refusals.{refusal_of};
ghost use Rattle.coord_io.specs.declared.refusals.ReadRefusal.TheVariants.{NoMemory};

use std::alloc::AllocError;
use thiserror::Error;

/// A fault of the outside.
#[derive(Debug, Drop, Error)]
#[error("the outside failed")]
pub struct Failed;

/// What a read answers where it reads nothing: there is no such file, or the outside failed.
#[derive(Debug, Drop, Error)]
pub enum ReadFail {
    #[error("there is no such file")]
    Missing,
    #[error("the outside failed")]
    Failed,
}

/// What the reading of a whole file answers where it doesn't succeed.
///
/// `TooLong`: one byte more than the limit was read.
#[derive(Debug, Drop, Error)]
pub enum ReadRefusal {
    #[error("there is no such file")]
    Missing,
    #[error("the outside failed")]
    Failed,
    #[error("the file has more than {limit} bytes")]
    TooLong { limit: u64 },
    #[error("memory ran out")]
    NoMemory,
}

impl From<ReadFail> for ReadRefusal {
    ghost from_gives = { λ fail refusal. refusal ≡ refusal_of fail };

    fn from(fail: ReadFail) -> ReadRefusal {
        match fail {
            ReadFail::Missing => ReadRefusal::Missing,
            ReadFail::Failed => ReadRefusal::Failed,
        }
    }
}

impl From<AllocError> for ReadRefusal {
    ghost from_gives = { λ _ refusal. refusal ≡ NoMemory };

    fn from(_refused: AllocError) -> ReadRefusal {
        ReadRefusal::NoMemory
    }
}
