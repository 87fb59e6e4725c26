//! Why no instance is built.
ghost use Rattle.std.specs.Prelude.{◌≡◌};

use coord_model::NoMemory;
use thiserror::Error;

/// Why no instance is built.
#[derive(Debug, Drop, Error)]
pub enum BuildFault {
    #[error("more than {limit} rows")]
    TooManyRows { limit: u32 },
    #[error("memory ran out")]
    NoMemory,
}

impl From<NoMemory> for BuildFault {
    ghost use Rattle.std.specs.Prelude.{◌≡◌};
    ghost use Rattle.margin_rows.specs.declared.fault.BuildFault.{BuildFault};
    ghost use Rattle.margin_rows.specs.declared.fault.BuildFault.TheVariants.{NoMemory};

    ghost from_gives = { λ _ fault. fault ≡ NoMemory };

    fn from(_refused: NoMemory) -> BuildFault {
        BuildFault::NoMemory
    }
}
