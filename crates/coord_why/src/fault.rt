//! Why there is no chain.
ghost use Rattle.std.specs.Prelude.{◌≡◌};

use coord_model::NoMemory;
use thiserror::Error;

/// Why there is no chain to a dial.
#[derive(Debug, Drop, Error)]
pub enum ChainFault {
    #[error("the least dial step is {step}")]
    NotLeast { step: u16 },
    #[error("memory ran out")]
    NoMemory,
}

impl From<NoMemory> for ChainFault {
    ghost use Rattle.std.specs.Prelude.{◌≡◌};
    ghost use Rattle.coord_why.specs.declared.fault.ChainFault.{ChainFault};
    ghost use Rattle.coord_why.specs.declared.fault.ChainFault.TheVariants.{NoMemory};

    ghost from_gives = { λ _ fault. fault ≡ NoMemory };

    fn from(_refused: NoMemory) -> ChainFault {
        ChainFault::NoMemory
    }
}
