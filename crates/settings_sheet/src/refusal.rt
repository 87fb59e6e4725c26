//! Why a text is no settings sheet.
ghost use Rattle.std.specs.Prelude.{◌≡◌};

use std::alloc::AllocError;

/// Why a text is no sheet of the study.
#[derive(Clone, Copy, PartialEq, Eq, Debug)]
pub enum SheetRefusal {
    /// The lines before `line`, counted from 1, begin a sheet of the study, and with it they begin none.
    Fault { line: u32, kind: SheetKind },
    /// Memory ran out.
    NoMemory,
}

/// What is due at a line of a sheet.
#[derive(Clone, Copy, PartialEq, Eq, Debug)]
pub enum SheetKind {
    Format,
    Ending,
    Cost,
    Bound,
    Relay,
    End,
    After,
}

impl From<AllocError> for SheetRefusal {
    ghost use Rattle.std.specs.Prelude.{◌≡◌};
    ghost use Rattle.settings_sheet.specs.declared.refusal.SheetRefusal.TheVariants.{NoMemory};

    ghost from_gives = { λ _ refusal. refusal ≡ NoMemory };

    fn from(_refused: AllocError) -> SheetRefusal {
        SheetRefusal::NoMemory
    }
}

/// The refusal of a line.
pub fn fault(line: u32, kind: SheetKind) -> SheetRefusal
    ensures { result ≡ SheetRefusal.Fault line kind }
{
    SheetRefusal::Fault { line, kind }
}
