//! Why a text is no certificate.
ghost use Rattle.std.specs.Prelude.{◌≡◌};

use crate::kinds::CertKind;
use coord_model::NoMemory;

/// Why a text is no certificate.
#[derive(Clone, Copy, PartialEq, Eq, Debug)]
pub enum CertRefusal {
    /// The lines before `line`, counted from 1, begin a certificate, and with it they begin none.
    Fault { line: u32, kind: CertKind },
    /// Memory ran out.
    NoMemory,
}

impl From<NoMemory> for CertRefusal {
    ghost use Rattle.std.specs.Prelude.{◌≡◌};
    ghost use Rattle.cert_text.specs.declared.refusal.CertRefusal.TheVariants as refusal;

    ghost from_gives = { λ _ given. given ≡ refusal.NoMemory };

    fn from(_refused: NoMemory) -> CertRefusal {
        CertRefusal::NoMemory
    }
}

/// The refusal of a line.
pub fn fault(line: u32, kind: CertKind) -> CertRefusal
    ensures { result ≡ CertRefusal.Fault line kind }
{
    CertRefusal::Fault { line, kind }
}
