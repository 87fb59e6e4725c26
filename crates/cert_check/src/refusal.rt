//! Why a certificate is refused.
use crate::kind::ClaimKind;
use cert_text::CertKind;
use cert_tree::NodeKind;
use coord_model::NoMemory;

/// Why a certificate is refused, in the order in which it is told.
#[derive(Clone, Copy, PartialEq, Eq, Debug)]
pub enum CheckRefusal {
    /// There is no such file.
    Missing,
    /// Reading the file failed.
    ReadFault,
    /// The file has more bytes than that.
    TooLong { limit: u64 },
    /// The bytes are no certificate: this line, counted from 1, is the first that continues none, and such a line is due.
    Cert { line: u32, kind: CertKind },
    /// The tree doesn't hold: this node, counted from 1 in pre-order, is the first that is wrong, and in this way.
    Tree { number: u32, kind: NodeKind },
    /// This is wrong with the claim first.
    Claim(ClaimKind),
    /// Memory ran out.
    NoMemory,
}

impl From<NoMemory> for CheckRefusal {
    ghost use Rattle.std.specs.Prelude.{◌≡◌};
    ghost use Rattle.cert_check.specs.declared.refusal.CheckRefusal.TheVariants as refusal;

    ghost from_gives = { λ _ e. e ≡ refusal.NoMemory };

    fn from(_refused: NoMemory) -> CheckRefusal {
        CheckRefusal::NoMemory
    }
}
