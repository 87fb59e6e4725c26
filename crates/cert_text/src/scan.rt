//! What a scan of a certificate's lines keeps.
ghost use Rattle.std.specs.Prelude.{◌≡◌, ◌≤◌, length};
ghost use Rattle.cert_text.specs.HeadScan.{IsFront};

use crate::dues::Dues;
use crate::kinds::{CertHead, CertKind};
use coord_model::{Choice, Weight};

/// A scan of a certificate's lines. It keeps the same memory however long the certificate is.
#[derive(Drop)]
pub struct CertScan {
    pub(crate) due: CertKind,
    pub(crate) refused: bool,
    pub(crate) head: CertHead,
    pub(crate) choice: Choice,
    pub(crate) pairs: Vec<Weight>,
    pub(crate) count: usize,
    pub(crate) dues: Dues,
    ghost pairs_room: { length pairs.items ≡ 96 },
    ghost few: { count ≤ 64 },
    ghost steps_room: { IsFront due → (length choice.pickup.items ≡ 96) × (length choice.dial.items ≡ 96) },
}
