//! A certificate's file, checked piece by piece.
ghost use Rattle.std.specs.Prelude.{◌≡◌, ◌≤◌, ℕ, List, [], Some, length, IfOk, IfErr, IsErrOf, IsOk, OnOk};
ghost use Rattle.coord_io.specs.Faults.{Rose};
ghost use Rattle.coord_io.specs.Files.{Files, held};
ghost use Rattle.coord_io.specs.Outside.{IsReadAlone};
ghost use Rattle.cert_check.specs.Accepted.{BoundsAll};
ghost use Rattle.cert_check.specs.Rightness.{IsRight, IsTextOf};
ghost use Rattle.cert_check.specs.Checking.{Checks, HasRead, IsStopped};
ghost use Rattle.cert_check.specs.Streams.{Reads};
ghost use Rattle.cert_text.specs.CertData.{CertData};
ghost use Rattle.cert_check.specs.declared.refusal.CheckRefusal.TheVariants as refusal;

use crate::claim::Claim;
use crate::refusal::CheckRefusal;
use crate::stream::TextCheck;
use coord_io::{Folder, PIECE, ReadFail};
use coord_model::NoMemory;
use coord_model::limits::MOST_CERT_BYTES;
use margin_rows::Instance;
use std::alloc::Global;
use std::marker::Model;

/// Room to check one certificate of a study, however long its file is.
#[derive(Drop)]
pub struct Checker<'a> {
    inst: &'a Instance,
    piece: Vec<u8>,
    text: TextCheck,
}

impl<'a> Model for Checker<'a> {
    ghost use Rattle.std.specs.Prelude.{◌≡◌, [], length};
    ghost use Rattle.margin_rows.specs.Case.{Case};
    ghost use Rattle.cert_check.specs.Streams.{Reads};

    ghost Value = { Case };

    ghost view = { λ a. a.inst.now };

    ghost invariant = { λ a. (length a.piece.items ≡ 65536) × Reads a.inst.now a.text [] a.text.lines.fault };
}

impl<'a> Checker<'a> {
    /// Room to check a certificate of the study. No more memory is taken.
    pub fn new(alloc: Global, inst: &'a Instance) -> Result<Checker<'a>, NoMemory>
        ensures { IfOk result (λ checker. checker ≡ inst.now) }
    {
        Ok(Checker {
            inst,
            piece: vec![in alloc; 0; PIECE]?,
            text: TextCheck::new(alloc, inst)?,
        })
    }

    /// What the certificate in the file of that name claims, if all of it was found to be so.
    ///
    /// The file is read to its end, or up to one byte more than 512 MiB, also after a line or a node that is wrong.
    /// Nothing that it says is believed. Takes no memory.
    pub fn file<F: Folder>(self, folder: &mut F, name: &str) -> Result<Claim, CheckRefusal>
        ensures checks { Checks self.entry name.now (F.state folder.old) (F.state folder.new) result }

        // Bytes of a certificate that is right are accepted.
        ensures accepts { (files later : Files) (cert : CertData) (bytes : List ℕ)
            → (F.state folder.old).files ≡ Some files → (F.state folder.new).files ≡ Some later
            → held files name.now ≡ Some bytes → length bytes ≤ 536870912 → IsTextOf cert bytes → IsRight self.entry cert
            → ¬ (Rose (F.state folder.old).reads (F.state folder.new).reads) → IsOk result }

        // Whatever the folder tells: all allowed settings cost at least the bound, and with none there are none.
        ensures proves { IfOk result (λ claim. BoundsAll self.entry claim.bound) }
        ensures memory { ¬ (IsErrOf result refusal.NoMemory) }
        ensures alone { IsReadAlone (F.state folder.old) (F.state folder.new) }
    {
        let Checker {
            inst,
            mut piece,
            mut text,
        } = self;
        match read_text(inst, &mut piece, &mut text, folder, name) {
            Ok(()) => text.answer(inst),
            Err(refusal) => Err(refusal),
        }
    }
}

/// What the certificate in the file of that name claims, if all of it was found to be so.
pub fn check<F: Folder>(
    alloc: Global,
    inst: &Instance,
    folder: &mut F,
    name: &str,
) -> Result<Claim, CheckRefusal>
    ensures checks { Checks inst.now name.now (F.state folder.old) (F.state folder.new) result }

    // Bytes of a certificate that is right are accepted, unless memory runs out.
    ensures accepts { (files later : Files) (cert : CertData) (bytes : List ℕ)
        → (F.state folder.old).files ≡ Some files → (F.state folder.new).files ≡ Some later
        → held files name.now ≡ Some bytes → length bytes ≤ 536870912 → IsTextOf cert bytes → IsRight inst.now cert
        → ¬ (Rose (F.state folder.old).reads (F.state folder.new).reads)
        → ¬ (IsErrOf result refusal.NoMemory) → IsOk result }
    ensures proves { IfOk result (λ claim. BoundsAll inst.now claim.bound) }
    ensures alone { IsReadAlone (F.state folder.old) (F.state folder.new) }
{
    Checker::new(alloc, inst)?.file(folder, name)
}

/// Reads the file of that name to its end, if it has at most 512 MiB, and takes its bytes.
fn read_text<F: Folder>(
    inst: &Instance,
    piece: &mut [u8],
    text: &mut TextCheck,
    folder: &mut F,
    name: &str,
) -> Result<(), CheckRefusal>
    requires room { length piece.now ≡ 65536 }
    requires begun { Reads inst.now text.old [] text.old.lines.fault }
    ensures read { OnOk result (HasRead inst.now name.now (F.state folder.old) (F.state folder.new) text.new) }
    ensures stopped { IfErr result (IsStopped name.now (F.state folder.old) (F.state folder.new)) }
    ensures alone { IsReadAlone (F.state folder.old) (F.state folder.new) }
{
    let mut place = 0;
    loop {
        let room = MOST_CERT_BYTES - place;
        let wanted = room.min(PIECE as u64 - 1) as usize + 1;
        let count = match folder.read_at(name, place, &mut piece[..wanted]) {
            Ok(count) => count,
            Err(ReadFail::Missing) => return Err(CheckRefusal::Missing),
            Err(ReadFail::Failed) => return Err(CheckRefusal::ReadFault),
        };
        if count == 0 {
            return Ok(());
        }
        if count as u64 > room {
            return Err(CheckRefusal::TooLong {
                limit: MOST_CERT_BYTES,
            });
        }
        place += count as u64;
        text.take(inst, &piece[..count]);
    }
}
