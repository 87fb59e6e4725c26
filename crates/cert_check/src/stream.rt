//! The bytes of a certificate, as they come in.
ghost use Rattle.std.specs.Prelude.{◌≡◌, ℕ, List, [], ◌∷◌, ◌++◌, ◌↔◌, None, IfOk, IfSome, IsNone, IsOk, IsTrue};
ghost use Rattle.cert_text.specs.declared.kinds.CertKind.TheVariants as kind;
ghost use Rattle.cert_check.specs.OpenLines.{IsLeft};
ghost use Rattle.cert_check.specs.Accepted.{Answers, BoundsAll};
ghost use Rattle.cert_check.specs.Rightness.{IsRight, IsTextOf};
ghost use Rattle.cert_check.specs.Endings.{EndsWhole};
ghost use Rattle.cert_text.specs.Stops.{StopsAt};
ghost use Rattle.cert_check.specs.Streams.{GoesWith, Reads};
ghost use Rattle.cert_text.specs.CertData.{CertData};
ghost use Rattle.margin_rows.specs.Case.{Case};

use crate::claim::Claim;
use crate::lines::{LineCheck, LineFault};
use crate::refusal::CheckRefusal;
use crate::room::LineRoom;
use coord_model::NoMemory;
use margin_rows::Instance;
use std::alloc::Global;

/// A certificate's bytes so far: the lines of them, and room for the one whose end has not come.
#[derive(Drop)]
pub(crate) struct TextCheck {
    pub(crate) room: LineRoom,
    pub(crate) lines: LineCheck,
}

impl TextCheck {
    /// Room for the lines of a certificate, before the first byte.
    pub(crate) fn new(alloc: Global, inst: &Instance) -> Result<TextCheck, NoMemory>
        ensures { IfOk result (λ check. Reads inst.now check [] check.lines.fault) }
    {
        Ok(TextCheck {
            room: LineRoom::new(alloc)?,
            lines: LineCheck::new(alloc, inst)?,
        })
    }

    /// Takes the next bytes. After a line that is bad they change nothing.
    pub(crate) fn take(&mut self, inst: &Instance, piece: &[u8])
        requires known { (read : List ℕ) × Reads inst.now self.old read self.old.lines.fault }
        ensures { (read : List ℕ) → Reads inst.now self.old read self.old.lines.fault
            → Reads inst.now self.new (read ++ piece.now) self.new.lines.fault }
    {
        for byte in piece {
            self.byte(inst, *byte);
        }
    }

    /// Takes the next byte.
    fn byte(&mut self, inst: &Instance, byte: u8)
        requires known { (read : List ℕ) × Reads inst.now self.old read self.old.lines.fault }
        ensures { (read : List ℕ) → Reads inst.now self.old read self.old.lines.fault
            → Reads inst.now self.new (read ++ byte ∷ []) self.new.lines.fault }
    {
        if self.lines.fault.is_some() {
            return;
        }
        if byte == b'\n' {
            self.end_line(inst);
        } else {
            self.room.push(byte);
        }
    }

    /// Takes the line that ends, if it is one.
    fn end_line(&mut self, inst: &Instance)
        requires open { self.old.lines.fault ≡ None }
        requires known { (read : List ℕ) × GoesWith inst.now self.old read }
        ensures { (read : List ℕ) → GoesWith inst.now self.old read → Reads inst.now self.new (read ++ 10 ∷ []) self.new.lines.fault }
    {
        self.lines.take_room(inst, &self.room);
        self.room.clear();
    }

    /// What is answered of the bytes, which have come to their end.
    pub(crate) fn answer(&self, inst: &Instance) -> Result<Claim, CheckRefusal>
        requires known { (bytes : List ℕ) × Reads inst.now self.now bytes self.now.lines.fault }
        ensures answers { (bytes : List ℕ) → Reads inst.now self.now bytes self.now.lines.fault → Answers inst.now bytes result }
        ensures accepts { (bytes : List ℕ) (cert : CertData) → Reads inst.now self.now bytes self.now.lines.fault
            → IsTextOf cert bytes → IsRight inst.now cert → IsOk result }
        ensures proves { IfOk result (λ claim. BoundsAll inst.now claim.bound) }
    {
        match self.line_fault() {
            Some(fault) => Err(CheckRefusal::Cert {
                line: fault.line,
                kind: fault.kind,
            }),
            None => self.lines.answer(inst),
        }
    }

    /// The line at which the bytes, which have come to their end, stop being a certificate.
    fn line_fault(&self) -> Option<LineFault>
        requires known { (case : Case) × (bytes : List ℕ) × Reads case self.now bytes self.now.lines.fault }
        ensures stops { IfSome result (λ fault. (case : Case) (bytes : List ℕ) → Reads case self.now bytes self.now.lines.fault
            → StopsAt bytes fault.line fault.kind) }
        ensures whole { IsNone result → (case : Case) (bytes : List ℕ) → Reads case self.now bytes self.now.lines.fault
            → EndsWhole case self.now.lines bytes }
    {
        if self.lines.fault.is_some() {
            return self.lines.fault;
        }
        if self.is_whole() {
            return None;
        }
        Some(self.lines.next())
    }

    /// Whether the bytes end with the last line of a certificate.
    fn is_whole(&self) -> bool
        ensures { (left : List ℕ) → IsLeft self.now.room left
            → IsTrue result ↔ ((left ≡ []) × (self.now.lines.scan.due ≡ kind.After)) }
    {
        self.room.is_empty() && self.lines.is_whole()
    }
}
