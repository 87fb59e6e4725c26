//! The lines of a certificate, as they come in.
ghost use Rattle.std.specs.Prelude.{◌≡◌, ◌+◌, ◌↔◌, ℕ, List, [], None, IfOk, IsOk, IsTrue};
ghost use Rattle.cert_text.specs.declared.kinds.CertKind.TheVariants as kind;
ghost use Rattle.cert_check.specs.Accepted.{Answers, BoundsAll};
ghost use Rattle.cert_check.specs.Rightness.{IsRight, IsTextOf};
ghost use Rattle.cert_check.specs.Endings.{SawCert};
ghost use Rattle.cert_check.specs.OpenLines.{IsLeft};
ghost use Rattle.cert_check.specs.Streams.{Goes, GoesOrStops};
ghost use Rattle.cert_text.specs.CertData.{CertData};
ghost use Rattle.coord_text.specs.Lines.{IsLine};
ghost use Rattle.margin_rows.specs.Case.{Case};

use crate::claim::{Claim, check_claim};
use crate::found::found_in;
use crate::nodes::NodeCheck;
use crate::refusal::CheckRefusal;
use crate::room::LineRoom;
use cert_text::{CertItem, CertKind, CertScan};
use coord_model::NoMemory;
use margin_rows::Instance;
use std::alloc::Global;

/// A line at which the lines stop being a certificate, counted from 1, and the kind of line that is due there.
#[derive(Clone, Copy)]
pub(crate) struct LineFault {
    pub(crate) line: u32,
    pub(crate) kind: CertKind,
}

/// A scan of the lines of a certificate up to the first that is bad, and a walk over its nodes.
#[derive(Drop)]
pub(crate) struct LineCheck {
    pub(crate) scan: CertScan,
    pub(crate) nodes: NodeCheck,
    pub(crate) taken: u32,
    pub(crate) fault: Option<LineFault>,
}

impl LineCheck {
    /// A scan before the first line.
    pub(crate) fn new(alloc: Global, inst: &Instance) -> Result<LineCheck, NoMemory>
        ensures goes { IfOk result (λ check. Goes inst.now check []) }
        ensures open { IfOk result (λ check. check.fault ≡ None) }
    {
        Ok(LineCheck {
            scan: CertScan::new(alloc)?,
            nodes: NodeCheck::new(alloc, inst)?,
            taken: 0,
            fault: None,
        })
    }

    /// Takes the line that stands in a room, if it is one.
    pub(crate) fn take_room(&mut self, inst: &Instance, room: &LineRoom)
        requires open { self.old.fault ≡ None }
        requires known { (lines : List (List ℕ)) × Goes inst.now self.old lines }
        ensures { (lines : List (List ℕ)) (left : List ℕ) → Goes inst.now self.old lines → IsLeft room.now left
            → GoesOrStops inst.now self.new lines left self.new.fault }
    {
        if room.is_bad() {
            self.refuse();
        } else {
            self.take(inst, room.text());
        }
    }

    /// Takes the next line.
    fn take(&mut self, inst: &Instance, line: &[u8])
        requires open { self.old.fault ≡ None }
        requires known { (lines : List (List ℕ)) × Goes inst.now self.old lines }
        ensures { (lines : List (List ℕ)) → Goes inst.now self.old lines
            → GoesOrStops inst.now self.new lines line.now self.new.fault }
    {
        match self.scan.line(line) {
            Ok(item) => {
                self.taken += 1;
                if let CertItem::Node(node) = item {
                    self.nodes.take(inst, node, self.scan.weights());
                }
            }
            Err(kind) => {
                let line = self.taken + 1;
                self.fault = Some(LineFault { line, kind });
            }
        }
    }

    /// Refuses the next line, which is no line of a text.
    fn refuse(&mut self)
        requires known { (case : Case) × (lines : List (List ℕ)) × Goes case self.old lines }
        ensures { (case : Case) (lines : List (List ℕ)) (line : List ℕ) → Goes case self.old lines → ¬ (IsLine line)
            → GoesOrStops case self.new lines line self.new.fault }
    {
        self.fault = Some(self.next());
    }

    /// The line that is due.
    pub(crate) fn next(&self) -> LineFault
        requires known { (case : Case) × (lines : List (List ℕ)) × Goes case self.now lines }
        ensures line { result.line ≡ self.now.taken + 1 }
        ensures kind { result.kind ≡ self.now.scan.due }
    {
        LineFault {
            line: self.taken + 1,
            kind: self.scan.due(),
        }
    }

    /// Whether the last line was taken.
    pub(crate) fn is_whole(&self) -> bool
        ensures { IsTrue result ↔ (self.now.scan.due ≡ kind.After) }
    {
        match self.scan.due() {
            CertKind::After => true,
            _ => false,
        }
    }

    /// What is answered of the lines, if they are those of a certificate.
    pub(crate) fn answer(&self, inst: &Instance) -> Result<Claim, CheckRefusal>
        requires known { (bytes : List ℕ) × SawCert inst.now self.now bytes }
        ensures answers { (bytes : List ℕ) → SawCert inst.now self.now bytes → Answers inst.now bytes result }
        ensures accepts { (bytes : List ℕ) (cert : CertData) → SawCert inst.now self.now bytes → IsTextOf cert bytes
            → IsRight inst.now cert → IsOk result }
        ensures proves { IfOk result (λ claim. BoundsAll inst.now claim.bound) }
    {
        match self.nodes.fault {
            Some(fault) => Err(CheckRefusal::Tree {
                number: fault.number,
                kind: fault.kind,
            }),
            None => self.claim(inst),
        }
    }

    /// What is answered of the claim, if the lines are those of a certificate whose tree holds.
    fn claim(&self, inst: &Instance) -> Result<Claim, CheckRefusal>
        requires holds { self.now.nodes.fault ≡ None }
        requires known { (bytes : List ℕ) × SawCert inst.now self.now bytes }
        ensures answers { (bytes : List ℕ) → SawCert inst.now self.now bytes → Answers inst.now bytes result }
        ensures accepts { (bytes : List ℕ) (cert : CertData) → SawCert inst.now self.now bytes → IsTextOf cert bytes
            → IsRight inst.now cert → IsOk result }
        ensures proves { IfOk result (λ claim. BoundsAll inst.now claim.bound) }
    {
        let head = self.scan.head();
        let found = found_in(&self.nodes.walk, head);
        match check_claim(inst, head, self.scan.choice(), found) {
            Ok(claim) => Ok(claim),
            Err(kind) => Err(CheckRefusal::Claim(kind)),
        }
    }
}
