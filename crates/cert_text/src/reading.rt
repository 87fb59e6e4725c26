//! A certificate, read back from its text.
ghost use Rattle.std.specs.Prelude.{◌≡◌, ℕ, List, [], ◌∷◌, ◌++◌, IfErr, IfOk, IsTrue, MatchResult, OnOk};
ghost use Rattle.std.specs.Option.{option_map};
ghost use Rattle.coord_model.specs.Choice.{choice_data};
ghost use Rattle.cert_text.specs.CertData.{CertData, IsCert, cert_data};
ghost use Rattle.cert_text.specs.CertText.{cert_text};
ghost use Rattle.cert_text.specs.Reading.{HasReadWhole, HasTaken, IsLineRefusal};
ghost use Rattle.cert_text.specs.ScanState.{settings_with};
ghost use Rattle.cert_text.specs.Stops.{IsRefusalOf};
ghost use Rattle.cert_text.specs.declared.kinds.CertKind.TheVariants as kind;

use crate::kinds::{CertItem, CertKind};
use crate::refusal::{CertRefusal, fault};
use crate::scan::CertScan;
use crate::tree::GrowingTree;
use coord_model::{Cert, Choice, NoMemory};
use coord_text::split_line;
use std::alloc::Global;

/// The certificate whose text the bytes are.
///
/// An error: `Fault` names the first line, counted from 1, such that the lines up to it begin no certificate, and what
/// is due there. If the text ends too early, that is the line which is missing.
pub fn read_cert(alloc: Global, bytes: &[u8]) -> Result<Cert, CertRefusal>
    ensures is { IfOk result (λ cert. IsCert (cert_data cert)) }
    ensures said { IfOk result (λ cert. bytes.now ≡ cert_text (cert_data cert)) }
    ensures read { (cert : CertData) → IsCert cert → bytes.now ≡ cert_text cert
        → MatchResult result (λ read. cert_data read ≡ cert) (λ refusal. refusal ≡ CertRefusal.NoMemory) }
    ensures stops { IfErr result (IsRefusalOf bytes.now) }
{
    cert_in(alloc, bytes)
}

/// The certificate whose text the bytes are, the only one.
fn cert_in(alloc: Global, bytes: &[u8]) -> Result<Cert, CertRefusal>
    ensures is { IfOk result (λ cert. IsCert (cert_data cert)) }
    ensures said { IfOk result (λ cert. bytes.now ≡ cert_text (cert_data cert)) }
    ensures stops { IfErr result (IsRefusalOf bytes.now) }
{
    let reading = read_lines(alloc, bytes)?;
    Ok(reading.finish())
}

/// Reads the lines of a certificate.
fn read_lines(alloc: Global, bytes: &[u8]) -> Result<Reading, CertRefusal>
    ensures whole { IfOk result (HasReadWhole bytes.now) }
    ensures stops { IfErr result (IsRefusalOf bytes.now) }
{
    let mut reading = Reading::new(alloc)?;
    let mut left = bytes;
    let mut number = 1;
    while let Some((line, rest)) = split_line(left) {
        reading.take(alloc, number, line)?;
        left = rest;
        number += 1;
    }
    if !reading.is_whole(left) {
        return Err(fault(number, reading.scan.due()));
    }
    Ok(reading)
}

/// What is read of a certificate.
#[derive(Drop)]
pub struct Reading {
    scan: CertScan,
    tree: GrowingTree,
}

impl Reading {
    /// Nothing is read.
    fn new(alloc: Global) -> Result<Reading, NoMemory>
        ensures { IfOk result (λ reading. HasTaken reading []) }
    {
        Ok(Reading {
            scan: CertScan::new(alloc)?,
            tree: GrowingTree::new(alloc),
        })
    }

    /// Takes the line with this number.
    fn take(&mut self, alloc: Global, number: u32, line: &[u8]) -> Result<(), CertRefusal>
        requires { (lines : List (List ℕ)) × HasTaken self.now lines }
        ensures goes { OnOk result ((lines : List (List ℕ)) → HasTaken self.old lines → HasTaken self.new (lines ++ line.now ∷ [])) }
        ensures stops { IfErr result (IsLineRefusal self.old number line.now) }
    {
        match self.scan.line(line) {
            Ok(CertItem::Node(node)) => Ok(self.tree.take(alloc, node, self.scan.weights())?),
            Ok(CertItem::Head) => Ok(()),
            Ok(CertItem::End) => Ok(()),
            Err(kind) => Err(fault(number, kind)),
        }
    }

    /// Whether the last line is read and nothing is left.
    fn is_whole(&self, left: &[u8]) -> bool
        ensures yes { IsTrue result → (left.now ≡ []) × (self.now.scan.due ≡ kind.After) }
        ensures no { left.now ≡ [] → self.now.scan.due ≡ kind.After → IsTrue result }
    {
        left.is_empty() && self.scan.due() == CertKind::After
    }

    /// The certificate, once its last line is read.
    fn finish(self) -> Cert
        requires { (bytes : List ℕ) × HasReadWhole bytes self }
        ensures is { IsCert (cert_data result) }
        ensures said { (bytes : List ℕ) → HasReadWhole bytes self → bytes ≡ cert_text (cert_data result) }
    {
        let Reading { scan, tree } = self;
        let CertScan { head, choice, .. } = scan;
        Cert {
            study: head.study,
            ending: head.ending,
            gap: head.gap,
            budget: head.budget,
            boxes: head.boxes,
            bound: head.bound,
            cost: head.cost,
            choice: choice_with(head.cost, choice),
            tree: tree.tree.unwrap(),
        }
    }
}

/// The choice, if there is a cost.
fn choice_with(cost: Option<u64>, choice: Choice) -> Option<Choice>
    ensures { option_map choice_data result ≡ settings_with cost choice }
{
    match cost {
        Some(_) => Some(choice),
        None => None,
    }
}
