//! The lines in which a certificate is refused.
ghost use Rattle.std.specs.Prelude.{◌≡◌, ◌++◌, codes, IfOk, OnOk};
ghost use Rattle.std.specs.Fmt.{decimal};
ghost use Rattle.coord_run.specs.CertRefusals.{cert_claim_text, cert_line_text, cert_node_text, cert_word, claim_text, ending_or_none, head_or_none, head_text, least_text, apart_text, node_word};
ghost use Rattle.coord_text.specs.Claims.{amount, ending_word};

use crate::claim_fault::ClaimFault;
use crate::row_line::{push_names, push_words};
use cert_text::CertKind;
use cert_tree::NodeKind;
use coord_model::{Ending, NoMemory, StudyHead};
use coord_text::{ending_word, push_amount, push_number};
use std::alloc::Global;

/// The line of a fault at a line of a certificate.
#[tactic(auto, unfolding(crate::specs::CertRefusals::cert_line_text))]
pub fn cert_line(alloc: Global, number: u32, kind: CertKind) -> Result<Vec<u8>, NoMemory>
    ensures { IfOk result (λ line. line.items ≡ cert_line_text number kind) }
{
    let mut line = Vec::from_slice(alloc, b"certificate: line ")?;
    push_number(&mut line, u64::from(number))?;
    line.extend_from_slice(b" ")?;
    line.extend_from_slice(cert_word(kind))?;
    line.extend_from_slice(b"\n")?;
    Ok(line)
}

/// The line of a fault at a node of a certificate's tree.
#[tactic(auto, unfolding(crate::specs::CertRefusals::cert_node_text))]
pub fn cert_node(alloc: Global, number: u32, kind: NodeKind) -> Result<Vec<u8>, NoMemory>
    ensures { IfOk result (λ line. line.items ≡ cert_node_text number kind) }
{
    let mut line = Vec::from_slice(alloc, b"certificate: node ")?;
    push_number(&mut line, u64::from(number))?;
    line.extend_from_slice(b" ")?;
    line.extend_from_slice(node_word(kind))?;
    line.extend_from_slice(b"\n")?;
    Ok(line)
}

/// The line of a fault of a certificate's claim.
#[tactic(auto, unfolding(crate::specs::CertRefusals::cert_claim_text))]
pub fn cert_claim(alloc: Global, fault: &ClaimFault) -> Result<Vec<u8>, NoMemory>
    ensures { IfOk result (λ line. line.items ≡ cert_claim_text fault.now) }
{
    let mut line = Vec::from_slice(alloc, b"certificate: claim ")?;
    push_claim(&mut line, fault)?;
    line.extend_from_slice(b"\n")?;
    Ok(line)
}

/// Adds what is wrong with a claim.
fn push_claim(out: &mut Vec<u8>, fault: &ClaimFault) -> Result<(), NoMemory>
    ensures { OnOk result (out.new.items ≡ out.old.items ++ claim_text fault.now) }
{
    match fault {
        ClaimFault::Study { printed, found } => push_studies(out, *printed, *found),
        ClaimFault::Relays { printed, found } => push_amounts(
            out,
            b"relays",
            Some(*printed),
            Some(*found),
        ),
        ClaimFault::Step(relay) => push_words(out, b"step ", relay.bytes()),
        ClaimFault::Row {
            kind,
            fault,
            backup,
            primary,
        } => push_names(out, *kind, fault.bytes(), backup.bytes(), primary.bytes()),
        ClaimFault::Cost { printed, found } => push_amounts(
            out,
            b"cost",
            Some(*printed),
            Some(*found),
        ),
        ClaimFault::Boxes { printed, found } => push_amounts(
            out,
            b"boxes",
            Some(*printed),
            Some(*found),
        ),
        ClaimFault::Bound { printed, found } => push_amounts(out, b"bound", *printed, *found),
        ClaimFault::Gap { printed, least } => push_gaps(out, *printed, *least),
        ClaimFault::EndingIs { printed, found } => push_endings(out, *printed, *found),
    }
}

/// Adds the printed study and the one that was found.
#[tactic(auto, unfolding(crate::specs::CertRefusals::apart_text))]
fn push_studies(
    out: &mut Vec<u8>,
    printed: Option<StudyHead>,
    found: StudyHead,
) -> Result<(), NoMemory>
    ensures { OnOk result (out.new.items ≡ out.old.items ++ apart_text (codes "study") (head_or_none printed) (head_text found)) }
{
    out.extend_from_slice(b"study printed ")?;
    push_head_or_none(out, printed)?;
    out.extend_from_slice(b" found ")?;
    push_head(out, found)
}

fn push_head_or_none(out: &mut Vec<u8>, head: Option<StudyHead>) -> Result<(), NoMemory>
    ensures { OnOk result (out.new.items ≡ out.old.items ++ head_or_none head) }
{
    match head {
        Some(head) => push_head(out, head),
        None => Ok(out.extend_from_slice(b"none")?),
    }
}

/// Adds a study's format, its relays and its rows.
#[tactic(auto, unfolding(crate::specs::CertRefusals::head_text))]
fn push_head(out: &mut Vec<u8>, head: StudyHead) -> Result<(), NoMemory>
    ensures { OnOk result (out.new.items ≡ out.old.items ++ head_text head) }
{
    push_number(out, u64::from(head.format))?;
    out.extend_from_slice(b" ")?;
    push_number(out, u64::from(head.relays))?;
    out.extend_from_slice(b" ")?;
    push_number(out, u64::from(head.rows))
}

/// Adds two numbers of a thing, the printed one and the one that was found.
#[tactic(auto, unfolding(crate::specs::CertRefusals::apart_text))]
fn push_amounts(
    out: &mut Vec<u8>,
    thing: &[u8],
    printed: Option<u64>,
    found: Option<u64>,
) -> Result<(), NoMemory>
    ensures { OnOk result (out.new.items ≡ out.old.items ++ apart_text thing.now (amount printed) (amount found)) }
{
    out.extend_from_slice(thing)?;
    out.extend_from_slice(b" printed ")?;
    push_amount(out, printed)?;
    out.extend_from_slice(b" found ")?;
    push_amount(out, found)
}

/// Adds the printed gap and the least one.
#[tactic(auto, unfolding(crate::specs::CertRefusals::least_text))]
fn push_gaps(out: &mut Vec<u8>, printed: u64, least: u64) -> Result<(), NoMemory>
    ensures { OnOk result (out.new.items ≡ out.old.items ++ least_text printed least) }
{
    out.extend_from_slice(b"gap printed ")?;
    push_number(out, printed)?;
    out.extend_from_slice(b" least ")?;
    push_number(out, least)?;
    Ok(())
}

/// Adds the printed ending and the one that was found.
#[tactic(auto, unfolding(crate::specs::CertRefusals::apart_text))]
fn push_endings(out: &mut Vec<u8>, printed: Ending, found: Option<Ending>) -> Result<(), NoMemory>
    ensures { OnOk result (out.new.items ≡ out.old.items ++ apart_text (codes "ending") (ending_word printed) (ending_or_none found)) }
{
    out.extend_from_slice(b"ending printed ")?;
    out.extend_from_slice(ending_word(printed))?;
    out.extend_from_slice(b" found ")?;
    out.extend_from_slice(ending_or_none(found))?;
    Ok(())
}

fn ending_or_none(ending: Option<Ending>) -> &'static [u8]
    ensures { result.now ≡ ending_or_none ending }
{
    match ending {
        Some(ending) => ending_word(ending),
        None => b"none",
    }
}

/// What is due at a line of a certificate.
fn cert_word(kind: CertKind) -> &'static [u8]
    ensures { result.now ≡ cert_word kind }
{
    match kind {
        CertKind::Format => b"format",
        CertKind::Study => b"study",
        CertKind::Ending => b"ending",
        CertKind::Gap => b"gap",
        CertKind::Budget => b"budget",
        CertKind::Boxes => b"boxes",
        CertKind::Bound => b"bound",
        CertKind::Cost => b"cost",
        CertKind::Settings => b"settings",
        CertKind::Node => b"node",
        CertKind::End => b"end",
        CertKind::After => b"after",
    }
}

/// What is wrong with a node.
fn node_word(kind: NodeKind) -> &'static [u8]
    ensures { result.now ≡ node_word kind }
{
    match kind {
        NodeKind::RowNumber => b"row-number",
        NodeKind::SplitRelay => b"split-relay",
        NodeKind::NotEmpty => b"not-empty",
        NodeKind::Emptied => b"emptied",
        NodeKind::NotVoid => b"not-void",
        NodeKind::ManyPickups => b"many-pickups",
        NodeKind::NotHair => b"not-hair",
        NodeKind::SplitAt => b"split-at",
    }
}
