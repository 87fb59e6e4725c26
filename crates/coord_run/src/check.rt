//! The command `check`.
ghost use Rattle.std.specs.Prelude.{◌≡◌, ◌<◌, ◌++◌, Ok, length, IfOk, IfErr};
ghost use Rattle.cert_check.specs.Accepted.{BoundsAll};
ghost use Rattle.cert_check.specs.Checking.{AnswersWhole};
ghost use Rattle.cert_check.specs.declared.kind.ClaimKind.{ClaimKind};
ghost use Rattle.coord_io.specs.Outside.{IsReadAlone};
ghost use Rattle.coord_model.specs.StudyData.{study_data};
ghost use Rattle.coord_run.specs.Check.{CertCause, CheckCause, IsAbout, IsCertRefusal, IsCheckOutput, ReportsCheck, accepted_text, claim_fault};
ghost use Rattle.coord_run.specs.Handing.{IsWritable, output_data};
ghost use Rattle.coord_run.specs.Names.{names_data};
ghost use Rattle.coord_run.specs.RowLine.{fault_name, relay_name};
ghost use Rattle.coord_run.specs.Stops.{StopsFor};
ghost use Rattle.margin_rows.specs.Case.{row_at, rows_in};

use crate::claim_fault::ClaimFault;
use crate::end::{Output, hand_over};
use crate::inputs::read_case;
use crate::refusal::{File, Refusal, Stop};
use crate::words::Names;
use cert_check::{CheckRefusal, Claim, ClaimKind, check as check_file};
use coord_io::{Folder, Sink};
use coord_model::{Name, NoMemory, Study};
use coord_text::{ending_word, push_amount, push_number};
use margin_rows::Instance;
use std::alloc::Global;

/// Reads the network, the currents and the certificate, and prints what the certificate claims if all of it is right, or
/// the line of a refusal.
///
/// Costs and bounds are in weighted microseconds. The answer is the status.
pub fn check<F: Folder, K: Sink>(
    alloc: Global,
    folder: &mut F,
    out: &mut K,
    names: &Names<'_>,
) -> u8
    ensures { ReportsCheck (names_data names.now) (F.state folder.old) (F.state folder.new) (K.state out.old) (K.state out.new) result }
{
    let work = work(alloc, folder, names);
    hand_over(alloc, folder, out, names, work)
}

/// The report on the three files.
fn work<'a, F: Folder>(alloc: Global, folder: &mut F, names: &Names<'a>) -> Result<Output<'a>, Stop>
    ensures report { IfOk result (λ output. IsCheckOutput (names_data names.now) (F.state folder.old) (F.state folder.new) (output_data output)) }
    ensures writable { IfOk result IsWritable }
    ensures stopped { IfErr result (λ stop. StopsFor stop (CheckCause (names_data names.now) (F.state folder.old) (F.state folder.new))) }
    ensures alone { IsReadAlone (F.state folder.old) (F.state folder.new) }
{
    let inst = read_case(alloc, folder, names.network, names.currents)?;
    let claim = read_claim(alloc, folder, names.cert, &inst)?;
    let report = accepted_bytes(alloc, &claim)?;
    Ok(Output {
        files: None,
        report,
        status: 0,
    })
}

/// What the certificate in the file of this name claims, if all of it is right.
fn read_claim<F: Folder>(
    alloc: Global,
    folder: &mut F,
    name: &str,
    inst: &Instance,
) -> Result<Claim, Stop>
    ensures accepted { IfOk result (λ claim. AnswersWhole inst.now name.now (F.state folder.old) (F.state folder.new) (Ok claim)) }
    ensures below_all { IfOk result (λ claim. BoundsAll inst.now claim.bound) }
    ensures stopped { IfErr result (λ stop. StopsFor stop (CertCause (F.state folder.old) (F.state folder.new) name.now inst.now)) }
    ensures alone { IsReadAlone (F.state folder.old) (F.state folder.new) }
{
    match check_file(alloc, inst, folder, name) {
        Ok(claim) => Ok(claim),
        Err(refusal) => Err(cert_stop(inst, refusal)),
    }
}

/// Why the refusal of a certificate stops the work.
fn cert_stop(inst: &Instance, refusal: CheckRefusal) -> Stop
    requires { (kind : ClaimKind) → refusal ≡ CheckRefusal.Claim kind → IsAbout inst.now kind }
    ensures { StopsFor result (IsCertRefusal inst.now refusal) }
{
    match refusal {
        CheckRefusal::Missing => Stop::Refused(Refusal::Missing(File::Cert)),
        CheckRefusal::ReadFault => Stop::Refused(Refusal::ReadFault(File::Cert)),
        CheckRefusal::TooLong { .. } => Stop::Refused(Refusal::TooLong(File::Cert)),
        CheckRefusal::Cert { line, kind } => Stop::Refused(Refusal::CertLine { line, kind }),
        CheckRefusal::Tree { number, kind } => Stop::Refused(Refusal::CertNode { number, kind }),
        CheckRefusal::Claim(kind) => Stop::Refused(Refusal::CertClaim(claim_fault(inst, kind))),
        CheckRefusal::NoMemory => Stop::NoMemory,
    }
}

/// The fault of a claim, with names in place of numbers.
fn claim_fault(inst: &Instance, kind: ClaimKind) -> ClaimFault
    requires { IsAbout inst.now kind }
    ensures { result ≡ claim_fault inst.now kind }
{
    match kind {
        ClaimKind::Study { printed, found } => ClaimFault::Study { printed, found },
        ClaimKind::Relays { printed, found } => ClaimFault::Relays { printed, found },
        ClaimKind::Step { relay } => ClaimFault::Step(relay_at(inst.study(), relay)),
        ClaimKind::Row { row } => row_fault(inst, row),
        ClaimKind::Cost { printed, found } => ClaimFault::Cost { printed, found },
        ClaimKind::Boxes { printed, found } => ClaimFault::Boxes { printed, found },
        ClaimKind::Bound { printed, found } => ClaimFault::Bound { printed, found },
        ClaimKind::Gap { printed, least } => ClaimFault::Gap { printed, least },
        ClaimKind::EndingIs { printed, found } => ClaimFault::EndingIs { printed, found },
    }
}

/// The fault of a row that isn't strictly met.
fn row_fault(inst: &Instance, row: u16) -> ClaimFault
    requires { row < length (rows_in inst.now) }
    ensures { result ≡ claim_fault inst.now (ClaimKind.Row row) }
{
    let study = inst.study();
    let row = inst.row(row);
    ClaimFault::Row {
        kind: row.kind,
        fault: fault_at(study, row.fault),
        backup: relay_at(study, row.backup),
        primary: relay_at(study, row.primary),
    }
}

/// The name of a fault of the study.
fn fault_at(study: &Study, fault: u16) -> Name
    requires { fault < length (study_data study.now).faults }
    ensures { result ≡ fault_name (study_data study.now) fault }
{
    study.faults[usize::from(fault)].name
}

/// The name of a relay of the study.
fn relay_at(study: &Study, relay: u16) -> Name
    requires { relay < length (study_data study.now).relays }
    ensures { result ≡ relay_name (study_data study.now) relay }
{
    study.relays[usize::from(relay)].name
}

/// The line of a certificate that is accepted.
#[tactic(auto, unfolding(crate::specs::Check::accepted_text))]
fn accepted_bytes(alloc: Global, claim: &Claim) -> Result<Vec<u8>, NoMemory>
    ensures { IfOk result (λ line. line.items ≡ accepted_text claim.now) }
{
    let mut line = Vec::from_slice(alloc, b"accepted ")?;
    line.extend_from_slice(ending_word(claim.ending))?;
    line.extend_from_slice(b" cost ")?;
    push_amount(&mut line, claim.cost)?;
    line.extend_from_slice(b" bound ")?;
    push_amount(&mut line, claim.bound)?;
    line.extend_from_slice(b" boxes ")?;
    push_number(&mut line, u64::from(claim.boxes))?;
    line.extend_from_slice(b"\n")?;
    Ok(line)
}
