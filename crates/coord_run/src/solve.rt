//! The command `solve`.
ghost use Rattle.std.specs.Prelude.{◌≡◌, ◌^◌, ◌≤◌, IfOk, IfErr, IfSome, Some, None};
ghost use Rattle.branch_bound.specs.Outcome.{IsReached};
ghost use Rattle.cert_text.specs.CertData.{IsCert, cert_data};
ghost use Rattle.coord_io.specs.Outside.{IsReadAlone};
ghost use Rattle.coord_run.specs.Answers.{MustSolve};
ghost use Rattle.coord_run.specs.Certified.{cert_of, study_shown};
ghost use Rattle.coord_run.specs.Handing.{AreWritable, IsWritable, both_texts, output_data};
ghost use Rattle.coord_run.specs.Headline.{Headline};
ghost use Rattle.coord_run.specs.Names.{asked_data, names_data};
ghost use Rattle.coord_run.specs.Solve.{ComesTo, IsGapFor, IsGapTooSmall, IsSolved, SolveCause, Solves, output_of};
ghost use Rattle.coord_words.specs.SolveWords.{IsAsked};
ghost use Rattle.coord_run.specs.Shown.{IsShown};
ghost use Rattle.coord_run.specs.Stops.{StopsFor};
ghost use Rattle.margin_rows.specs.Case.{FitsCase};
ghost use Rattle.settings_sheet.specs.SheetText.{IsSheet};
ghost use Rattle.coord_run.specs.Report.{sheet_of};

use crate::end::{NewCert, NewFile, NewFiles, Output, hand_over};
use crate::inputs::read_case;
use crate::refusal::{Refusal, Stop};
use crate::refusal_line::name_line;
use crate::report::report_bytes;
use crate::status::outcome_status;
use crate::words::Names;
use branch_bound::{Outcome, SearchFault, search};
use cert_check::study_head;
use coord_io::{Folder, Sink};
use coord_model::{Cert, NoMemory, StudyHead};
use lp_advice::Adviser;
use margin_rows::{Instance, least_gap};
use settings_sheet::{Sheet, sheet_bytes};
use std::alloc::Global;

/// The gap that is searched with if none is given, in weighted microseconds, unless the study's least gap is more.
const DEFAULT_GAP: u64 = 1_000;

/// What `solve` is asked: its names, the gap in whole weighted microseconds if one is given, and the budget of boxes.
#[derive(Clone, Copy)]
pub struct Asked<'a> {
    pub names: Names<'a>,
    pub gap: Option<u64>,
    pub budget: u32,
}

/// `solve` with the advice of an adviser: whatever it advises, the clauses are those of `solve`.
///
/// The four names differ. `gap` is in whole weighted microseconds, from 1 to 10^12; if none is given, it is the greater
/// of 1,000 and the study's least gap. `budget` is the number of boxes that may be worked on, from 1 to 200,000. The
/// answer is the status.
pub fn solve_with<F: Folder, K: Sink, A: Adviser>(
    alloc: Global,
    folder: &mut F,
    out: &mut K,
    network: &str,
    currents: &str,
    sheet: &str,
    cert: &str,
    gap: Option<u64>,
    budget: u32,
    adviser: &mut A,
) -> u8
    requires { IsAsked (record { names = record { network = network.now; currents = currents.now; sheet = sheet.now; cert = cert.now }; gap = gap; budget = budget }) }
    ensures solves { Solves (record { names = record { network = network.now; currents = currents.now; sheet = sheet.now; cert = cert.now }; gap = gap; budget = budget })
        (F.state folder.old) (F.state folder.new) (K.state out.old) (K.state out.new) result }
    ensures headline { Headline (record { names = record { network = network.now; currents = currents.now; sheet = sheet.now; cert = cert.now }; gap = gap; budget = budget })
        (F.state folder.old) (F.state folder.new) (K.state out.old) (K.state out.new) result }
    ensures answers { MustSolve (record { names = record { network = network.now; currents = currents.now; sheet = sheet.now; cert = cert.now }; gap = gap; budget = budget })
        (F.state folder.old) (F.state folder.new) (K.state out.old) (K.state out.new) result }
{
    let names = Names {
        network,
        currents,
        sheet,
        cert,
    };
    let asked = Asked { names, gap, budget };
    solve(alloc, folder, out, &asked, adviser)
}

/// Reads the network and the currents, searches, writes the certificate and the sheet and prints the report, or the line
/// of a refusal.
///
/// No file is started before the work has ended. The answer is the status.
fn solve<F: Folder, K: Sink, A: Adviser>(
    alloc: Global,
    folder: &mut F,
    out: &mut K,
    asked: &Asked<'_>,
    adviser: &mut A,
) -> u8
    requires { IsAsked (asked_data asked.now) }
    ensures { Solves (asked_data asked.now) (F.state folder.old) (F.state folder.new) (K.state out.old) (K.state out.new) result }
{
    let work = work(alloc, folder, asked, adviser);
    hand_over(alloc, folder, out, &asked.names, work)
}

/// The certificate, the sheet and the report, made before any file is started.
fn work<'a, F: Folder, A: Adviser>(
    alloc: Global,
    folder: &mut F,
    asked: &Asked<'a>,
    adviser: &mut A,
) -> Result<Output<'a>, Stop>
    requires { IsAsked (asked_data asked.now) }
    ensures solved { IfOk result (λ output. IsSolved (asked_data asked.now) (F.state folder.old) (F.state folder.new) (output_data output)) }
    ensures writable { IfOk result IsWritable }
    ensures stopped { IfErr result (λ stop. StopsFor stop (SolveCause (asked_data asked.now) (F.state folder.old) (F.state folder.new))) }
    ensures alone { IsReadAlone (F.state folder.old) (F.state folder.new) }
{
    let inst = read_case(alloc, folder, asked.names.network, asked.names.currents)?;
    let outcome = coordinate(alloc, &inst, asked, adviser)?;
    Ok(output(alloc, asked, &inst, outcome)?)
}

/// What a search of the instance comes to.
fn coordinate<A: Adviser>(
    alloc: Global,
    inst: &Instance,
    asked: &Asked<'_>,
    adviser: &mut A,
) -> Result<Outcome, Stop>
    requires asked { IsAsked (asked_data asked.now) }
    requires fits { FitsCase inst.now }
    ensures comes { IfOk result (ComesTo inst.now (asked_data asked.now)) }
    ensures stopped { IfErr result (λ stop. StopsFor stop (IsGapTooSmall inst.now (asked_data asked.now))) }
{
    match search(alloc, inst, gap_for(inst, asked.gap), asked.budget, adviser) {
        Ok(outcome) => Ok(outcome),
        Err(SearchFault::GapTooSmall { given, least }) => {
            Err(Stop::Refused(Refusal::GapTooSmall { given, least }))
        }
        Err(SearchFault::NoMemory) => Err(Stop::NoMemory),
    }
}

/// The gap that is searched with, in weighted microseconds.
fn gap_for(inst: &Instance, gap: Option<u64>) -> u64
    requires given { IfSome gap (λ g. g ≤ 10 ^ 12) }
    ensures exact { IsGapFor inst.now gap result }
    ensures within { result ≤ 10 ^ 12 }
{
    match gap {
        Some(given) => given,
        None => least_gap(inst).max(DEFAULT_GAP),
    }
}

/// The certificate, the sheet and the report of what a search came to.
fn output<'a>(
    alloc: Global,
    asked: &Asked<'a>,
    inst: &Instance,
    outcome: Outcome,
) -> Result<Output<'a>, NoMemory>
    requires shown { IsShown inst.now outcome }
    requires cert { IsCert (cert_of inst.now outcome) }
    ensures output { IfOk result (λ output. output_data output ≡ output_of (asked_data asked.now) inst.now outcome) }
    ensures writable { IfOk result IsWritable }
{
    let report = report_bytes(alloc, inst, &outcome)?;
    let status = outcome_status(&outcome);
    let files = files(alloc, asked, inst, outcome)?;
    Ok(Output {
        files: Some(files),
        report,
        status,
    })
}

/// The certificate and the sheet of what a search came to, each with the line for the case that writing it fails.
fn files<'a>(
    alloc: Global,
    asked: &Asked<'a>,
    inst: &Instance,
    outcome: Outcome,
) -> Result<NewFiles<'a>, NoMemory>
    requires sheet { IsSheet inst.now.study (sheet_of outcome) }
    requires cert { IsCert (cert_of inst.now outcome) }
    ensures texts { IfOk result (λ files. both_texts files ≡ (output_of (asked_data asked.now) inst.now outcome).files) }
    ensures writable { IfOk result AreWritable }
{
    let cert_line = name_line(alloc, b"write fault: ", asked.names.cert.as_bytes())?;
    let sheet_line = name_line(alloc, b"write fault: ", asked.names.sheet.as_bytes())?;
    let sheet = Sheet {
        ending: outcome.ending,
        cost: outcome.cost,
        bound: outcome.bound,
        choice: outcome.issued,
    };
    let text = sheet_bytes(alloc, inst.study(), &sheet)?;
    let cert = Cert {
        study: study_shown(inst),
        ending: outcome.ending,
        gap: outcome.gap,
        budget: outcome.budget,
        boxes: outcome.boxes,
        bound: outcome.bound,
        cost: outcome.cost,
        choice: sheet.choice,
        tree: outcome.tree,
    };
    Ok(NewFiles {
        cert: NewCert {
            name: asked.names.cert,
            cert,
            fault_line: cert_line,
        },
        sheet: NewFile {
            name: asked.names.sheet,
            text,
            fault_line: sheet_line,
        },
    })
}

/// What a certificate tells of the study: nothing in the formats 1 and 2.
fn study_shown(inst: &Instance) -> Option<StudyHead>
    ensures { result ≡ study_shown inst.now }
{
    if inst.study().format <= 2 {
        None
    } else {
        Some(study_head(inst))
    }
}
