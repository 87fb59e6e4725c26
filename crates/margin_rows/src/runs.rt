//! The operating times that count: a run for each fault and relay of a term or row, by pickup step.
ghost use Rattle.std.specs.Prelude.{◌≡◌, ◌<◌, ◌≤◌, ◌++◌, length, Contains, IfOk, OnOk};
ghost use Rattle.coord_model.specs.Allowed.{Senses};
ghost use Rattle.coord_model.specs.Limits.{FitsStudy};
ghost use Rattle.coord_model.specs.PartLimits.{FitsRelay};
ghost use Rattle.coord_model.specs.StudyData.{study_data};
ghost use Rattle.margin_rows.specs.Case.{rows_in, terms_in};
ghost use Rattle.margin_rows.specs.Tables.{cell, cells, Extends, HoldsRun, HoldsRuns, HoldTermRuns, HoldRowRuns};
ghost use Rattle.margin_rows.specs.Times.{relay_time, ends_of};

use crate::enclose::enclose;
use crate::ends::Ends;
use crate::given::Given;
use crate::spans::{plug, senses};
use coord_model::{NoMemory, Relay, Row, Study, Term};
use std::alloc::Global;

/// Where the times of a row's two relays begin.
#[derive(Clone, Copy)]
pub struct RowRuns {
    pub backup: usize,
    pub primary: usize,
}

/// The times, one run after another, and where the run of each fault and relay begins, once it is there.
#[derive(Drop)]
pub struct Runs {
    pub times: Vec<Ends>,
    pub starts: Vec<Option<usize>>,
}

/// No runs yet.
pub fn no_runs(alloc: Global, given: &Given) -> Result<Runs, NoMemory>
    ensures { IfOk result (HoldsRuns given.now) }
{
    let study = given.study();
    let starts = vec![in alloc; None; study.faults.len() * study.relays.len()]?;
    Ok(Runs {
        times: Vec::new(alloc),
        starts,
    })
}

/// Where the times of each term begin.
pub fn term_runs(
    alloc: Global,
    given: &Given,
    terms: &[Term],
    runs: &mut Runs,
) -> Result<Vec<usize>, NoMemory>
    requires terms { terms.now ≡ terms_in given.now }
    requires runs { HoldsRuns given.now runs.old }

    ensures runs { OnOk result (HoldsRuns given.now runs.new) }
    ensures terms { IfOk result (λ starts. HoldTermRuns given.now runs.new.times.items starts.items) }
{
    let mut starts = Vec::new(alloc);
    for term in terms {
        starts.push(run_of(given, term.fault, term.relay, runs)?)?;
    }
    Ok(starts)
}

/// Where the times of each row begin.
pub fn row_runs(
    alloc: Global,
    given: &Given,
    rows: &[Row],
    runs: &mut Runs,
) -> Result<Vec<RowRuns>, NoMemory>
    requires rows { rows.now ≡ rows_in given.now }
    requires runs { HoldsRuns given.now runs.old }

    ensures extends { OnOk result (Extends runs.old.times.items runs.new.times.items) }
    ensures rows { IfOk result (λ starts. HoldRowRuns given.now runs.new.times.items starts.items) }
{
    let mut starts = Vec::new(alloc);
    for row in rows {
        starts.push(runs_of(given, row, runs)?)?;
    }
    Ok(starts)
}

/// Where the times of a row's two relays begin.
fn runs_of(given: &Given, row: &Row, runs: &mut Runs) -> Result<RowRuns, NoMemory>
    requires row { Contains (rows_in given.now) row.now }
    requires runs { HoldsRuns given.now runs.old }

    ensures runs { OnOk result (HoldsRuns given.now runs.new) }
    ensures extends { OnOk result (Extends runs.old.times.items runs.new.times.items) }
    ensures backup { IfOk result (λ starts. HoldsRun given.now runs.new.times.items row.now.fault row.now.backup starts.backup) }
    ensures primary { IfOk result (λ starts. HoldsRun given.now runs.new.times.items row.now.fault row.now.primary starts.primary) }
{
    let backup = run_of(given, row.fault, row.backup, runs)?;
    let primary = run_of(given, row.fault, row.primary, runs)?;
    Ok(RowRuns { backup, primary })
}

/// Where the times of a relay at a fault begin. They are worked out where they are not there yet.
fn run_of(given: &Given, fault: u16, relay: u16, runs: &mut Runs) -> Result<usize, NoMemory>
    requires fault { fault < length given.now.study.faults }
    requires relay { relay < length given.now.study.relays }
    requires runs { HoldsRuns given.now runs.old }

    ensures runs { OnOk result (HoldsRuns given.now runs.new) }
    ensures extends { OnOk result (Extends runs.old.times.items runs.new.times.items) }
    ensures run { IfOk result (HoldsRun given.now runs.new.times.items fault relay) }
{
    let study = given.study();
    let place = usize::from(fault) * study.relays.len() + usize::from(relay);
    if let Some(start) = runs.starts[place] {
        return Ok(start);
    }
    let start = runs.times.len();
    push_run(
        study,
        &study.relays[usize::from(relay)],
        given.amps(fault, relay),
        &mut runs.times,
    )?;
    runs.starts[place] = Some(start);
    Ok(start)
}

/// Adds the times of a relay at a current, by pickup step.
fn push_run(study: &Study, relay: &Relay, amps: u32, times: &mut Vec<Ends>) -> Result<(), NoMemory>
    requires study { FitsStudy (study_data study.now) }
    requires relay { FitsRelay (study_data study.now) relay.now }
    requires amps { amps ≤ 100000 }
    ensures { OnOk result (times.new.items ≡ times.old.items ++ cells (study_data study.now) relay.now amps) }
{
    for step in 0..relay.plug_count as u16 {
        times.push(time(study, relay, step, amps))?;
    }
    Ok(())
}

/// The ends of a relay's time at a pickup step and a current; 0 where the step does not sense the current.
fn time(study: &Study, relay: &Relay, step: u16, amps: u32) -> Ends
    requires study { FitsStudy (study_data study.now) }
    requires relay { FitsRelay (study_data study.now) relay.now }
    requires step { step < relay.now.plug_count }
    requires amps { amps ≤ 100000 }
    ensures { result ≡ cell (study_data study.now) relay.now amps step }
{
    if senses(study, relay, step, amps) {
        sensed_time(study, relay, step, amps)
    } else {
        Ends { lower: 0, upper: 0 }
    }
}

/// The ends of a relay's time at a pickup step that senses the current.
fn sensed_time(study: &Study, relay: &Relay, step: u16, amps: u32) -> Ends
    requires study { FitsStudy (study_data study.now) }
    requires relay { FitsRelay (study_data study.now) relay.now }
    requires step { step < relay.now.plug_count }
    requires amps { amps ≤ 100000 }
    requires sensed { Senses (study_data study.now) relay.now step amps }
    ensures { result ≡ ends_of (relay_time study.now.cap relay.now step amps) }
{
    let num = 100 * u64::from(amps) * u64::from(relay.ct_secondary);
    let den = plug(relay, step) * u64::from(relay.ct_primary);
    let cap = u64::from(study.cap);
    if num >= cap * den {
        enclose(relay.curve, cap, 1)
    } else {
        enclose(relay.curve, num, den)
    }
}
