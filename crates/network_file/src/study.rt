//! What a network file tells as a study: its tables in order, with numbers in place of names.
ghost use Rattle.std.specs.Prelude.{◌≡◌, ◌*◌, ◌<◌, ◌≤◌, [], ◌∷◌, length, sum_by, vec_len, All, IfOk};
ghost use Rattle.std.specs.List.{AllPairs};
ghost use Rattle.coord_model.specs.PartLimits.{FitsLine, FitsRelay, FitsFault};
ghost use Rattle.coord_model.specs.Limits.{FitsStudy, StandTogether};
ghost use Rattle.coord_model.specs.StudyData.{study_data};
ghost use Rattle.network_file.specs.EntryLimits.{RelayKeeps, FaultKeeps, IntervalKeeps, ToldKeeps};
ghost use Rattle.network_file.specs.Fault.{Gives, each_after};
ghost use Rattle.network_file.specs.Fits.{study_with, IsPairBelow, IsIntervalBelow};
ghost use Rattle.network_file.specs.Names.{buses_of, line_names, relay_names};
ghost use Rattle.network_file.specs.Study.{next_line, next_relay, next_fault, next_exempt, next_interval, grid_of, study_of};
ghost use Rattle.network_file.specs.Told.{told_data};

use crate::entries::{ExemptEntry, FaultEntry, IntervalEntry, LineEntry, RelayEntry};
use crate::fault::NetFault;
use crate::names::Names;
use crate::numbered::{Grid, fault_on, line_in, relay_in};
use crate::pairs::{exempt_in, interval_in};
use crate::told::{Told, place_after, within};
use coord_model::limits::{MOST_BUSES, MOST_PICKUP_STEPS};
use coord_model::{Exempt, Fault, Line, PairInterval, Relay, Study, TableName, What};
use std::alloc::{AllocError, Global};

/// What is told, with numbers in place of names.
#[tactic(auto, unfolding(crate::specs::Study::study_of))]
pub(crate) fn study_of(alloc: Global, told: &Told) -> Result<Study, NetFault>
    requires { ToldKeeps (told_data told.now) }
    ensures exact { Gives study_data result (study_of (told_data told.now)) }
    ensures fits { IfOk result (λ study. FitsStudy (study_data study)) }
{
    let grid = grid_of(alloc, &told.lines)?;
    let (relays, relay_names) = relays_of(alloc, &grid, &told.relays)?;
    within(What::PickupSteps, MOST_PICKUP_STEPS, pickup_steps(&relays))?;
    let faults = faults_of(alloc, &grid, &told.faults)?;
    let exempt = exempt_of(alloc, &relay_names, &told.exempt)?;
    let intervals = intervals_of(alloc, &relay_names, &told.intervals)?;
    Ok(Study {
        format: told.format,
        cti_ms: told.study.cti_ms,
        sense: told.study.sense,
        cap: told.study.cap,
        load_percent: told.study.load_percent,
        buses: Vec::from_slice(alloc, grid.buses.as_slice())?,
        lines: grid.lines,
        relays,
        faults,
        exempt,
        intervals,
    })
}

/// The lines and their buses.
#[tactic(auto, unfolding(crate::specs::Study::grid_of))]
fn grid_of(alloc: Global, entries: &[LineEntry]) -> Result<Grid, NetFault>
    requires { length entries.now ≤ 64 }
    ensures exact { Gives (λ grid. grid.lines.items) result (grid_of entries.now) }
    ensures buses { IfOk result (λ grid. grid.buses.keys ≡ buses_of entries.now) }
    ensures few { IfOk result (λ grid. length grid.buses.keys ≤ 64) }
    ensures count { IfOk result (λ grid. vec_len grid.lines ≡ length entries.now) }
    ensures named { IfOk result (λ grid. grid.line_names.keys ≡ line_names grid.lines.items) }
    ensures fits { IfOk result (λ grid. All (FitsLine (study_with grid.buses.keys [] [])) grid.lines.items) }
{
    let buses = buses_of(alloc, entries)?;
    let (lines, line_names) = lines_of(alloc, &buses, entries)?;
    within(What::Buses, MOST_BUSES, buses.len())?;
    Ok(Grid {
        buses,
        line_names,
        lines,
    })
}

/// The buses, by their first mention in the lines, `from` before `to`.
#[tactic(auto, unfolding(crate::specs::Names::buses_of))]
fn buses_of(alloc: Global, lines: &[LineEntry]) -> Result<Names, AllocError>
    ensures exact { IfOk result (λ buses. buses.keys ≡ buses_of lines.now) }
    ensures few { IfOk result (λ buses. length buses.keys ≤ 2 * length lines.now) }
{
    let mut buses = Names::new(alloc);
    for line in lines {
        buses.insert(line.from)?;
        buses.insert(line.to)?;
    }
    Ok(buses)
}

/// The lines, and their names in order.
fn lines_of(
    alloc: Global,
    buses: &Names,
    entries: &[LineEntry],
) -> Result<(Vec<Line>, Names), NetFault>
    requires few { length entries.now ≤ 64 }
    requires buses { length buses.now.keys ≤ 128 }
    ensures exact { Gives (λ made. made.0.items) result (each_after (next_line buses.now.keys) [] entries.now) }
    ensures count { IfOk result (λ made. vec_len made.0 ≡ length entries.now) }
    ensures named { IfOk result (λ made. made.1.keys ≡ line_names made.0.items) }
    ensures fits { IfOk result (λ made. All (FitsLine (study_with buses.now.keys [] [])) made.0.items) }
{
    let mut names = Names::new(alloc);
    let mut lines = Vec::with_capacity(alloc, entries.len())?;
    for entry in entries {
        let place = place_after(TableName::Line, &lines);
        lines.push(line_in(buses, place, &mut names, *entry)?)?;
    }
    Ok((lines, names))
}

/// The relays, and their names in order.
fn relays_of(
    alloc: Global,
    grid: &Grid,
    entries: &[RelayEntry],
) -> Result<(Vec<Relay>, Names), NetFault>
    requires few { length entries.now ≤ 96 }
    requires buses { length grid.now.buses.keys ≤ 64 }
    requires lines { length grid.now.line_names.keys ≤ 64 }
    requires named { grid.now.line_names.keys ≡ line_names grid.now.lines.items }
    requires keeps { All RelayKeeps entries.now }
    ensures exact { Gives (λ made. made.0.items) result (each_after (next_relay grid.now.buses.keys grid.now.lines.items) [] entries.now) }
    ensures count { IfOk result (λ made. vec_len made.0 ≡ length entries.now) }
    ensures named { IfOk result (λ made. made.1.keys ≡ relay_names made.0.items) }
    ensures fits { IfOk result (λ made. All (FitsRelay (study_with grid.now.buses.keys grid.now.lines.items [])) made.0.items) }
    ensures apart { IfOk result (λ made. AllPairs (λ relay other. ¬ (StandTogether relay other)) made.0.items) }
{
    let mut names = Names::new(alloc);
    let mut relays = Vec::with_capacity(alloc, entries.len())?;
    for entry in entries {
        let place = place_after(TableName::Relay, &relays);
        let relay = relay_in(grid, place, &mut names, &relays, *entry)?;
        relays.push(relay)?;
    }
    Ok((relays, names))
}

/// The pickup steps of all relays together.
fn pickup_steps(relays: &[Relay]) -> usize
    requires { length relays.now ≤ 96 }
    ensures { result ≡ sum_by (λ relay. relay.plug_count) relays.now }
{
    relays.iter().map(|relay| relay.plug_count as usize).sum()
}

/// The faults.
fn faults_of(alloc: Global, grid: &Grid, entries: &[FaultEntry]) -> Result<Vec<Fault>, NetFault>
    requires few { length entries.now ≤ 256 }
    requires lines { length grid.now.line_names.keys ≤ 64 }
    requires named { grid.now.line_names.keys ≡ line_names grid.now.lines.items }
    requires keeps { All FaultKeeps entries.now }
    ensures exact { Gives (λ faults. faults.items) result (each_after (next_fault grid.now.lines.items) [] entries.now) }
    ensures count { IfOk result (λ faults. vec_len faults ≡ length entries.now) }
    ensures fits { IfOk result (λ faults. All (FitsFault (study_with grid.now.buses.keys grid.now.lines.items [])) faults.items) }
{
    let mut names = Names::new(alloc);
    let mut faults = Vec::with_capacity(alloc, entries.len())?;
    for entry in entries {
        let place = place_after(TableName::Fault, &faults);
        faults.push(fault_on(grid, place, &mut names, *entry)?)?;
    }
    Ok(faults)
}

/// The exempt pairs.
fn exempt_of(
    alloc: Global,
    relay_names: &Names,
    entries: &[ExemptEntry],
) -> Result<Vec<Exempt>, NetFault>
    requires few { length entries.now ≤ 1024 }
    requires relays { length relay_names.now.keys ≤ 96 }
    ensures exact { Gives (λ exempt. exempt.items) result (each_after (next_exempt relay_names.now.keys) [] entries.now) }
    ensures count { IfOk result (λ exempt. vec_len exempt ≡ length entries.now) }
    ensures within { IfOk result (λ exempt. All (IsPairBelow (length relay_names.now.keys)) exempt.items) }
{
    let mut exempt = Vec::with_capacity(alloc, entries.len())?;
    for entry in entries {
        let place = place_after(TableName::Exempt, &exempt);
        exempt.push(exempt_in(relay_names, place, *entry)?)?;
    }
    Ok(exempt)
}

/// The intervals of pairs' own.
fn intervals_of(
    alloc: Global,
    relay_names: &Names,
    entries: &[IntervalEntry],
) -> Result<Vec<PairInterval>, NetFault>
    requires few { length entries.now ≤ 1024 }
    requires relays { length relay_names.now.keys ≤ 96 }
    requires keeps { All IntervalKeeps entries.now }
    ensures exact { Gives (λ intervals. intervals.items) result (each_after (next_interval relay_names.now.keys) [] entries.now) }
    ensures count { IfOk result (λ intervals. vec_len intervals ≡ length entries.now) }
    ensures within { IfOk result (λ intervals. All (IsIntervalBelow (length relay_names.now.keys)) intervals.items) }
{
    let mut intervals = Vec::with_capacity(alloc, entries.len())?;
    for entry in entries {
        let place = place_after(TableName::Interval, &intervals);
        let interval = interval_in(relay_names, place, &intervals, *entry)?;
        intervals.push(interval)?;
    }
    Ok(intervals)
}
