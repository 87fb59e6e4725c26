//! A study as it is told, with names in place of numbers.
ghost use Rattle.std.specs.Prelude.{◌≡◌, ◌<◌, map, length, [], All, IfOk};
ghost use Rattle.coord_model.specs.Limits.{FitsStudy};
ghost use Rattle.coord_model.specs.PartLimits.{FitsLine, FitsFault};
ghost use Rattle.coord_model.specs.StudyData.{study_data};
ghost use Rattle.network_file.specs.Fits.{study_with, IsPairBelow, IsIntervalBelow, IsRelayBelow};
ghost use Rattle.network_file.specs.Named.{line_told, relay_told, fault_told, pair_told, interval_told, told_of};
ghost use Rattle.network_file.specs.Names.{named, line_names, relay_names};
ghost use Rattle.network_file.specs.Told.{told_data};

use crate::entries::{ExemptEntry, FaultEntry, IntervalEntry, LineEntry, RelayEntry, StudyEntry};
use crate::told::Told;
use coord_model::{Exempt, Fault, Line, Name, PairInterval, Relay, Study};
use std::alloc::{AllocError, Global};

/// The name of a bus.
fn bus_name(buses: &[Name], number: u16) -> Name
    requires { number < length buses.now }
    ensures { result ≡ named buses.now number }
{
    buses[usize::from(number)]
}

/// The name of a line.
fn line_name(lines: &[Line], number: u16) -> Name
    requires { number < length lines.now }
    ensures { result ≡ named (line_names lines.now) number }
{
    lines[usize::from(number)].name
}

/// The name of a relay.
fn relay_name(relays: &[Relay], number: u16) -> Name
    requires { number < length relays.now }
    ensures { result ≡ named (relay_names relays.now) number }
{
    relays[usize::from(number)].name
}

/// The lines with their buses' names.
fn lines_told(alloc: Global, buses: &[Name], lines: &[Line]) -> Result<Vec<LineEntry>, AllocError>
    requires { All (FitsLine (study_with buses.now [] [])) lines.now }
    ensures { IfOk result (λ v. v.items ≡ map (line_told buses.now) lines.now) }
{
    lines
        .iter()
        .map(|line| LineEntry {
            name: line.name,
            from: bus_name(buses, line.from),
            to: bus_name(buses, line.to),
        })
        .collect(alloc)
}

/// The relays with the names of their lines and buses.
fn relays_told(
    alloc: Global,
    buses: &[Name],
    lines: &[Line],
    relays: &[Relay],
) -> Result<Vec<RelayEntry>, AllocError>
    requires { All (IsRelayBelow (length buses.now) (length lines.now)) relays.now }
    ensures { IfOk result (λ v. v.items ≡ map (relay_told buses.now (line_names lines.now)) relays.now) }
{
    relays
        .iter()
        .map(|relay| RelayEntry {
            name: relay.name,
            line: line_name(lines, relay.line),
            bus: bus_name(buses, relay.bus),
            curve: relay.curve,
            ct_primary: relay.ct_primary,
            ct_secondary: relay.ct_secondary,
            plug_first: relay.plug_first,
            plug_step: relay.plug_step,
            plug_count: relay.plug_count,
            dial_first: relay.dial_first,
            dial_step: relay.dial_step,
            dial_count: relay.dial_count,
            load_amps: relay.load_amps,
            least_ms: relay.least_ms,
            most_ms: relay.most_ms,
        })
        .collect(alloc)
}

/// The faults with their lines' names.
fn faults_told(
    alloc: Global,
    lines: &[Line],
    faults: &[Fault],
) -> Result<Vec<FaultEntry>, AllocError>
    requires { All (FitsFault (study_with [] lines.now [])) faults.now }
    ensures { IfOk result (λ v. v.items ≡ map (fault_told (line_names lines.now)) faults.now) }
{
    faults
        .iter()
        .map(|fault| FaultEntry {
            name: fault.name,
            line: line_name(lines, fault.line),
            weight: fault.weight,
        })
        .collect(alloc)
}

/// The exempt pairs with their relays' names.
fn pairs_told(
    alloc: Global,
    relays: &[Relay],
    pairs: &[Exempt],
) -> Result<Vec<ExemptEntry>, AllocError>
    requires { All (IsPairBelow (length relays.now)) pairs.now }
    ensures { IfOk result (λ v. v.items ≡ map (pair_told (relay_names relays.now)) pairs.now) }
{
    pairs
        .iter()
        .map(|pair| ExemptEntry {
            backup: relay_name(relays, pair.backup),
            primary: relay_name(relays, pair.primary),
        })
        .collect(alloc)
}

/// The intervals with their relays' names.
fn intervals_told(
    alloc: Global,
    relays: &[Relay],
    intervals: &[PairInterval],
) -> Result<Vec<IntervalEntry>, AllocError>
    requires { All (IsIntervalBelow (length relays.now)) intervals.now }
    ensures { IfOk result (λ v. v.items ≡ map (interval_told (relay_names relays.now)) intervals.now) }
{
    intervals
        .iter()
        .map(|own| IntervalEntry {
            backup: relay_name(relays, own.backup),
            primary: relay_name(relays, own.primary),
            cti_ms: own.cti_ms,
        })
        .collect(alloc)
}

/// The study with names in place of numbers.
#[tactic(auto, using(crate::proofs::Placed::relays_below))]
pub(crate) fn told_of(alloc: Global, study: &Study) -> Result<Told, AllocError>
    requires { FitsStudy (study_data study.now) }
    ensures { IfOk result (λ told. told_data told ≡ told_of (study_data study.now)) }
{
    Ok(Told {
        format: study.format,
        study: StudyEntry {
            cti_ms: study.cti_ms,
            sense: study.sense,
            cap: study.cap,
            load_percent: study.load_percent,
        },
        lines: lines_told(alloc, &study.buses, &study.lines)?,
        relays: relays_told(alloc, &study.buses, &study.lines, &study.relays)?,
        faults: faults_told(alloc, &study.lines, &study.faults)?,
        exempt: pairs_told(alloc, &study.relays, &study.exempt)?,
        intervals: intervals_told(alloc, &study.relays, &study.intervals)?,
    })
}
