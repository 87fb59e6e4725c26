//! What rows ask for: coordination intervals, least and greatest times.
ghost use Rattle.std.specs.Prelude.{◌≡◌, ◌==◌, ◌&&◌, ◌<◌, length, map, IfOk, Contains};
ghost use Rattle.std.specs.List.{find};
ghost use Rattle.std.specs.Option.{option_map};
ghost use Rattle.coord_model.specs.Allowed.{cti_of};
ghost use Rattle.coord_model.specs.StudyData.{study_data};
ghost use Rattle.margin_rows.specs.Case.{rows_in};
ghost use Rattle.margin_rows.specs.Demands.{asked_ms, granted_ms, slow_part, fast_part, demand_of};

use crate::given::Given;
use coord_model::{NoMemory, PairInterval, Row, RowKind, Study};
use std::alloc::Global;

/// The picoseconds of a millisecond.
const MILLISECOND: u64 = 1_000_000_000;

/// By how much the slow relay of a row has to be slower, and how long the fast one may take, in picoseconds.
#[derive(Clone, Copy)]
pub struct Demand {
    pub asked: u64,
    pub granted: u64,
}

/// What each row asks for.
pub fn demands(alloc: Global, given: &Given, rows: &[Row]) -> Result<Vec<Demand>, NoMemory>
    requires { rows.now ≡ rows_in given.now }
    ensures { IfOk result (λ demands. demands.items ≡ map (demand_of given.now.study) (rows_in given.now)) }
{
    let mut demands = Vec::new(alloc);
    for row in rows {
        demands.push(demand_at(given, row))?;
    }
    Ok(demands)
}

/// What a row asks for.
fn demand_at(given: &Given, row: &Row) -> Demand
    requires { Contains (rows_in given.now) row.now }
    ensures { result ≡ demand_of given.now.study row.now }
{
    Demand {
        asked: u64::from(asked_ms(given.study(), row)) * MILLISECOND,
        granted: u64::from(granted_ms(given.study(), row)) * MILLISECOND,
    }
}

/// The time by which the slow relay of a row has to be slower, in milliseconds.
fn asked_ms(study: &Study, row: &Row) -> u32
    requires { row.now.primary < length study.now.relays.items }
    ensures { result ≡ asked_ms row.now.kind (study_data study.now) row.now }
{
    match row.kind {
        RowKind::Interval => cti(study, row.backup, row.primary),
        RowKind::Least => study.relays[usize::from(row.primary)].least_ms,
        RowKind::Most => 0,
    }
}

/// The time that the fast relay of a row may take, in milliseconds.
fn granted_ms(study: &Study, row: &Row) -> u32
    requires { row.now.primary < length study.now.relays.items }
    ensures { result ≡ granted_ms row.now.kind (study_data study.now) row.now }
{
    match row.kind {
        RowKind::Interval | RowKind::Least => 0,
        RowKind::Most => study.relays[usize::from(row.primary)].most_ms,
    }
}

/// The coordination interval of a pair, in milliseconds: its own, or else the study's.
fn cti(study: &Study, backup: u16, primary: u16) -> u32
    ensures { result ≡ cti_of (study_data study.now) backup primary }
{
    match own_interval(&study.intervals, backup, primary) {
        Some(own) => own.cti_ms,
        None => study.cti_ms,
    }
}

/// The interval of a pair's own. `None`: it has none.
fn own_interval(intervals: &[PairInterval], backup: u16, primary: u16) -> Option<&PairInterval>
    ensures { option_map (λ own. own.now) result ≡ find (λ own. (own.backup == backup) && (own.primary == primary)) intervals.now }
{
    intervals
        .iter()
        .find(|own| own.backup == backup && own.primary == primary)
}

/// The time of a row's slow relay, if a row of this kind has one; else 0.
pub fn slow_part(kind: RowKind, time: u64) -> u64
    ensures { result ≡ slow_part kind time }
{
    match kind {
        RowKind::Interval | RowKind::Least => time,
        RowKind::Most => 0,
    }
}

/// The time of a row's fast relay, if a row of this kind has one; else 0.
pub fn fast_part(kind: RowKind, time: u64) -> u64
    ensures { result ≡ fast_part kind time }
{
    match kind {
        RowKind::Interval | RowKind::Most => time,
        RowKind::Least => 0,
    }
}
