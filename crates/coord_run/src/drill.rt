//! The command `drill`.
ghost use Rattle.std.specs.Prelude.{◌≡◌, ◌^◌, ◌≤◌, ℕ, ◌++◌, IfOk, OnOk};
ghost use Rattle.branch_bound.specs.Outcome.{IsReached};
ghost use Rattle.coord_run.specs.Drill.{Drills, IsDrillGap, IsDrilled, drill_case, drill_report, drill_text};
ghost use Rattle.coord_words.specs.OptionNumbers.{IsRing};
ghost use Rattle.coord_run.specs.Shown.{IsShown};
ghost use Rattle.margin_rows.specs.Case.{FitsCase};
ghost use Rattle.margin_rows.specs.Gap.{IsLeastGap};

use crate::printing::print;
use crate::report::report_bytes;
use crate::status::{NO_MEMORY, outcome_status};
use branch_bound::{Outcome, SearchFault, search};
use coord_io::Sink;
use coord_model::NoMemory;
use coord_text::push_number;
use drill_ring::drill_study;
use lp_advice::LpAdviser;
use margin_rows::{BuildFault, Instance, build, least_gap};
use std::alloc::Global;

/// The gap that is searched with, in weighted microseconds, unless the study's least gap is more.
const GAP: u64 = 10_000;

/// The boxes that may be worked on.
const BUDGET: u32 = 200;

/// Searches the ring of `n` buses, 3 to 48, and prints what the search comes to. The answer is the status.
pub fn drill<K: Sink>(alloc: Global, out: &mut K, n: u32) -> u8
    requires { IsRing n }
    ensures { Drills n (K.state out.old) (K.state out.new) result }
{
    match work(alloc, n) {
        Ok((report, status)) => print(out, &report, status),
        Err(NoMemory) => NO_MEMORY,
    }
}

/// The report on the ring of `n` buses, with its status.
fn work(alloc: Global, n: u32) -> Result<(Vec<u8>, u8), NoMemory>
    requires { IsRing n }
    ensures { IfOk result (λ drilled. IsDrilled n drilled.0.items drilled.1) }
{
    let inst = ring(alloc, n)?;
    let outcome = search_ring(alloc, &inst)?;
    let report = drill_bytes(alloc, n, &inst, &outcome)?;
    Ok((report, outcome_status(&outcome)))
}

/// The instance of the ring of `n` buses.
fn ring(alloc: Global, n: u32) -> Result<Instance, NoMemory>
    requires { IsRing n }
    ensures exact { IfOk result (λ inst. inst ≡ drill_case n) }
    ensures fits { IfOk result FitsCase }
{
    let (study, currents) = drill_study(alloc, n)?;
    match build(alloc, study, currents) {
        Ok(inst) => Ok(inst),
        Err(BuildFault::NoMemory) => Err(NoMemory),
        // a ring has few rows
        Err(BuildFault::TooManyRows { .. }) => unreachable!(),
    }
}

/// What a search of the instance comes to.
fn search_ring(alloc: Global, inst: &Instance) -> Result<Outcome, NoMemory>
    ensures { IfOk result (λ outcome. (gap : ℕ) × IsDrillGap inst.now gap × IsReached inst.now gap 200 outcome) }
{
    match search(alloc, inst, drill_gap(inst), BUDGET, &mut LpAdviser::new()) {
        Ok(outcome) => Ok(outcome),
        Err(SearchFault::NoMemory) => Err(NoMemory),
        // the gap is at least the least gap
        Err(SearchFault::GapTooSmall { .. }) => unreachable!(),
    }
}

/// The gap that is searched with, in weighted microseconds.
fn drill_gap(inst: &Instance) -> u64
    ensures exact { IsDrillGap inst.now result }
    ensures enough { (least : ℕ) → IsLeastGap inst.now least → least ≤ result }
    ensures within { result ≤ 10 ^ 12 }
{
    least_gap(inst).max(GAP)
}

/// How many buses, relays and rows there are, and the report of an outcome.
fn drill_bytes(
    alloc: Global,
    n: u32,
    inst: &Instance,
    outcome: &Outcome,
) -> Result<Vec<u8>, NoMemory>
    requires { IsShown inst.now outcome.now }
    ensures { IfOk result (λ text. text.items ≡ drill_report n inst.now outcome.now) }
{
    let mut text = Vec::new(alloc);
    push_counts(&mut text, n, inst.study().relays.len(), inst.rows().len())?;
    text.extend_from_slice(&report_bytes(alloc, inst, outcome)?)?;
    Ok(text)
}

/// Adds the line that says how many buses, relays and rows there are.
#[tactic(auto, unfolding(crate::specs::Drill::drill_text))]
fn push_counts(out: &mut Vec<u8>, n: u32, relays: usize, rows: usize) -> Result<(), NoMemory>
    ensures { OnOk result (out.new.items ≡ out.old.items ++ drill_text n relays rows) }
{
    out.extend_from_slice(b"drill ")?;
    push_number(out, u64::from(n))?;
    out.extend_from_slice(b" relays ")?;
    push_number(out, relays as u64)?;
    out.extend_from_slice(b" rows ")?;
    push_number(out, rows as u64)?;
    out.extend_from_slice(b"\n")?;
    Ok(())
}
