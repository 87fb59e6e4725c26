//! The least dials that meet every row with given pickups, strictly or loosely.
//!
//! They are found from below: all dials begin at the first, and the dial of each relay that is too fast for a row rises
//! to the least at which it is slow enough, until no row asks for more. Where a greatest time is not kept, no dials
//! keep it, since dials only rise.
ghost use Rattle.std.specs.Prelude.{◌≡◌, ℕ, ◌*◌, ◌^◌, ◌<◌, ◌≤◌, length, Option, All, IfOk, IfSome, IsSomeAnd, IsTrue, IsFalse};
ghost use Rattle.std.specs.Option.{option_map};
ghost use Rattle.coord_model.specs.Choice.{Settings, choice_data};
ghost use Rattle.coord_model.specs.Dial.{dial_at_step};
ghost use Rattle.coord_model.specs.Time.{dial_at};
ghost use Rattle.coord_model.specs.declared.study.Row.{Row};
ghost use Rattle.margin_rows.specs.Box.{IsDialStep};
ghost use Rattle.margin_rows.specs.Case.{rows_in, row_at};
ghost use Rattle.margin_rows.specs.FirstBox.{IsFirstStep, IsInFirstBox};
ghost use Rattle.margin_rows.specs.Least.{AreFirstPickups, AreLeastOf, IsLeastStepOf, IsLooseLeastOf, IsStrictLeastOf, MeetAll, slow_end, fast_end};
ghost use Rattle.margin_rows.specs.Margin.{MeetsAs};
ghost use Rattle.margin_rows.specs.Raised.{IsWaitOf, FitsWait, due, due_at, AreDialSteps, IsRise, AreLow, IsRound};
ghost use Rattle.margin_rows.specs.Times.{time_at};

use crate::demand::{fast_part, slow_part};
use crate::dial::dial_at;
use crate::ends::Meeting;
use crate::instance::Instance;
use coord_model::{Choice, NoMemory, Relay};
use std::alloc::Global;

/// The choice of the least dials that strictly meet every row with these pickups. `None`: no dials do.
pub fn strict_least(
    alloc: Global,
    inst: &Instance,
    pickups: &[u16],
) -> Result<Option<Choice>, NoMemory>
    requires { AreFirstPickups inst.now pickups.now }

    ensures exact { IfOk result (λ found. IsStrictLeastOf inst.now pickups.now (option_map choice_data found)) }
    ensures only { IfOk result (λ found. (other : Option Settings) → IsStrictLeastOf inst.now pickups.now other → other ≡ option_map choice_data found) }
    ensures first_box { IfOk result (λ found. IfSome found (λ choice. IsInFirstBox inst.now (choice_data choice))) }
{
    least_dials(alloc, inst, pickups, Meeting::Strict)
}

/// The choice of the least dials that loosely meet every row with these pickups. `None`: no dials do.
pub fn loose_least(
    alloc: Global,
    inst: &Instance,
    pickups: &[u16],
) -> Result<Option<Choice>, NoMemory>
    requires { AreFirstPickups inst.now pickups.now }

    ensures exact { IfOk result (λ found. IsLooseLeastOf inst.now pickups.now (option_map choice_data found)) }
    ensures only { IfOk result (λ found. (other : Option Settings) → IsLooseLeastOf inst.now pickups.now other → other ≡ option_map choice_data found) }
    ensures first_box { IfOk result (λ found. IfSome found (λ choice. IsInFirstBox inst.now (choice_data choice))) }
{
    least_dials(alloc, inst, pickups, Meeting::Loose)
}

/// The least dial step of a row's backup at which the row is loosely met with these pickups, its primary at a dial step.
/// `None`: it is met at no step.
///
/// The primary's step doesn't count for a least row, nor the backup's for a most row.
pub fn loose_step(inst: &Instance, pickups: &[u16], row: u16, primary_step: u16) -> Option<u16>
    requires pickups { AreFirstPickups inst.now pickups.now }
    requires row { row < length (rows_in inst.now) }
    requires primary_step { IsDialStep inst.now (row_at inst.now row).primary primary_step }

    ensures exact { IsLeastStepOf inst.now pickups.now (row_at inst.now row) primary_step result }
{
    let wait = wait_at(inst, pickups, row, Meeting::Loose);
    let due = due_at(inst, wait, primary_step);
    if due <= wait.granted {
        return Some(0);
    }
    sufficient_step(inst, wait, due - wait.granted)
}

/// The choice of the least dials that meet every row with these pickups. `None`: no dials do.
fn least_dials(
    alloc: Global,
    inst: &Instance,
    pickups: &[u16],
    meeting: Meeting,
) -> Result<Option<Choice>, NoMemory>
    requires { AreFirstPickups inst.now pickups.now }

    ensures exact { IfOk result (λ found. AreLeastOf meeting inst.now pickups.now (option_map choice_data found)) }
    ensures only { IfOk result (λ found. (other : Option Settings) → AreLeastOf meeting inst.now pickups.now other → other ≡ option_map choice_data found) }
    ensures first_box { IfOk result (λ found. IfSome found (λ choice. IsInFirstBox inst.now (choice_data choice))) }
{
    let mut dial = vec![in alloc; 0; inst.study().relays.len()]?;
    if !raise_all(inst, pickups, dial.as_mut_slice(), meeting) {
        return Ok(None);
    }
    let pickup = pickups.to_vec(alloc)?;
    Ok(Some(Choice { pickup, dial }))
}

/// What raising dials did.
#[derive(Clone, Copy)]
enum Rise {
    /// Nothing: what is asked is met.
    Kept,
    /// A dial rose.
    Rose,
    /// No dial of the relay meets it.
    Beyond,
}

/// Raises the dials until every row is met. `false`: no dials meet every row.
fn raise_all(inst: &Instance, pickups: &[u16], dials: &mut [u16], meeting: Meeting) -> bool
    requires pickups { AreFirstPickups inst.now pickups.now }
    requires low { AreLow meeting inst.now pickups.now dials.old }

    ensures low { IsTrue result → AreLow meeting inst.now pickups.now dials.new }
    ensures met { IsTrue result → All (MeetsAs meeting inst.now (record { pickup = pickups.now; dial = dials.new })) (rows_in inst.now) }
    ensures none { IsFalse result → (other : Settings) → ¬ (MeetAll meeting inst.now pickups.now other) }
{
    loop {
        match raise_round(inst, pickups, dials, meeting) {
            Rise::Kept => return true,
            Rise::Rose => {}
            Rise::Beyond => return false,
        }
    }
}

/// Raises the dial of the backup of each row once.
fn raise_round(inst: &Instance, pickups: &[u16], dials: &mut [u16], meeting: Meeting) -> Rise
    requires pickups { AreFirstPickups inst.now pickups.now }
    requires low { AreLow meeting inst.now pickups.now dials.old }

    ensures { IsRound meeting inst.now pickups.now dials.old dials.new result }
{
    let mut rise = Rise::Kept;
    for row in 0..inst.rows().len() as u16 {
        match raise(inst, dials, wait_at(inst, pickups, row, meeting)) {
            Rise::Kept => {}
            Rise::Rose => rise = Rise::Rose,
            Rise::Beyond => return Rise::Beyond,
        }
    }
    rise
}

/// What a row asks of dials: that its slow relay waits for its fast relay, each at the end of its time that counts.
///
/// The times are in nanoseconds at dial 1, with given pickups; that of a relay which is not asked is 0. What is asked
/// and granted is in picoseconds.
#[derive(Clone, Copy)]
struct Wait {
    backup: u16,
    primary: u16,
    slow_time: u64,
    fast_time: u64,
    asked: u64,
    granted: u64,
}

/// What a row asks with these pickups.
fn wait_at(inst: &Instance, pickups: &[u16], row: u16, meeting: Meeting) -> Wait
    requires pickups { AreFirstPickups inst.now pickups.now }
    requires row { row < length (rows_in inst.now) }

    ensures exact { IsWaitOf meeting inst.now pickups.now (row_at inst.now row) result }
    ensures fits { FitsWait inst.now result }
    ensures first { IsDialStep inst.now result.backup 0 }
{
    let at = inst.row(row);
    let slow = slow_time(inst, row, pickups[usize::from(at.backup)], meeting);
    let fast = fast_time(inst, row, pickups[usize::from(at.primary)], meeting);
    let demand = inst.demand(row);
    Wait {
        backup: at.backup,
        primary: at.primary,
        slow_time: slow_part(at.kind, slow),
        fast_time: fast_part(at.kind, fast),
        asked: demand.asked,
        granted: demand.granted,
    }
}

/// The end of the backup's time at a row that counts if it is to be slow, in nanoseconds at dial 1.
fn slow_time(inst: &Instance, row: u16, step: u16, meeting: Meeting) -> u64
    requires row { row < length (rows_in inst.now) }
    requires step { IsFirstStep inst.now (row_at inst.now row).backup step }

    ensures exact { let r : Row = row_at inst.now row in result ≡ slow_end meeting (time_at inst.now r.fault r.backup step) }
    ensures small { result < 2 ^ 40 }
{
    let time = inst.backup_time(row, step);
    match meeting {
        Meeting::Strict => time.lower,
        Meeting::Loose => time.upper,
    }
}

/// The end of the primary's time at a row that counts if it is to be fast, in nanoseconds at dial 1.
fn fast_time(inst: &Instance, row: u16, step: u16, meeting: Meeting) -> u64
    requires row { row < length (rows_in inst.now) }
    requires step { IsFirstStep inst.now (row_at inst.now row).primary step }

    ensures exact { let r : Row = row_at inst.now row in result ≡ fast_end meeting (time_at inst.now r.fault r.primary step) }
    ensures small { result < 2 ^ 40 }
{
    let time = inst.primary_time(row, step);
    match meeting {
        Meeting::Strict => time.upper,
        Meeting::Loose => time.lower,
    }
}

/// Raises the dial of a relay that is too fast for a row to the least at which it is slow enough.
fn raise(inst: &Instance, dials: &mut [u16], wait: Wait) -> Rise
    requires fits { FitsWait inst.now wait }
    requires steps { AreDialSteps inst.now dials.old }

    ensures { IsRise inst.now wait dials.old dials.new result }
{
    let due = due(inst, dials, wait);
    let place = usize::from(wait.backup);
    let spent = dial_at(inst, wait.backup, dials[place]) * wait.slow_time + wait.granted;
    if due <= spent {
        return Rise::Kept;
    }
    let Some(step) = sufficient_step(inst, wait, due - wait.granted) else {
        return Rise::Beyond;
    };
    dials[place] = step;
    Rise::Rose
}

/// The time of the fast relay and what is asked, in picoseconds.
fn due(inst: &Instance, dials: &[u16], wait: Wait) -> u64
    requires fits { FitsWait inst.now wait }
    requires steps { AreDialSteps inst.now dials.now }

    ensures exact { result ≡ due inst.now dials.now wait }
    ensures small { result < 2 ^ 55 }
{
    due_at(inst, wait, dials[usize::from(wait.primary)])
}

/// The time of the fast relay at a dial step and what is asked, in picoseconds.
fn due_at(inst: &Instance, wait: Wait, step: u16) -> u64
    requires fits { FitsWait inst.now wait }
    requires step { IsDialStep inst.now wait.primary step }

    ensures exact { result ≡ due_at inst.now wait step }
    ensures small { result < 2 ^ 55 }
{
    dial_at(inst, wait.primary, step) * wait.fast_time + wait.asked
}

/// The least dial step at which the slow relay does not operate before a time above 0, in picoseconds. `None`: there
/// is none.
fn sufficient_step(inst: &Instance, wait: Wait, time: u64) -> Option<u16>
    requires fits { FitsWait inst.now wait }
    requires some { 0 < time }

    ensures suffices { IfSome result (λ step. IsDialStep inst.now wait.backup step × (time ≤ dial_at_step inst.now.study wait.backup step * wait.slow_time)) }
    ensures least { (step : ℕ) → IsDialStep inst.now wait.backup step → time ≤ dial_at_step inst.now.study wait.backup step * wait.slow_time → IsSomeAnd result (λ found. found ≤ step) }
{
    if wait.slow_time == 0 {
        return None;
    }
    let relay = &inst.study().relays[usize::from(wait.backup)];
    step_reaching(relay, time.div_ceil(wait.slow_time))
}

/// The least dial step of a relay with at least this dial, in thousandths. `None`: there is none.
fn step_reaching(relay: &Relay, dial: u64) -> Option<u16>
    requires some { 0 < relay.now.dial_step }
    requires few { relay.now.dial_count ≤ 4000 }

    ensures reaches { IfSome result (λ step. (step < relay.now.dial_count) × (dial ≤ dial_at relay.now step)) }
    ensures least { (step : ℕ) → step < relay.now.dial_count → dial ≤ dial_at relay.now step → IsSomeAnd result (λ found. found ≤ step) }
{
    let rise = dial.saturating_sub(u64::from(relay.dial_first));
    let step = rise.div_ceil(u64::from(relay.dial_step));
    if step < u64::from(relay.dial_count) {
        Some(step as u16)
    } else {
        None
    }
}
