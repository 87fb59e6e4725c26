//! By how much a choice keeps each row.
ghost use Rattle.std.specs.Prelude.{◌≡◌, ◌*◌, ◌^◌, ◌<◌, ◌≤◌, ◌↔◌, pos, ◌≤ℤ◌, ◌+ℤ◌, length};
ghost use Rattle.coord_model.specs.Allowed.{Keeps};
ghost use Rattle.coord_model.specs.Choice.{choice_data};
ghost use Rattle.coord_model.specs.Dial.{dial_of};
ghost use Rattle.coord_model.specs.declared.study.Row.{Row};
ghost use Rattle.margin_rows.specs.Case.{rows_in, row_at, FitsCase};
ghost use Rattle.margin_rows.specs.FirstBox.{IsInFirstBox};
ghost use Rattle.margin_rows.specs.Margin.{AreSetEnds, row_width, margin_of, loose_margin, strict_margin, MeetsLoosely, MeetsStrictly};

use crate::demand::{fast_part, slow_part};
use crate::dial::dial_at;
use crate::ends::Ends;
use crate::instance::Instance;
use coord_model::Choice;

/// The loose margin of a row in picoseconds: its slow relay at the upper end, its fast relay at the lower end.
///
/// Below 0 no settings with these steps at the row are allowed.
#[tactic(auto, unfolding(crate::specs::Margin::loose_margin))]
pub fn loose_row(inst: &Instance, choice: &Choice, row: u16) -> i64
    requires first_box { IsInFirstBox inst.now (choice_data choice.now) }
    requires row { row < length (rows_in inst.now) }

    ensures exact { result ≡ loose_margin inst.now (choice_data choice.now) (row_at inst.now row) }
    ensures met { (pos 0 ≤ℤ result) ↔ MeetsLoosely inst.now (choice_data choice.now) (row_at inst.now row) }
    ensures kept { Keeps inst.now.study inst.now.currents (choice_data choice.now) (row_at inst.now row) → pos 0 ≤ℤ result }
{
    let times = set_times(inst, choice, row);
    row_margin(inst, row, times.backup.upper, times.primary.lower)
}

/// The strict margin of a row in picoseconds: its slow relay at the lower end, its fast relay at the upper end.
///
/// At 0 or more the settings keep the row.
#[tactic(auto, unfolding(crate::specs::Margin::strict_margin))]
pub fn strict_row(inst: &Instance, choice: &Choice, row: u16) -> i64
    requires first_box { IsInFirstBox inst.now (choice_data choice.now) }
    requires row { row < length (rows_in inst.now) }

    ensures exact { result ≡ strict_margin inst.now (choice_data choice.now) (row_at inst.now row) }
    ensures met { (pos 0 ≤ℤ result) ↔ MeetsStrictly inst.now (choice_data choice.now) (row_at inst.now row) }
    // The loose margin lies above it by no more than the widths of the enclosures make.
    ensures near { loose_margin inst.now (choice_data choice.now) (row_at inst.now row) ≤ℤ (result +ℤ pos (row_width inst.now (choice_data choice.now) (row_at inst.now row))) }
    ensures keeps { pos 0 ≤ℤ result → Keeps inst.now.study inst.now.currents (choice_data choice.now) (row_at inst.now row) }
{
    let times = set_times(inst, choice, row);
    row_margin(inst, row, times.backup.lower, times.primary.upper)
}

/// The ends of the times of a row's two relays with their settings, in picoseconds.
#[derive(Clone, Copy)]
struct SetTimes {
    backup: Ends,
    primary: Ends,
}

/// The ends of the times of a row's two relays, in picoseconds.
fn set_times(inst: &Instance, choice: &Choice, row: u16) -> SetTimes
    requires first_box { IsInFirstBox inst.now (choice_data choice.now) }
    requires row { row < length (rows_in inst.now) }

    ensures backup { let r : Row = row_at inst.now row in AreSetEnds inst.now (choice_data choice.now) r.fault r.backup result.backup }
    ensures primary { let r : Row = row_at inst.now row in AreSetEnds inst.now (choice_data choice.now) r.fault r.primary result.primary }
    ensures backup_small { (result.backup.lower < 2 ^ 54) × (result.backup.upper < 2 ^ 54) }
    ensures primary_small { (result.primary.lower < 2 ^ 54) × (result.primary.upper < 2 ^ 54) }
{
    let at = inst.row(row);
    let backup = inst.backup_time(row, choice.pickup[usize::from(at.backup)]);
    let primary = inst.primary_time(row, choice.pickup[usize::from(at.primary)]);
    SetTimes {
        backup: at_dial(backup, dial(inst, choice, at.backup)),
        primary: at_dial(primary, dial(inst, choice, at.primary)),
    }
}

/// The ends of a time at a dial, in picoseconds.
pub fn at_dial(time: Ends, dial: u64) -> Ends
    requires time { (time.lower < 2 ^ 40) × (time.upper < 2 ^ 40) }
    requires dial { dial ≤ 15000 }

    ensures lower { result.lower ≡ dial * time.lower }
    ensures upper { result.upper ≡ dial * time.upper }
    ensures small { (result.lower < 2 ^ 54) × (result.upper < 2 ^ 54) }
{
    Ends {
        lower: dial * time.lower,
        upper: dial * time.upper,
    }
}

/// The dial of a relay in a choice, in thousandths.
pub fn dial(inst: &Instance, choice: &Choice, relay: u16) -> u64
    requires first_box { IsInFirstBox inst.now (choice_data choice.now) }
    requires relay { relay < length inst.now.study.relays }

    ensures exact { result ≡ dial_of inst.now.study (choice_data choice.now) relay }
    ensures small { result ≤ 15000 }
{
    dial_at(inst, relay, choice.dial[usize::from(relay)])
}

/// What a backup's and a primary's time leave over what a row asks for, in picoseconds.
pub fn row_margin(inst: &Instance, row: u16, backup: u64, primary: u64) -> i64
    requires row { row < length (rows_in inst.now) }
    requires backup { backup < 2 ^ 54 }
    requires primary { primary < 2 ^ 54 }
    ensures exact { result ≡ margin_of inst.now.study (row_at inst.now row) backup primary }
    ensures fits { FitsCase inst.now }
{
    let kind = inst.row(row).kind;
    let demand = inst.demand(row);
    let slow = slow_part(kind, backup) + demand.granted;
    let fast = fast_part(kind, primary) + demand.asked;
    slow as i64 - fast as i64
}
