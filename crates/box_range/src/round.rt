//! Rounds of looks at the rows of a box, as far as a relay of theirs lost steps.
ghost use Rattle.std.specs.Prelude.{◌≡◌, ℕ, ◌<◌, ◌⊎◌, true, false, length, Contains, IsTrue, ◌↔◌, slice_index_or};
ghost use Rattle.coord_model.specs.declared.study.Row.{Row};
ghost use Rattle.margin_rows.specs.Box.{IsFilled};
ghost use Rattle.margin_rows.specs.Case.{rows_in};
ghost use Rattle.box_range.specs.Drops.{Drops};
ghost use Rattle.box_range.specs.Meeting.{HasRow};
ghost use Rattle.box_range.specs.Rounds.{IsDue, IsDueOrSettled, IsVisit, IsRound, HasPlaces, AreFlagged};

use crate::look::{Look, Moved, look_at};
use crate::row::Place;
use coord_model::Row;
use margin_rows::{Instance, Ranges};

/// What looks at rows made of the box.
#[derive(Clone, Copy)]
pub enum Progress {
    /// Some span is empty.
    Emptied,
    /// The box is as before, and the rows are settled.
    Kept,
    /// Some span lost steps.
    Advanced,
}

/// Looks at each row with a relay that is due or loses steps meanwhile.
///
/// `due` flags the relays whose rows are to be looked at; `next` flags none before, and after it those that lost steps.
pub fn round(
    inst: &Instance,
    ranges: &mut Ranges,
    rows: u16,
    due: &[bool],
    next: &mut [bool],
) -> Progress
    requires filled { IsFilled inst.now ranges.old }
    requires rows { rows ≡ length (rows_in inst.now) }
    requires places { length next.old ≡ 96 }
    requires none { (relay : ℕ) → slice_index_or next.old relay false ≡ false }
    requires rest { (row : Row) → Contains (rows_in inst.now) row → IsDueOrSettled inst.now ranges.old due.now row }

    ensures drops { Drops inst.now ranges.old ranges.new }
    ensures made { IsRound inst.now ranges.old ranges.new next.new result }
{
    let mut moved = false;
    for number in 0..rows {
        match visit(inst, ranges, place(inst, number), due, next) {
            Progress::Emptied => return Progress::Emptied,
            Progress::Kept => {}
            Progress::Advanced => moved = true,
        }
    }
    if moved {
        Progress::Advanced
    } else {
        Progress::Kept
    }
}

/// The row with a number.
fn place(inst: &Instance, number: u16) -> Place
    requires { number < length (rows_in inst.now) }
    ensures number { result.number ≡ number }
    ensures row { HasRow inst.now number result.row }
{
    Place {
        number,
        row: inst.rows()[usize::from(number)],
    }
}

/// Looks at a row if one of its relays is due, or lost steps in this round.
fn visit(
    inst: &Instance,
    ranges: &mut Ranges,
    at: Place,
    due: &[bool],
    next: &mut [bool],
) -> Progress
    requires filled { IsFilled inst.now ranges.old }
    requires places { length next.old ≡ 96 }
    requires place { HasRow inst.now at.number at.row }
    requires rest { IsDue due.now at.row ⊎ IsDueOrSettled inst.now ranges.old next.old at.row }

    ensures drops { Drops inst.now ranges.old ranges.new }
    ensures made { IsVisit inst.now at.row ranges.old ranges.new next.old next.new result }
{
    if !is_due(due, at.row) && !is_due(next, at.row) {
        return Progress::Kept;
    }
    match look_at(inst, ranges, at) {
        Look::Emptied => Progress::Emptied,
        Look::Settled(moved) => {
            flag(next, at.row, moved);
            if moved.backup || moved.primary {
                Progress::Advanced
            } else {
                Progress::Kept
            }
        }
    }
}

/// Whether a relay of the row is flagged.
fn is_due(flags: &[bool], row: Row) -> bool
    ensures { IsTrue result ↔ IsDue flags.now row }
{
    is_flagged(flags, row.backup) || is_flagged(flags, row.primary)
}

fn is_flagged(flags: &[bool], relay: u16) -> bool
    ensures { result ≡ slice_index_or flags.now relay false }
{
    match flags.get(usize::from(relay)) {
        Some(flag) => *flag,
        None => false,
    }
}

/// Flags the relays of a row that lost steps.
fn flag(next: &mut [bool], row: Row, moved: Moved)
    requires { HasPlaces next.old row }
    ensures { AreFlagged row moved next.old next.new }
{
    if moved.backup {
        next[usize::from(row.backup)] = true;
    }
    if moved.primary {
        next[usize::from(row.primary)] = true;
    }
}
