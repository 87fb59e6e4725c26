//! The tight box: what is left once every end that no choice can use is dropped.
ghost use Rattle.std.specs.Prelude.{◌≡◌, ◌↔◌, length};
ghost use Rattle.coord_model.specs.Choice.{Settings};
ghost use Rattle.margin_rows.specs.Box.{Box, HasEmptySpan, LiesIn, FitsBox, IsFilled};
ghost use Rattle.margin_rows.specs.Case.{rows_in};
ghost use Rattle.margin_rows.specs.Lowest.{HasOnePickup, lowest_of};
ghost use Rattle.margin_rows.specs.Within.{IsWithin};
ghost use Rattle.box_range.specs.Drops.{Drops, IsTight, IsEmptied, MeetsAllLoosely};
ghost use Rattle.box_range.specs.Ends.{HasEnded};
ghost use Rattle.box_range.specs.Whole.{IsWhole};
ghost use Rattle.box_range.specs.declared.tightening.Tightened.TheVariants.{Tight, Emptied};

use crate::round::{Progress, round};
use coord_model::limits::MOST_RELAYS;
use margin_rows::{Instance, Ranges};

/// What tightening a box came to.
#[derive(Clone, Copy, PartialEq, Eq, Debug)]
pub enum Tightened {
    /// The box is tight.
    Tight,
    /// The box is emptied: no choice of it loosely meets every row, and now some span is empty.
    Emptied,
}

/// Drops the ends of spans that no choice of the box can use, until the box is tight or some span is empty.
///
/// An end can be used where, at each row, some choice of the box with it meets the row loosely.
pub fn tighten(inst: &Instance, ranges: &mut Ranges) -> Tightened
    requires { FitsBox inst.now ranges.old }

    ensures dropped { Drops inst.now ranges.old ranges.new }
    ensures tight { result ≡ Tight → IsTight inst.now ranges.new }
    ensures emptied { (result ≡ Emptied) ↔ IsEmptied inst.now ranges.old }
    ensures empty { result ≡ Emptied → HasEmptySpan ranges.new }

    // Of an emptied box no choice loosely meets every row.
    ensures none { result ≡ Emptied → (settings : Settings) → LiesIn ranges.old settings → ¬ (MeetsAllLoosely inst.now settings) }

    // No choice that loosely meets every row is lost.
    ensures kept { (settings : Settings) → LiesIn ranges.old settings → MeetsAllLoosely inst.now settings → LiesIn ranges.new settings }

    // The order of the drops doesn't matter: whatever tight box they lead to, it is this one.
    ensures only { (other : Box) → Drops inst.now ranges.old other → IsTight inst.now other → (result ≡ Tight) × (ranges.new ≡ other) }
    ensures within { IsWithin ranges.new ranges.old }
    ensures fits { FitsBox inst.now ranges.new }

    // What has all settings of its pickups that loosely meet every row still has them.
    ensures whole { IsWhole inst.now ranges.old → IsWhole inst.now ranges.new }

    // With one pickup step for each relay the lowest settings of a tight box loosely meet every row.
    ensures lowest { result ≡ Tight → HasOnePickup ranges.new → MeetsAllLoosely inst.now (lowest_of ranges.new) }
{
    end_drops(inst, ranges)
}

/// Drops ends until the box is tight or some span is empty.
fn end_drops(inst: &Instance, ranges: &mut Ranges) -> Tightened
    requires { FitsBox inst.now ranges.old }
    ensures { HasEnded inst.now ranges.old ranges.new result }
{
    if ranges.has_empty_span() {
        Tightened::Emptied
    } else {
        settle_rows(inst, ranges, inst.rows().len() as u16)
    }
}

/// Drops ends of a box with a step in each span until it is tight or some span is empty.
fn settle_rows(inst: &Instance, ranges: &mut Ranges, rows: u16) -> Tightened
    requires filled { IsFilled inst.now ranges.old }
    requires rows { rows ≡ length (rows_in inst.now) }
    ensures { HasEnded inst.now ranges.old ranges.new result }
{
    let mut due = [true; MOST_RELAYS as usize];
    'rounds: loop {
        let mut next = [false; MOST_RELAYS as usize];
        match round(inst, ranges, rows, &due, &mut next) {
            Progress::Emptied => return Tightened::Emptied,
            Progress::Kept => return Tightened::Tight,
            Progress::Advanced => due = next,
        }
    }
}
