//! Whether a row can be met: its two relays and their steps.
ghost use Rattle.std.specs.Prelude.{◌≡◌, ◌<◌, ◌^◌, ◌↔◌, IsTrue};
ghost use Rattle.margin_rows.specs.Box.{IsIn, HasNoEmptySpan, IsFilled};
ghost use Rattle.box_range.specs.Drops.{CanMeet};
ghost use Rattle.box_range.specs.Kinds.{span_at};
ghost use Rattle.box_range.specs.Meeting.{HasRow, Asks, IsMeetable, AreFirst, MeetsWith, HasRelays, relay_of, best_steps, with_step};

use crate::kind::{Kind, span};
use coord_model::{Row, RowKind};
use margin_rows::{Instance, Ranges, dial_at, row_margin};

/// A row and its number.
#[derive(Clone, Copy)]
pub struct Place {
    pub number: u16,
    pub row: Row,
}

/// What a relay is in a row.
#[derive(Clone, Copy)]
pub enum Part {
    Backup,
    Primary,
}

/// The steps of a row's two relays.
#[derive(Clone, Copy)]
pub struct RowSteps {
    pub backup_pickup: u16,
    pub backup_dial: u16,
    pub primary_pickup: u16,
    pub primary_dial: u16,
}

/// Whether some choice of the box loosely meets the row.
pub fn is_meetable(inst: &Instance, ranges: &Ranges, at: Place) -> bool
    requires filled { IsFilled inst.now ranges.now }
    requires place { HasRow inst.now at.number at.row }
    ensures { IsTrue result ↔ IsMeetable inst.now ranges.now at.row }
{
    meets(inst, at, best(ranges, at.row))
}

/// Whether some choice of the box with this step of one of the row's relays loosely meets the row.
pub fn can_meet(
    inst: &Instance,
    ranges: &Ranges,
    at: Place,
    part: Part,
    kind: Kind,
    step: u16,
) -> bool
    requires filled { IsFilled inst.now ranges.now }
    requires place { HasRow inst.now at.number at.row }
    requires asks { Asks at.row.kind part }
    requires step { IsIn (span_at kind ranges.now (relay_of part at.row)) step }
    ensures { IsTrue result ↔ CanMeet inst.now ranges.now kind (relay_of part at.row) step at.row }
{
    meets(inst, at, with_step(best(ranges, at.row), part, kind, step))
}

/// The steps of a box at which a row is met best: the backup as slow and the primary as quick as can be.
fn best(ranges: &Ranges, row: Row) -> RowSteps
    requires steps { HasNoEmptySpan ranges.now }
    requires relays { HasRelays ranges.now row }
    ensures { result ≡ best_steps ranges.now row }
{
    RowSteps {
        backup_pickup: span(ranges, Kind::Pickup, row.backup).hi,
        backup_dial: span(ranges, Kind::Dial, row.backup).hi,
        primary_pickup: span(ranges, Kind::Pickup, row.primary).lo,
        primary_dial: span(ranges, Kind::Dial, row.primary).lo,
    }
}

/// The steps with another one for a setting of one of the relays.
fn with_step(steps: RowSteps, part: Part, kind: Kind, step: u16) -> RowSteps
    ensures { result ≡ with_step part kind steps step }
{
    match part {
        Part::Backup => with_backup(steps, kind, step),
        Part::Primary => with_primary(steps, kind, step),
    }
}

fn with_backup(steps: RowSteps, kind: Kind, step: u16) -> RowSteps
    ensures { result ≡ with_step Part.Backup kind steps step }
{
    match kind {
        Kind::Pickup => RowSteps {
            backup_pickup: step,
            ..steps
        },
        Kind::Dial => RowSteps {
            backup_dial: step,
            ..steps
        },
    }
}

fn with_primary(steps: RowSteps, kind: Kind, step: u16) -> RowSteps
    ensures { result ≡ with_step Part.Primary kind steps step }
{
    match kind {
        Kind::Pickup => RowSteps {
            primary_pickup: step,
            ..steps
        },
        Kind::Dial => RowSteps {
            primary_dial: step,
            ..steps
        },
    }
}

/// Whether a row of this kind asks something of a relay: of its backup to be slow, of its primary to be fast.
pub fn asks(kind: RowKind, part: Part) -> bool
    ensures { IsTrue result ↔ Asks kind part }
{
    match (kind, part) {
        (RowKind::Least, Part::Primary) | (RowKind::Most, Part::Backup) => false,
        _ => true,
    }
}

/// Whether a row is loosely met with these steps of its relays.
fn meets(inst: &Instance, at: Place, steps: RowSteps) -> bool
    requires place { HasRow inst.now at.number at.row }
    requires steps { AreFirst inst.now at.row steps }
    ensures { IsTrue result ↔ MeetsWith inst.now at.row steps }
{
    let backup = inst.backup_time(at.number, steps.backup_pickup).upper;
    let primary = inst.primary_time(at.number, steps.primary_pickup).lower;
    let latest = dial_at(inst, at.row.backup, steps.backup_dial) * backup;
    let earliest = dial_at(inst, at.row.primary, steps.primary_dial) * primary;
    row_margin(inst, at.number, latest, earliest) >= 0
}
