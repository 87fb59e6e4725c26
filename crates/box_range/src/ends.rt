//! The ends of a row's spans that the row can make useless: the lowest steps of its backup and the highest of its
//! primary. A step is useless where no choice of the box with it meets the row.
ghost use Rattle.std.specs.Prelude.{◌≡◌, ℕ, ◌-◌, ◌<◌, ◌≤◌, true, false};
ghost use Rattle.margin_rows.specs.Box.{IsIn, IsFilled};
ghost use Rattle.box_range.specs.Drops.{CanMeet};
ghost use Rattle.box_range.specs.Kinds.{span_at};
ghost use Rattle.box_range.specs.Meeting.{HasRow, Asks, IsMeetable};
ghost use Rattle.box_range.specs.Settled.{MeetsAtLow, MeetsAtHigh, IsCut, DiffersAt, size};

use crate::kind::{Kind, set_span, span};
use crate::row::{Part, Place, can_meet};
use margin_rows::{Instance, Ranges};

/// Cuts the useless steps at the low end of the backup's span, and says whether there were any.
pub fn raise(inst: &Instance, ranges: &mut Ranges, at: Place, kind: Kind) -> bool
    requires filled { IsFilled inst.now ranges.old }
    requires place { HasRow inst.now at.number at.row }
    requires asks { Asks at.row.kind Part.Backup }
    requires meetable { IsMeetable inst.now ranges.old at.row }

    ensures cut { IsCut inst.now at.row ranges.old ranges.new }
    ensures settled { MeetsAtLow inst.now ranges.new at.row kind }
    ensures elsewhere { DiffersAt at.row.backup ranges.old ranges.new }
    ensures unchanged { result ≡ false → ranges.new ≡ ranges.old }
    ensures fewer { result ≡ true → size ranges.new < size ranges.old }
{
    let steps = span(ranges, kind, at.row.backup);
    let low = lowest(inst, ranges, at, kind, steps.lo, steps.hi);
    if low == steps.lo {
        return false;
    }
    set_span(ranges, kind, at.row.backup, low, steps.hi + 1);
    true
}

/// Cuts the useless steps at the high end of the primary's span, and says whether there were any.
pub fn lower(inst: &Instance, ranges: &mut Ranges, at: Place, kind: Kind) -> bool
    requires filled { IsFilled inst.now ranges.old }
    requires place { HasRow inst.now at.number at.row }
    requires asks { Asks at.row.kind Part.Primary }
    requires meetable { IsMeetable inst.now ranges.old at.row }

    ensures cut { IsCut inst.now at.row ranges.old ranges.new }
    ensures settled { MeetsAtHigh inst.now ranges.new at.row kind }
    ensures elsewhere { DiffersAt at.row.primary ranges.old ranges.new }
    ensures unchanged { result ≡ false → ranges.new ≡ ranges.old }
    ensures fewer { result ≡ true → size ranges.new < size ranges.old }
{
    let steps = span(ranges, kind, at.row.primary);
    let high = highest(inst, ranges, at, kind, steps.lo, steps.hi);
    if high == steps.hi {
        return false;
    }
    set_span(ranges, kind, at.row.primary, steps.lo, high + 1);
    true
}

/// The lowest step of the backup from `low` to `high` with which the row can be met; it can with `high`.
fn lowest(
    inst: &Instance,
    ranges: &Ranges,
    at: Place,
    kind: Kind,
    mut low: u16,
    mut high: u16,
) -> u16
    requires filled { IsFilled inst.now ranges.now }
    requires place { HasRow inst.now at.number at.row }
    requires asks { Asks at.row.kind Part.Backup }
    requires low { IsIn (span_at kind ranges.now at.row.backup) low }
    requires high { IsIn (span_at kind ranges.now at.row.backup) high }
    requires ordered { low ≤ high }
    requires met { CanMeet inst.now ranges.now kind at.row.backup high at.row }

    ensures within { (low ≤ result) × (result ≤ high) }
    ensures met { CanMeet inst.now ranges.now kind at.row.backup result at.row }
    ensures unmet_below { (step : ℕ) → low ≤ step → step < result → ¬ (CanMeet inst.now ranges.now kind at.row.backup step at.row) }
{
    // Mostly there is nothing to cut.
    if can_meet(inst, ranges, at, Part::Backup, kind, low) {
        return low;
    }
    'search: while low < high {
        let middle = low + (high - low) / 2;
        if can_meet(inst, ranges, at, Part::Backup, kind, middle) {
            high = middle;
        } else {
            low = middle + 1;
        }
    }
    high
}

/// The highest step of the primary from `low` to `high` with which the row can be met; it can with `low`.
fn highest(
    inst: &Instance,
    ranges: &Ranges,
    at: Place,
    kind: Kind,
    mut low: u16,
    mut high: u16,
) -> u16
    requires filled { IsFilled inst.now ranges.now }
    requires place { HasRow inst.now at.number at.row }
    requires asks { Asks at.row.kind Part.Primary }
    requires low { IsIn (span_at kind ranges.now at.row.primary) low }
    requires high { IsIn (span_at kind ranges.now at.row.primary) high }
    requires ordered { low ≤ high }
    requires met { CanMeet inst.now ranges.now kind at.row.primary low at.row }

    ensures within { (low ≤ result) × (result ≤ high) }
    ensures met { CanMeet inst.now ranges.now kind at.row.primary result at.row }
    ensures unmet_above { (step : ℕ) → result < step → step ≤ high → ¬ (CanMeet inst.now ranges.now kind at.row.primary step at.row) }
{
    // Mostly there is nothing to cut.
    if can_meet(inst, ranges, at, Part::Primary, kind, high) {
        return high;
    }
    'search: while low < high {
        let middle = high - (high - low) / 2;
        if can_meet(inst, ranges, at, Part::Primary, kind, middle) {
            low = middle;
        } else {
            high = middle - 1;
        }
    }
    low
}
