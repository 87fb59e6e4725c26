//! A look at one row of a box.
ghost use Rattle.std.specs.Prelude.{◌≡◌, ◌<◌, true, false, length};
ghost use Rattle.margin_rows.specs.Box.{HasNoEmptySpan, IsFilled};
ghost use Rattle.box_range.specs.Drops.{Drops};
ghost use Rattle.box_range.specs.Kinds.{spans_of, span_at, with_span};
ghost use Rattle.box_range.specs.Meeting.{HasRow, IsMeetable};
ghost use Rattle.box_range.specs.Settled.{MeetsAtLow, MeetsAtHigh, IsCut, DiffersAt, size};
ghost use Rattle.box_range.specs.Looks.{IsLook, IsSettling};
ghost use Rattle.box_range.specs.declared.kind.Kind.TheVariants.{Dial};

use crate::ends::{lower, raise};
use crate::kind::{Kind, set_span, span};
use crate::row::{Part, Place, asks, is_meetable};
use margin_rows::{Instance, Ranges};

/// What a look at a row made of the box.
#[derive(Clone, Copy)]
pub enum Look {
    /// No choice of the box meets the row; now some span is empty.
    Emptied,
    /// No end of the row's spans is useless at the row any more.
    Settled(Moved),
}

/// Which of a row's two relays lost steps.
#[derive(Clone, Copy)]
pub struct Moved {
    pub backup: bool,
    pub primary: bool,
}

/// Cuts what is useless at a row off the box.
pub fn look_at(inst: &Instance, ranges: &mut Ranges, at: Place) -> Look
    requires filled { IsFilled inst.now ranges.old }
    requires place { HasRow inst.now at.number at.row }

    ensures drops { Drops inst.now ranges.old ranges.new }
    ensures made { IsLook inst.now at.row ranges.old ranges.new result }
{
    if is_meetable(inst, ranges, at) {
        Look::Settled(settle(inst, ranges, at))
    } else {
        clear(ranges, at.row.primary);
        Look::Emptied
    }
}

/// Cuts what is useless at a row that some choice of the box meets.
fn settle(inst: &Instance, ranges: &mut Ranges, at: Place) -> Moved
    requires filled { IsFilled inst.now ranges.old }
    requires place { HasRow inst.now at.number at.row }
    requires meetable { IsMeetable inst.now ranges.old at.row }
    ensures { IsSettling inst.now at.row ranges.old ranges.new result }
{
    let backup = raise_both(inst, ranges, at);
    let primary = lower_both(inst, ranges, at);
    Moved { backup, primary }
}

/// Cuts the useless steps at the low ends of the backup's spans, and says whether there were any.
///
/// There are none where the row does not ask its backup to be slow.
fn raise_both(inst: &Instance, ranges: &mut Ranges, at: Place) -> bool
    requires filled { IsFilled inst.now ranges.old }
    requires place { HasRow inst.now at.number at.row }
    requires meetable { IsMeetable inst.now ranges.old at.row }

    ensures cut { IsCut inst.now at.row ranges.old ranges.new }
    ensures settled { (kind : Kind) → MeetsAtLow inst.now ranges.new at.row kind }
    ensures elsewhere { DiffersAt at.row.backup ranges.old ranges.new }
    ensures unchanged { result ≡ false → ranges.new ≡ ranges.old }
    ensures fewer { result ≡ true → size ranges.new < size ranges.old }
{
    if !asks(at.row.kind, Part::Backup) {
        return false;
    }
    let pickup = raise(inst, ranges, at, Kind::Pickup);
    let dial = raise(inst, ranges, at, Kind::Dial);
    pickup || dial
}

/// Cuts the useless steps at the high ends of the primary's spans, and says whether there were any.
///
/// There are none where the row does not ask its primary to be fast.
fn lower_both(inst: &Instance, ranges: &mut Ranges, at: Place) -> bool
    requires filled { IsFilled inst.now ranges.old }
    requires place { HasRow inst.now at.number at.row }
    requires meetable { IsMeetable inst.now ranges.old at.row }

    ensures cut { IsCut inst.now at.row ranges.old ranges.new }
    ensures settled { (kind : Kind) → MeetsAtHigh inst.now ranges.new at.row kind }
    ensures elsewhere { DiffersAt at.row.primary ranges.old ranges.new }
    ensures unchanged { result ≡ false → ranges.new ≡ ranges.old }
    ensures fewer { result ≡ true → size ranges.new < size ranges.old }
{
    if !asks(at.row.kind, Part::Primary) {
        return false;
    }
    let pickup = lower(inst, ranges, at, Kind::Pickup);
    let dial = lower(inst, ranges, at, Kind::Dial);
    pickup || dial
}

/// Leaves a relay no dial step.
fn clear(ranges: &mut Ranges, relay: u16)
    requires relay { relay < length (spans_of Dial ranges.old) }
    requires steps { HasNoEmptySpan ranges.old }
    ensures { ranges.new ≡ with_span Dial ranges.old relay (record { low = (span_at Dial ranges.old relay).low; past = (span_at Dial ranges.old relay).low }) }
{
    let low = span(ranges, Kind::Dial, relay).lo;
    set_span(ranges, Kind::Dial, relay, low, low);
}
