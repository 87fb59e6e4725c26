//! The lowest settings of a box at a row.
ghost use Rattle.std.specs.Prelude.{◌≡◌, ◌<◌, length, slice_index, IsTrue, IsFalse};
ghost use Rattle.margin_rows.specs.Box.{FitsBox, HasNoEmptySpan};
ghost use Rattle.margin_rows.specs.Case.{rows_in, row_at};
ghost use Rattle.margin_rows.specs.Lowest.{lowest_of};
ghost use Rattle.margin_rows.specs.Margin.{MeetsStrictly};

use crate::dial::dial_at;
use crate::instance::Instance;
use crate::margin::{at_dial, row_margin};
use crate::ranges::Ranges;

/// Whether the lowest settings of a box strictly meet a row. It takes no memory.
pub fn lowest_meet(inst: &Instance, ranges: &Ranges, row: u16) -> bool
    requires fits { FitsBox inst.now ranges.now }
    requires steps { HasNoEmptySpan ranges.now }
    requires row { row < length (rows_in inst.now) }

    ensures met { IsTrue result → MeetsStrictly inst.now (lowest_of ranges.now) (row_at inst.now row) }
    ensures unmet { IsFalse result → ¬ (MeetsStrictly inst.now (lowest_of ranges.now) (row_at inst.now row)) }
{
    let at = inst.row(row);
    let backup = inst.backup_time(row, low_pickup(ranges, at.backup));
    let primary = inst.primary_time(row, low_pickup(ranges, at.primary));
    let slow = at_dial(
        backup,
        dial_at(inst, at.backup, low_dial(ranges, at.backup)),
    );
    let fast = at_dial(
        primary,
        dial_at(inst, at.primary, low_dial(ranges, at.primary)),
    );
    row_margin(inst, row, slow.lower, fast.upper) >= 0
}

/// The lowest pickup step of a relay.
fn low_pickup(ranges: &Ranges, relay: u16) -> u16
    requires steps { HasNoEmptySpan ranges.now }
    requires relay { relay < length ranges.now.pickup }
    ensures { result ≡ slice_index (lowest_of ranges.now).pickup relay }
{
    ranges.pickup(relay).lo
}

/// The lowest dial step of a relay.
fn low_dial(ranges: &Ranges, relay: u16) -> u16
    requires steps { HasNoEmptySpan ranges.now }
    requires relay { relay < length ranges.now.dial }
    ensures { result ≡ slice_index (lowest_of ranges.now).dial relay }
{
    ranges.dial(relay).lo
}
