//! The exempt pairs and the pairs' own intervals, with their relays' numbers.
ghost use Rattle.std.specs.Prelude.{◌≡◌, ◌≤◌, length, IfOk};
ghost use Rattle.network_file.specs.EntryLimits.{IntervalKeeps};
ghost use Rattle.network_file.specs.Fits.{IsPairBelow, IsIntervalBelow};
ghost use Rattle.network_file.specs.Pairs.{exempt_in, has_interval, interval_in};

use crate::entries::{ExemptEntry, IntervalEntry};
use crate::fault::{NetFault, Place};
use crate::names::{Names, number_in};
use coord_model::{Exempt, Key, NetKind, PairInterval};

/// An exempt pair with its relays' numbers.
#[tactic(auto, unfolding(crate::specs::Pairs::exempt_in))]
pub(crate) fn exempt_in(
    relay_names: &Names,
    place: Place,
    entry: ExemptEntry,
) -> Result<Exempt, NetFault>
    requires { length relay_names.now.keys ≤ 96 }
    ensures exact { result ≡ exempt_in relay_names.now.keys place entry }
    ensures within { IfOk result (IsPairBelow (length relay_names.now.keys)) }
{
    let Some(backup) = number_in(relay_names, entry.backup) else {
        return Err(place.fault(NetKind::UnknownName, Key::Backup));
    };
    let Some(primary) = number_in(relay_names, entry.primary) else {
        return Err(place.fault(NetKind::UnknownName, Key::Primary));
    };
    Ok(Exempt { backup, primary })
}

/// An interval with its relays' numbers, after the intervals before it.
#[tactic(auto, unfolding(crate::specs::Pairs::interval_in))]
pub(crate) fn interval_in(
    relay_names: &Names,
    place: Place,
    before: &[PairInterval],
    entry: IntervalEntry,
) -> Result<PairInterval, NetFault>
    requires relays { length relay_names.now.keys ≤ 96 }
    requires keeps { IntervalKeeps entry }
    ensures exact { result ≡ interval_in relay_names.now.keys place before.now entry }
    ensures within { IfOk result (IsIntervalBelow (length relay_names.now.keys)) }
{
    let Some(backup) = number_in(relay_names, entry.backup) else {
        return Err(place.fault(NetKind::UnknownName, Key::Backup));
    };
    let Some(primary) = number_in(relay_names, entry.primary) else {
        return Err(place.fault(NetKind::UnknownName, Key::Primary));
    };
    if has_interval(before, backup, primary) {
        return Err(place.fault(NetKind::DoubleName, Key::Primary));
    }
    Ok(PairInterval {
        backup,
        primary,
        cti_ms: entry.cti_ms,
    })
}

/// Whether one of the intervals is that of the pair.
fn has_interval(intervals: &[PairInterval], backup: u16, primary: u16) -> bool
    ensures { result ≡ has_interval intervals.now backup primary }
{
    intervals
        .iter()
        .any(|own| own.backup == backup && own.primary == primary)
}
