//! Where a box is split.
ghost use Rattle.std.specs.Prelude.{◌≡◌, ◌<◌, length};
ghost use Rattle.margin_rows.specs.Box.{FitsBox, HasNoEmptySpan};
ghost use Rattle.margin_rows.specs.Halves.{CanSplit};
ghost use Rattle.margin_rows.specs.Lowest.{HasOnePickup};
ghost use Rattle.step_rules.specs.Splits.{IsFirstSplit, IsSplitPlace};
ghost use Rattle.step_rules.specs.Handlings.{advised_of};

use advice::Advice;
use margin_rows::{Instance, Ranges};

/// The relay and the pickup step to split a box at: the advised ones if it can be split there, else the lowest step of
/// the first relay with two.
pub fn split_place(inst: &Instance, ranges: &Ranges, advice: &Advice) -> (u16, u16)
    requires fits { FitsBox inst.now ranges.now }
    requires steps { HasNoEmptySpan ranges.now }
    requires several { ¬ (HasOnePickup ranges.now) }
    ensures exact { IsSplitPlace ranges.now (advised_of advice.now) result.0 result.1 }
    ensures relay { result.0 < length ranges.now.pickup }
    ensures at { CanSplit ranges.now result.0 result.1 }
{
    let relays = inst.study().relays.len() as u16;
    if advice.relay < relays && ranges.can_split(advice.relay, advice.at) {
        (advice.relay, advice.at)
    } else {
        first_split(ranges, relays)
    }
}

/// The first relay with two pickup steps, and its lowest.
fn first_split(ranges: &Ranges, relays: u16) -> (u16, u16)
    requires relays { relays ≡ length ranges.now.pickup }
    requires steps { HasNoEmptySpan ranges.now }
    requires several { ¬ (HasOnePickup ranges.now) }
    ensures exact { IsFirstSplit ranges.now result.0 result.1 }
    ensures relay { result.0 < length ranges.now.pickup }
{
    for relay in 0..relays {
        let low = ranges.pickup(relay).lo;
        if ranges.can_split(relay, low) {
            return (relay, low);
        }
    }
    unreachable!()
}
