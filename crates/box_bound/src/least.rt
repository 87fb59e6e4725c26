//! The least part of a relay in the dual value.
ghost use Rattle.std.specs.Prelude.{◌≡◌, ◌<◌, ◌≤◌, ◌+◌, ◌^◌, pos, ◌+ℤ◌, ◌≤ℤ◌, length};
ghost use Rattle.margin_rows.specs.FirstBox.{IsFirstStep};
ghost use Rattle.box_bound.specs.RelayParts.{IsLeastPart, dials_of, pickups_of};
ghost use Rattle.box_bound.specs.Weighing.{IsWeighed};

use crate::coefficient::{at_dial, coefficient_at};
use crate::touching::touching;
use coord_model::Weight;
use margin_rows::{Instance, Ranges, dial_at};

/// The least part of a relay over its pickup steps and the two ends of its dials, in picoseconds times lambda.
pub fn least_part(
    inst: &Instance,
    ranges: &Ranges,
    lambda: u32,
    weights: &[Weight],
    relay: u16,
) -> i128
    requires weighed { IsWeighed inst.now ranges.now weights.now }
    requires relay { relay < length inst.now.study.relays }

    ensures exact { IsLeastPart inst.now lambda weights.now relay (pickups_of ranges.now relay) (dials_of ranges.now relay) result }
    ensures not_low { pos 0 ≤ℤ (result +ℤ pos (2 ^ 106)) }
    ensures not_high { result ≤ℤ pos (2 ^ 106) }
{
    let (front, count) = touching(inst, weights, relay);
    least_over(inst, ranges, lambda, &front[..count], relay)
}

/// The least part of a relay with these weights.
fn least_over(inst: &Instance, ranges: &Ranges, lambda: u32, weights: &[Weight], relay: u16) -> i128
    requires weighed { IsWeighed inst.now ranges.now weights.now }
    requires relay { relay < length inst.now.study.relays }

    ensures exact { IsLeastPart inst.now lambda weights.now relay (pickups_of ranges.now relay) (dials_of ranges.now relay) result }
    ensures not_low { pos 0 ≤ℤ (result +ℤ pos (2 ^ 106)) }
    ensures not_high { result ≤ℤ pos (2 ^ 106) }
{
    let span = ranges.pickup(relay);
    let mut least = least_at(inst, ranges, lambda, weights, relay, span.lo);
    for step in span.lo + 1..span.hi + 1 {
        least = least.min(least_at(inst, ranges, lambda, weights, relay, step));
    }
    least
}

/// The least part of a relay at a pickup step: that at an end of its dials.
fn least_at(
    inst: &Instance,
    ranges: &Ranges,
    lambda: u32,
    weights: &[Weight],
    relay: u16,
    step: u16,
) -> i128
    requires weighed { IsWeighed inst.now ranges.now weights.now }
    requires relay { relay < length inst.now.study.relays }
    requires step { IsFirstStep inst.now relay step }

    ensures exact { IsLeastPart inst.now lambda weights.now relay (record { low = step; past = step + 1 }) (dials_of ranges.now relay) result }
    ensures not_low { pos 0 ≤ℤ (result +ℤ pos (2 ^ 106)) }
    ensures not_high { result ≤ℤ pos (2 ^ 106) }
{
    let coefficient = coefficient_at(inst, lambda, weights, relay, step);
    let dials = ranges.dial(relay);
    let low = at_dial(coefficient, dial_at(inst, relay, dials.lo));
    let high = at_dial(coefficient, dial_at(inst, relay, dials.hi));
    low.min(high)
}
