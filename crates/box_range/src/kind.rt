//! The two settings of a relay, and its spans in a box.
ghost use Rattle.std.specs.Prelude.{◌≡◌, ◌<◌, length};
ghost use Rattle.margin_rows.specs.Box.{IsShownAs};
ghost use Rattle.box_range.specs.Kinds.{spans_of, span_at, with_span};

use margin_rows::{Ranges, Span};

/// A setting of a relay.
#[derive(Clone, Copy)]
pub enum Kind {
    Pickup,
    Dial,
}

/// The span of a relay's steps.
pub fn span(ranges: &Ranges, kind: Kind, relay: u16) -> Span
    requires { relay < length (spans_of kind ranges.now) }
    ensures { IsShownAs (span_at kind ranges.now relay) result }
{
    match kind {
        Kind::Pickup => ranges.pickup(relay),
        Kind::Dial => ranges.dial(relay),
    }
}

/// Leaves a relay the steps from `low` up to, but not including, `past`.
pub fn set_span(ranges: &mut Ranges, kind: Kind, relay: u16, low: u16, past: u16)
    requires { relay < length (spans_of kind ranges.old) }
    ensures { ranges.new ≡ with_span kind ranges.old relay (record { low = low; past = past }) }
{
    match kind {
        Kind::Pickup => ranges.set_pickup(relay, low, past),
        Kind::Dial => ranges.set_dial(relay, low, past),
    }
}
