//! Spans of steps.
ghost use Rattle.std.specs.Prelude.{◌≡◌};
ghost use Rattle.margin_rows.specs.Box.{IsShownAs};
ghost use Rattle.margin_rows.specs.Halves.{HasNext, up_to, above};

/// The steps from `lo` to `hi`, both included; none where `lo` is above `hi`.
#[derive(Clone, Copy)]
pub struct Span {
    pub lo: u16,
    pub hi: u16,
}

/// The steps from `low` up to, but not including, `past`; none where `past` is not above `low`.
#[derive(Clone, Copy)]
pub struct Steps {
    pub low: u16,
    pub past: u16,
}

/// The span as its first and its last step.
pub fn shown(span: Steps) -> Span
    ensures { IsShownAs span result }
{
    if span.low < span.past {
        Span {
            lo: span.low,
            hi: span.past - 1,
        }
    } else {
        Span { lo: 1, hi: 0 }
    }
}

/// The span up to a step, and the span above it.
pub fn halves(span: Steps, at: u16) -> (Steps, Steps)
    requires { HasNext span at }

    ensures low { result.0 ≡ up_to span at }
    ensures high { result.1 ≡ above span at }
{
    let next = at + 1;
    let low = Steps {
        low: span.low,
        past: next,
    };
    let high = Steps {
        low: next,
        past: span.past,
    };
    (low, high)
}
