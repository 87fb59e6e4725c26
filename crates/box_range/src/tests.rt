//! Boxes that are tightened by hand: curve B takes 13.5/(M - 1) seconds at the multiple of pickup M and dial 1.
ghost use Rattle.std.specs.Prelude.{◌≡◌, length};

use crate::{Tightened, tighten};
use coord_model::NoMemory;
use hand_studies::{Limits, parallel_lines, two_lines};
use margin_rows::{BuildFault, Instance, Ranges, Span};
use std::alloc::Global;

const NO_LIMITS: Limits = Limits {
    least_ms: 0,
    most_ms: 0,
};

// At multiple 10 each relay takes 1.5 s. The first one's dial is at least 0.050 + 0.200, and the second one's at most
// 1.000 - 0.200.
#[test]
fn a_backup_rises_and_its_primary_falls(rt: HostRuntime) -> Result<(), BuildFault> {
    let alloc = rt.alloc();
    let tight = tightened(alloc, &two_lines(alloc, 20, 0, NO_LIMITS)?)?;
    let want = Spans {
        pickups: [(0, 0), (0, 0)],
        dials: [(4, 19), (0, 15)],
    };
    assert!(rt; tight == Some(want));
    Ok(())
}

// With a least time of 300 ms and a greatest of 600 ms the second one's dial is 0.200 to 0.400, and so the first one's at
// least 0.400.
#[test]
fn a_least_time_raises_and_a_greatest_lowers(rt: HostRuntime) -> Result<(), BuildFault> {
    let alloc = rt.alloc();
    let limits = Limits {
        least_ms: 300,
        most_ms: 600,
    };
    let tight = tightened(alloc, &two_lines(alloc, 20, 0, limits)?)?;
    let want = Spans {
        pickups: [(0, 0), (0, 0)],
        dials: [(7, 19), (3, 7)],
    };
    assert!(rt; tight == Some(want));
    Ok(())
}

// At its lowest dial the second relay takes 75 ms.
#[test]
fn a_greatest_time_below_every_dial_empties_the_box(rt: HostRuntime) -> Result<(), BuildFault> {
    let alloc = rt.alloc();
    let limits = Limits {
        least_ms: 0,
        most_ms: 74,
    };
    assert!(rt; tightened(alloc, &two_lines(alloc, 20, 0, limits)?)? == None);
    Ok(())
}

// The first relay takes at most 0.200 * 1.5 s, and the second at least 0.050 * 1.5 s: 225 ms are less than 300.
#[test]
fn a_row_that_no_choice_meets_empties_the_box(rt: HostRuntime) -> Result<(), BuildFault> {
    let alloc = rt.alloc();
    assert!(rt; tightened(alloc, &two_lines(alloc, 4, 0, NO_LIMITS)?)? == None);
    Ok(())
}

// The pickup of 100 A lies below 120 percent of a load of 500 A, so the first box has none.
#[test]
fn a_box_with_an_empty_span_is_emptied(rt: HostRuntime) -> Result<(), BuildFault> {
    let alloc = rt.alloc();
    assert!(rt; tightened(alloc, &two_lines(alloc, 20, 500, NO_LIMITS)?)? == None);
    Ok(())
}

// A backup takes at most 13.5 s and a primary at least 1.5 s: (0.002 * 1.5 + 0.324)/13.5 is above 0.024, so the dials
// are at least 0.026; (0.026 * 1.5 + 0.324)/13.5 is above 0.026, so they are at least 0.028, and then they stay.
#[test]
fn relays_that_back_each_other_raise_each_other(rt: HostRuntime) -> Result<(), BuildFault> {
    let alloc = rt.alloc();
    let tight = tightened(alloc, &parallel_lines(alloc, 100)?)?;
    let want = Spans {
        pickups: [(0, 1), (0, 1)],
        dials: [(13, 99), (13, 99)],
    };
    assert!(rt; tight == Some(want));
    Ok(())
}

// With dials up to 0.036 a backup at the low pickup takes at most 0.036 * 4.5 s, less than the interval. At the high
// pickups a primary takes 3.375 s, and 0.032 * 13.5 = 0.032 * 3.375 + 0.324 exactly.
#[test]
fn a_pickup_that_no_dial_makes_up_for_is_dropped(rt: HostRuntime) -> Result<(), BuildFault> {
    let alloc = rt.alloc();
    let tight = tightened(alloc, &parallel_lines(alloc, 18)?)?;
    let want = Spans {
        pickups: [(1, 1), (1, 1)],
        dials: [(15, 17), (15, 17)],
    };
    assert!(rt; tight == Some(want));
    Ok(())
}

/// The spans of two relays, each by its first and its last step.
#[derive(Clone, Copy, PartialEq)]
struct Spans {
    pickups: [(u16, u16); 2],
    dials: [(u16, u16); 2],
}

/// The tight box of the first box; none where that is emptied.
fn tightened(alloc: Global, inst: &Instance) -> Result<Option<Spans>, NoMemory>
    requires { length inst.now.study.relays ≡ 2 }
{
    let mut ranges = Ranges::first(alloc, inst)?;
    Ok(match tighten(inst, &mut ranges) {
        Tightened::Emptied => None,
        Tightened::Tight => Some(Spans {
            pickups: [ends(ranges.pickup(0)), ends(ranges.pickup(1))],
            dials: [ends(ranges.dial(0)), ends(ranges.dial(1))],
        }),
    })
}

fn ends(span: Span) -> (u16, u16) {
    (span.lo, span.hi)
}
