//! What becomes of one box.
use super::{FIRST_ROW, GAP, NOTHING, SECOND_ROW, Told};
use advice::{Adviser, NullAdviser};
use coord_model::{NoMemory, Weight};
use hand_studies::{Limits, parallel_lines, relay_chain, tied_lines, two_lines, two_pickups};
use margin_rows::{BuildFault, Instance, least_gap};
use std::alloc::Global;
use step_rules::{Handling, Issued, OpenBox, handle};

const NO_LIMITS: Limits = Limits {
    least_ms: 0,
    most_ms: 0,
};

/// What became of a box, halves by their lambda and bound, and the cost of what is issued in its place.
#[derive(Clone, Copy, PartialEq)]
struct Step {
    ending: Ending,
    cost: Option<u64>,
}

#[derive(Clone, Copy, PartialEq)]
enum Ending {
    Empty,
    Void,
    Bound(u32),
    Hair(u16),
    Split {
        relay: u16,
        at: u16,
        low: (u32, u64),
        high: (u32, u64),
    },
}

// The lowest dials of the tight box are 0.250 and 0.050: 0.250 * 0.75 + 0.050 * 1.5 s, at both ends of the times.
#[test]
fn lowest_settings_close_a_box(rt: HostRuntime) -> Result<(), BuildFault> {
    let alloc = rt.alloc();
    let step = first_step(
        alloc,
        &two_lines(alloc, 20, 0, NO_LIMITS)?,
        &mut NullAdviser,
    )?;
    assert!(rt;
        step == Step {
            ending: Ending::Bound(1),
            cost: Some(262_500)
        }
    );
    Ok(())
}

// With dials up to 0.200 the backup takes at most 300 ms: 75 + 300 ms are more.
#[test]
fn an_emptied_box_is_empty(rt: HostRuntime) -> Result<(), BuildFault> {
    let alloc = rt.alloc();
    let step = first_step(alloc, &two_lines(alloc, 4, 0, NO_LIMITS)?, &mut NullAdviser)?;
    assert!(rt;
        step == Step {
            ending: Ending::Empty,
            cost: None
        }
    );
    Ok(())
}

// 0.280 * 13.5/7 s is 0.140 * 13.5/7 + 0.270 s exactly, but no multiple of a nanosecond.
#[test]
fn an_interval_that_is_kept_exactly_is_a_hairline(rt: HostRuntime) -> Result<(), BuildFault> {
    let alloc = rt.alloc();
    let step = first_step(alloc, &tied_lines(alloc)?, &mut NullAdviser)?;
    assert!(rt;
        step == Step {
            ending: Ending::Hair(0),
            cost: None
        }
    );
    Ok(())
}

// At 200 A the backup takes 3.375 s, so its dial is at least 0.150. At 100 A it is 0.250, which costs 262.5 ms. The low
// half costs at least 0.150 * 0.75 + 0.050 * 1.5 s, the high half 0.150 * 13.5/8.5 + 0.050 * 1.5 s.
#[test]
fn a_box_that_nothing_closes_is_split(rt: HostRuntime) -> Result<(), BuildFault> {
    let alloc = rt.alloc();
    let step = first_step(alloc, &two_pickups(alloc)?, &mut NullAdviser)?;
    let ending = Ending::Split {
        relay: 0,
        at: 0,
        low: (1, 187_500),
        high: (1, 313_235),
    };
    assert!(rt;
        step == Step {
            ending,
            cost: Some(262_500)
        }
    );
    Ok(())
}

// The dials are at least 0.028. At the low pickups they are 0.108, which costs 2 * 0.108 * 1.5 s. The low half costs at
// least 2 * 0.028 * 1.5 s, the high half 0.028 * (3.375 + 1.5) s.
#[test]
fn a_split_without_advice_has_plain_bounds(rt: HostRuntime) -> Result<(), BuildFault> {
    let alloc = rt.alloc();
    let step = first_step(alloc, &parallel_lines(alloc, 100)?, &mut NullAdviser)?;
    let ending = Ending::Split {
        relay: 0,
        at: 0,
        low: (1, 84_000),
        high: (1, 136_500),
    };
    assert!(rt;
        step == Step {
            ending,
            cost: Some(324_000)
        }
    );
    Ok(())
}

/// Lambda 4, and a weight of 1 for each row.
const USEFUL: Told = Told {
    lambda: 4,
    rows: &[FIRST_ROW, SECOND_ROW],
    ..NOTHING
};

// Both rows ask for 324 ms. A relay counts 4 * 1.5 + 1.5 - 4.5 s at the low pickup and 4 * 3.375 + 3.375 - 13.5 s at the
// high one: 648 + 2 * 0.028 * 3 s over 4, and 648 + 0.028 * (3.375 + 3) s over 4.
#[test]
fn advised_weights_bound_the_halves(rt: HostRuntime) -> Result<(), BuildFault> {
    let alloc = rt.alloc();
    let mut told = USEFUL;
    let step = first_step(alloc, &parallel_lines(alloc, 100)?, &mut told)?;
    let ending = Ending::Split {
        relay: 0,
        at: 0,
        low: (4, 204_000),
        high: (4, 206_625),
    };
    assert!(rt;
        step == Step {
            ending,
            cost: Some(324_000)
        }
    );
    Ok(())
}

/// Lambda 3, a weight of 1 for each row, and the high pickups.
const CLOSING: Told = Told {
    lambda: 3,
    pickups: &[1, 1],
    ..USEFUL
};

// At the high pickups the dials are 0.032, since 0.032 * 13.5 = 0.032 * 3.375 + 0.324 exactly: 2 * 0.032 * 3.375 s. At
// lambda 3 a relay counts 1.5 s at the low pickup and 0 at the high one: 0 at least, and 648 over 3.
#[test]
fn advised_pickups_and_weights_close_a_box(rt: HostRuntime) -> Result<(), BuildFault> {
    let alloc = rt.alloc();
    let mut told = CLOSING;
    let step = first_step(alloc, &parallel_lines(alloc, 100)?, &mut told)?;
    assert!(rt;
        step == Step {
            ending: Ending::Bound(3),
            cost: Some(216_000)
        }
    );
    Ok(())
}

// With the first relay at its low pickup the dials are at least 0.084 and 0.034, and the weights of the box before give
// more than the plain ones: 648 + 0.084 * 3 + 0.034 * 3 s over 4, and 648 + 0.084 * 3 + 0.034 * 3.375 s over 4.
#[test]
fn weights_of_the_box_before_bound_its_halves(rt: HostRuntime) -> Result<(), BuildFault> {
    let alloc = rt.alloc();
    let mut told = USEFUL;
    let step = second_step(
        alloc,
        &parallel_lines(alloc, 100)?,
        &mut told,
        &mut NullAdviser,
    )?;
    let ending = Ending::Split {
        relay: 1,
        at: 0,
        low: (4, 250_500),
        high: (4, 253_687),
    };
    assert!(rt; step == Some(Step { ending, cost: None }));
    Ok(())
}

/// Lambda 0, and weights by which no dials keep the rows of the chain.
const VOIDING: Told = Told {
    lambda: 0,
    rows: &[
        FIRST_ROW,
        Weight { row: 1, weight: 4 },
        Weight { row: 2, weight: 16 },
    ],
    relay: 0,
    at: 65_535,
    pickups: &[0, 0, 0],
};

/// Too little of the last row.
const SHORT: Told = Told {
    rows: &[
        FIRST_ROW,
        Weight { row: 1, weight: 4 },
        Weight { row: 2, weight: 12 },
    ],
    ..VOIDING
};

// The dials are from 0.016 to 0.054, from 0.114, and 1.000. With the weights 1, 4 and 16 the rows ask for 30 + 120 - 1,296
// ms. The last relay adds its 1,500 ms, the second at least 0, which is 4 * 3.375 - 13.5 s at its high pickup, and so does
// the first with 16 * 3.375 - 4 * 13.5 s: 354 ms are left. With 12 in place of 16 the rows ask for 30 + 120 - 972 ms, and
// the first relay adds 0.054 * (12 * 3.375 - 4 * 13.5) s: 51 ms are missing. The halves then cost 24 or 54 ms more than
// 171 + 1,500 ms.
#[test]
fn weights_that_no_dials_meet_make_a_box_void(rt: HostRuntime) -> Result<(), BuildFault> {
    let alloc = rt.alloc();
    let inst = relay_chain(alloc)?;
    let void = Step {
        ending: Ending::Void,
        cost: None,
    };
    let mut told = VOIDING;
    assert!(rt; first_step(alloc, &inst, &mut told)? == void);
    told.lambda = 1;
    assert!(rt; first_step(alloc, &inst, &mut told)? == void);
    let mut short = SHORT;
    let ending = Ending::Split {
        relay: 0,
        at: 0,
        low: (1, 1_695_000),
        high: (1, 1_725_000),
    };
    assert!(rt; first_step(alloc, &inst, &mut short)? == Step { ending, cost: None });
    Ok(())
}

/// The first box's step, at a gap of 1,000 or the least.
fn first_step<A: Adviser>(
    alloc: Global,
    inst: &Instance,
    adviser: &mut A,
) -> Result<Step, NoMemory> {
    let first = OpenBox::first(alloc, inst)?;
    let gap = least_gap(inst).max(GAP);
    let (handling, issued) = handle(alloc, inst, &first, &None, gap, adviser)?;
    Ok(summary(&handling, &issued))
}

/// The step of the low half of the first box; none if that isn't split.
fn second_step<A: Adviser, B: Adviser>(
    alloc: Global,
    inst: &Instance,
    adviser: &mut A,
    later: &mut B,
) -> Result<Option<Step>, NoMemory> {
    let first = OpenBox::first(alloc, inst)?;
    let gap = least_gap(inst).max(GAP);
    let (handling, issued) = handle(alloc, inst, &first, &None, gap, adviser)?;
    let Handling::Split { low, .. } = handling else {
        return Ok(None);
    };
    let (handling, issued) = handle(alloc, inst, &low, &issued, gap, later)?;
    Ok(Some(summary(&handling, &issued)))
}

fn summary(handling: &Handling, issued: &Option<Issued>) -> Step {
    Step {
        ending: ended(handling),
        cost: issued.as_ref().map(|issued| issued.cost),
    }
}

fn ended(handling: &Handling) -> Ending {
    match handling {
        Handling::Empty => Ending::Empty,
        Handling::Void(_) => Ending::Void,
        Handling::Bound(weights) => Ending::Bound(weights.lambda),
        Handling::Hair { row } => Ending::Hair(*row),
        Handling::Split {
            relay,
            at,
            low,
            high,
        } => Ending::Split {
            relay: *relay,
            at: *at,
            low: (low.weights.lambda, low.bound),
            high: (high.weights.lambda, high.bound),
        },
    }
}
