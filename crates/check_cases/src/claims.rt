//! Claims that are worked out by hand: curve B takes 13.5/(M - 1) seconds at the multiple of pickup M and dial 1.
ghost use Rattle.std.specs.Prelude.{◌≡◌, IfOk, IsSome, length};

use cert_check::{Claim, ClaimKind, Found, check_claim, found_in};
use cert_text::CertHead;
use cert_tree::TreeWalk;
use coord_model::{Choice, Ending, NoMemory, NodeLine, StudyHead};
use hand_studies::{Limits, two_lines, two_pickups};
use margin_rows::BuildFault;
use std::alloc::Global;

/// The study: two relays, of which the first has two pickups, and one row.
const STUDY: StudyHead = StudyHead {
    format: 2,
    relays: 2,
    rows: 1,
};

/// The cheapest dials are 0.250 and 0.050: the first relay takes 0.75 s at its own fault and dial 1, the second 1.5 s.
const HEAD: CertHead = CertHead {
    study: None,
    ending: Ending::Closed,
    gap: 1_000,
    budget: 20_000,
    boxes: 3,
    bound: Some(262_500),
    cost: Some(262_500),
};

const NO_LIMITS: Limits = Limits {
    least_ms: 0,
    most_ms: 0,
};

const FOUND: Found = Found {
    boxes: 3,
    bound: Some(262_500),
    ending: Some(Ending::Closed),
};

const CLAIM: Claim = Claim {
    ending: Ending::Closed,
    gap: 1_000,
    budget: 20_000,
    boxes: 3,
    bound: Some(262_500),
    cost: Some(262_500),
};

#[test]
fn a_claim_that_agrees_is_told(rt: HostRuntime) -> Result<(), BuildFault> {
    let second = CertHead {
        study: Some(STUDY),
        ..HEAD
    };
    assert!(rt; told(rt.alloc(), HEAD, &[0, 0], &[4, 0], FOUND)? == Ok(CLAIM));
    assert!(rt; told(rt.alloc(), second, &[0, 0], &[4, 0], FOUND)? == Ok(CLAIM));
    Ok(())
}

// The tree is one leaf, which gives the plain bound of the first box.
#[test]
fn a_walk_gives_what_its_tree_gives(rt: HostRuntime) -> Result<(), BuildFault> {
    let inst = two_lines(rt.alloc(), 20, 0, NO_LIMITS)?;
    let mut walk = TreeWalk::new(rt.alloc(), &inst)?;
    walk.node(&inst, NodeLine::Bound { lambda: 1 }, &[])
        .expect(&rt, "a node that is right");
    let found = found_in(&walk, &HEAD);
    assert!(rt; found.boxes == 1);
    assert!(rt; found.bound == Some(262_500));
    assert!(rt; found.ending == Some(Ending::Closed));
    Ok(())
}

#[test]
fn another_study_comes_first(rt: HostRuntime) -> Result<(), BuildFault> {
    let printed = Some(StudyHead { rows: 2, ..STUDY });
    let head = CertHead {
        study: printed,
        ..HEAD
    };
    let found = STUDY;
    let fault = ClaimKind::Study { printed, found };
    assert!(rt; told(rt.alloc(), head, &[0, 0, 0], &[4, 0, 0], FOUND)? == Err(fault));
    Ok(())
}

// The first relay has the pickup steps 0 and 1, the second the step 0; each has 20 dials. At dial 0.050 the first takes
// 0.075 s at the second's fault, where it has to wait 0.3 s.
#[test]
fn settings_are_tried_in_order(rt: HostRuntime) -> Result<(), BuildFault> {
    let relays = ClaimKind::Relays {
        printed: 3,
        found: 2,
    };
    let cost = ClaimKind::Cost {
        printed: 262_500,
        found: 300_000,
    };
    assert!(rt; told(rt.alloc(), HEAD, &[9, 0, 0], &[4, 0, 0], FOUND)? == Err(relays));
    assert!(rt;
        told(rt.alloc(), HEAD, &[2, 0], &[0, 0], FOUND)? == Err(ClaimKind::Step { relay: 0 })
    );
    assert!(rt;
        told(rt.alloc(), HEAD, &[0, 0], &[0, 20], FOUND)? == Err(ClaimKind::Step { relay: 1 })
    );
    assert!(rt; told(rt.alloc(), HEAD, &[0, 0], &[0, 0], FOUND)? == Err(ClaimKind::Row { row: 0 }));
    assert!(rt; told(rt.alloc(), HEAD, &[0, 0], &[5, 0], FOUND)? == Err(cost));
    Ok(())
}

// At plug 2.00 the first relay takes 13.5/8.5 s, which is no whole nanosecond: the least gap is 2.
#[test]
fn what_the_tree_gives_is_tried_in_order(rt: HostRuntime) -> Result<(), BuildFault> {
    let boxes = ClaimKind::Boxes {
        printed: 3,
        found: 1,
    };
    let bound = ClaimKind::Bound {
        printed: Some(262_500),
        found: None,
    };
    let gap = ClaimKind::Gap {
        printed: 1,
        least: 2,
    };
    let ending = ClaimKind::EndingIs {
        printed: Ending::Closed,
        found: None,
    };
    let narrow = CertHead { gap: 1, ..HEAD };
    let open = Found {
        ending: None,
        ..FOUND
    };
    let unbound = Found {
        bound: None,
        ..open
    };
    let small = Found {
        boxes: 1,
        ..unbound
    };
    assert!(rt; told(rt.alloc(), narrow, &[0, 0], &[4, 0], small)? == Err(boxes));
    assert!(rt; told(rt.alloc(), narrow, &[0, 0], &[4, 0], unbound)? == Err(bound));
    assert!(rt; told(rt.alloc(), narrow, &[0, 0], &[4, 0], open)? == Err(gap));
    assert!(rt; told(rt.alloc(), HEAD, &[0, 0], &[4, 0], open)? == Err(ending));
    Ok(())
}

/// What is told of a claim with these settings.
fn told(
    alloc: Global,
    head: CertHead,
    pickup: &[u16],
    dial: &[u16],
    found: Found,
) -> Result<Result<Claim, ClaimKind>, BuildFault>
    requires cost { IsSome head.cost }
    requires paired { length pickup.now ≡ length dial.now }
{
    let inst = two_pickups(alloc)?;
    let choice = choice(alloc, pickup, dial)?;
    Ok(check_claim(&inst, &head, Some(&choice), found))
}

fn choice(alloc: Global, pickup: &[u16], dial: &[u16]) -> Result<Choice, NoMemory>
    ensures pickups { IfOk result (λ choice. length choice.pickup.items ≡ length pickup.now) }
    ensures dials { IfOk result (λ choice. length choice.dial.items ≡ length dial.now) }
{
    Ok(Choice {
        pickup: Vec::from_slice(alloc, pickup)?,
        dial: Vec::from_slice(alloc, dial)?,
    })
}
