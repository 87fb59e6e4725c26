//! Leaves, and trees of one split.
use super::*;

// The cheapest dials are 0.250 and 0.050: the first relay takes 0.75 s at its own fault, 187,500 us, the second 75,000
// us. In the open leaf both are at 0.050, which takes 37,500 us and 75,000 us.
#[test]
fn a_bound_is_that_of_its_tight_box(rt: HostRuntime) -> Result<(), BuildFault> {
    let inst = two_lines(rt.alloc(), 20, 0, NO_LIMITS)?;
    let issued = Issued {
        cost: Some(262_500),
        budget: 1,
    };
    let rows: &[Row] = &[
        (one(PLAIN), holds(Some(262_500), 1, Some(Ending::Closed))),
        (one(OPEN), holds(Some(112_500), 0, None)),
        (one(EMPTY), fails(1, NodeKind::NotEmpty)),
        (one(VOID), fails(1, NodeKind::NotVoid)),
        (one(hair(0)), fails(1, NodeKind::NotHair)),
        (one(hair(1)), fails(1, NodeKind::RowNumber)),
    ];
    agree(&rt, &inst, &issued, rows);
    Ok(())
}

// With dials up to 0.200 the first relay can't wait 300 ms for the second.
#[test]
fn an_emptied_box_has_no_bound(rt: HostRuntime) -> Result<(), BuildFault> {
    let inst = two_lines(rt.alloc(), 4, 0, NO_LIMITS)?;
    let issued = Issued {
        cost: Some(262_500),
        budget: 1,
    };
    let rows: &[Row] = &[
        (one(EMPTY), holds(None, 1, Some(Ending::NoSettings))),
        (one(OPEN), holds(Some(112_500), 0, None)),
        (one(PLAIN), fails(1, NodeKind::Emptied)),
        (one(VOID), fails(1, NodeKind::Emptied)),
        (one(hair(0)), fails(1, NodeKind::Emptied)),
        (cut(split(0, 0), PLAIN, PLAIN), fails(1, NodeKind::Emptied)),
    ];
    agree(&rt, &inst, &issued, rows);
    Ok(())
}

// At a load of 100 A the plug of 100 A is too low, so the first relay has no pickup step.
#[test]
fn a_box_without_pickups_is_empty(rt: HostRuntime) -> Result<(), BuildFault> {
    let inst = two_lines(rt.alloc(), 20, 100, NO_LIMITS)?;
    let issued = Issued {
        cost: Some(262_500),
        budget: 1,
    };
    let rows: &[Row] = &[
        (one(EMPTY), holds(None, 1, Some(Ending::NoSettings))),
        (one(OPEN), fails(1, NodeKind::Emptied)),
        (one(PLAIN), fails(1, NodeKind::Emptied)),
    ];
    agree(&rt, &inst, &issued, rows);
    Ok(())
}

// The tie is met loosely and not strictly. The second relay takes 0.140 * 1.928571428 s at least.
#[test]
fn a_hair_gives_the_plain_bound(rt: HostRuntime) -> Result<(), BuildFault> {
    let inst = tied_lines(rt.alloc())?;
    let issued = Issued {
        cost: Some(271_000),
        budget: 1,
    };
    let rows: &[Row] = &[
        (
            one(hair(0)),
            holds(Some(269_999), 1, Some(Ending::Hairline)),
        ),
        (one(EMPTY), fails(1, NodeKind::NotEmpty)),
    ];
    agree(&rt, &inst, &issued, rows);
    Ok(())
}

// Plug 1.00 gives 262,500, and plug 2.00, at dial 0.150, 313,235. The first relay has the pickup steps 0 and 1 alone.
#[test]
fn a_split_gives_the_lower_bound_of_its_halves(rt: HostRuntime) -> Result<(), BuildFault> {
    let inst = two_pickups(rt.alloc())?;
    let issued = Issued {
        cost: Some(262_500),
        budget: 3,
    };
    let rows: &[Row] = &[
        (
            cut(split(0, 0), PLAIN, PLAIN),
            holds(Some(262_500), 3, Some(Ending::Closed)),
        ),
        (cut(split(0, 1), PLAIN, PLAIN), fails(1, NodeKind::SplitAt)),
        (cut(split(1, 0), PLAIN, PLAIN), fails(1, NodeKind::SplitAt)),
        (
            cut(split(2, 0), PLAIN, PLAIN),
            fails(1, NodeKind::SplitRelay),
        ),
        (one(hair(0)), fails(1, NodeKind::ManyPickups)),
        (
            cut(split(0, 0), EMPTY, hair(9)),
            fails(2, NodeKind::NotEmpty),
        ),
        (
            cut(split(0, 0), PLAIN, hair(0)),
            fails(3, NodeKind::NotHair),
        ),
        (cut(split(0, 0), PLAIN, VOID), fails(3, NodeKind::NotVoid)),
    ];
    agree(&rt, &inst, &issued, rows);
    Ok(())
}
