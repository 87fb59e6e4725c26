//! Endings of trees if no settings were issued: none of them is closed.
use super::*;

// Plug 1.00 gives 262,500 us and plug 2.00 gives 313,235, also as an open leaf: the box that is split has the dials from
// 0.150 already.
#[test]
fn a_bound_alone_closes_nothing(rt: HostRuntime) -> Result<(), BuildFault> {
    let inst = two_pickups(rt.alloc())?;
    let whole = cut(split(0, 0), PLAIN, PLAIN);
    let part = cut(split(0, 0), PLAIN, OPEN);
    let two = Issued {
        cost: None,
        budget: 2,
    };
    let three = Issued {
        cost: None,
        budget: 3,
    };
    let bound = Some(262_500);
    let spent = Some(Ending::BudgetSpent);
    agree(&rt, &inst, &two, &[(part, holds(bound, 2, spent))]);
    agree(&rt, &inst, &two, &[(whole, holds(bound, 3, None))]);
    agree(&rt, &inst, &three, &[(part, holds(bound, 2, None))]);
    agree(&rt, &inst, &three, &[(whole, holds(bound, 3, None))]);
    Ok(())
}

// The second relay takes 0.140 * 1.928571428 s at least.
#[test]
fn a_hair_is_an_ending_without_settings(rt: HostRuntime) -> Result<(), BuildFault> {
    let inst = tied_lines(rt.alloc())?;
    let issued = Issued {
        cost: None,
        budget: 1,
    };
    let answer = holds(Some(269_999), 1, Some(Ending::Hairline));
    agree(&rt, &inst, &issued, &[(one(hair(0)), answer)]);
    Ok(())
}

// With dials up to 0.200 the first relay can't wait 300 ms for the second.
#[test]
fn no_settings_is_an_ending_without_settings(rt: HostRuntime) -> Result<(), BuildFault> {
    let inst = two_lines(rt.alloc(), 4, 0, NO_LIMITS)?;
    let issued = Issued {
        cost: None,
        budget: 1,
    };
    let answer = holds(None, 1, Some(Ending::NoSettings));
    agree(&rt, &inst, &issued, &[(one(EMPTY), answer)]);
    Ok(())
}
