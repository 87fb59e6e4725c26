//! Leaves over the two lines with limits on the second relay's operating time, which is 1.5 s at dial 1. Row 0 is the
//! interval, the first relay waiting 300 ms; the least row comes after it, and then the most row.
use super::*;

// At least 100 ms and at most 600 ms: the second relay has the dials 0.100 to 0.400, the first at least 0.300. They take
// 150 ms and 225 ms. In the open leaf both are at 0.050, which takes 75 ms and 37.5 ms.
#[test]
fn a_least_row_and_a_most_row_count_in_a_bound(rt: HostRuntime) -> Result<(), BuildFault> {
    let limits = Limits {
        least_ms: 100,
        most_ms: 600,
    };
    let inst = two_lines(rt.alloc(), 20, 0, limits)?;
    let issued = Issued {
        cost: Some(375_000),
        budget: 1,
    };
    let least = weighed(NodeLine::Bound { lambda: 1 }, Rows::One(1));
    let most = weighed(NodeLine::Bound { lambda: 2 }, Rows::One(2));
    let open = weighed(NodeLine::OpenLeaf { lambda: 1 }, Rows::One(1));
    let rows: &[Row] = &[
        (one(PLAIN), holds(Some(375_000), 1, Some(Ending::Closed))),
        // 100 ms of the row, nothing of the second relay, 225 ms
        (one(least), holds(Some(325_000), 1, None)),
        // twice 375 ms, 150 ms more of the second relay, less 600 ms of the row, halved
        (one(most), holds(Some(150_000), 1, None)),
        (one(OPEN), holds(Some(112_500), 0, None)),
        // 100 ms of the row, nothing of the second relay, 37.5 ms
        (one(open), holds(Some(137_500), 0, None)),
        (
            one(weighed(NodeLine::Void, Rows::One(1))),
            fails(1, NodeKind::NotVoid),
        ),
        (
            one(weighed(NodeLine::Void, Rows::One(2))),
            fails(1, NodeKind::NotVoid),
        ),
        (one(EMPTY), fails(1, NodeKind::NotEmpty)),
        (one(hair(2)), fails(1, NodeKind::NotHair)),
        (one(hair(3)), fails(1, NodeKind::RowNumber)),
    ];
    agree(&rt, &inst, &issued, rows);
    Ok(())
}

// The lowest dial of the second relay, 0.050, takes 75 ms.
#[test]
fn a_most_row_alone_empties_a_box(rt: HostRuntime) -> Result<(), BuildFault> {
    let limits = Limits {
        least_ms: 0,
        most_ms: 74,
    };
    let inst = two_lines(rt.alloc(), 20, 0, limits)?;
    let issued = Issued {
        cost: Some(262_500),
        budget: 1,
    };
    let rows: &[Row] = &[
        (one(EMPTY), holds(None, 1, Some(Ending::NoSettings))),
        (one(PLAIN), fails(1, NodeKind::Emptied)),
    ];
    agree(&rt, &inst, &issued, rows);
    Ok(())
}

#[test]
fn a_most_row_that_is_just_met_empties_nothing(rt: HostRuntime) -> Result<(), BuildFault> {
    let limits = Limits {
        least_ms: 0,
        most_ms: 75,
    };
    let inst = two_lines(rt.alloc(), 20, 0, limits)?;
    let issued = Issued {
        cost: Some(262_500),
        budget: 1,
    };
    let rows: &[Row] = &[
        (one(PLAIN), holds(Some(262_500), 1, Some(Ending::Closed))),
        (one(EMPTY), fails(1, NodeKind::NotEmpty)),
        (
            one(weighed(NodeLine::Void, Rows::One(1))),
            fails(1, NodeKind::NotVoid),
        ),
    ];
    agree(&rt, &inst, &issued, rows);
    Ok(())
}
