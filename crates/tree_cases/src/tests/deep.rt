//! Trees of three splits over two parallel lines, where each relay backs the other with an interval of 324 ms. At dial 1 a
//! relay takes 1.5 s for its own line and 4.5 s for the other at plug 1.00, 3.375 s and 13.5 s at plug 2.00. Dials go by
//! 0.002.
//!
//! The nodes are numbered so: 1 splits the first relay; 2, at its plug 1.00, and 5, at its plug 2.00, split the second; 3
//! and 6 are at the second's plug 1.00, 4 and 7 at its plug 2.00. The lowest dials of the tight boxes are these, the first
//! relay's first:
//!
//! | node | lowest dials | plain bound |
//! |---|---|---|
//! | 1 | 0.028, 0.028 | |
//! | 2 | 0.084, 0.034 | |
//! | 3 | 0.108, 0.108, since 0.108 * (4.5 - 1.5) = 0.324 | 324,000 |
//! | 4 | 0.100, 0.036 | 271,500 |
//! | 5 | 0.028, 0.032 | |
//! | 6 | 0.036, 0.100 | 271,500 |
//! | 7 | 0.032, 0.032, since 0.032 * (13.5 - 3.375) = 0.324 | 216,000 |
use super::*;

const fn deep(low: Half, high: Half) -> Tree {
    Tree {
        root: split(0, 0),
        low,
        high,
    }
}

/// The leaves of a half, below a split of the second relay.
const fn leaves(low: Single, high: Single) -> Half {
    [split(1, 0), low, high]
}

const PLAINS: Half = [
    Single {
        line: NodeLine::Split { relay: 1, at: 0 },
        rows: Rows::None,
    },
    PLAIN,
    PLAIN,
];

/// A leaf in the place of the split of the second relay.
const fn no_split(leaf: Single) -> Half {
    [leaf, PLAIN, PLAIN]
}

// The rows weigh 648 ms together. With lambda 3 a dial counts 1.5 s at plug 1.00 and nothing at plug 2.00.
#[test]
fn weights_count_in_a_bound(rt: HostRuntime) -> Result<(), BuildFault> {
    let inst = parallel_lines(rt.alloc(), 100)?;
    let issued = Issued {
        cost: Some(216_000),
        budget: 1,
    };
    let third = weighed(NodeLine::Bound { lambda: 3 }, Rows::Both);
    let rows: &[Row] = &[
        (one(third), holds(Some(216_000), 1, Some(Ending::Closed))),
        (one(hair(0)), fails(1, NodeKind::ManyPickups)),
    ];
    agree(&rt, &inst, &issued, rows);
    Ok(())
}

// With dials up to 0.108 node 3 has the dials 0.108 alone. There both rows are met exactly, and weigh 648 ms, which is what
// the dials take away: 0.108 * 3 s twice.
#[test]
fn rows_that_are_just_met_make_no_void(rt: HostRuntime) -> Result<(), BuildFault> {
    let inst = parallel_lines(rt.alloc(), 54)?;
    let issued = Issued {
        cost: Some(216_000),
        budget: 7,
    };
    let void = weighed(NodeLine::Void, Rows::Both);
    let third = weighed(NodeLine::Bound { lambda: 3 }, Rows::Both);
    let rows: &[Row] = &[
        (
            deep(PLAINS, PLAINS),
            holds(Some(216_000), 7, Some(Ending::Closed)),
        ),
        (
            deep(PLAINS, leaves(PLAIN, third)),
            holds(Some(216_000), 7, Some(Ending::Closed)),
        ),
        (
            deep(leaves(void, PLAIN), PLAINS),
            fails(3, NodeKind::NotVoid),
        ),
        (
            deep(leaves(hair(0), PLAIN), PLAINS),
            fails(3, NodeKind::NotHair),
        ),
        (
            deep(leaves(EMPTY, PLAIN), PLAINS),
            fails(3, NodeKind::NotEmpty),
        ),
    ];
    agree(&rt, &inst, &issued, rows);
    Ok(())
}

// With dials up to 0.106 the box of node 3 is emptied. Before that its lowest dials are 0.084 and 0.034, which take 177 ms,
// and its highest 0.106 and 0.102: with both rows 648 ms less 1.5 s of each dial, 336 ms. Those of node 6 are 0.028 and
// 0.032 before it is tightened, which take 142.5 ms.
#[test]
fn an_open_leaf_is_not_tightened(rt: HostRuntime) -> Result<(), BuildFault> {
    let inst = parallel_lines(rt.alloc(), 53)?;
    let issued = Issued {
        cost: Some(216_000),
        budget: 6,
    };
    let both = weighed(NodeLine::OpenLeaf { lambda: 1 }, Rows::Both);
    let rows: &[Row] = &[
        (
            deep(leaves(OPEN, PLAIN), PLAINS),
            holds(Some(177_000), 6, Some(Ending::BudgetSpent)),
        ),
        (
            deep(leaves(both, PLAIN), PLAINS),
            holds(Some(216_000), 6, Some(Ending::Closed)),
        ),
        // a box too many
        (
            deep(leaves(EMPTY, PLAIN), PLAINS),
            holds(Some(216_000), 7, None),
        ),
        // a box too few
        (
            deep(leaves(OPEN, PLAIN), leaves(OPEN, PLAIN)),
            holds(Some(142_500), 5, None),
        ),
    ];
    agree(&rt, &inst, &issued, rows);
    Ok(())
}

// With dials up to 0.100 plug 1.00 of the second relay is dropped at node 2, and so it can't be split.
#[test]
fn a_split_needs_both_steps_in_the_tight_box(rt: HostRuntime) -> Result<(), BuildFault> {
    let inst = parallel_lines(rt.alloc(), 50)?;
    let issued = Issued {
        cost: Some(216_000),
        budget: 5,
    };
    let rows: &[Row] = &[
        (deep(PLAINS, PLAINS), fails(2, NodeKind::SplitAt)),
        (
            deep(no_split(PLAIN), PLAINS),
            holds(Some(216_000), 5, Some(Ending::Closed)),
        ),
    ];
    agree(&rt, &inst, &issued, rows);
    Ok(())
}

// Dials up to 0.106, so that the box of node 3 is emptied.
#[test]
fn each_fault_is_told_deep_in_a_tree(rt: HostRuntime) -> Result<(), BuildFault> {
    let inst = parallel_lines(rt.alloc(), 53)?;
    let issued = Issued {
        cost: Some(216_000),
        budget: 7,
    };
    let empties = leaves(EMPTY, PLAIN);
    let void = weighed(NodeLine::Void, Rows::One(0));
    let no_row = weighed(NodeLine::Bound { lambda: 1 }, Rows::One(2));
    let rows: &[Row] = &[
        (
            deep(empties, PLAINS),
            holds(Some(216_000), 7, Some(Ending::Closed)),
        ),
        (
            deep(empties, leaves(PLAIN, no_row)),
            fails(7, NodeKind::RowNumber),
        ),
        (
            deep(empties, leaves(PLAIN, split(2, 0))),
            fails(7, NodeKind::SplitRelay),
        ),
        (
            deep(empties, leaves(PLAIN, EMPTY)),
            fails(7, NodeKind::NotEmpty),
        ),
        (deep(PLAINS, PLAINS), fails(3, NodeKind::Emptied)),
        (
            deep(empties, leaves(void, PLAIN)),
            fails(6, NodeKind::NotVoid),
        ),
        (
            deep(empties, no_split(hair(0))),
            fails(5, NodeKind::ManyPickups),
        ),
        (
            deep(empties, leaves(PLAIN, hair(0))),
            fails(7, NodeKind::NotHair),
        ),
        (
            deep(empties, leaves(PLAIN, split(0, 0))),
            fails(7, NodeKind::SplitAt),
        ),
        (
            deep(empties, no_split(split(0, 0))),
            fails(5, NodeKind::SplitAt),
        ),
    ];
    agree(&rt, &inst, &issued, rows);
    Ok(())
}

// Of two wrong nodes the first in pre-order, and of two faults of one node the first in their order.
#[test]
fn the_first_fault_is_told(rt: HostRuntime) -> Result<(), BuildFault> {
    let inst = parallel_lines(rt.alloc(), 53)?;
    let issued = Issued {
        cost: Some(216_000),
        budget: 7,
    };
    let empties = leaves(EMPTY, PLAIN);
    let no_row = weighed(NodeLine::Void, Rows::One(2));
    let rows: &[Row] = &[
        (
            deep(leaves(EMPTY, EMPTY), leaves(hair(2), PLAIN)),
            fails(4, NodeKind::NotEmpty),
        ),
        (
            deep(empties, leaves(split(0, 0), no_row)),
            fails(6, NodeKind::SplitAt),
        ),
        (
            deep(no_split(hair(0)), leaves(hair(2), PLAIN)),
            fails(2, NodeKind::ManyPickups),
        ),
        // the box of node 3 is emptied too
        (
            deep(leaves(hair(2), PLAIN), PLAINS),
            fails(3, NodeKind::RowNumber),
        ),
        (
            deep(leaves(no_row, PLAIN), PLAINS),
            fails(3, NodeKind::RowNumber),
        ),
        (
            deep(leaves(split(2, 0), PLAIN), PLAINS),
            fails(3, NodeKind::SplitRelay),
        ),
        (
            deep(leaves(split(0, 0), PLAIN), PLAINS),
            fails(3, NodeKind::Emptied),
        ),
        (
            deep(leaves(VOID, PLAIN), PLAINS),
            fails(3, NodeKind::Emptied),
        ),
    ];
    agree(&rt, &inst, &issued, rows);
    Ok(())
}

#[test]
fn a_walk_tells_where_it_is(rt: HostRuntime) -> Result<(), BuildFault> {
    let inst = parallel_lines(rt.alloc(), 53)?;
    let tree = deep(leaves(EMPTY, PLAIN), PLAINS);
    let places: &[Place] = &[
        (1, 0, 0, None),
        (2, 1, 1, None),
        (3, 2, 2, None),
        (2, 3, 3, None),
        (1, 4, 4, Some(271_500)),
        (2, 5, 5, Some(271_500)),
        (1, 6, 6, Some(271_500)),
        (0, 7, 7, Some(216_000)),
    ];
    for (count, place) in places.iter().enumerate() {
        assert!(rt; after(rt.alloc(), &inst, &tree, count) == Ok(*place));
    }
    Ok(())
}
