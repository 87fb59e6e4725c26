//! Whole searches by advisers that lie.
use super::{BUDGET, FIRST_ROW, GAP, NOTHING, SECOND_ROW, Told};
use branch_bound::search;
use coord_model::{Ending, Weight};
use hand_studies::{parallel_lines, two_pickups};
use margin_rows::BuildFault;

const NO_ROW: Weight = Weight {
    row: 4_000,
    weight: 1,
};

const NO_WEIGHT: Weight = Weight { row: 0, weight: 0 };

const GREATEST_WEIGHT: Weight = Weight {
    row: 0,
    weight: u32::MAX,
};

/// Advice that can't be used, or is of no use.
const LIARS: &[Told] = &[
    NOTHING,
    Told {
        rows: &[FIRST_ROW, FIRST_ROW],
        ..NOTHING
    },
    Told {
        rows: &[SECOND_ROW, FIRST_ROW],
        ..NOTHING
    },
    Told {
        rows: &[FIRST_ROW, NO_ROW],
        ..NOTHING
    },
    Told {
        rows: &[NO_WEIGHT],
        ..NOTHING
    },
    Told {
        rows: &[FIRST_ROW; 65],
        ..NOTHING
    },
    Told {
        rows: &[GREATEST_WEIGHT; 64],
        ..NOTHING
    },
    Told {
        rows: &[GREATEST_WEIGHT],
        ..NOTHING
    },
    Told {
        lambda: 0,
        rows: &[FIRST_ROW],
        ..NOTHING
    },
    Told {
        relay: 96,
        at: 0,
        ..NOTHING
    },
    Told {
        relay: 1,
        at: 65_535,
        ..NOTHING
    },
    Told {
        pickups: &[0],
        ..NOTHING
    },
    Told {
        pickups: &[1, 1, 0],
        ..NOTHING
    },
    Told {
        pickups: &[0, 2],
        ..NOTHING
    },
];

// Over the two lines the pickup of 1.00 needs dial 0.250: 0.250 * 0.75 + 0.050 * 1.5 s. Over the lines side by side the
// high pickups need dial 0.032: 2 * 0.032 * 3.375 s, and no other pickups cost less.
#[test]
fn lies_change_no_answer(rt: HostRuntime) -> Result<(), BuildFault> {
    let alloc = rt.alloc();
    let lines = two_pickups(alloc)?;
    let pair = parallel_lines(alloc, 100)?;
    for liar in LIARS {
        let mut told = *liar;
        let Ok(found) = search(alloc, &lines, GAP, BUDGET, &mut told) else {
            return Err(BuildFault::NoMemory);
        };
        let all = (found.ending, found.cost, found.bound, found.boxes);
        assert!(rt; all == (Ending::Closed, Some(262_500), Some(262_500), 3));
        let Ok(found) = search(alloc, &pair, GAP, BUDGET, &mut told) else {
            return Err(BuildFault::NoMemory);
        };
        assert!(rt; found.ending == Ending::Closed && found.cost == Some(216_000));
    }
    Ok(())
}
