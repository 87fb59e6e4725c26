//! Dual values worked out by hand: curve B takes 13.5/(M - 1) seconds at the multiple of pickup M and dial 1.
ghost use Rattle.std.specs.Prelude.{◌<◌, length};
ghost use Rattle.margin_rows.specs.Box.{FitsBox};

use crate::{Parts, bound_of, plain, value};
use coord_model::{NoMemory, Weight};
use hand_studies::{Limits, parallel_lines, two_lines};
use margin_rows::{BuildFault, Instance, Ranges};

const NO_LIMITS: Limits = Limits {
    least_ms: 0,
    most_ms: 0,
};

const FIRST_ROW: Weight = Weight { row: 0, weight: 1 };

const SECOND_ROW: Weight = Weight { row: 1, weight: 1 };

const THIRD_ROW: Weight = Weight { row: 2, weight: 1 };

// At multiple 10 each relay takes 1.5 s. The backup's part is least at its high dial: 300 + 0.050 * 1500 - 1.000 * 1500 ms.
#[test]
fn a_backup_counts_at_its_high_dial(rt: HostRuntime) -> Result<(), BuildFault> {
    let alloc = rt.alloc();
    let inst = two_lines(alloc, 20, 0, NO_LIMITS)?;
    let ranges = Ranges::first(alloc, &inst)?;
    assert!(rt; dual_value(&inst, &ranges, 0, &[FIRST_ROW]) == Some(-1_125_000_000_000));
    Ok(())
}

// With dials up to 0.200 that is 300 + 75 - 300 ms, which is above 0: no choice meets the row.
#[test]
fn a_row_that_no_choice_meets_has_a_value_above_0(rt: HostRuntime) -> Result<(), BuildFault> {
    let alloc = rt.alloc();
    let inst = two_lines(alloc, 4, 0, NO_LIMITS)?;
    let ranges = Ranges::first(alloc, &inst)?;
    assert!(rt; dual_value(&inst, &ranges, 0, &[FIRST_ROW]) == Some(75_000_000_000));
    Ok(())
}

// Row 1 asks the second relay for at least 300 ms: 300 - 1.000 * 1500. Row 2 grants it 600 ms: 0.050 * 1500 - 600.
#[test]
fn limits_count_by_their_constants(rt: HostRuntime) -> Result<(), BuildFault> {
    let alloc = rt.alloc();
    let limits = Limits {
        least_ms: 300,
        most_ms: 600,
    };
    let inst = two_lines(alloc, 20, 0, limits)?;
    let ranges = Ranges::first(alloc, &inst)?;
    assert!(rt; dual_value(&inst, &ranges, 0, &[SECOND_ROW]) == Some(-1_200_000_000_000));
    assert!(rt; dual_value(&inst, &ranges, 0, &[THIRD_ROW]) == Some(-525_000_000_000));
    Ok(())
}

// Each relay counts 3 * 1.5 + 1.5 - 4.5 s at the low pickup and 3 * 3.375 + 3.375 - 13.5 s at the high one: the least
// part is 0, and the interval of 324 ms counts twice. Without weights it is 0.028 * 1.5 s for each.
#[test]
fn the_interval_counts_by_the_weights(rt: HostRuntime) -> Result<(), BuildFault> {
    let alloc = rt.alloc();
    let inst = parallel_lines(alloc, 100)?;
    let mut ranges = Ranges::first(alloc, &inst)?;
    raise_dials(&inst, &mut ranges, 0);
    raise_dials(&inst, &mut ranges, 1);
    assert!(rt; dual_value(&inst, &ranges, 3, &[FIRST_ROW, SECOND_ROW]) == Some(648_000_000_000));
    assert!(rt; plain_bound(&inst, &ranges) == Some(84_000));
    Ok(())
}

// Without weights each relay counts its least dial at 1.5 s: 0.002 in the first box, 0.028 in the other.
#[test]
fn parts_follow_to_a_narrower_box(rt: HostRuntime) -> Result<(), BuildFault> {
    let alloc = rt.alloc();
    let inst = parallel_lines(alloc, 100)?;
    let first = Ranges::first(alloc, &inst)?;
    let mut raised = first.copy()?;
    raise_dials(&inst, &mut raised, 0);
    raise_dials(&inst, &mut raised, 1);
    if first.has_empty_span() || raised.has_empty_span() {
        return Err(BuildFault::NoMemory);
    }
    let parts = Parts::new(alloc, &inst, &first)?;
    let mut followed = parts.copy()?;
    followed.follow(&inst, &first, &raised);
    assert_eq!(rt; (parts.plain(), followed.plain()), (6_000, 84_000));
    Ok(())
}

#[test]
fn no_bound_lies_above_what_a_choice_can_cost(rt: HostRuntime) -> Result<(), NoMemory> {
    assert_eq!(rt; bound_of(1 << 90, 1), 9_999_999_999_999_999);
    Ok(())
}

/// The dual value of a box. `None`: a span is empty, or a weight is of no row.
fn dual_value(inst: &Instance, ranges: &Ranges, lambda: u32, weights: &[Weight]) -> Option<i128>
    requires { FitsBox inst.now ranges.now }
{
    let rows = inst.rows().len();
    if weights.len() > 64 || !weights.iter().all(|weight| usize::from(weight.row) < rows) {
        return None;
    }
    if ranges.has_empty_span() {
        return None;
    }
    Some(value(inst, ranges, lambda, weights))
}

/// The plain bound of a box. `None`: a span is empty.
fn plain_bound(inst: &Instance, ranges: &Ranges) -> Option<u64>
    requires { FitsBox inst.now ranges.now }
{
    if ranges.has_empty_span() {
        return None;
    }
    Some(plain(inst, ranges))
}

/// Leaves a relay its dial steps from 13 to 99, where it has them.
fn raise_dials(inst: &Instance, ranges: &mut Ranges, relay: u16)
    requires fits { FitsBox inst.now ranges.old }
    requires relay { relay < length inst.now.study.relays }
    ensures { FitsBox inst.now ranges.new }
{
    let dials = ranges.dial(relay);
    if dials.lo <= 13 && 99 <= dials.hi {
        ranges.set_dial(relay, 13, 100);
    }
}
