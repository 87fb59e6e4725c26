//! Least gaps that are worked out by hand: the weighted widths in picoseconds are far below a microsecond, which is
//! rounded up.
use super::studies::{one_fault, one_line, two_lines};
use coord_model::CurveName;
use margin_rows::{BuildFault, least_gap};

// 13.5/9 and 13.5/18 s are whole nanoseconds.
#[test]
fn exact_times_leave_a_gap_of_one(rt: HostRuntime) -> Result<(), BuildFault> {
    let inst = two_lines(rt.alloc(), 20)?;
    assert_eq!(rt; least_gap(&inst), 1);
    Ok(())
}

// 13.5/7 s lies between two nanoseconds: 280 picoseconds at the last dial.
#[test]
fn a_width_is_rounded_up(rt: HostRuntime) -> Result<(), BuildFault> {
    let inst = one_fault(rt.alloc(), 2, 0)?;
    assert_eq!(rt; least_gap(&inst), 2);
    Ok(())
}

// 13.5/15 s at the lower pickup is exact, 13.5/7 s at the higher one is not.
#[test]
fn the_widest_pickup_counts(rt: HostRuntime) -> Result<(), BuildFault> {
    let inst = one_line(rt.alloc(), CurveName::IecB, 100, 0, 1_600)?;
    assert_eq!(rt; least_gap(&inst), 2);
    Ok(())
}

// The load leaves no pickup, so the width of 13.5/19 s does not count.
#[test]
fn a_relay_without_pickups_adds_nothing(rt: HostRuntime) -> Result<(), BuildFault> {
    let inst = one_line(rt.alloc(), CurveName::IecB, 100, 500, 100_000)?;
    assert_eq!(rt; least_gap(&inst), 1);
    Ok(())
}
