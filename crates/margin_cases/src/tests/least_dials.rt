//! The strict-least and the loosely least dials of studies that are worked out by hand.
use super::lowest;
use super::studies::{one_fault, two_lines, two_lines_limited};
use coord_model::{NoMemory, Row, RowKind};
use margin_rows::{
    BuildFault, Instance, dial_at, loose_least, loose_step, strict_least, strict_row,
};
use std::alloc::Global;

// 0.250 * 1.5 - 0.050 * 1.5 is 0.300 s, exactly the interval; with dials up to 0.200 the row can't be met.
#[test]
fn the_backup_rises_to_the_interval(rt: HostRuntime) -> Result<(), BuildFault> {
    let alloc = rt.alloc();
    assert!(rt; least_dials(alloc, &two_lines(alloc, 20)?)? == Some((4, 0)));
    assert!(rt; least_dials(alloc, &two_lines(alloc, 5)?)? == Some((4, 0)));
    assert!(rt; least_dials(alloc, &two_lines(alloc, 4)?)? == None);
    Ok(())
}

// At 13.5/7 s the dials 0.280 and 0.140 lie 270 ms apart in truth, but not at the ends of the enclosures.
#[test]
fn a_row_met_by_a_hair_asks_for_the_next_dial(rt: HostRuntime) -> Result<(), BuildFault> {
    let alloc = rt.alloc();
    assert!(rt; least_dials(alloc, &one_fault(alloc, 2, 0)?)? == None);
    assert!(rt; least_dials(alloc, &one_fault(alloc, 3, 0)?)? == Some((2, 0)));
    Ok(())
}

// The same row is loosely met at 0.280, and beside 0.280 at 0.420, which two dials lack.
#[test]
fn a_row_met_by_a_hair_is_loosely_met(rt: HostRuntime) -> Result<(), BuildFault> {
    let alloc = rt.alloc();
    let inst = one_fault(alloc, 2, 0)?;
    assert!(rt; loose_dials(alloc, &inst)? == Some((1, 0)));
    assert!(rt; loose_steps(alloc, &inst)? == Some((Some(1), None)));
    assert!(rt; loose_steps(alloc, &one_fault(alloc, 3, 0)?)? == Some((Some(1), Some(2))));
    Ok(())
}

// With dials up to 0.200 the row is 75 ms short.
#[test]
fn no_dials_meet_a_row_that_is_short_of_time(rt: HostRuntime) -> Result<(), BuildFault> {
    let alloc = rt.alloc();
    assert!(rt; loose_dials(alloc, &two_lines(alloc, 5)?)? == Some((4, 0)));
    assert!(rt; loose_dials(alloc, &two_lines(alloc, 4)?)? == None);
    Ok(())
}

// At dial 0.050 the second relay takes 75 ms, at 0.100 it takes 150 ms; the first takes 300 ms at 0.200 and 187.5 ms at its
// own fault and 0.250.
#[test]
fn limits_and_a_pairs_own_interval_raise_the_dials(rt: HostRuntime) -> Result<(), BuildFault> {
    for (own, least, most, dials) in &[
        (225, 0, 0, Some((3, 0))),
        (300, 100, 0, Some((5, 1))),
        (300, 0, 150, None),
        (225, 100, 187, None),
        (225, 100, 188, Some((4, 1))),
    ] {
        let inst = two_lines_limited(rt.alloc(), *own, *least, *most)?;
        assert!(rt; least_dials(rt.alloc(), &inst)? == *dials);
    }
    Ok(())
}

// 0.100 * 1.5 s and 0.250 * 1.5 s lie exactly 225 ms apart; 150 ms is 50 ms above 100, and 0.250 * 0.75 s is 37.5 ms below
// 225.
#[test]
fn each_kind_of_row_has_its_constant_and_its_margin(rt: HostRuntime) -> Result<(), BuildFault> {
    let inst = two_lines_limited(rt.alloc(), 225, 100, 225)?;
    let rows = [
        row(RowKind::Interval, 0, 0, 1),
        row(RowKind::Least, 0, 1, 1),
        row(RowKind::Most, 1, 0, 0),
    ];
    assert!(rt; inst.rows() == rows.as_slice());
    assert!(rt; least_margin(rt.alloc(), &inst, 0)? == Some((225_000_000_000, 0)));
    assert!(rt; least_margin(rt.alloc(), &inst, 1)? == Some((100_000_000_000, 50_000_000_000)));
    assert!(rt; least_margin(rt.alloc(), &inst, 2)? == Some((-225_000_000_000, 37_500_000_000)));
    Ok(())
}

/// A row's constant, and its strict margin with the strict-least choice of the lowest pickups, in picoseconds.
fn least_margin(alloc: Global, inst: &Instance, row: u16) -> Result<Option<(i64, i64)>, NoMemory> {
    let Some(lowest) = lowest(alloc, inst)? else {
        return Ok(None);
    };
    let Some(choice) = strict_least(alloc, inst, lowest.pickup.as_slice())? else {
        return Ok(None);
    };
    if usize::from(row) >= inst.rows().len() {
        return Ok(None);
    }
    Ok(Some((inst.row_constant(row), strict_row(inst, &choice, row))))
}

fn row(kind: RowKind, fault: u16, backup: u16, primary: u16) -> Row {
    Row {
        kind,
        fault,
        backup,
        primary,
    }
}

#[test]
fn a_dial_step_is_a_dial(rt: HostRuntime) -> Result<(), BuildFault> {
    let inst = two_lines(rt.alloc(), 20)?;
    assert_eq!(rt; dial(&inst, 0), Some(50));
    assert_eq!(rt; dial(&inst, 4), Some(250));
    assert_eq!(rt; dial(&inst, 20), None);
    Ok(())
}

/// The dial of relay 0 at a step. `None`: it has no such step.
fn dial(inst: &Instance, step: u16) -> Option<u64> {
    let relay = inst.study().relays.first()?;
    (u32::from(step) < relay.dial_count).then(|| dial_at(inst, 0, step))
}

/// The dial steps of the first two relays in the strict-least choice of the lowest pickups. `None`: there is none.
fn least_dials(alloc: Global, inst: &Instance) -> Result<Option<(u16, u16)>, NoMemory> {
    let Some(lowest) = lowest(alloc, inst)? else {
        return Ok(None);
    };
    let Some(choice) = strict_least(alloc, inst, lowest.pickup.as_slice())? else {
        return Ok(None);
    };
    Ok(first_two(choice.dial.as_slice()))
}

/// The same in the choice of the loosely least dials.
fn loose_dials(alloc: Global, inst: &Instance) -> Result<Option<(u16, u16)>, NoMemory> {
    let Some(lowest) = lowest(alloc, inst)? else {
        return Ok(None);
    };
    let Some(choice) = loose_least(alloc, inst, lowest.pickup.as_slice())? else {
        return Ok(None);
    };
    Ok(first_two(choice.dial.as_slice()))
}

fn first_two(dials: &[u16]) -> Option<(u16, u16)> {
    match dials {
        [first, second] => Some((*first, *second)),
        _ => None,
    }
}

/// The least dial steps that loosely meet row 0 with the lowest pickups, beside the primary's first and second dial.
fn loose_steps(
    alloc: Global,
    inst: &Instance,
) -> Result<Option<(Option<u16>, Option<u16>)>, NoMemory> {
    let Some(lowest) = lowest(alloc, inst)? else {
        return Ok(None);
    };
    if inst.rows().is_empty() {
        return Ok(None);
    }
    let primary = usize::from(inst.row(0).primary);
    if inst.study().relays[primary].dial_count < 2 {
        return Ok(None);
    }
    let pickups = lowest.pickup.as_slice();
    let beside_first = loose_step(inst, pickups, 0, 0);
    let beside_second = loose_step(inst, pickups, 0, 1);
    Ok(Some((beside_first, beside_second)))
}
