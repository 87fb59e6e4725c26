//! Studies that are worked out by hand: curve B takes 13.5/(M - 1) seconds at the multiple of pickup M and dial 1.
ghost use Rattle.std.specs.Prelude.{◌≤◌, IfOk, IfSome};
ghost use Rattle.coord_model.specs.Choice.{choice_data};
ghost use Rattle.coord_model.specs.PartLimits.{FitsCurve};
ghost use Rattle.margin_rows.specs.FirstBox.{IsInFirstBox};

use coord_model::{Choice, CurveName, NoMemory, Row, RowKind, Term};
use margin_rows::{
    BuildFault, Instance, Ranges, cost, loose_row, lower_cost, strict_ok, strict_row,
};
use std::alloc::Global;

mod boxes;
mod gaps;
mod least_dials;
mod studies;
mod sums;

use studies::{one_fault, one_line, two_lines};

// The pickup is 100 A. 13.5/7, 19.61/99 + 0.491, 28.2/24 + 0.1217 and, with the multiple 1000 cut to 20, 80/399 s.
#[test]
fn each_curve_has_its_own_times(rt: HostRuntime) -> Result<(), BuildFault> {
    let alloc = rt.alloc();
    assert!(rt; time(alloc, CurveName::IecB, 800)? == Some((1_928_571_428, 1_928_571_429)));
    assert!(rt; time(alloc, CurveName::IeeeVi, 1_000)? == Some((689_080_808, 689_080_809)));
    assert!(rt; time(alloc, CurveName::IeeeEi, 500)? == Some((1_296_700_000, 1_296_700_000)));
    assert!(rt; time(alloc, CurveName::IecC, 100_000)? == Some((200_501_253, 200_501_254)));
    Ok(())
}

// 0.14/(10^0.02 - 1) is 2.970598624.. and 0.0515/(10^0.02 - 1) + 0.114 is 1.206755922.. s.
#[test]
fn a_curve_of_the_fiftieth_root_lies_between_near_ends(rt: HostRuntime) -> Result<(), BuildFault> {
    let alloc = rt.alloc();
    let Some((lower, upper)) = time(alloc, CurveName::IecA, 1_000)? else {
        return Err(BuildFault::NoMemory);
    };
    assert!(rt; 2_970_598_000 <= lower && lower <= 2_970_598_624);
    assert!(rt; 2_970_598_625 <= upper && upper <= lower + 100);
    let Some((lower, upper)) = time(alloc, CurveName::IeeeMi, 1_000)? else {
        return Err(BuildFault::NoMemory);
    };
    assert!(rt; 1_206_755_822 <= lower && lower <= 1_206_755_922);
    assert!(rt; 1_206_755_923 <= upper && upper <= lower + 100);
    Ok(())
}

// At multiple 10 dials 0.250 and 0.050 lie 300 ms apart, exactly the interval.
#[test]
fn a_row_is_met_exactly(rt: HostRuntime) -> Result<(), BuildFault> {
    let inst = two_lines(rt.alloc(), 20)?;
    let rows = [Row {
        kind: RowKind::Interval,
        fault: 0,
        backup: 0,
        primary: 1,
    }];
    assert!(rt; inst.rows() == rows.as_slice());
    let terms = [Term { fault: 0, relay: 1 }, Term { fault: 1, relay: 0 }];
    assert!(rt; inst.terms() == terms.as_slice());
    let seen = seen_at(rt.alloc(), &inst, 4, 0)?;
    assert!(rt;
        seen == Some(Seen {
            loose: 0,
            strict: 0,
            ok: true,
            cost: 262_500,
            lower_cost: 262_500
        })
    );
    Ok(())
}

// At multiple 8 the multiplier is 13.5/7 s: dials 0.280 and 0.140 lie 270 ms apart in truth, but not at the lower end.
#[test]
fn a_row_is_met_by_a_hair(rt: HostRuntime) -> Result<(), BuildFault> {
    let inst = one_fault(rt.alloc(), 2, 0)?;
    let seen = seen_at(rt.alloc(), &inst, 1, 0)?;
    assert!(rt;
        seen == Some(Seen {
            loose: 200,
            strict: -220,
            ok: false,
            cost: 270_001,
            lower_cost: 269_999
        })
    );
    Ok(())
}

// The same with 270 ms as the primary's least time, at dial 0.140.
#[test]
fn a_least_time_is_met_by_a_hair(rt: HostRuntime) -> Result<(), BuildFault> {
    let inst = one_fault(rt.alloc(), 2, 270)?;
    let seen = seen_at(rt.alloc(), &inst, 1, 1)?;
    assert!(rt;
        seen == Some(Seen {
            loose: 60,
            strict: -80,
            ok: false,
            cost: 270_001,
            lower_cost: 269_999
        })
    );
    Ok(())
}

// 110 A is 1.10 times 1.00 A, exactly at the least multiple sensed, and less than 1.10 times 1.01 A.
#[test]
fn a_step_that_does_not_sense_is_left_out(rt: HostRuntime) -> Result<(), BuildFault> {
    let inst = one_line(rt.alloc(), CurveName::IecB, 1, 0, 110)?;
    assert!(rt; first_span(&inst) == Some((0, 0)));
    Ok(())
}

// 100,000 A is past the cap at both steps, so both take 13.5/19 s.
#[test]
fn a_multiple_past_the_cap_is_the_cap(rt: HostRuntime) -> Result<(), BuildFault> {
    let inst = one_line(rt.alloc(), CurveName::IecB, 100, 0, 100_000)?;
    assert!(rt; first_span(&inst) == Some((0, 1)));
    let Some(choice) = lowest(rt.alloc(), &inst)? else {
        return Err(BuildFault::NoMemory);
    };
    assert_eq!(rt; cost(&inst, &choice), 35_527);
    assert_eq!(rt; lower_cost(&inst, &choice), 35_526);
    Ok(())
}

// A load of 500 A at 120 percent asks for 600 A, and the greatest pickup is 200 A.
#[test]
fn a_load_can_leave_no_step(rt: HostRuntime) -> Result<(), BuildFault> {
    let inst = one_line(rt.alloc(), CurveName::IecB, 100, 500, 1_000)?;
    assert!(rt; first_span(&inst) == None);
    assert!(rt; lowest(rt.alloc(), &inst)?.is_none());
    Ok(())
}

/// What the calls answer for a choice at a row.
#[derive(Clone, Copy, PartialEq, Eq, Debug)]
struct Seen {
    loose: i64,
    strict: i64,
    ok: bool,
    cost: u64,
    lower_cost: u64,
}

/// What the calls answer at the lowest choice, with the dial of relay 0 at a step.
fn seen_at(alloc: Global, inst: &Instance, step: u16, row: u16) -> Result<Option<Seen>, NoMemory> {
    let Some(choice) = lowest(alloc, inst)? else {
        return Ok(None);
    };
    let Some(choice) = with_dial(inst, choice, 0, step) else {
        return Ok(None);
    };
    if usize::from(row) >= inst.rows().len() {
        return Ok(None);
    }
    Ok(Some(Seen {
        loose: loose_row(inst, &choice, row),
        strict: strict_row(inst, &choice, row),
        ok: strict_ok(inst, &choice),
        cost: cost(inst, &choice),
        lower_cost: lower_cost(inst, &choice),
    }))
}

/// The choice of the lowest steps of the first box. `None`: a span of it is empty.
#[tactic(auto, using(margin_rows::proofs::Inside::box_lies_first))]
fn lowest(alloc: Global, inst: &Instance) -> Result<Option<Choice>, NoMemory>
    ensures { IfOk result (λ found. IfSome found (λ choice. IsInFirstBox inst.now (choice_data choice))) }
{
    let first = Ranges::first(alloc, inst)?;
    let lowest = first.lowest()?;
    if first.holds(&lowest) {
        Ok(Some(lowest))
    } else {
        Ok(None)
    }
}

/// A choice with the dial of a relay at a step. `None`: the relay has no such step.
fn with_dial(inst: &Instance, mut choice: Choice, relay: u16, step: u16) -> Option<Choice>
    requires { IsInFirstBox inst.now (choice_data choice) }
    ensures { IfSome result (λ turned. IsInFirstBox inst.now (choice_data turned)) }
{
    let place = usize::from(relay);
    let relays = inst.study().relays.as_slice();
    if place >= relays.len() || u32::from(step) >= relays[place].dial_count {
        return None;
    }
    choice.dial[place] = step;
    Some(choice)
}

/// The ends of the time of a relay with pickup 100 A at a current.
fn time(alloc: Global, curve: CurveName, amps: u32) -> Result<Option<(u64, u64)>, BuildFault>
    requires curve { FitsCurve curve }
    requires amps { amps ≤ 100000 }
{
    let inst = one_line(alloc, curve, 100, 0, amps)?;
    Ok(first_time(&inst))
}

/// The ends of the time of the first term's relay, with its lowest pickup.
fn first_time(inst: &Instance) -> Option<(u64, u64)> {
    if inst.terms().is_empty() {
        return None;
    }
    let (low, _high) = inst.first_pickups(inst.term(0).relay)?;
    Some(inst.term_time(0, low))
}

/// The first box's span of relay 0.
fn first_span(inst: &Instance) -> Option<(u16, u16)> {
    if inst.study().relays.is_empty() {
        return None;
    }
    inst.first_pickups(0)
}
