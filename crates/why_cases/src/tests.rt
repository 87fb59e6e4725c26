//! Studies that are worked out by hand: curve B takes 13.5/(M - 1) seconds at the multiple of pickup M and dial 1.
ghost use Rattle.std.specs.Prelude.{◌<◌, length, All, IfOk, IfSome, IsTrue};
ghost use Rattle.coord_model.specs.Choice.{choice_data};
ghost use Rattle.margin_rows.specs.Case.{rows_in};
ghost use Rattle.margin_rows.specs.FirstBox.{IsInFirstBox};
ghost use Rattle.margin_rows.specs.Margin.{MeetsLoosely};

use coord_model::{Choice, NoMemory};
use coord_why::{ChainFault, Link, Reason, chain};
use hand_studies::{Limits, parallel_lines, two_lines};
use margin_rows::{BuildFault, Instance, Ranges, loose_least, loose_row};
use std::alloc::Global;
use study::tied_twice;

mod study;

const NO_LIMITS: Limits = Limits {
    least_ms: 0,
    most_ms: 0,
};

// At multiple 10 dial 0.050 takes 75 ms and 0.250 takes 375 ms, exactly the interval of 300 ms apart.
#[test]
fn a_backup_rests_on_the_floor_of_its_primary(rt: HostRuntime) -> Result<(), BuildFault> {
    let inst = two_lines(rt.alloc(), 20, 0, NO_LIMITS)?;
    let backup = [floor(1), waits(0, 0, 4)];
    assert!(rt; has_chain(rt.alloc(), &inst, 0, 0, &backup)?);
    assert!(rt; has_chain(rt.alloc(), &inst, 1, 0, &[floor(1)])?);
    Ok(())
}

// 0.050 takes 75 ms and 0.100 takes 150 ms, to which 300 ms are added: 0.300 takes 450 ms. The greatest time of 600 ms asks
// for nothing.
#[test]
fn a_least_time_comes_first(rt: HostRuntime) -> Result<(), BuildFault> {
    let limits = Limits {
        least_ms: 100,
        most_ms: 600,
    };
    let inst = two_lines(rt.alloc(), 20, 0, limits)?;
    let least = Link {
        relay: 1,
        step: 1,
        reason: Reason::Least { row: 1 },
    };
    assert!(rt; has_chain(rt.alloc(), &inst, 1, 0, &[least])?);
    assert!(rt; has_chain(rt.alloc(), &inst, 0, 0, &[least, waits(0, 0, 5)])?);
    Ok(())
}

// The time is 1.5 s as primary and 4.5 s as backup, so that beside the dial d the other relay needs 0.072 + d/3. From 0.002
// these are 0.074, 0.098, 0.106 and 0.108, which rests on itself.
#[test]
fn a_chain_goes_round_a_ring_until_it_rests(rt: HostRuntime) -> Result<(), BuildFault> {
    let inst = parallel_lines(rt.alloc(), 100)?;
    let links = [
        floor(0),
        waits(0, 1, 36),
        waits(1, 0, 48),
        waits(0, 1, 52),
        waits(1, 0, 53),
    ];
    assert!(rt; has_chain(rt.alloc(), &inst, 0, 0, &links)?);
    Ok(())
}

// With the first relay at 0.300 or 0.350 all rows are kept too.
#[test]
fn a_dial_above_the_least_has_no_chain(rt: HostRuntime) -> Result<(), BuildFault> {
    let inst = two_lines(rt.alloc(), 20, 0, NO_LIMITS)?;
    assert!(rt; least_step(rt.alloc(), &inst, 0, 1)? == Some(4));
    assert!(rt; least_step(rt.alloc(), &inst, 0, 2)? == Some(4));
    assert!(rt; least_step(rt.alloc(), &inst, 0, 0)? == None);
    // The second relay is at its least dial still.
    assert!(rt; has_chain(rt.alloc(), &inst, 1, 1, &[floor(1)])?);
    Ok(())
}

// At 13.5/7 s the dials 0.280 and 0.140 lie 270 ms apart in truth, so that they loosely meet both rows. The chain names the
// first one.
#[test]
fn of_two_rows_that_ask_for_a_step_the_first_is_named(rt: HostRuntime) -> Result<(), BuildFault> {
    let inst = tied_twice(rt.alloc())?;
    assert!(rt; has_chain(rt.alloc(), &inst, 0, 0, &[floor(1), waits(0, 0, 1)])?);
    assert!(rt; least_step(rt.alloc(), &inst, 0, 1)? == Some(1));
    Ok(())
}

fn floor(relay: u16) -> Link {
    Link {
        relay,
        step: 0,
        reason: Reason::Floor,
    }
}

fn waits(row: u16, relay: u16, step: u16) -> Link {
    Link {
        relay,
        step,
        reason: Reason::Row { row },
    }
}

/// Whether these links are the chain behind a relay's dial, with the dial of relay 0 some steps above the least.
fn has_chain(
    alloc: Global,
    inst: &Instance,
    relay: u16,
    above: u16,
    links: &[Link],
) -> Result<bool, NoMemory> {
    match chain_to(alloc, inst, relay, above)? {
        Some(Ok(found)) => Ok(found.as_slice() == links),
        _ => Ok(false),
    }
}

/// The least step of the relay, if there is no chain to its dial, with the dial of relay 0 some steps above the least.
fn least_step(
    alloc: Global,
    inst: &Instance,
    relay: u16,
    above: u16,
) -> Result<Option<u16>, NoMemory> {
    match chain_to(alloc, inst, relay, above)? {
        Some(Err(ChainFault::NotLeast { step })) => Ok(Some(step)),
        _ => Ok(None),
    }
}

/// What `chain` answers for the loosely least dials of the lowest pickups, with the dial of relay 0 some steps above.
fn chain_to(
    alloc: Global,
    inst: &Instance,
    relay: u16,
    above: u16,
) -> Result<Option<Result<Vec<Link>, ChainFault>>, NoMemory> {
    let Some(choice) = least_choice(alloc, inst)? else {
        return Ok(None);
    };
    let Some(choice) = raised(inst, choice, above) else {
        return Ok(None);
    };
    if usize::from(relay) >= inst.study().relays.len() || !is_loose(inst, &choice) {
        return Ok(None);
    }
    Ok(Some(chain(alloc, inst, &choice, relay)))
}

/// The loosely least choice of the lowest pickups.
fn least_choice(alloc: Global, inst: &Instance) -> Result<Option<Choice>, NoMemory>
    ensures { IfOk result (λ found. IfSome found (λ choice. IsInFirstBox inst.now (choice_data choice))) }
{
    let first = Ranges::first(alloc, inst)?;
    let lowest = first.lowest()?;
    if !first.holds_pickups(lowest.pickup.as_slice()) {
        return Ok(None);
    }
    loose_least(alloc, inst, lowest.pickup.as_slice())
}

/// The choice with the dial of relay 0 some steps higher. `None`: the relay has no such step.
fn raised(inst: &Instance, mut choice: Choice, above: u16) -> Option<Choice>
    requires { IsInFirstBox inst.now (choice_data choice) }
    ensures { IfSome result (λ turned. IsInFirstBox inst.now (choice_data turned)) }
{
    let relays = inst.study().relays.as_slice();
    if relays.is_empty() || choice.dial.is_empty() {
        return None;
    }
    let step = choice.dial[0].checked_add(above)?;
    if u32::from(step) >= relays[0].dial_count {
        return None;
    }
    choice.dial[0] = step;
    Some(choice)
}

/// Whether a choice loosely meets every row.
fn is_loose(inst: &Instance, choice: &Choice) -> bool
    requires { IsInFirstBox inst.now (choice_data choice.now) }
    ensures { IsTrue result → All (MeetsLoosely inst.now (choice_data choice.now)) (rows_in inst.now) }
{
    for row in 0..inst.rows().len() as u16 {
        if loose_row(inst, choice, row) < 0 {
            return false;
        }
    }
    true
}
