//! A search for good pickups: each list of them is judged by what its strict-least settings cost.
ghost use Rattle.margin_rows.specs.Box.{FitsBox};

use crate::fixed::{Stop, at, put};
use margin_rows::{Instance, Ranges, cost, strict_least};
use std::alloc::Global;

/// Pickups and what their strict-least settings cost, in whole weighted microseconds.
#[derive(Drop)]
pub struct Found {
    pub pickups: Vec<u16>,
    pub cost: u64,
}

/// Where pickups are sought, and how many lists of them may still be judged.
#[derive(Clone, Copy)]
pub struct Field<'a> {
    pub alloc: Global,
    pub inst: &'a Instance,
    pub ranges: &'a Ranges,
}

/// What the strict-least settings of pickups cost. `None`: there are none, or the pickups are none of the box.
pub fn judged(field: Field<'_>, pickups: &[u16]) -> Result<Option<u64>, Stop>
    requires { FitsBox field.inst.now field.ranges.now }
{
    if !field.ranges.holds_pickups(pickups) {
        return Ok(None);
    }
    match strict_least(field.alloc, field.inst, pickups)? {
        Some(choice) => Ok(Some(cost(field.inst, &choice))),
        None => Ok(None),
    }
}

/// The better of what is found and pickups.
pub fn better(
    field: Field<'_>,
    found: Option<Found>,
    pickups: Vec<u16>,
) -> Result<Option<Found>, Stop>
    requires { FitsBox field.inst.now field.ranges.now }
{
    let Some(cost) = judged(field, &pickups)? else {
        return Ok(found);
    };
    match found {
        Some(found) if found.cost <= cost => Ok(Some(found)),
        _ => Ok(Some(Found { pickups, cost })),
    }
}

/// The pickups after changing one relay's at a time, as long as that makes them cheaper and calls are left.
pub fn descend(field: Field<'_>, mut found: Found, calls: &mut u32) -> Result<Found, Stop>
    requires { FitsBox field.inst.now field.ranges.now }
{
    for _ in 0..*calls {
        let before = found.cost;
        sweep(field, &mut found, calls)?;
        if found.cost >= before || *calls == 0 {
            return Ok(found);
        }
    }
    Ok(found)
}

/// Changes each relay's pickup once.
fn sweep(field: Field<'_>, found: &mut Found, calls: &mut u32) -> Result<(), Stop>
    requires { FitsBox field.inst.now field.ranges.now }
{
    for relay in 0..found.pickups.len() {
        change(field, found, relay, calls)?;
    }
    Ok(())
}

/// Changes a relay's pickup to the best of its steps.
fn change(field: Field<'_>, found: &mut Found, relay: usize, calls: &mut u32) -> Result<(), Stop>
    requires { FitsBox field.inst.now field.ranges.now }
{
    let (low, high) = steps_of(field, relay)?;
    for step in low..high.saturating_add(1) {
        if *calls > 0 {
            *calls = calls.saturating_sub(1);
            try_step(field, found, relay, step)?;
        }
    }
    Ok(())
}

/// Changes a relay's pickup to a step if that is cheaper.
fn try_step(field: Field<'_>, found: &mut Found, relay: usize, step: u16) -> Result<(), Stop>
    requires { FitsBox field.inst.now field.ranges.now }
{
    let held = at(&found.pickups, relay)?;
    if held == step {
        return Ok(());
    }
    put(&mut found.pickups, relay, step)?;
    match judged(field, &found.pickups)? {
        Some(cost) if cost < found.cost => found.cost = cost,
        _ => put(&mut found.pickups, relay, held)?,
    }
    Ok(())
}

/// The pickup steps of a relay in the box.
pub fn steps_of(field: Field<'_>, relay: usize) -> Result<(u16, u16), Stop>
    requires { FitsBox field.inst.now field.ranges.now }
{
    if relay >= field.inst.study().relays.len() {
        return Err(Stop::Beyond);
    }
    let span = field.ranges.pickup(relay as u16);
    Ok((span.lo, span.hi))
}
