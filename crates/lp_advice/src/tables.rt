//! The numbers of a linear programme for the pickup steps of a box: what each row asks for, and of each relay its costs
//! and its times in rows.
ghost use Rattle.margin_rows.specs.Box.{FitsBox};
ghost use Rattle.std.specs.Prelude.{◌<◌, length};
ghost use Rattle.margin_rows.specs.Case.{rows_in};

use crate::fixed::Stop;
use crate::scale::{Role, Scale};
use coord_model::RowKind;
use margin_rows::{Instance, Ranges};
use std::alloc::Global;

/// The times of a relay in a row, a step each: below 0 where the relay is to be fast.
#[derive(Drop)]
pub struct Touch {
    pub row: usize,
    pub times: Vec<i64>,
}

/// What a relay has to do with a programme: its pickup steps, its costs, a step each, and its rows.
#[derive(Drop)]
pub struct Part {
    pub first: u16,
    pub last: u16,
    pub costs: Vec<i64>,
    pub touches: Vec<Touch>,
}

/// The relays, and what each row asks for.
#[derive(Drop)]
pub struct Tables {
    pub parts: Vec<Part>,
    pub asked: Vec<i64>,
    pub scale: Scale,
}

/// The tables for the pickup steps of a box.
pub fn tables_of(alloc: Global, inst: &Instance, ranges: &Ranges) -> Result<Tables, Stop>
    requires { FitsBox inst.now ranges.now }
{
    let scale = Scale::of(inst);
    let mut parts = parts_of(alloc, inst, ranges, scale)?;
    let asked = asked_of(alloc, inst, scale)?;
    for row in 0..inst.rows().len() as u16 {
        touch_relays(alloc, inst, scale, &mut parts, row)?;
    }
    Ok(Tables {
        parts,
        asked,
        scale,
    })
}

fn parts_of(
    alloc: Global,
    inst: &Instance,
    ranges: &Ranges,
    scale: Scale,
) -> Result<Vec<Part>, Stop>
    requires { FitsBox inst.now ranges.now }
{
    let mut parts = Vec::new(alloc);
    for relay in 0..inst.study().relays.len() as u16 {
        parts.push(part_of(alloc, inst, ranges, scale, relay)?)?;
    }
    Ok(parts)
}

fn asked_of(alloc: Global, inst: &Instance, scale: Scale) -> Result<Vec<i64>, Stop> {
    let mut asked = Vec::new(alloc);
    for row in 0..inst.rows().len() as u16 {
        asked.push(scale.constant(inst, row)?)?;
    }
    Ok(asked)
}

/// The part of a relay without its rows.
fn part_of(
    alloc: Global,
    inst: &Instance,
    ranges: &Ranges,
    scale: Scale,
    relay: u16,
) -> Result<Part, Stop>
    requires fits { FitsBox inst.now ranges.now }
    requires relay { relay < length inst.now.study.relays }
{
    let span = ranges.pickup(relay);
    let mut costs = Vec::new(alloc);
    for step in span.lo..span.hi.saturating_add(1) {
        costs.push(scale.cost(inst, relay, step)?)?;
    }
    Ok(Part {
        first: span.lo,
        last: span.hi,
        costs,
        touches: Vec::new(alloc),
    })
}

/// Adds the times of a row to its relays.
fn touch_relays(
    alloc: Global,
    inst: &Instance,
    scale: Scale,
    parts: &mut [Part],
    number: u16,
) -> Result<(), Stop>
    requires { number < length (rows_in inst.now) }
{
    let row = inst.row(number);
    if row.kind != RowKind::Most {
        add_touch(alloc, inst, scale, parts, number, row.backup, Role::Slow)?;
    }
    if row.kind != RowKind::Least {
        add_touch(alloc, inst, scale, parts, number, row.primary, Role::Fast)?;
    }
    Ok(())
}

/// Adds the times of a row to the relay that has a role in it.
fn add_touch(
    alloc: Global,
    inst: &Instance,
    scale: Scale,
    parts: &mut [Part],
    number: u16,
    relay: u16,
    role: Role,
) -> Result<(), Stop> {
    let Some(part) = parts.get_mut(usize::from(relay)) else {
        return Err(Stop::Beyond);
    };
    let mut times = Vec::new(alloc);
    for step in part.first..part.last.saturating_add(1) {
        times.push(scale.time(inst, number, role, step)?)?;
    }
    part.touches.push(Touch {
        row: usize::from(number),
        times,
    })?;
    Ok(())
}
