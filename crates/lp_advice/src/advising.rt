//! The adviser that solves the linear programme of a box.
ghost use Rattle.margin_rows.specs.Box.{FitsBox};

use crate::ahead::Solution;
use crate::basis::{Basis, Point};
use crate::duals::whole;
use crate::fixed::Stop;
use crate::memory::Known;
use crate::mixing::mixes;
use crate::programme::{Programme, programme_of};
use crate::simplex::Solved;
use crate::splitting::split_place;
use crate::tables::tables_of;
use crate::thinning::solve_thin;
use advice::{Advice, Adviser, NullAdviser};
use coord_model::NoMemory;
use margin_rows::{Instance, Ranges};
use std::alloc::Global;

/// An adviser that solves the linear programme of each box. It remembers the best pickups that it found.
#[derive(Drop)]
pub struct LpAdviser {
    known: Known,
}

/// The most pivots of one advice.
const PIVOTS: u32 = 2_000;

impl LpAdviser {
    /// An adviser that has seen no box.
    pub fn new() -> LpAdviser {
        LpAdviser {
            known: Known::new(),
        }
    }
}

impl Adviser for LpAdviser {
    fn advise(
        &mut self,
        alloc: Global,
        inst: &Instance,
        ranges: &Ranges,
    ) -> Result<Advice, NoMemory> {
        match advised(alloc, &mut self.known, inst, ranges) {
            Ok(advice) => Ok(advice),
            Err(Stop::NoMemory) => Err(NoMemory),
            Err(Stop::Beyond) => NullAdviser.advise(alloc, inst, ranges),
        }
    }
}

fn advised(
    alloc: Global,
    known: &mut Known,
    inst: &Instance,
    ranges: &Ranges,
) -> Result<Advice, Stop>
    requires { FitsBox inst.now ranges.now }
{
    known.check(alloc, inst)?;
    let tables = tables_of(alloc, inst, ranges)?;
    let mut programme = programme_of(alloc, &tables, inst, ranges)?;
    programme.unused = known.unused(alloc, inst)?;
    let mut pivots = PIVOTS;
    match solve_thin(&mut programme, known.cutoff(&tables)?, &mut pivots)? {
        Solved::Void(weights) => Ok(Advice {
            weights: whole(alloc, 0, &weights)?,
            ..NullAdviser.advise(alloc, inst, ranges)?
        }),
        Solved::At(basis, point) => at_point(
            known,
            inst,
            ranges,
            &programme,
            &basis,
            &point,
            &mut pivots,
        ),
    }
}

/// The advice from the programme's best point.
fn at_point(
    known: &mut Known,
    inst: &Instance,
    ranges: &Ranges,
    programme: &Programme<'_>,
    basis: &Basis,
    point: &Point,
    pivots: &mut u32,
) -> Result<Advice, Stop>
    requires { FitsBox inst.now ranges.now }
{
    let advice = NullAdviser.advise(programme.alloc, inst, ranges)?;
    known.keep_rows(programme, basis)?;
    let mixes = mixes(programme, basis, point)?;
    let value = programme.value(&point.weights)?;
    let pickups = known.offer(inst, ranges, programme, &mixes, value)?;
    let solution = Solution {
        alloc: programme.alloc,
        inst,
        ranges,
        programme,
        basis,
        point,
        value,
        room: known.room(programme.tables, value)?,
    };
    let (relay, at) = match split_place(solution, &mixes, known.may_peel(solution.room), pivots)? {
        Some(place) => (place.relay, place.at),
        None => (advice.relay, advice.at),
    };
    Ok(Advice {
        weights: whole(
            programme.alloc,
            programme.tables.scale.cost_weight(),
            &point.weights,
        )?,
        relay,
        at,
        pickups: pickups.unwrap_or(advice.pickups),
    })
}
