//! What the adviser remembers from box to box: the best pickups that it found.
ghost use Rattle.margin_rows.specs.Box.{FitsBox};

use crate::basis::Basis;
use crate::fixed::Stop;
use crate::mixing::Mix;
use crate::pickups::{Field, Found, better, descend, judged};
use crate::programme::Programme;
use crate::seeking::sought;
use crate::tables::Tables;
use crate::thinning::inactive;
use margin_rows::{Instance, Ranges};
use std::alloc::Global;

/// The best pickups that were found, what they cost, and whether they were sought.
#[derive(Drop)]
pub struct Known {
    best: Option<Found>,
    has_sought: bool,
    /// How much more than its dual value closed the first box.
    first_room: Option<i64>,
    /// The rows that later boxes do not use, once they were too many.
    unused: Option<Vec<bool>>,
}

/// The most lists that a search of a later box judges.
const CALLS: u32 = 300;

/// The gap that is supposed, in whole weighted microseconds: the least one, less what rounding the weights may take.
const GAP: u64 = 990;

impl Known {
    pub fn new() -> Known {
        Known {
            best: None,
            has_sought: false,
            first_room: None,
            unused: None,
        }
    }

    /// Forgets what does not hold for a study.
    pub fn check(&mut self, alloc: Global, inst: &Instance) -> Result<(), Stop> {
        let holds = match &self.best {
            Some(best) => holds_for(alloc, inst, best)?,
            None => true,
        };
        if !holds {
            *self = Known::new();
        }
        Ok(())
    }

    /// The rows that a box does not use.
    pub fn unused(&self, alloc: Global, inst: &Instance) -> Result<Vec<bool>, Stop> {
        match &self.unused {
            Some(unused) if unused.len() == inst.rows().len() => Ok(unused.clone()?),
            _ => Ok(Vec::new(alloc)),
        }
    }

    /// Keeps the rows of a programme in use, if some were taken out of use.
    pub fn keep_rows(&mut self, programme: &Programme<'_>, basis: &Basis) -> Result<(), Stop> {
        if self.unused.is_none() && !programme.unused.is_empty() {
            self.unused = Some(inactive(programme, basis)?);
        }
        Ok(())
    }

    /// The dual value that closes a box.
    pub fn cutoff(&self, tables: &Tables) -> Result<i64, Stop> {
        match &self.best {
            Some(best) => tables.scale.price(best.cost.saturating_sub(GAP)),
            None => Ok(i64::MAX),
        }
    }

    /// Whether a box with so much room is worth many looks ahead: at least a twentieth of the first box's.
    pub fn may_peel(&mut self, room: i64) -> bool {
        let first = self.first_room.unwrap_or(room);
        self.first_room = Some(first);
        room > 1 && room >= first / 20
    }

    /// How much more than a dual value closes a box.
    pub fn room(&self, tables: &Tables, value: i64) -> Result<i64, Stop> {
        match &self.best {
            Some(_) => Ok(self.cutoff(tables)?.saturating_sub(value).max(1)),
            None => Ok((value / 4).max(1)),
        }
    }

    /// Pickups to offer for a box.
    pub fn offer(
        &mut self,
        inst: &Instance,
        ranges: &Ranges,
        programme: &Programme<'_>,
        mixes: &[Mix],
        value: i64,
    ) -> Result<Option<Vec<u16>>, Stop>
        requires { FitsBox inst.now ranges.now }
    {
        let field = Field {
            alloc: programme.alloc,
            inst,
            ranges,
        };
        let found = mixed(field, programme, mixes)?;
        let found = if self.has_sought {
            self.searched(field, programme, found, value)?
        } else {
            self.has_sought = true;
            sought(field, found)?
        };
        let Some(found) = found else {
            return Ok(None);
        };
        let pickups = found.pickups.clone()?;
        self.keep(found);
        Ok(Some(pickups))
    }

    /// What is found for a later box.
    fn searched(
        &self,
        field: Field<'_>,
        programme: &Programme<'_>,
        found: Option<Found>,
        value: i64,
    ) -> Result<Option<Found>, Stop>
        requires { FitsBox field.inst.now field.ranges.now }
    {
        match (found, &self.best) {
            (Some(found), Some(best)) => {
                let gap = self.room(programme.tables, value)?;
                Ok(Some(near(field, found, gap, programme, best.cost)?))
            }
            (found, _) => Ok(found),
        }
    }

    fn keep(&mut self, found: Found) {
        let cheaper = match &self.best {
            Some(best) => found.cost < best.cost,
            None => true,
        };
        if cheaper {
            self.best = Some(found);
        }
    }
}

/// Whether pickups cost in a study what was found.
fn holds_for(alloc: Global, inst: &Instance, found: &Found) -> Result<bool, Stop> {
    let ranges = Ranges::first(alloc, inst)?;
    let field = Field {
        alloc,
        inst,
        ranges: &ranges,
    };
    Ok(judged(field, &found.pickups)? == Some(found.cost))
}

/// The better of the heaviest and the mean steps.
fn mixed(field: Field<'_>, programme: &Programme<'_>, mixes: &[Mix]) -> Result<Option<Found>, Stop>
    requires { FitsBox field.inst.now field.ranges.now }
{
    let found = better(field, None, heaviest_steps(programme, mixes)?)?;
    better(field, found, mean_steps(programme, mixes)?)
}

/// What is found, searched on if its cost is nearer to the best one than the box's dual value is.
fn near(
    field: Field<'_>,
    found: Found,
    gap: i64,
    programme: &Programme<'_>,
    best: u64,
) -> Result<Found, Stop>
    requires { FitsBox field.inst.now field.ranges.now }
{
    let more = found.cost.saturating_sub(best);
    if programme.tables.scale.price(more)? >= gap {
        return Ok(found);
    }
    let mut calls = CALLS;
    descend(field, found, &mut calls)
}

fn heaviest_steps(programme: &Programme<'_>, mixes: &[Mix]) -> Result<Vec<u16>, Stop> {
    let mut pickups = Vec::new(programme.alloc);
    for (relay, mix) in mixes.iter().enumerate() {
        pickups.push(step_of(programme, relay, mix.heaviest)?)?;
    }
    Ok(pickups)
}

fn mean_steps(programme: &Programme<'_>, mixes: &[Mix]) -> Result<Vec<u16>, Stop> {
    let mut pickups = Vec::new(programme.alloc);
    for (relay, mix) in mixes.iter().enumerate() {
        let Ok(step) = usize::try_from(mix.mean.saturating_add(1 << 31).max(0) >> 32) else {
            return Err(Stop::Beyond);
        };
        pickups.push(step_of(programme, relay, step)?)?;
    }
    Ok(pickups)
}

/// A step of the tables as one of the relay.
fn step_of(programme: &Programme<'_>, relay: usize, step: usize) -> Result<u16, Stop> {
    let Ok(step) = u16::try_from(step) else {
        return Err(Stop::Beyond);
    };
    Ok(programme.local(relay)?.part.first.saturating_add(step))
}
