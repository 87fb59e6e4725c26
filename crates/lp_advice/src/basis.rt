//! A basis of the programme: a key column for each relay, extra columns, and as many rows that are met exactly.
use crate::factors::{Factors, Line, MOST, factored};
use crate::fixed::{ONE, Stop, add_product, at, narrow, put, sub};
use crate::programme::{Column, Local, Programme};
use std::alloc::Global;

/// A key column for each relay, extra columns of some relays, and as many active rows.
#[derive(Drop)]
pub struct Basis {
    pub keys: Vec<Column>,
    pub extras: Vec<Column>,
    pub rows: Vec<usize>,
}

/// The weights and the shares of a basis.
#[derive(Drop)]
pub struct Point {
    pub factors: Factors,
    /// The weight of each row of the study.
    pub weights: Vec<i64>,
    /// The shares of the extra columns.
    pub extras: Line,
    /// The shares of the key columns.
    pub keys: Vec<i64>,
}

/// The basis without weights: of each relay the column that costs least.
pub fn plain_basis(programme: &Programme<'_>) -> Result<Basis, Stop> {
    let weights = zeros(programme.alloc, programme.tables.asked.len())?;
    let mut keys = Vec::new(programme.alloc);
    for relay in 0..programme.windows.len() {
        keys.push(programme.local(relay)?.least(relay, &weights)?.column)?;
    }
    Ok(Basis {
        keys,
        extras: Vec::new(programme.alloc),
        rows: Vec::new(programme.alloc),
    })
}

impl Basis {
    pub fn copy(&self) -> Result<Basis, Stop> {
        Ok(Basis {
            keys: self.keys.clone()?,
            extras: self.extras.clone()?,
            rows: self.rows.clone()?,
        })
    }

    /// Makes a column that the programme has the key of a relay. `false`: the extra columns do not allow it.
    pub fn rekey(
        &mut self,
        programme: &Programme<'_>,
        relay: usize,
        weights: &[i64],
    ) -> Result<bool, Stop> {
        let local = programme.local(relay)?;
        let key = self.key(relay)?;
        if local.leaves(&key) {
            return Ok(true);
        }
        if let Some((place, extra)) = self.left_extra(local, relay) {
            put(&mut self.extras, place, key)?;
            put(&mut self.keys, relay, extra)?;
            return Ok(true);
        }
        if self.has_extra(relay) {
            return Ok(false);
        }
        put(&mut self.keys, relay, local.least(relay, weights)?.column)?;
        Ok(true)
    }

    /// The first extra column of a relay that the programme has.
    fn left_extra(&self, local: Local<'_>, relay: usize) -> Option<(usize, Column)> {
        for (place, extra) in self.extras.iter().enumerate() {
            if extra.relay == relay && local.leaves(extra) {
                return Some((place, *extra));
            }
        }
        None
    }

    pub fn key(&self, relay: usize) -> Result<Column, Stop> {
        at(&self.keys, relay)
    }

    pub fn has_extra(&self, relay: usize) -> bool {
        self.extras.iter().any(|extra| extra.relay == relay)
    }

    /// The weights and the shares.
    pub fn point(&self, programme: &Programme<'_>) -> Result<Point, Stop> {
        let factors = factored(self.matrix(programme)?)?;
        let active = factors.solve_turned(&self.cost_steps(programme)?)?;
        let alone = self.alone(programme)?;
        let extras = factors.solve(&self.rests(&alone)?)?;
        Ok(Point {
            weights: self.spread(programme, &active)?,
            keys: self.key_shares(programme.alloc, &extras)?,
            factors,
            extras,
        })
    }

    /// Numbers of the active rows as a number for each row.
    pub fn spread(&self, programme: &Programme<'_>, active: &Line) -> Result<Vec<i64>, Stop> {
        let mut spread = zeros(programme.alloc, programme.tables.asked.len())?;
        for (place, &row) in self.rows.iter().enumerate() {
            put(&mut spread, row, at(active, place)?)?;
        }
        Ok(spread)
    }

    /// For each active row what an extra column has there more than the key.
    fn matrix(&self, programme: &Programme<'_>) -> Result<Vec<Line>, Stop> {
        let mut lines: Vec<Line> = Vec::new(programme.alloc);
        for _ in 0..self.rows.len() {
            lines.push([0; MOST])?;
        }
        let places = self.places(programme)?;
        for (place, extra) in self.extras.iter().enumerate() {
            self.fill(programme, &mut lines, &places, place, extra)?;
        }
        Ok(lines)
    }

    /// The place of each row among the active ones.
    fn places(&self, programme: &Programme<'_>) -> Result<Vec<usize>, Stop> {
        let mut places = Vec::new(programme.alloc);
        for _ in 0..programme.tables.asked.len() {
            places.push(MOST)?;
        }
        for (place, &row) in self.rows.iter().enumerate() {
            put(&mut places, row, place)?;
        }
        Ok(places)
    }

    fn fill(
        &self,
        programme: &Programme<'_>,
        lines: &mut [Line],
        places: &[usize],
        place: usize,
        extra: &Column,
    ) -> Result<(), Stop> {
        let local = programme.local(extra.relay)?;
        let key = self.key(extra.relay)?;
        for touch in &local.part.touches {
            if let Some(line) = lines.get_mut(at(places, touch.row)?) {
                let more = sub(
                    local.entry(extra, &touch.times)?,
                    local.entry(&key, &touch.times)?,
                )?;
                put(line, place, more)?;
            }
        }
        Ok(())
    }

    /// What each extra column costs more than the key.
    fn cost_steps(&self, programme: &Programme<'_>) -> Result<Line, Stop> {
        let mut steps = [0; MOST];
        for (place, extra) in self.extras.iter().enumerate() {
            let local = programme.local(extra.relay)?;
            let key = self.key(extra.relay)?;
            let costs = &local.part.costs;
            let more = sub(local.entry(extra, costs)?, local.entry(&key, costs)?)?;
            put(&mut steps, place, more)?;
        }
        Ok(steps)
    }

    /// What each row has if each relay is at its key.
    fn alone(&self, programme: &Programme<'_>) -> Result<Vec<i64>, Stop> {
        let mut rests = missing(programme)?;
        for key in &self.keys {
            meet(programme, &mut rests, key, ONE)?;
        }
        Ok(rests)
    }

    /// What the active rows miss.
    fn rests(&self, missed: &[i64]) -> Result<Line, Stop> {
        let mut rests = [0; MOST];
        for (place, &row) in self.rows.iter().enumerate() {
            put(&mut rests, place, at(missed, row)?)?;
        }
        Ok(rests)
    }

    /// The share of each key: what the extra columns of its relay leave.
    fn key_shares(&self, alloc: Global, extras: &Line) -> Result<Vec<i64>, Stop> {
        let mut shares = Vec::new(alloc);
        for _ in 0..self.keys.len() {
            shares.push(ONE)?;
        }
        for (place, extra) in self.extras.iter().enumerate() {
            let left = sub(at(&shares, extra.relay)?, at(extras, place)?)?;
            put(&mut shares, extra.relay, left)?;
        }
        Ok(shares)
    }

    /// What each row misses at a point.
    pub fn missed(&self, programme: &Programme<'_>, point: &Point) -> Result<Vec<i64>, Stop> {
        let mut rests = missing(programme)?;
        for (relay, key) in self.keys.iter().enumerate() {
            meet(programme, &mut rests, key, at(&point.keys, relay)?)?;
        }
        for (place, extra) in self.extras.iter().enumerate() {
            meet(programme, &mut rests, extra, at(&point.extras, place)?)?;
        }
        Ok(rests)
    }
}

/// What each row asks for.
fn missing(programme: &Programme<'_>) -> Result<Vec<i64>, Stop> {
    let mut rests = Vec::new(programme.alloc);
    rests.extend_from_slice(&programme.tables.asked)?;
    Ok(rests)
}

/// Takes a share of a column from what the rows miss.
fn meet(
    programme: &Programme<'_>,
    rests: &mut [i64],
    column: &Column,
    share: i64,
) -> Result<(), Stop> {
    let local = programme.local(column.relay)?;
    for touch in &local.part.touches {
        let has = narrow(add_product(0, local.entry(column, &touch.times)?, share)?)?;
        let rest = sub(at(rests, touch.row)?, has)?;
        put(rests, touch.row, rest)?;
    }
    Ok(())
}

pub fn zeros(alloc: Global, count: usize) -> Result<Vec<i64>, Stop> {
    let mut zeros = Vec::new(alloc);
    for _ in 0..count {
        zeros.push(0)?;
    }
    Ok(zeros)
}
