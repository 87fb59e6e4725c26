//! Square systems of equations, by triangular factors with the largest pivot of a column.
use crate::fixed::{Stop, add_product, at, narrow, over, put, sub, times};

/// The most equations of a system.
pub const MOST: usize = 128;

/// The numbers of an equation, or of a solution; those past the system's size are 0.
pub type Line = [i64; MOST];

/// A pivot is larger than this, 2^-18.
const LEAST_PIVOT: i64 = 1 << 14;

/// The factors of a system: the multipliers below the diagonal, the upper factor on and above it, and which equation
/// stands in each line.
#[derive(Drop)]
pub struct Factors {
    lines: Vec<Line>,
    order: [usize; MOST],
}

/// The factors of a system of equations.
pub fn factored(lines: Vec<Line>) -> Result<Factors, Stop> {
    let mut order = [0; MOST];
    for (place, held) in order.iter_mut().enumerate() {
        *held = place;
    }
    let mut factors = Factors { lines, order };
    for column in 0..factors.lines.len() {
        factors.eliminate(column)?;
    }
    Ok(factors)
}

impl Factors {
    /// The solution of the system.
    pub fn solve(&self, right: &Line) -> Result<Line, Stop> {
        let forward = self.forward(right)?;
        self.backward(forward)
    }

    /// The solution of the system with rows and columns exchanged.
    pub fn solve_turned(&self, right: &Line) -> Result<Line, Stop> {
        let forward = self.forward_turned(right)?;
        let backward = self.backward_turned(forward)?;
        self.reordered(&backward)
    }

    /// Brings the largest pivot of a column up and takes its line from those below.
    fn eliminate(&mut self, column: usize) -> Result<(), Stop> {
        let largest = self.largest(column)?;
        if column >= self.lines.len() || largest >= self.lines.len() {
            return Err(Stop::Beyond);
        }
        self.lines.swap(column, largest);
        if column >= MOST || largest >= MOST {
            return Err(Stop::Beyond);
        }
        self.order.swap(column, largest);
        self.reduce(column)
    }

    /// The line, from the diagonal on, with the largest number of a column.
    fn largest(&self, column: usize) -> Result<usize, Stop> {
        let mut best = column;
        let mut most = LEAST_PIVOT as u64;
        let mut found = false;
        for (place, line) in self.lines.iter().enumerate() {
            if place >= column {
                let size = at(line, column)?.unsigned_abs();
                if size > most {
                    best = place;
                    most = size;
                    found = true;
                }
            }
        }
        if found { Ok(best) } else { Err(Stop::Beyond) }
    }

    /// Takes a line from those below.
    fn reduce(&mut self, column: usize) -> Result<(), Stop> {
        let size = self.lines.len();
        let Some(&pivot) = self.lines.get(column) else {
            return Err(Stop::Beyond);
        };
        for (place, line) in self.lines.iter_mut().enumerate() {
            if place > column {
                take(line, &pivot, column, size)?;
            }
        }
        Ok(())
    }

    fn line_at(&self, place: usize) -> Result<&Line, Stop> {
        self.lines.get(place).ok_or(Stop::Beyond)
    }

    fn forward(&self, right: &Line) -> Result<Line, Stop> {
        let mut found = [0; MOST];
        for (place, line) in self.lines.iter().enumerate() {
            let known = at(right, at(&self.order, place)?)?;
            let rest = sub(known, dot(line, &found, 0, place)?)?;
            put(&mut found, place, rest)?;
        }
        Ok(found)
    }

    fn backward(&self, mut found: Line) -> Result<Line, Stop> {
        let size = self.lines.len();
        for (place, line) in self.lines.iter().enumerate().rev() {
            let rest = sub(
                at(&found, place)?,
                dot(line, &found, place.saturating_add(1), size)?,
            )?;
            put(&mut found, place, over(rest, at(line, place)?)?)?;
        }
        Ok(found)
    }

    fn forward_turned(&self, right: &Line) -> Result<Line, Stop> {
        let mut found = *right;
        for place in 0..self.lines.len() {
            let line = self.line_at(place)?;
            let first = over(at(&found, place)?, at(line, place)?)?;
            put(&mut found, place, first)?;
            lessen(
                &mut found,
                line,
                first,
                place.saturating_add(1),
                self.lines.len(),
            )?;
        }
        Ok(found)
    }

    fn backward_turned(&self, mut found: Line) -> Result<Line, Stop> {
        for (place, line) in self.lines.iter().enumerate().rev() {
            let last = at(&found, place)?;
            lessen(&mut found, line, last, 0, place)?;
        }
        Ok(found)
    }

    /// The numbers at the equations that their lines came from.
    fn reordered(&self, found: &Line) -> Result<Line, Stop> {
        let mut placed = [0; MOST];
        for place in 0..self.lines.len() {
            put(&mut placed, at(&self.order, place)?, at(found, place)?)?;
        }
        Ok(placed)
    }
}

/// Takes as much of the pivot's line from a line as clears its column, and keeps the multiplier there.
fn take(line: &mut Line, pivot: &Line, column: usize, size: usize) -> Result<(), Stop> {
    let head = at(line, column)?;
    if head == 0 {
        return Ok(());
    }
    let share = over(head, at(pivot, column)?)?;
    put(line, column, share)?;
    lessen(line, pivot, share, column.saturating_add(1), size)
}

/// Takes a share of a line from another, from one place to before another.
fn lessen(line: &mut Line, other: &Line, share: i64, from: usize, past: usize) -> Result<(), Stop> {
    if share == 0 {
        return Ok(());
    }
    for place in from..past {
        let taken = at(other, place)?;
        if taken != 0 {
            let left = sub(at(line, place)?, times(share, taken)?)?;
            put(line, place, left)?;
        }
    }
    Ok(())
}

/// The sum of the products of two lines, from one place to before another.
fn dot(line: &Line, other: &Line, from: usize, past: usize) -> Result<i64, Stop> {
    let mut sum = 0;
    for place in from..past {
        sum = add_product(sum, at(line, place)?, at(other, place)?)?;
    }
    narrow(sum)
}
