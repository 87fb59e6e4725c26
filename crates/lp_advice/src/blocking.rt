//! What stops a move of the weights: a weight that falls to 0, or a column that becomes as cheap as its relay's key.
use crate::basis::Basis;
use crate::factors::Line;
use crate::fixed::{Stop, add, at, over, put, sub};
use crate::programme::{Column, Local, Programme};
use crate::worst::MISSES;
use std::alloc::Global;

/// A rate is below 0 if it is below this, -2^-18.
const FALLS: i64 = -(1 << 14);

/// What stops a move, after how long, and how fast it comes.
#[derive(Clone, Copy)]
struct Block {
    by: Blocker,
    after: i64,
    rate: i64,
}

#[derive(Clone, Copy)]
pub enum Blocker {
    /// The weight of the active row at this place falls to 0.
    Row(usize),
    Column(Column),
}

/// The weights and how they move.
#[derive(Clone, Copy)]
pub struct Motion<'a> {
    pub weights: &'a [i64],
    pub moves: &'a [i64],
}

/// A column's reduced cost, and how it moves.
#[derive(Clone, Copy)]
struct Priced {
    cost: i64,
    moves: i64,
}

/// The earlier of two blocks, of those at once the one that comes faster.
fn earlier(a: Option<Block>, b: Option<Block>) -> Option<Block> {
    match (a, b) {
        (Some(a), Some(b)) => {
            if b.after < a.after || (b.after == a.after && b.rate < a.rate) {
                Some(b)
            } else {
                Some(a)
            }
        }
        (Some(a), None) => Some(a),
        (None, b) => b,
    }
}

/// The block at a number that falls at a rate, if it falls. One that comes too late for a number comes last.
fn falling(by: Blocker, number: i64, rate: i64) -> Result<Option<Block>, Stop> {
    if rate >= FALLS {
        return Ok(None);
    }
    let after = over(number.max(0), sub(0, rate)?).unwrap_or(i64::MAX);
    Ok(Some(Block { by, after, rate }))
}

/// The first active row whose weight falls to 0.
fn row_block(basis: &Basis, motion: Motion<'_>, active: &Line) -> Result<Option<Block>, Stop> {
    let mut first = None;
    for (place, &row) in basis.rows.iter().enumerate() {
        let rate = at(active, place)?;
        let block = falling(Blocker::Row(place), at(motion.weights, row)?, rate)?;
        first = earlier(first, block);
    }
    Ok(first)
}

/// The first column of a relay that becomes as cheap as its key.
fn column_block(
    local: Local<'_>,
    relay: usize,
    key: Column,
    motion: Motion<'_>,
) -> Result<Option<Block>, Stop> {
    if !local.is_touched(motion.moves)? {
        return Ok(None);
    }
    let held = price_of(local, motion, key)?;
    let mut first = None;
    for step in local.window.low..local.window.past {
        let block = step_block(local, relay, step, held, motion)?;
        first = earlier(first, block);
    }
    Ok(first)
}

/// The first column of a relay's step that becomes as cheap as the key.
fn step_block(
    local: Local<'_>,
    relay: usize,
    step: usize,
    key: Priced,
    motion: Motion<'_>,
) -> Result<Option<Block>, Stop> {
    let cost = local.reduced(step, motion.weights)?;
    let moves = local.taken(step, motion.moves)?.saturating_neg();
    let low = end_block(
        local,
        Column {
            relay,
            step,
            high: false,
        },
        cost,
        moves,
        key,
    )?;
    let high = end_block(
        local,
        Column {
            relay,
            step,
            high: true,
        },
        cost,
        moves,
        key,
    )?;
    Ok(earlier(low, high))
}

fn end_block(
    local: Local<'_>,
    column: Column,
    cost: i64,
    moves: i64,
    key: Priced,
) -> Result<Option<Block>, Stop> {
    let more = sub(local.at_dial(column.high, cost)?, key.cost)?;
    let rate = sub(local.at_dial(column.high, moves)?, key.moves)?;
    falling(Blocker::Column(column), more, rate)
}

/// The reduced cost of a column.
fn price_of(local: Local<'_>, motion: Motion<'_>, column: Column) -> Result<Priced, Stop> {
    let cost = local.reduced(column.step, motion.weights)?;
    let moves = local.taken(column.step, motion.moves)?.saturating_neg();
    Ok(Priced {
        cost: local.at_dial(column.high, cost)?,
        moves: local.at_dial(column.high, moves)?,
    })
}

/// The first columns of all relays that become as cheap as their keys.
fn column_blocks(
    programme: &Programme<'_>,
    basis: &Basis,
    motion: Motion<'_>,
) -> Result<Vec<Option<Block>>, Stop> {
    let mut blocks = Vec::new(programme.alloc);
    for relay in 0..programme.windows.len() {
        let local = programme.local(relay)?;
        blocks.push(column_block(local, relay, basis.key(relay)?, motion)?)?;
    }
    Ok(blocks)
}

/// The first of all blocks.
fn first_block(row: Option<Block>, columns: &[Option<Block>]) -> Option<Block> {
    let mut first = row;
    for &block in columns {
        first = earlier(first, block);
    }
    first
}

/// What stops a move. A relay without extra columns changes its key on the way, as long as the dual value still rises.
pub fn blocked(
    programme: &Programme<'_>,
    basis: &mut Basis,
    motion: Motion<'_>,
    active: &Line,
    missed: i64,
) -> Result<Option<Blocker>, Stop> {
    let row = row_block(basis, motion, active)?;
    let mut columns = column_blocks(programme, basis, motion)?;
    let mut slope = missed;
    for _ in 0..MOST_KEYS {
        let Some(first) = first_block(row, &columns) else {
            return Ok(None);
        };
        let Some(column) = passed(basis, first, slope)? else {
            return Ok(Some(first.by));
        };
        slope = add(slope, first.rate)?;
        put(&mut basis.keys, column.relay, column)?;
        let next = column_block(programme.local(column.relay)?, column.relay, column, motion)?;
        put(&mut columns, column.relay, next)?;
    }
    Err(Stop::Beyond)
}

/// The most keys that change in one move.
const MOST_KEYS: u32 = 4_096;

/// The column of a block that may be passed.
fn passed(basis: &Basis, block: Block, slope: i64) -> Result<Option<Column>, Stop> {
    let Blocker::Column(column) = block.by else {
        return Ok(None);
    };
    if basis.has_extra(column.relay) || add(slope, block.rate)? <= MISSES {
        return Ok(None);
    }
    Ok(Some(column))
}
