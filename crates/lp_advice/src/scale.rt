//! How times and costs become fixed-point numbers.
ghost use Rattle.std.specs.Prelude.{IsTrue};
ghost use Rattle.margin_rows.specs.FirstBox.{IsFirstStep};

use crate::fixed::{ONE, Stop, fit};
use coord_model::RowKind;
use margin_rows::Instance;

/// What a row asks of a relay: to be slow, or to be fast.
#[derive(Clone, Copy)]
pub enum Role {
    Slow,
    Fast,
}

/// By which powers of two times and costs are divided: near the largest constant of a row that asks a relay to be slow,
/// and near the largest sum of weights of a relay more. So the numbers of rows and columns are near 1.
#[derive(Clone, Copy)]
pub struct Scale {
    time_places: u32,
    cost_places: u32,
}

/// The places after the binary point of a time at dial 1; 14 go with the dial.
const TIME_ONE: i128 = 1 << 46;

/// The places after the binary point of what a row asks for.
const CONSTANT_ONE: i128 = 1 << 32;

/// The picoseconds of a microsecond.
const MICROSECOND: i128 = 1_000_000;

/// The picoseconds of a millisecond, the least that a row asks for.
const MILLISECOND: u64 = 1_000_000_000;

impl Scale {
    /// The scale of a study.
    pub fn of(inst: &Instance) -> Scale {
        Scale {
            time_places: bits(largest_constant(inst)),
            cost_places: bits(largest_weight(inst)),
        }
    }

    /// The weight of the cost that goes with weights of rows.
    pub fn cost_weight(&self) -> i64 {
        if self.cost_places < 32 {
            ONE >> self.cost_places
        } else {
            0
        }
    }

    /// A cost of whole weighted microseconds.
    pub fn price(&self, cost: u64) -> Result<i64, Stop> {
        let picoseconds = i128::from(cost).checked_mul(MICROSECOND);
        match picoseconds {
            Some(picoseconds) => self.shrunk(picoseconds, CONSTANT_ONE),
            None => Err(Stop::Beyond),
        }
    }

    /// What a row asks for.
    pub fn constant(&self, inst: &Instance, row: u16) -> Result<i64, Stop> {
        if usize::from(row) >= inst.rows().len() {
            return Err(Stop::Beyond);
        }
        let constant = inst.row_constant(row);
        fit((i128::from(constant) * CONSTANT_ONE) >> self.time_places.min(127))
    }

    /// The cost of a relay at a step, at dial 1.
    pub fn cost(&self, inst: &Instance, relay: u16, step: u16) -> Result<i64, Stop> {
        if !is_first(inst, relay, step) {
            return Err(Stop::Beyond);
        }
        self.shrunk(i128::from(inst.term_sum(relay, step)), TIME_ONE)
    }

    /// A cost in fixed point.
    fn shrunk(&self, cost: i128, one: i128) -> Result<i64, Stop> {
        let places = self.time_places.saturating_add(self.cost_places).min(127);
        match cost.checked_mul(one) {
            Some(wide) => fit(wide >> places),
            None => Err(Stop::Beyond),
        }
    }

    /// The time of a row's relay with a role; below 0 if that is to be fast.
    pub fn time(&self, inst: &Instance, row: u16, role: Role, step: u16) -> Result<i64, Stop> {
        match role {
            Role::Slow => self.slow(inst, row, step),
            Role::Fast => self.fast(inst, row, step),
        }
    }

    /// The time of a row's slow relay.
    fn slow(&self, inst: &Instance, row: u16, step: u16) -> Result<i64, Stop> {
        if usize::from(row) >= inst.rows().len() || !is_first(inst, inst.row(row).backup, step) {
            return Err(Stop::Beyond);
        }
        let time = inst.backup_time(row, step).upper;
        fit((i128::from(time) * TIME_ONE) >> self.time_places.min(127))
    }

    /// The time of a row's fast relay, below 0.
    fn fast(&self, inst: &Instance, row: u16, step: u16) -> Result<i64, Stop> {
        if usize::from(row) >= inst.rows().len() || !is_first(inst, inst.row(row).primary, step) {
            return Err(Stop::Beyond);
        }
        let time = inst.primary_time(row, step).lower;
        fit((i128::from(time) * -TIME_ONE) >> self.time_places.min(127))
    }
}

/// Whether a step is one of the first box.
fn is_first(inst: &Instance, relay: u16, step: u16) -> bool
    ensures { IsTrue result → IsFirstStep inst.now relay step }
{
    if usize::from(relay) >= inst.study().relays.len() {
        return false;
    }
    match inst.first_pickups(relay) {
        Some((low, high)) => low <= step && step <= high,
        None => false,
    }
}

/// The largest constant of a row that asks a relay to be slow, or a millisecond if there are none.
///
/// A greatest time that binds no relay may be far larger, and by its scale the intervals would lose their digits.
fn largest_constant(inst: &Instance) -> u64 {
    let mut most = MILLISECOND;
    for row in 0..inst.rows().len() as u16 {
        if inst.row(row).kind != RowKind::Most {
            most = most.max(inst.row_constant(row).unsigned_abs());
        }
    }
    most
}

fn largest_weight(inst: &Instance) -> u64 {
    let mut most = 1;
    for relay in 0..inst.study().relays.len() as u16 {
        most = most.max(weight_of(inst, relay));
    }
    most
}

/// The sum of the weights of a relay's terms.
fn weight_of(inst: &Instance, relay: u16) -> u64 {
    let mut sum: u64 = 0;
    for term in inst.terms() {
        if term.relay == relay {
            if let Some(fault) = inst.study().faults.get(usize::from(term.fault)) {
                sum = sum.saturating_add(u64::from(fault.weight));
            }
        }
    }
    sum
}

/// The bits of a number.
fn bits(number: u64) -> u32 {
    64u32.saturating_sub(number.leading_zeros())
}
