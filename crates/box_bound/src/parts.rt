//! The least parts of a box's relays for the cost alone, kept from box to box.
ghost use Rattle.std.specs.Prelude.{◌≡◌, ◌<◌, length, IfOk, IsFalse};
ghost use Rattle.margin_rows.specs.Box.{FitsBox, HasNoEmptySpan};
ghost use Rattle.box_bound.specs.DualValue.{total};
ghost use Rattle.box_bound.specs.Standing.{AreSmall, HasSameSpans, StandFor};

use crate::bound::bound_of;
use crate::least::least_part;
use coord_model::NoMemory;
use margin_rows::{Instance, Ranges, Span};
use std::alloc::Global;
use std::marker::Model;

/// Each relay's least part in the dual value of a box at lambda 1 and without weights, in picoseconds.
///
/// A box that differs from another in a few relays has most of its parts, so they are carried on to it.
#[derive(Drop)]
pub struct Parts {
    leasts: Vec<i128>,
}

impl Model for Parts {
    ghost use Rattle.std.specs.Prelude.{List, ℤ};
    ghost use Rattle.box_bound.specs.Standing.{AreSmall};

    ghost Value = { List ℤ };

    ghost view = { λ a. a.leasts.items };

    ghost invariant = { λ a. AreSmall a.leasts.items };
}

impl Parts {
    ghost use Rattle.margin_rows.specs.Box.{Box};
    ghost use Rattle.margin_rows.specs.Case.{Case};
    ghost use Rattle.box_bound.specs.LowerBound.{IsPlainBound};
    ghost use Rattle.box_bound.specs.Standing.{StandFor};

    /// The parts of a box without an empty span.
    pub fn new(alloc: Global, inst: &Instance, ranges: &Ranges) -> Result<Parts, NoMemory>
        requires fits { FitsBox inst.now ranges.now }
        requires steps { HasNoEmptySpan ranges.now }
        ensures { IfOk result (λ parts. StandFor inst.now ranges.now parts) }
    {
        let mut leasts = Vec::new(alloc);
        for relay in 0..inst.study().relays.len() as u16 {
            leasts.push(least_part(inst, ranges, 1, &[], relay))?;
        }
        Ok(Parts { leasts })
    }

    /// Makes the parts of one box those of another, without an empty span either. It takes no memory.
    pub fn follow(&mut self, inst: &Instance, before: &Ranges, after: &Ranges)
        requires before { FitsBox inst.now before.now }
        requires fits { FitsBox inst.now after.now }
        requires steps { HasNoEmptySpan after.now }
        requires stand { StandFor inst.now before.now self.old }
        ensures { StandFor inst.now after.now self.new }
    {
        mend(inst, before, after, self.leasts.as_mut_slice());
    }

    /// Equal parts.
    pub fn copy(&self) -> Result<Parts, NoMemory>
        ensures { IfOk result (λ parts. parts ≡ self.now) }
    {
        Ok(Parts {
            leasts: self.leasts.clone()?,
        })
    }

    /// The plain bound of the box that the parts stand for, in whole weighted microseconds, rounded down.
    pub fn plain(&self) -> u64
        ensures { (case : Case) (box : Box) → StandFor case box self.now → IsPlainBound case box result }
    {
        bound_of(sum(&self.leasts), 1)
    }
}

/// Works out again the parts of the relays that have other spans.
fn mend(inst: &Instance, before: &Ranges, after: &Ranges, leasts: &mut [i128])
    requires before { FitsBox inst.now before.now }
    requires fits { FitsBox inst.now after.now }
    requires steps { HasNoEmptySpan after.now }
    requires stand { StandFor inst.now before.now leasts.old }
    requires small { AreSmall leasts.old }
    ensures stand { StandFor inst.now after.now leasts.new }
    ensures small { AreSmall leasts.new }
{
    for relay in 0..inst.study().relays.len() as u16 {
        if differs(before, after, relay) {
            leasts[usize::from(relay)] = least_part(inst, after, 1, &[], relay);
        }
    }
}

/// Whether a relay has other spans in one box than in the other.
fn differs(before: &Ranges, after: &Ranges, relay: u16) -> bool
    requires steps { HasNoEmptySpan after.now }
    requires before_pickups { relay < length before.now.pickup }
    requires before_dials { relay < length before.now.dial }
    requires pickups { relay < length after.now.pickup }
    requires dials { relay < length after.now.dial }
    ensures { IsFalse result → HasSameSpans before.now after.now relay }
{
    is_other(before.pickup(relay), after.pickup(relay))
        || is_other(before.dial(relay), after.dial(relay))
}

/// Whether two spans differ.
fn is_other(span: Span, other: Span) -> bool
    ensures { IsFalse result → span ≡ other }
{
    span.lo != other.lo || span.hi != other.hi
}

/// The sum of parts, in picoseconds.
fn sum(leasts: &[i128]) -> i128
    requires { AreSmall leasts.now }
    ensures { result ≡ total leasts.now }
{
    let mut sum = 0;
    for &least in leasts {
        sum += least;
    }
    sum
}
