//! Boxes: for each relay a span of pickup steps and a span of dial steps.
ghost use Rattle.std.specs.Prelude.{◌≡◌, ℕ, ◌<◌, ◌≤◌, ◌↔◌, length, map, slice_get, IfOk, IfSome, IsTrue, IsFalse, IsSomeAnd};
ghost use Rattle.coord_model.specs.Choice.{choice_data};
ghost use Rattle.margin_rows.specs.Box.{IsShownAs, IsIn, IsEmpty, AreIn, IsDialStep, LiesIn, FitsBox, IsFirstBox, no_steps};
ghost use Rattle.margin_rows.specs.Case.{Case, FitsCase};
ghost use Rattle.margin_rows.specs.FirstBox.{IsFirstStep};
ghost use Rattle.margin_rows.specs.Halves.{CanSplit, AreHalves, ShareOut, IsHalf};
ghost use Rattle.margin_rows.specs.Least.{AreFirstPickups};
ghost use Rattle.margin_rows.specs.Lowest.{HaveOneStep};

use crate::instance::Instance;
use crate::span::{Span, Steps, halves, shown};
use coord_model::{Choice, NoMemory};
use std::alloc::Global;
use std::marker::Model;

/// A box: for each relay a span of pickup steps and a span of dial steps.
#[derive(Drop)]
pub struct Ranges {
    pickup: Vec<Steps>,
    dial: Vec<Steps>,
}

impl Model for Ranges {
    ghost use Rattle.margin_rows.specs.Box.{Box};

    ghost Value = { Box };

    ghost view = { λ a. record { pickup = a.pickup.items; dial = a.dial.items } };
}

impl Ranges {
    ghost use Rattle.margin_rows.specs.Box.{Box, HasEmptySpan, HasNoEmptySpan, IsShownAs, LiesIn, IsFirstBox};
    ghost use Rattle.margin_rows.specs.Lowest.{HasOnePickup, lowest_of};
    ghost use Rattle.margin_rows.specs.Within.{IsSpanWithin, IsWithin, span_of, with_pickup, with_dial};

    /// The first box: each pickup step that senses the currents that count and clears the load, and each dial step.
    pub fn first(alloc: Global, inst: &Instance) -> Result<Ranges, NoMemory>
        ensures exact { IfOk result (IsFirstBox inst.now) }

        // There is only one first box.
        ensures only { IfOk result (λ ranges. (other : Box) → IsFirstBox inst.now other → other ≡ ranges) }
        ensures fits { IfOk result (FitsBox inst.now) }
        ensures study { IfOk result (λ _. FitsCase inst.now) }
    {
        Ok(Ranges {
            pickup: first_pickups(alloc, inst)?,
            dial: first_dials(alloc, inst)?,
        })
    }

    /// How many relays have a span of pickup steps.
    pub fn relays(&self) -> usize
        ensures { result ≡ length self.now.pickup }
    {
        self.pickup.len()
    }

    /// The span of a relay's pickup steps.
    pub fn pickup(&self, relay: u16) -> Span
        requires { relay < length self.now.pickup }
        ensures { IsSomeAnd (slice_get self.now.pickup relay) (λ span. IsShownAs span result) }
    {
        shown(self.pickup[usize::from(relay)])
    }

    /// The span of a relay's dial steps.
    pub fn dial(&self, relay: u16) -> Span
        requires { relay < length self.now.dial }
        ensures { IsSomeAnd (slice_get self.now.dial relay) (λ span. IsShownAs span result) }
    {
        shown(self.dial[usize::from(relay)])
    }

    /// Leaves a relay the pickup steps from `low` up to, but not including, `past`.
    pub fn set_pickup(&mut self, relay: u16, low: u16, past: u16)
        requires { relay < length self.old.pickup }
        ensures exact { self.new ≡ with_pickup self.old relay (record { low = low; past = past }) }

        // A narrower span leaves a box within what it was.
        ensures within { IsSpanWithin (record { low = low; past = past }) (span_of self.old.pickup relay) → IsWithin self.new self.old }
    {
        self.pickup[usize::from(relay)] = Steps { low, past };
    }

    /// Leaves a relay the dial steps from `low` up to, but not including, `past`.
    pub fn set_dial(&mut self, relay: u16, low: u16, past: u16)
        requires { relay < length self.old.dial }
        ensures exact { self.new ≡ with_dial self.old relay (record { low = low; past = past }) }

        // A narrower span leaves a box within what it was.
        ensures within { IsSpanWithin (record { low = low; past = past }) (span_of self.old.dial relay) → IsWithin self.new self.old }
    {
        self.dial[usize::from(relay)] = Steps { low, past };
    }

    /// Whether a choice lies in the box.
    pub fn holds(&self, choice: &Choice) -> bool
        ensures { IsTrue result ↔ LiesIn self.now (choice_data choice.now) }
    {
        all_in(&self.pickup, &choice.pickup) && all_in(&self.dial, &choice.dial)
    }

    /// Whether pickups are one for each relay, and each in its span.
    pub fn holds_pickups(&self, pickups: &[u16]) -> bool
        ensures exact { IsTrue result ↔ AreIn self.now.pickup pickups.now }
        ensures first { IsTrue result → (case : Case) → FitsBox case self.now → AreFirstPickups case pickups.now }
    {
        all_in(&self.pickup, pickups)
    }

    /// Whether some span has no step.
    pub fn has_empty_span(&self) -> bool
        ensures empty { IsTrue result → HasEmptySpan self.now }
        ensures steps { IsFalse result → HasNoEmptySpan self.now }
    {
        lack_step(&self.pickup) || lack_step(&self.dial)
    }

    /// Whether each pickup span has one step.
    pub fn has_one_pickup(&self) -> bool
        ensures { IsTrue result ↔ HasOnePickup self.now }
    {
        have_one_step(&self.pickup)
    }

    /// The choice of the lowest step of each span.
    pub fn lowest(&self) -> Result<Choice, NoMemory>
        ensures exact { IfOk result (λ choice. choice_data choice ≡ lowest_of self.now) }
        ensures lies { IfOk result (λ choice. HasNoEmptySpan self.now → LiesIn self.now (choice_data choice)) }
    {
        Ok(Choice {
            pickup: lows(&self.pickup)?,
            dial: lows(&self.dial)?,
        })
    }

    /// An equal box.
    pub fn copy(&self) -> Result<Ranges, NoMemory>
        ensures { IfOk result (λ ranges. ranges ≡ self.now) }
    {
        Ok(Ranges {
            pickup: self.pickup.clone()?,
            dial: self.dial.clone()?,
        })
    }

    /// Whether the box can be split at a pickup step of a relay: its span has the step and the next one.
    pub fn can_split(&self, relay: u16, at: u16) -> bool
        requires { relay < length self.now.pickup }
        ensures { IsTrue result ↔ CanSplit self.now relay at }
    {
        let span = self.pickup(relay);
        span.lo <= at && at < span.hi
    }

    /// The two halves of the box, cut between a pickup step of a relay and the next one.
    ///
    /// The first has the relay's pickup steps up to `at`, the second those above it.
    pub fn split(&self, relay: u16, at: u16) -> Result<(Ranges, Ranges), NoMemory>
        requires relay { relay < length self.now.pickup }
        requires at { CanSplit self.now relay at }

        ensures exact { IfOk result (λ halves. AreHalves self.now relay at halves.0 halves.1) }
        ensures shared { IfOk result (λ halves. ShareOut self.now halves.0 halves.1) }
        ensures low { IfOk result (λ halves. IsHalf halves.0 self.now) }
        ensures high { IfOk result (λ halves. IsHalf halves.1 self.now) }
    {
        let mut low = self.copy()?;
        let mut high = self.copy()?;
        low.cut(relay, at, &mut high);
        Ok((low, high))
    }

    /// Cuts the box between a pickup step of a relay and the next one: it becomes the low half, `high` the high half.
    ///
    /// What `high` was before doesn't count, but for its number of relays. It takes no memory.
    pub fn cut(&mut self, relay: u16, at: u16, high: &mut Ranges)
        requires relay { relay < length self.old.pickup }
        requires at { CanSplit self.old relay at }
        requires pickups { length high.old.pickup ≡ length self.old.pickup }
        requires dials { length high.old.dial ≡ length self.old.dial }

        ensures exact { AreHalves self.old relay at self.new high.new }
        ensures shared { ShareOut self.old self.new high.new }
        ensures low { IsHalf self.new self.old }
        ensures high { IsHalf high.new self.old }
    {
        let (lower, upper) = halves(self.pickup[usize::from(relay)], at);
        high.pickup.copy_from_slice(&self.pickup);
        high.dial.copy_from_slice(&self.dial);
        self.set_pickup(relay, lower.low, lower.past);
        high.set_pickup(relay, upper.low, upper.past);
    }
}

/// The lowest step of each span.
fn lows(spans: &Vec<Steps>) -> Result<Vec<u16>, NoMemory>
    ensures { IfOk result (λ steps. steps.items ≡ map (λ span. span.low) spans.now.items) }
{
    let mut steps = Vec::new(*spans.allocator());
    for span in spans {
        steps.push(span.low)?;
    }
    Ok(steps)
}

/// Whether there is a step for each span, and lies in it.
fn all_in(spans: &[Steps], steps: &[u16]) -> bool
    ensures { IsTrue result ↔ AreIn spans.now steps.now }
{
    steps.len() == spans.len()
        && spans
            .iter()
            .zip(steps)
            .all(|(span, step)| span.low <= *step && *step < span.past)
}

/// Whether one of the spans has no step.
fn lack_step(spans: &[Steps]) -> bool
    ensures empty { IsTrue result → (i : ℕ) × IsSomeAnd (slice_get spans.now i) IsEmpty }
    ensures steps { IsFalse result → (i : ℕ) → IfSome (slice_get spans.now i) (λ span. span.low < span.past) }
{
    spans.iter().any(|span| span.past <= span.low)
}

/// Whether each span has one step.
fn have_one_step(spans: &[Steps]) -> bool
    ensures { IsTrue result ↔ HaveOneStep spans.now }
{
    spans
        .iter()
        .all(|span| span.low < span.past && span.past - span.low == 1)
}

/// The pickup spans of the first box.
fn first_pickups(alloc: Global, inst: &Instance) -> Result<Vec<Steps>, NoMemory>
    ensures study { IfOk result (λ _. FitsCase inst.now) }
    ensures count { IfOk result (λ spans. length spans.items ≡ length inst.now.study.relays) }
    ensures each { IfOk result (λ spans. (i step : ℕ) → IfSome (slice_get spans.items i) (λ span. IsIn span step ↔ IsFirstStep inst.now i step)) }
    ensures none { IfOk result (λ spans. (i : ℕ) → IfSome (slice_get spans.items i) (λ span. IsEmpty span → span ≡ no_steps)) }
{
    let relays = inst.study().relays.len() as u16;
    let mut spans = Vec::new(alloc);
    for relay in 0..relays {
        spans.push(first_steps(inst, relay))?;
    }
    Ok(spans)
}

/// The pickup steps of a relay in the first box.
fn first_steps(inst: &Instance, relay: u16) -> Steps
    requires fits { FitsCase inst.now }
    requires relay { relay < length inst.now.study.relays }
    ensures exact { (step : ℕ) → IsIn result step ↔ IsFirstStep inst.now relay step }
    ensures none { IsEmpty result → result ≡ no_steps }
{
    match inst.first_pickups(relay) {
        Some((low, high)) => Steps {
            low,
            past: high + 1,
        },
        None => Steps { low: 0, past: 0 },
    }
}

/// The dial spans of the first box.
fn first_dials(alloc: Global, inst: &Instance) -> Result<Vec<Steps>, NoMemory>
    ensures count { IfOk result (λ spans. length spans.items ≡ length inst.now.study.relays) }
    ensures each { IfOk result (λ spans. (i step : ℕ) → IfSome (slice_get spans.items i) (λ span. IsIn span step ↔ IsDialStep inst.now i step)) }
    ensures none { IfOk result (λ spans. (i : ℕ) → IfSome (slice_get spans.items i) (λ span. IsEmpty span → span ≡ no_steps)) }
{
    let mut spans = Vec::new(alloc);
    for relay in inst.study().relays.as_slice() {
        spans.push(Steps {
            low: 0,
            past: relay.dial_count as u16,
        })?;
    }
    Ok(spans)
}
