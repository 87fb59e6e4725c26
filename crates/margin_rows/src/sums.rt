//! The weighted times of each relay, summed over its terms.
ghost use Rattle.std.specs.Prelude.{◌≡◌, ℕ, ◌+◌, ◌*◌, ◌<◌, ◌≤◌, ◌^◌, [], length, slice_get, slice_index, Contains, IfOk, IsSomeAnd};
ghost use Rattle.margin_rows.specs.Case.{terms_in, FitsCase};
ghost use Rattle.margin_rows.specs.FirstBox.{IsFirstStep, IsFirstSpanOf};
ghost use Rattle.margin_rows.specs.Price.{term_part};
ghost use Rattle.margin_rows.specs.Tables.{HoldsRun, HoldsSums, HoldTermRuns};

use crate::ends::Ends;
use crate::given::Given;
use coord_model::limits::MOST_PLUGS;
use coord_model::{NoMemory, Term};
use std::alloc::Global;

/// The place of a relay's pickup step in the table of sums.
pub fn place(relay: u16, step: u16) -> usize
    ensures { result ≡ relay * 64 + step }
{
    usize::from(relay) * MOST_PLUGS as usize + usize::from(step)
}

/// The sums of the relays' weighted times over the terms, in nanoseconds at dial 1: a place for each pickup step.
pub fn term_sums(
    alloc: Global,
    given: &Given,
    terms: &[Term],
    spans: &[Option<(u16, u16)>],
    times: &[Ends],
    starts: &[usize],
) -> Result<Vec<u64>, NoMemory>
    requires fits { FitsCase given.now }
    requires terms { terms.now ≡ terms_in given.now }
    requires spans { (i : ℕ) → i < length given.now.study.relays → IsSomeAnd (slice_get spans.now i) (IsFirstSpanOf given.now i) }
    requires starts { HoldTermRuns given.now times.now starts.now }
    ensures { IfOk result (λ sums. HoldsSums given.now (terms_in given.now) sums.items) }
{
    let mut sums = vec![in alloc; 0; given.study().relays.len() * MOST_PLUGS as usize]?;
    add_terms(given, terms, spans, times, starts, sums.as_mut_slice());
    Ok(sums)
}

/// Adds the weighted times of each term.
fn add_terms(
    given: &Given,
    terms: &[Term],
    spans: &[Option<(u16, u16)>],
    times: &[Ends],
    starts: &[usize],
    sums: &mut [u64],
)
    requires fits { FitsCase given.now }
    requires terms { terms.now ≡ terms_in given.now }
    requires spans { (i : ℕ) → i < length given.now.study.relays → IsSomeAnd (slice_get spans.now i) (IsFirstSpanOf given.now i) }
    requires starts { HoldTermRuns given.now times.now starts.now }
    requires none_yet { HoldsSums given.now [] sums.old }
    ensures { HoldsSums given.now (terms_in given.now) sums.new }
{
    for (number, term) in terms.iter().enumerate() {
        let span = spans[usize::from(term.relay)];
        add_term(given, *term, span, times, starts[number], sums);
    }
}

/// Adds the weighted times of a term at each pickup step of the first box.
fn add_term(
    given: &Given,
    term: Term,
    span: Option<(u16, u16)>,
    times: &[Ends],
    start: usize,
    sums: &mut [u64],
)
    requires fits { FitsCase given.now }
    requires term { Contains (terms_in given.now) term }
    requires span { IsFirstSpanOf given.now term.relay span }
    requires run { HoldsRun given.now times.now term.fault term.relay start }
    requires size { length sums.old ≡ length given.now.study.relays * 64 }
    requires small { (step : ℕ) → IsFirstStep given.now term.relay step → slice_index sums.old (term.relay * 64 + step) ≤ 2 ^ 59 }
    ensures { (i step : ℕ) → IsFirstStep given.now i step → slice_index sums.new (i * 64 + step) ≡ slice_index sums.old (i * 64 + step) + term_part given.now i step term }
{
    let Some((low, high)) = span else {
        return;
    };
    for step in low..high + 1 {
        sums[place(term.relay, step)] += weighted_time(given, term, times, start, step);
    }
}

/// The weighted time of a term's relay at a pickup step.
fn weighted_time(given: &Given, term: Term, times: &[Ends], start: usize, step: u16) -> u64
    requires fits { FitsCase given.now }
    requires term { Contains (terms_in given.now) term }
    requires run { HoldsRun given.now times.now term.fault term.relay start }
    requires step { IsFirstStep given.now term.relay step }
    ensures exact { result ≡ term_part given.now term.relay step term }
    ensures small { result ≤ 2 ^ 50 }
{
    let lower = times[start + usize::from(step)].lower;
    given.weight(term.fault) * lower
}
