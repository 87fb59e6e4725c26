//! The least gap between a cost and a bound that a search can be asked to close.
ghost use Rattle.std.specs.Prelude.{◌≡◌, ℕ, ◌+◌, ◌*◌, ◌^◌, ◌<◌, ◌≤◌, length};
ghost use Rattle.coord_model.specs.Choice.{Settings};
ghost use Rattle.coord_model.specs.declared.study.Term.{Term};
ghost use Rattle.margin_rows.specs.Case.{terms_in, term_at, FitsCase};
ghost use Rattle.margin_rows.specs.FirstBox.{IsInFirstBox, IsFirstSpan};
ghost use Rattle.margin_rows.specs.Gap.{IsGreatestWidth, IsWidthSum, IsLeastGap, last_dial, width_part};
ghost use Rattle.margin_rows.specs.Price.{cost_of, lower_cost_of};

use crate::dial::dial_at;
use crate::instance::Instance;
use crate::price::PICOSECONDS;

/// The least gap of a study, in whole weighted microseconds.
///
/// The cost of settings of the first box lies above the least that they can cost by at most this much. It is the
/// weighted sum of the widths of the enclosures, each at its widest and at the last dial, rounded up, and one more.
pub fn least_gap(inst: &Instance) -> u64
    ensures exact { IsLeastGap inst.now result }
    ensures only { (gap : ℕ) → IsLeastGap inst.now gap → gap ≡ result }
    ensures small { result ≤ 10 ^ 12 }
    ensures covers { (settings : Settings) → IsInFirstBox inst.now settings → cost_of inst.now settings ≤ lower_cost_of inst.now settings + result }
{
    width_sum(inst).div_ceil(PICOSECONDS) as u64 + 1
}

/// The sum over the terms of weight, last dial and greatest width, in weighted picoseconds.
fn width_sum(inst: &Instance) -> u128
    ensures exact { IsWidthSum inst.now result }
    ensures small { result ≤ 512 * 16500000000000000000 }
    ensures fits { FitsCase inst.now }
{
    let mut sum: u128 = 0;
    for term in 0..inst.terms().len() as u16 {
        sum += u128::from(weighted_width(inst, term));
    }
    sum
}

/// The greatest width of a term's enclosures at its weight and last dial, in weighted picoseconds.
fn weighted_width(inst: &Instance, term: u16) -> u64
    requires { term < length (terms_in inst.now) }

    ensures exact { let t : Term = term_at inst.now term in (width : ℕ) × IsGreatestWidth inst.now t.fault t.relay width × (result ≡ width_part inst.now t width) }
    ensures small { result ≤ 16500000000000000000 }
{
    let at = inst.term(term);
    inst.weight(at.fault) * last_dial(inst, at.relay) * greatest_width(inst, term)
}

/// The last dial of a relay, in thousandths.
fn last_dial(inst: &Instance, relay: u16) -> u64
    requires { relay < length inst.now.study.relays }

    ensures exact { result ≡ last_dial inst.now.study relay }
    ensures small { result ≤ 15000 }
{
    let count = inst.study().relays[usize::from(relay)].dial_count;
    dial_at(inst, relay, (count - 1) as u16)
}

/// The greatest width of the enclosures of a term's relay over its pickup steps in the first box, in nanoseconds.
fn greatest_width(inst: &Instance, term: u16) -> u64
    requires { term < length (terms_in inst.now) }

    ensures exact { let t : Term = term_at inst.now term in IsGreatestWidth inst.now t.fault t.relay result }
    ensures small { result < 2 ^ 40 }
{
    match inst.first_pickups(inst.term(term).relay) {
        Some((low, high)) => widest(inst, term, low, high),
        None => 0,
    }
}

/// The greatest width of the enclosures of a term's relay over its pickup steps from `low` to `high`.
fn widest(inst: &Instance, term: u16, low: u16, high: u16) -> u64
    requires term { term < length (terms_in inst.now) }
    requires span { IsFirstSpan inst.now (term_at inst.now term).relay low high }

    ensures exact { let t : Term = term_at inst.now term in IsGreatestWidth inst.now t.fault t.relay result }
    ensures small { result < 2 ^ 40 }
{
    let mut greatest = 0;
    for step in low..=high {
        let (lower, upper) = inst.term_time(term, step);
        greatest = greatest.max(upper - lower);
    }
    greatest
}
