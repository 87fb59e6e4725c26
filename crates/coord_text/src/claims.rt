//! The words of an ending, of a cost and of a bound, as sheets and certificates have them.
ghost use Rattle.std.specs.Prelude.{◌≡◌, ◌≢◌, ℕ, ◌+◌, ◌<◌, ◌≤◌, ◌++◌, Option, length, vec_len, vec_capacity, IfSome, IsNone, IsTrue, OnErr, OnOk};
ghost use Rattle.coord_text.specs.Claims.{amount, ending_word, BoundGoesWith, CostGoesWith, IsShort};

use crate::numbers::push_number;
use crate::words::read_number;
use coord_model::limits::GREATEST_COST;
use coord_model::{Ending, NoMemory};

/// The word for an ending.
pub fn ending_word(ending: Ending) -> &'static [u8]
    ensures { result.now ≡ ending_word ending }
{
    match ending {
        Ending::Closed => b"closed",
        Ending::NoSettings => b"no-settings",
        Ending::BudgetSpent => b"budget-spent",
        Ending::Hairline => b"hairline",
    }
}

/// The ending that the word names.
pub fn read_ending(word: &[u8]) -> Option<Ending>
    ensures named { IfSome result (λ ending. word.now ≡ ending_word ending) }
    ensures no_such { IsNone result → (ending : Ending) → word.now ≢ ending_word ending }
{
    if word == b"closed".as_slice() {
        return Some(Ending::Closed);
    }
    if word == b"no-settings".as_slice() {
        return Some(Ending::NoSettings);
    }
    if word == b"budget-spent".as_slice() {
        return Some(Ending::BudgetSpent);
    }
    if word == b"hairline".as_slice() {
        Some(Ending::Hairline)
    } else {
        None
    }
}

/// The number of at most 16 digits that the word spells, or `Some(None)` for `none`.
pub fn read_amount(word: &[u8]) -> Option<Option<u64>>
    ensures spelled { IfSome result (λ n. word.now ≡ amount n) }
    ensures short { IfSome result (λ n. IsShort n) }
    ensures no_such { IsNone result → (n : Option ℕ) → IsShort n → word.now ≢ amount n }
{
    if word == b"none".as_slice() {
        return Some(None);
    }
    let n = read_number(word, GREATEST_COST)?;
    Some(Some(n))
}

/// Whether the cost goes with the ending.
pub fn cost_goes_with(ending: Ending, cost: Option<u64>) -> bool
    ensures yes { IsTrue result → CostGoesWith ending cost }
    ensures no { CostGoesWith ending cost → IsTrue result }
{
    match ending {
        Ending::Closed => cost.is_some(),
        Ending::NoSettings => cost.is_none(),
        Ending::BudgetSpent | Ending::Hairline => true,
    }
}

/// Whether the bound goes with the ending.
pub fn bound_goes_with(ending: Ending, bound: Option<u64>) -> bool
    ensures yes { IsTrue result → BoundGoesWith ending bound }
    ensures no { BoundGoesWith ending bound → IsTrue result }
{
    match ending {
        Ending::NoSettings => bound.is_none(),
        Ending::Closed | Ending::BudgetSpent | Ending::Hairline => bound.is_some(),
    }
}

/// Adds a number in digits, or `none`. After `NoMemory` the text is as before. Takes no memory where there is room.
pub fn push_amount(out: &mut Vec<u8>, n: Option<u64>) -> Result<(), NoMemory>
    ensures added { OnOk result (out.new.items ≡ out.old.items ++ amount n) }
    ensures unchanged { OnErr result (out.new.items ≡ out.old.items) }
    ensures capacity { vec_capacity out.old ≤ vec_capacity out.new }
    ensures full { OnErr result (vec_capacity out.old < vec_len out.old + length (amount n)) }
{
    match n {
        Some(n) => push_number(out, n),
        None => Ok(out.extend_from_slice(b"none")?),
    }
}
