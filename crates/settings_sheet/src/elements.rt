//! What stands on the lines of a settings sheet, one function for each kind of line.
//!
//! Each takes what is left of a text and answers what its first line says, with what follows it. `None`: the first
//! line isn't one of this kind.
ghost use Rattle.std.specs.Prelude.{◌≡◌, ◌≢◌, ℕ, List, ◌∷◌, ◌++◌, Option, codes, IfSome, IsNone};
ghost use Rattle.coord_text.specs.Claims.{BoundGoesWith, CostGoesWith, IsShort, amount, ending_word};
ghost use Rattle.coord_text.specs.Lines.{IsLine};

use coord_model::Ending;
use coord_text::{bound_goes_with, cost_goes_with, read_amount, split_line};

/// What follows the line of the format.
pub fn read_format(left: &[u8]) -> Option<&[u8]>
    ensures said { IfSome result (λ rest. left.now ≡ codes "coord-sheet 1" ++ 10 ∷ rest.now) }
    ensures no_such { IsNone result → (rest : List ℕ) → left.now ≢ codes "coord-sheet 1" ++ 10 ∷ rest }
{
    let (line, rest) = split_line(left)?;
    if line == b"coord-sheet 1".as_slice() {
        Some(rest)
    } else {
        None
    }
}

/// The ending, and what follows its line.
pub fn read_ending(left: &[u8]) -> Option<(Ending, &[u8])>
    ensures said { IfSome result (λ read. left.now ≡ (codes "ending " ++ ending_word read.0) ++ 10 ∷ read.1.now) }
    ensures no_such { IsNone result → (ending : Ending) (rest : List ℕ) → left.now ≢ (codes "ending " ++ ending_word ending) ++ 10 ∷ rest }
{
    let (word, rest) = read_labelled(left, b"ending ")?;
    Some((coord_text::read_ending(word)?, rest))
}

/// The cost in weighted microseconds, where it goes with the ending, and what follows its line.
pub fn read_cost(left: &[u8], ending: Ending) -> Option<(Option<u64>, &[u8])>
    ensures said { IfSome result (λ read. left.now ≡ (codes "cost " ++ amount read.0) ++ 10 ∷ read.1.now) }
    ensures short { IfSome result (λ read. IsShort read.0) }
    ensures goes { IfSome result (λ read. CostGoesWith ending read.0) }
    ensures no_such { IsNone result → (cost : Option ℕ) (rest : List ℕ) → IsShort cost → CostGoesWith ending cost
        → left.now ≢ (codes "cost " ++ amount cost) ++ 10 ∷ rest }
{
    let (word, rest) = read_labelled(left, b"cost ")?;
    let cost = read_amount(word)?;
    if cost_goes_with(ending, cost) {
        Some((cost, rest))
    } else {
        None
    }
}

/// The bound in weighted microseconds, where it goes with the ending, and what follows its line.
pub fn read_bound(left: &[u8], ending: Ending) -> Option<(Option<u64>, &[u8])>
    ensures said { IfSome result (λ read. left.now ≡ (codes "bound " ++ amount read.0) ++ 10 ∷ read.1.now) }
    ensures short { IfSome result (λ read. IsShort read.0) }
    ensures goes { IfSome result (λ read. BoundGoesWith ending read.0) }
    ensures no_such { IsNone result → (bound : Option ℕ) (rest : List ℕ) → IsShort bound → BoundGoesWith ending bound
        → left.now ≢ (codes "bound " ++ amount bound) ++ 10 ∷ rest }
{
    let (word, rest) = read_labelled(left, b"bound ")?;
    let bound = read_amount(word)?;
    if bound_goes_with(ending, bound) {
        Some((bound, rest))
    } else {
        None
    }
}

/// What follows the last line.
pub fn read_end(left: &[u8]) -> Option<&[u8]>
    ensures said { IfSome result (λ rest. left.now ≡ codes "end" ++ 10 ∷ rest.now) }
    ensures no_such { IsNone result → (rest : List ℕ) → left.now ≢ codes "end" ++ 10 ∷ rest }
{
    let (line, rest) = split_line(left)?;
    if line == b"end".as_slice() {
        Some(rest)
    } else {
        None
    }
}

/// The word behind the label that begins the first line.
fn read_labelled<'a>(left: &'a [u8], label: &[u8]) -> Option<(&'a [u8], &'a [u8])>
    ensures said { IfSome result (λ read. left.now ≡ (label.now ++ read.0.now) ++ 10 ∷ read.1.now) }
    ensures line { IfSome result (λ read. IsLine (label.now ++ read.0.now)) }
    ensures no_such { IsNone result → (word rest : List ℕ) → IsLine (label.now ++ word) → left.now ≢ (label.now ++ word) ++ 10 ∷ rest }
{
    let (line, rest) = split_line(left)?;
    Some((line.strip_prefix(label)?, rest))
}
