//! The lines of the nodes.
ghost use Rattle.std.specs.Prelude.{◌≡◌, ◌≢◌, ℕ, ◌-◌, ◌^◌, ◌≤◌, List, ◌∷◌, ◌++◌, codes, length, map, take, IfSome, IsNone, IsTrue};
ghost use Rattle.std.specs.Fmt.{decimal};
ghost use Rattle.std.specs.List.{All};
ghost use Rattle.std.specs.List.Sorted.{IsStrictlyIncreasing};
ghost use Rattle.coord_model.specs.declared.tree.NodeLine.{NodeLine};
ghost use Rattle.coord_model.specs.declared.weights.Weight.{Weight};
ghost use Rattle.cert_text.specs.Nodes.{AreWeights, IsNodeWith, pair_word, weight_words, words_with};
ghost use Rattle.cert_text.specs.Numbers.{StopsDigits};
ghost use Rattle.cert_text.specs.Pairs.{AreWithin};

use crate::numbers::{cut_number, last_number};
use coord_model::limits::{MOST_ROWS, MOST_WEIGHTS};
use coord_model::{NodeLine, Weight};

/// A word of two numbers after a space, and what follows it. The numbers are put where a weight has its row and its
/// weight.
pub fn cut_pair(text: &[u8], first: u16, second: u32) -> Option<(Weight, &[u8])>
    ensures within { IfSome result (λ read. (read.0.row ≤ first) × (read.0.weight ≤ second)) }
    ensures stops { IfSome result (λ read. StopsDigits read.1.now) }
    ensures said { IfSome result (λ read. text.now ≡ 32 ∷ (pair_word read.0.row read.0.weight ++ read.1.now)) }
    ensures no_such { IsNone result → (a b : ℕ) (rest : List ℕ) → a ≤ first → b ≤ second → StopsDigits rest
        → text.now ≢ 32 ∷ (pair_word a b ++ rest) }
{
    let (row, rest) = cut_number(text, b" ", u64::from(first))?;
    let (weight, rest) = cut_number(rest, b":", u64::from(second))?;
    let pair = Weight {
        row: row as u16,
        weight: weight as u32,
    };
    Some((pair, rest))
}

/// How many words of two numbers the text is, at most `few`, which are put into `pairs`.
pub fn read_pairs(
    text: &[u8],
    first: u16,
    second: u32,
    few: usize,
    pairs: &mut [Weight],
) -> Option<usize>
    requires room { few ≤ length pairs.now }
    ensures few { IfSome result (λ n. n ≤ few) }
    ensures within { IfSome result (λ n. AreWithin first second (take n pairs.new)) }
    ensures said { IfSome result (λ n. text.now ≡ weight_words (take n pairs.new)) }
    ensures no_such { IsNone result → (ws : List Weight) → length ws ≤ few → AreWithin first second ws → text.now ≢ weight_words ws }
    ensures length { length pairs.new ≡ length pairs.old }
{
    let mut left = text;
    for n in 0..few {
        if left.is_empty() {
            return Some(n);
        }
        let (pair, rest) = cut_pair(left, first, second)?;
        pairs[n] = pair;
        left = rest;
    }
    if left.is_empty() { Some(few) } else { None }
}

/// How many weights of a leaf the words of the text are.
pub fn read_weights(text: &[u8], weights: &mut [Weight]) -> Option<usize>
    requires room { 64 ≤ length weights.now }
    ensures few { IfSome result (λ n. n ≤ 64) }
    ensures is { IfSome result (λ n. AreWeights (take n weights.new)) }
    ensures said { IfSome result (λ n. text.now ≡ weight_words (take n weights.new)) }
    ensures no_such { IsNone result → (ws : List Weight) → AreWeights ws → text.now ≢ weight_words ws }
    ensures length { length weights.new ≡ length weights.old }
{
    let n = read_pairs(text, MOST_ROWS as u16 - 1, u32::MAX, MOST_WEIGHTS, weights)?;
    let read = &weights[..n];
    if !are_rising(read) {
        return None;
    }
    if !are_some(read) {
        return None;
    }
    Some(n)
}

/// Whether the rows rise.
fn are_rising(weights: &[Weight]) -> bool
    ensures yes { IsTrue result → IsStrictlyIncreasing (map (λ w. w.row) weights.now) }
    ensures no { IsStrictlyIncreasing (map (λ w. w.row) weights.now) → IsTrue result }
{
    for i in 1..weights.len() {
        if weights[i].row <= weights[i - 1].row {
            return false;
        }
    }
    true
}

/// Whether each weight is at least 1.
fn are_some(weights: &[Weight]) -> bool
    ensures yes { IsTrue result → All (λ w. 1 ≤ w.weight) weights.now }
    ensures no { All (λ w. 1 ≤ w.weight) weights.now → IsTrue result }
{
    for i in 0..weights.len() {
        if weights[i].weight == 0 {
            return false;
        }
    }
    true
}

/// The relay and the step of a split.
fn read_split(line: &[u8]) -> Option<(u16, u16)>
    ensures is { IfSome result (λ read. (read.0 ≤ 95) × (read.1 ≤ 63)) }
    ensures said { IfSome result (λ read. line.now ≡ codes "S " ++ (decimal read.0 ++ 32 ∷ decimal read.1)) }
    ensures no_such { IsNone result → (relay at : ℕ) → relay ≤ 95 → at ≤ 63 → line.now ≢ codes "S " ++ (decimal relay ++ 32 ∷ decimal at) }
{
    let (relay, rest) = cut_number(line, b"S ", 95)?;
    let at = last_number(rest, b" ", 63)?;
    Some((relay as u16, at as u16))
}

/// How many weights a leaf has that is shown void.
fn read_void(line: &[u8], weights: &mut [Weight]) -> Option<usize>
    requires room { 64 ≤ length weights.now }
    ensures few { IfSome result (λ n. (1 ≤ n) × (n ≤ 64)) }
    ensures is { IfSome result (λ n. AreWeights (take n weights.new)) }
    ensures said { IfSome result (λ n. line.now ≡ codes "V" ++ weight_words (take n weights.new)) }
    ensures no_such { IsNone result → (ws : List Weight) → 1 ≤ length ws → AreWeights ws → line.now ≢ codes "V" ++ weight_words ws }
    ensures length { length weights.new ≡ length weights.old }
{
    let n = read_weights(line.strip_prefix(b"V")?, weights)?;
    if n == 0 { None } else { Some(n) }
}

/// Lambda of a leaf with a bound, and how many weights it has.
fn read_weighing(line: &[u8], label: &[u8], weights: &mut [Weight]) -> Option<(u32, usize)>
    requires room { 64 ≤ length weights.now }
    ensures few { IfSome result (λ read. read.1 ≤ 64) }
    ensures some { IfSome result (λ read. (1 ≤ read.0) × (read.0 ≤ 2 ^ 32 - 1)) }
    ensures is { IfSome result (λ read. AreWeights (take read.1 weights.new)) }
    ensures said { IfSome result (λ read. line.now ≡ label.now ++ (decimal read.0 ++ weight_words (take read.1 weights.new))) }
    ensures no_such { IsNone result → (lambda : ℕ) (ws : List Weight) → 1 ≤ lambda → lambda ≤ 2 ^ 32 - 1 → AreWeights ws
        → line.now ≢ label.now ++ (decimal lambda ++ weight_words ws) }
    ensures length { length weights.new ≡ length weights.old }
{
    let (lambda, rest) = cut_number(line, label, u64::from(u32::MAX))?;
    if lambda == 0 {
        return None;
    }
    let n = read_weights(rest, weights)?;
    Some((lambda as u32, n))
}

/// The node of the line, if it has weights, and how many.
fn read_leaf(line: &[u8], weights: &mut [Weight]) -> Option<(NodeLine, usize)>
    requires room { 64 ≤ length weights.now }
    ensures few { IfSome result (λ read. read.1 ≤ 64) }
    ensures is { IfSome result (λ read. IsNodeWith read.0 (take read.1 weights.new)) }
    ensures said { IfSome result (λ read. line.now ≡ words_with read.0 (take read.1 weights.new)) }
    ensures no_void { IsNone result → (ws : List Weight) → 1 ≤ length ws → AreWeights ws → line.now ≢ codes "V" ++ weight_words ws }
    ensures no_bound { IsNone result → (lambda : ℕ) (ws : List Weight) → 1 ≤ lambda → lambda ≤ 2 ^ 32 - 1 → AreWeights ws
        → line.now ≢ codes "B " ++ (decimal lambda ++ weight_words ws) }
    ensures no_open { IsNone result → (lambda : ℕ) (ws : List Weight) → 1 ≤ lambda → lambda ≤ 2 ^ 32 - 1 → AreWeights ws
        → line.now ≢ codes "O " ++ (decimal lambda ++ weight_words ws) }
    ensures length { length weights.new ≡ length weights.old }
{
    if let Some(n) = read_void(line, weights) {
        return Some((NodeLine::Void, n));
    }
    if let Some((lambda, n)) = read_weighing(line, b"B ", weights) {
        return Some((NodeLine::Bound { lambda }, n));
    }
    let (lambda, n) = read_weighing(line, b"O ", weights)?;
    Some((NodeLine::OpenLeaf { lambda }, n))
}

/// The node of the line, and how many weights it has, which are put into `weights`.
pub fn read_node(line: &[u8], weights: &mut [Weight]) -> Option<(NodeLine, usize)>
    requires room { 64 ≤ length weights.now }
    ensures few { IfSome result (λ read. read.1 ≤ 64) }
    ensures is { IfSome result (λ read. IsNodeWith read.0 (take read.1 weights.new)) }
    ensures said { IfSome result (λ read. line.now ≡ words_with read.0 (take read.1 weights.new)) }
    ensures no_such { IsNone result → (node : NodeLine) (ws : List Weight) → IsNodeWith node ws → line.now ≢ words_with node ws }
    ensures length { length weights.new ≡ length weights.old }
{
    if line == b"E".as_slice() {
        return Some((NodeLine::Empty, 0));
    }
    if let Some((relay, at)) = read_split(line) {
        return Some((NodeLine::Split { relay, at }, 0));
    }
    if let Some(row) = last_number(line, b"H ", 4095) {
        return Some((NodeLine::Hair { row: row as u16 }, 0));
    }
    read_leaf(line, weights)
}
