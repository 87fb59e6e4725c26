//! Numbers inside a line.
ghost use Rattle.std.specs.Prelude.{◌≡◌, ◌≢◌, ℕ, ◌≤◌, List, ◌∷◌, ◌++◌, length, not, IfSome, IsNone};
ghost use Rattle.std.specs.Char.{is_ascii_digit};
ghost use Rattle.std.specs.Fmt.{decimal};
ghost use Rattle.std.specs.List.{position_or_len};
ghost use Rattle.cert_text.specs.Numbers.{StopsDigits};

use coord_text::read_number;

/// The number that stands after the label, and what follows its digits.
pub fn cut_number<'a>(text: &'a [u8], label: &[u8], limit: u64) -> Option<(u64, &'a [u8])>
    ensures within { IfSome result (λ read. read.0 ≤ limit) }
    ensures stops { IfSome result (λ read. StopsDigits read.1.now) }
    ensures said { IfSome result (λ read. text.now ≡ label.now ++ (decimal read.0 ++ read.1.now)) }
    ensures no_such { IsNone result → (n : ℕ) (rest : List ℕ) → n ≤ limit → StopsDigits rest → text.now ≢ label.now ++ (decimal n ++ rest) }
{
    let text = text.strip_prefix(label)?;
    let (word, rest) = text.split_at(digits_len(text));
    Some((read_number(word, limit)?, rest))
}

/// The number that stands after the label, to the end of the line.
pub fn last_number(text: &[u8], label: &[u8], limit: u64) -> Option<u64>
    ensures within { IfSome result (λ n. n ≤ limit) }
    ensures said { IfSome result (λ n. text.now ≡ label.now ++ decimal n) }
    ensures no_such { IsNone result → (n : ℕ) → n ≤ limit → text.now ≢ label.now ++ decimal n }
{
    read_number(text.strip_prefix(label)?, limit)
}

/// The number that stands after the label, to the end of the line, if it is at least 1.
pub fn last_count(text: &[u8], label: &[u8], limit: u64) -> Option<u64>
    ensures some { IfSome result (λ n. 1 ≤ n) }
    ensures within { IfSome result (λ n. n ≤ limit) }
    ensures said { IfSome result (λ n. text.now ≡ label.now ++ decimal n) }
    ensures no_such { IsNone result → (n : ℕ) → 1 ≤ n → n ≤ limit → text.now ≢ label.now ++ decimal n }
{
    let n = last_number(text, label, limit)?;
    if n == 0 { None } else { Some(n) }
}

/// How many digits the text begins with.
fn digits_len(text: &[u8]) -> usize
    ensures exact { result ≡ position_or_len (λ b. not (is_ascii_digit b)) text.now }
    ensures within { result ≤ length text.now }
{
    text.iter()
        .position(|b| !b.is_ascii_digit())
        .unwrap_or(text.len())
}
