//! Numbers that stand as words of a text.
ghost use Rattle.std.specs.Prelude.{◌≡◌, ◌≢◌, ℕ, ◌+◌, ◌*◌, ◌/◌, ◌^◌, ◌<◌, ◌≤◌, length, IfSome, IsNone};
ghost use Rattle.std.specs.Fmt.{decimal};
ghost use Rattle.coord_text.specs.Numbers.{fixed, low_digits};

use itoa::Buffer;

/// What stands before the places of a fixed-point number.
const POINT: u8 = b'.';

/// The number that the word spells in digits, without a sign or a leading zero.
///
/// `None`: the word spells no such number, or one above `limit`.
pub fn read_number(word: &[u8], limit: u64) -> Option<u64>
    ensures spelled { IfSome result (λ n. (n ≤ limit) × (word.now ≡ decimal n)) }
    ensures no_such { IsNone result → (n : ℕ) → n ≤ limit → word.now ≢ decimal n }
{
    let n = spelled_number(word)?;
    if n <= limit { Some(n) } else { None }
}

/// The number that the word spells, whatever its size. `None`: it spells none.
fn spelled_number(word: &[u8]) -> Option<u64>
    ensures spelled { IfSome result (λ n. word.now ≡ decimal n) }
    ensures no_such { IsNone result → (n : ℕ) → n < 2 ^ 64 → word.now ≢ decimal n }
{
    match std::str::from_utf8(word) {
        Ok(text) => number_in(text),
        Err(_) => None,
    }
}

/// The number that the text spells, whatever its size. `None`: it spells none.
fn number_in(text: &str) -> Option<u64>
    ensures spelled { IfSome result (λ n. text.now ≡ decimal n) }
    ensures no_such { IsNone result → (n : ℕ) → n < 2 ^ 64 → text.now ≢ decimal n }
{
    match text.parse::<u64>() {
        Ok(n) if Buffer::new().format(n) == text => Some(n),
        _ => None,
    }
}

/// The number that the word spells with a point before its last `places` digits, without the point.
///
/// `None`: the word spells no such number, or one above `limit`.
pub fn read_fixed(word: &[u8], places: u32, limit: u64) -> Option<u64>
    requires at_least_one { 1 ≤ places }
    requires at_most_six { places ≤ 6 }
    ensures spelled { IfSome result (λ n. (n ≤ limit) × (word.now ≡ fixed places n)) }
    ensures no_such { IsNone result → (n : ℕ) → n ≤ limit → word.now ≢ fixed places n }
{
    let point = word.len().checked_sub(places as usize + 1)?;
    if word[point] != POINT {
        return None;
    }
    let whole = read_number(&word[..point], limit)?;
    let (_, digits) = word.split_at(point + 1);
    let n = with_digits(whole, digits)?;
    if n <= u128::from(limit) {
        Some(n as u64)
    } else {
        None
    }
}

/// The number that has these digits behind those of `front`. `None`: they are not all digits.
fn with_digits(front: u64, digits: &[u8]) -> Option<u128>
    requires { length digits.now ≤ 6 }
    ensures spelled { IfSome result (λ n. (n / 10 ^ length digits.now ≡ front) × (digits.now ≡ low_digits (length digits.now) n)) }
    ensures no_such { IsNone result → (n : ℕ) → digits.now ≢ low_digits (length digits.now) n }
{
    let mut n = u128::from(front);
    for digit in digits {
        if !digit.is_ascii_digit() {
            return None;
        }
        n = n * 10 + u128::from(*digit - b'0');
    }
    Some(n)
}

#[cfg(test)]
mod tests {
    use super::*;

    #[test]
    fn reads_numbers(rt: HostRuntime) {
        let most = u64::MAX;
        for (word, limit, n) in [
            (b"0".as_slice(), 0, Some(0)),
            (b"00", most, None),
            (b"01", most, None),
            (b"", most, None),
            (b"+1", most, None),
            (b"-1", most, None),
            (b"1 ", most, None),
            (
                b"18446744073709551615",
                most,
                Some(18_446_744_073_709_551_615),
            ),
            (b"18446744073709551616", most, None),
            (b"200000", 200_000, Some(200_000)),
            (b"200001", 200_000, None),
        ] {
            assert_eq!(rt; read_number(word, limit), n);
        }
    }

    #[test]
    fn reads_fixed_point_numbers(rt: HostRuntime) {
        for (word, places, limit, n) in [
            (b"0.250".as_slice(), 3, 15_000, Some(250)),
            (b"15.000", 3, 15_000, Some(15_000)),
            (b"15.001", 3, 15_000, None),
            (b"0.60", 2, 10_000, Some(60)),
            (b"0.000001", 6, 1, Some(1)),
            (b".250", 3, 15_000, None),
            (b"0.25", 3, 15_000, None),
            (b"00.250", 3, 15_000, None),
            (b"+1.250", 3, 15_000, None),
            (b"1.+50", 3, 15_000, None),
            (b"0,250", 3, 15_000, None),
            (b"1.", 1, 15_000, None),
            (b".", 1, 15_000, None),
            (b"", 1, 15_000, None),
            (
                b"18446744073709.551615",
                6,
                u64::MAX,
                Some(18_446_744_073_709_551_615),
            ),
            (b"18446744073709.551616", 6, u64::MAX, None),
        ] {
            assert_eq!(rt; read_fixed(word, places, limit), n);
        }
    }
}
