//! The lines of a text.
ghost use Rattle.std.specs.Prelude.{◌≡◌, ◌≢◌, ℕ, ◌≤◌, List, ◌∷◌, ◌++◌, length, drop, IfSome, IsNone};
ghost use Rattle.std.specs.List.{list_all};
ghost use Rattle.coord_text.specs.Lines.{EndsWithin, IsLine, is_printable, line_len, next_of};

use coord_model::limits::MOST_LINE_BYTES;

/// What stands at a place of a text, the first in this order that holds.
#[derive(Clone, Copy, PartialEq, Eq, Debug)]
pub enum NextLine {
    /// Nothing is left.
    End,
    /// More than 2,048 bytes stand before a line feed or the end.
    TooLong,
    /// No line feed follows.
    NoEnd,
    /// A byte of the line is above 126 or below 32.
    NotAscii,
    /// A line, up to the line feed at `to`.
    Line { to: usize },
}

/// What stands at `place`, an index into `bytes` or its length.
pub fn next_line(bytes: &[u8], place: usize) -> NextLine
    requires { place ≤ length bytes.now }
    ensures exact { result ≡ next_of (drop place bytes.now) place }
    ensures within { EndsWithin place (length bytes.now) result }
{
    let left = &bytes[place..];
    if left.is_empty() {
        return NextLine::End;
    }
    let len = line_len(left);
    if len > MOST_LINE_BYTES {
        return NextLine::TooLong;
    }
    if len == left.len() {
        return NextLine::NoEnd;
    }
    if !is_printable(&left[..len]) {
        return NextLine::NotAscii;
    }
    NextLine::Line { to: place + len }
}

/// The first line of what is left of a text, and what follows its line feed.
///
/// `None`: nothing is left, or what stands there is longer than 2,048 bytes, isn't printable ASCII or has no line
/// feed.
pub fn split_line(left: &[u8]) -> Option<(&[u8], &[u8])>
    ensures line { IfSome result (λ parts. IsLine parts.0.now × (left.now ≡ parts.0.now ++ 10 ∷ parts.1.now)) }
    ensures no_line { IsNone result → (line rest : List ℕ) → IsLine line → left.now ≢ line ++ 10 ∷ rest }
{
    match next_line(left, 0) {
        NextLine::Line { to } => Some((&left[..to], &left[to + 1..])),
        _ => None,
    }
}

/// How many bytes stand before a line feed or the end.
fn line_len(bytes: &[u8]) -> usize
    ensures exact { result ≡ line_len bytes.now }
    ensures within { result ≤ length bytes.now }
{
    bytes
        .iter()
        .position(|b| *b == b'\n')
        .unwrap_or(bytes.len())
}

/// Whether all bytes are printable ASCII.
fn is_printable(bytes: &[u8]) -> bool
    ensures { result ≡ list_all is_printable bytes.now }
{
    bytes.iter().all(|b| (b' '..=b'~').contains(b))
}

#[cfg(test)]
mod tests {
    use super::*;

    #[test]
    fn finds_the_lines(rt: HostRuntime) {
        let text = b"a b\n\n\tc\nd";
        for (place, line) in [
            (0, NextLine::Line { to: 3 }),
            (2, NextLine::Line { to: 3 }),
            (4, NextLine::Line { to: 4 }),
            (5, NextLine::NotAscii),
            (8, NextLine::NoEnd),
            (9, NextLine::End),
        ] {
            assert_eq!(rt; next_line(text, place), line, "at {place}");
        }
    }

    #[test]
    fn splits_a_line_off(rt: HostRuntime) {
        let (line, rest) = split_line(b"a b\n\nc").expect(&rt, "a line");
        assert_eq!(rt; line, b"a b".as_slice());
        assert_eq!(rt; rest, b"\nc".as_slice());
        for left in [b"".as_slice(), b"a", b"\ta\n"] {
            assert!(rt; split_line(left).is_none());
        }
    }

    #[test]
    fn refuses_more_than_2048_bytes(rt: HostRuntime) {
        let mut text = [b'x'; 2050];
        text[2049] = b'\n';
        assert_eq!(rt; next_line(&text, 0), NextLine::TooLong);
        assert_eq!(rt; next_line(&text, 1), NextLine::Line { to: 2049 });
    }
}
