//! The numbers among the words.
ghost use Rattle.std.specs.Prelude.{◌≡◌, ◌≤◌, IfSome};
ghost use Rattle.coord_words.specs.Names.{texts, texts_kept};
ghost use Rattle.coord_words.specs.OptionNumbers.{number_within, option_number};

use coord_text::read_number;

/// The number of an option from 1 to `most`, by the words that were kept for it; without a word none is given.
///
/// `None`: there are several words, the command doesn't take the option, or the word spells no such number.
pub fn option_number(takes: bool, most: u64, words: Option<&[&str]>) -> Option<Option<u64>>
    ensures exact { result ≡ option_number takes most (texts_kept words.entry) }
    ensures within { IfSome result (λ number. IfSome number (λ n. (1 ≤ n) × (n ≤ most))) }
{
    match words {
        Some(words) => listed_number(takes, most, words),
        None => Some(None),
    }
}

/// The same, by the words in a list.
fn listed_number(takes: bool, most: u64, words: &[&str]) -> Option<Option<u64>>
    ensures exact { result ≡ option_number takes most (texts words.now) }
    ensures within { IfSome result (λ number. IfSome number (λ n. (1 ≤ n) × (n ≤ most))) }
{
    let Some((word, more)) = words.split_first() else {
        return Some(None);
    };
    if takes && more.is_empty() {
        Some(Some(number_within(1, most, word)?))
    } else {
        None
    }
}

/// The number within these limits that the word spells. `None`: it spells none.
pub fn number_within(least: u64, most: u64, word: &str) -> Option<u64>
    ensures exact { result ≡ number_within least most word.now }
    ensures within { IfSome result (λ n. (least ≤ n) × (n ≤ most)) }
{
    let n = read_number(word.as_bytes(), most)?;
    if n < least { None } else { Some(n) }
}
