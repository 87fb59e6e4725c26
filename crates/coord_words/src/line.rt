//! What a command takes after its word, and what it reads there.
ghost use Rattle.std.specs.Prelude.{◌≡◌, ◌<◌, ◌≤◌, IfOk, IfSome, length, map, option_and_then, string_bytes, take};
ghost use Rattle.coord_words.specs.Kept.{Reads, kept_of};
ghost use Rattle.coord_words.specs.Line.{Fits, all_differ, are_names_for, count, name_at, number_for, said_by};
ghost use Rattle.coord_words.specs.Names.{said_data, texts};

use crate::command::WordsRefusal;
use crate::numbers::{number_within, option_number};
use crate::rules::{keep, names_kept};
use coord_model::limits::{GREATEST_BUDGET, GREATEST_GAP};
use std::alloc::Global;

/// The budget if none is given.
const DEFAULT_BUDGET: u64 = 20_000;

/// What a command takes after its word.
#[derive(Clone, Copy)]
pub struct Line {
    /// How many names.
    pub names: u8,
    /// Whether no two of the names may be equal.
    pub differ: bool,
    /// The least and the greatest number that follows the names, if one does.
    pub number: Option<(u64, u64)>,
    /// Whether it takes `--gap N`.
    pub gap: bool,
    /// Whether it takes `--budget N`.
    pub budget: bool,
}

/// What a command reads after its word.
#[derive(Drop)]
pub struct Said<'a> {
    /// The names, and after them the word of the number if there is one.
    pub names: Vec<&'a str>,
    /// 0 if the command takes none.
    pub number: u64,
    pub gap: Option<u64>,
    pub budget: u64,
}

/// What the words say to a command of this line.
pub fn read<'a>(alloc: Global, line: &Line, words: &'a [String]) -> Result<Said<'a>, WordsRefusal>
    ensures exact { Reads said_data (option_and_then (said_by line.now) (kept_of (map string_bytes words.now))) result }
    ensures fits { IfOk result (λ said. Fits line.now (said_data said)) }
{
    let kept = keep(alloc, words)?;
    let names = names_kept(alloc, &kept)?;
    if !are_names_for(line, names.as_slice()) {
        return Err(WordsRefusal::Usage);
    }
    let number = number_for(line, names.as_slice()).ok_or(WordsRefusal::Usage)?;
    let gap = option_number(line.gap, GREATEST_GAP, kept.get_strs("gap")).ok_or(
        WordsRefusal::Usage,
    )?;
    let budget = option_number(line.budget, GREATEST_BUDGET as u64, kept.get_strs("budget")).ok_or(
        WordsRefusal::Usage,
    )?;
    Ok(Said {
        names,
        number,
        gap,
        budget: budget.unwrap_or(DEFAULT_BUDGET),
    })
}

/// Whether the names are as many as the command takes, and differ if they have to.
fn are_names_for(line: &Line, names: &[&str]) -> bool
    ensures { result ≡ are_names_for line.now (texts names.now) }
{
    let count = line.names as usize + line.number.is_some() as usize;
    names.len() == count && (!line.differ || all_differ(&names[..line.names as usize]))
}

/// Whether no two of the names are equal.
fn all_differ(names: &[&str]) -> bool
    ensures { result ≡ all_differ (texts names.now) }
{
    match names.split_first() {
        Some((name, rest)) => !rest.contains(name) && all_differ(rest),
        None => true,
    }
}

/// The number after the names: 0 if the command takes none. `None`: the word spells no such number.
fn number_for(line: &Line, names: &[&str]) -> Option<u64>
    requires { length names.now ≡ count line.now }
    ensures exact { result ≡ number_for line.now.number (name_at (texts names.now) line.now.names) }
    ensures within { IfSome result (λ n. IfSome line.now.number (λ limits. (limits.0 ≤ n) × (n ≤ limits.1))) }
{
    match line.number {
        Some((least, most)) => number_within(least, most, name_at(names, line.names as usize)),
        None => Some(0),
    }
}

/// The name at a place.
pub fn name_at<'a>(names: &[&'a str], place: usize) -> &'a str
    requires { place < length names.now }
    ensures { result.now ≡ name_at (texts names.now) place }
{
    names[place]
}
