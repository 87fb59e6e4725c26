//! The commands, and the words that they are.
ghost use Rattle.std.specs.Prelude.{◌≡◌, ◌<◌, IfOk, length, map, string_bytes};
ghost use Rattle.coord_words.specs.Kept.{Reads};
ghost use Rattle.coord_words.specs.Line.{Fits, name_at};
ghost use Rattle.coord_words.specs.Names.{command_data, said_data};
ghost use Rattle.coord_words.specs.Table.{command_of, drill_line, names, pairs_said, solve_line, solve_said, three_said};
ghost use Rattle.coord_words.specs.Words.{MayAsk, check, drill, margins};

use crate::line::{Line, Said, name_at, read};
use clap::error::ErrorKind;
use coord_model::limits::{FEWEST_RING_BUSES, MOST_RING_BUSES};
use std::alloc::{AllocError, Global};

/// A command with what it is asked.
#[derive(Drop)]
pub enum Command {
    Solve {
        network: String,
        currents: String,
        sheet: String,
        cert: String,
        gap: Option<u64>,
        budget: u32,
    },
    Pairs {
        network: String,
    },
    Margins {
        network: String,
        currents: String,
        sheet: String,
    },
    Check {
        network: String,
        currents: String,
        cert: String,
    },
    /// `n` counts buses.
    Drill {
        n: u32,
    },
}

/// Why words were not read as a command.
#[derive(Clone, Copy)]
pub enum WordsRefusal {
    /// The words fit no command.
    Usage,
    NoMemory,
}

impl From<AllocError> for WordsRefusal {
    ghost use Rattle.std.specs.Prelude.{◌≡◌};
    ghost use Rattle.coord_words.specs.declared.command.WordsRefusal.TheVariants as of;

    ghost from_gives = { λ _ refusal. refusal ≡ of.NoMemory };

    fn from(_refused: AllocError) -> WordsRefusal {
        WordsRefusal::NoMemory
    }
}

impl From<clap::Error> for WordsRefusal {
    ghost use Rattle.std.specs.Prelude.{◌≡◌};
    ghost use Rattle.clap.specs.Values.{kind_of};
    ghost use Rattle.coord_words.specs.Rules.{refusal_for};

    ghost from_gives = { λ error refusal. refusal ≡ refusal_for (kind_of error) };

    fn from(error: clap::Error) -> WordsRefusal {
        match error.kind() {
            ErrorKind::OutOfMemory => WordsRefusal::NoMemory,
            _ => WordsRefusal::Usage,
        }
    }
}

/// The command that the words after the program's name are.
///
/// The first word is the command, and the words after it are its names. `solve` also takes `--gap N` and `--budget N`,
/// each at most once, in two words or as `--gap=N`. A name that begins with `-` comes after the word `--`, unless it is
/// `-` alone. No other word is taken.
pub fn read_words(alloc: Global, words: &[String]) -> Result<Command, WordsRefusal>
    ensures exact { Reads command_data (command_of (map string_bytes words.now)) result }
    ensures allowed { IfOk result (λ command. MayAsk (command_data command)) }
{
    let Some((command, rest)) = words.split_first() else {
        return Err(WordsRefusal::Usage);
    };
    match command.as_str() {
        "solve" => Ok(solve(alloc, &read(alloc, &solve_line(), rest)?)?),
        "check" => Ok(check(alloc, &read(alloc, &names(3), rest)?)?),
        "pairs" => Ok(pairs(alloc, &read(alloc, &names(1), rest)?)?),
        "margins" => Ok(margins(alloc, &read(alloc, &names(3), rest)?)?),
        "drill" => Ok(drill(&read(alloc, &drill_line(), rest)?)),
        _ => Err(WordsRefusal::Usage),
    }
}

/// Names alone, of which two may be equal.
fn names(n: u8) -> Line
    ensures { result ≡ names n }
{
    Line {
        names: n,
        differ: false,
        number: None,
        gap: false,
        budget: false,
    }
}

/// Four names that differ, and both options.
fn solve_line() -> Line
    ensures { result ≡ solve_line }
{
    Line {
        differ: true,
        gap: true,
        budget: true,
        ..names(4)
    }
}

/// A number of buses.
fn drill_line() -> Line
    ensures { result ≡ drill_line }
{
    Line {
        number: Some((FEWEST_RING_BUSES as u64, MOST_RING_BUSES as u64)),
        ..names(0)
    }
}

/// `solve NETWORK CURRENTS SHEET CERT [--gap N] [--budget N]`.
fn solve(alloc: Global, said: &Said<'_>) -> Result<Command, AllocError>
    requires { Fits solve_line (said_data said.now) }
    ensures exact { IfOk result (λ command. command_data command ≡ solve_said (said_data said.now)) }
    ensures allowed { IfOk result (λ command. MayAsk (command_data command)) }
{
    Ok(Command::Solve {
        network: owned(alloc, said, 0)?,
        currents: owned(alloc, said, 1)?,
        sheet: owned(alloc, said, 2)?,
        cert: owned(alloc, said, 3)?,
        gap: said.gap,
        budget: said.budget as u32,
    })
}

/// `check NETWORK CURRENTS CERT`.
fn check(alloc: Global, said: &Said<'_>) -> Result<Command, AllocError>
    requires { Fits (names 3) (said_data said.now) }
    ensures { IfOk result (λ command. command_data command ≡ check (three_said (said_data said.now))) }
{
    Ok(Command::Check {
        network: owned(alloc, said, 0)?,
        currents: owned(alloc, said, 1)?,
        cert: owned(alloc, said, 2)?,
    })
}

/// `pairs NETWORK`.
fn pairs(alloc: Global, said: &Said<'_>) -> Result<Command, AllocError>
    requires { Fits (names 1) (said_data said.now) }
    ensures { IfOk result (λ command. command_data command ≡ pairs_said (said_data said.now)) }
{
    Ok(Command::Pairs {
        network: owned(alloc, said, 0)?,
    })
}

/// `margins NETWORK CURRENTS SHEET`.
fn margins(alloc: Global, said: &Said<'_>) -> Result<Command, AllocError>
    requires { Fits (names 3) (said_data said.now) }
    ensures { IfOk result (λ command. command_data command ≡ margins (three_said (said_data said.now))) }
{
    Ok(Command::Margins {
        network: owned(alloc, said, 0)?,
        currents: owned(alloc, said, 1)?,
        sheet: owned(alloc, said, 2)?,
    })
}

/// `drill N`.
fn drill(said: &Said<'_>) -> Command
    requires { Fits drill_line (said_data said.now) }
    ensures exact { command_data result ≡ drill said.now.number }
    ensures allowed { MayAsk (command_data result) }
{
    Command::Drill {
        n: said.number as u32,
    }
}

/// The name at a place, as a text of its own.
fn owned(alloc: Global, said: &Said<'_>, place: usize) -> Result<String, AllocError>
    requires { place < length said.now.names.items }
    ensures { IfOk result (λ name. string_bytes name ≡ name_at (said_data said.now).names place) }
{
    String::from_str(alloc, name_at(said.names.as_slice(), place))
}
