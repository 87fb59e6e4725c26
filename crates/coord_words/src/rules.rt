//! The rules by which `clap` reads the words after a command, and what it has kept of them.
ghost use Rattle.std.specs.Prelude.{◌≡◌, [], ◌∷◌, IfOk, false, map, option_map, string_bytes};
ghost use Rattle.clap.specs.Words.{app_of, rule_of};
ghost use Rattle.coord_words.specs.Kept.{Reads, kept_by, kept_of};
ghost use Rattle.coord_words.specs.Names.{texts};
ghost use Rattle.coord_words.specs.Rules.{name_rule, option_rule, rules_with, word_rules};

use crate::command::WordsRefusal;
use clap::{Arg, ArgAction, ArgMatches, Command};
use std::alloc::{AllocError, Global};

/// What `clap` keeps of the words after a command.
pub fn keep(alloc: Global, words: &[String]) -> Result<ArgMatches<'_>, WordsRefusal>
    ensures { Reads kept_by (kept_of (map string_bytes words.now)) result }
{
    Ok(word_rules(alloc)?.try_get_matches_from(words)?)
}

/// The names that `clap` has kept, in order.
pub fn names_kept<'a>(alloc: Global, kept: &ArgMatches<'a>) -> Result<Vec<&'a str>, AllocError>
    ensures { IfOk result (λ names. texts names.items ≡ (kept_by kept.now).names) }
{
    match kept.get_strs("name") {
        Some(names) => Vec::from_slice(alloc, names),
        None => Ok(Vec::new(alloc)),
    }
}

/// The rules for names and for all options.
fn word_rules<'a>(alloc: Global) -> Result<Command<'a>, AllocError>
    ensures { IfOk result (λ rules. app_of rules ≡ word_rules) }
{
    no_rules(alloc)
        .arg(name(alloc))?
        .arg(option(alloc, "gap"))?
        .arg(option(alloc, "budget"))
}

/// Rules that take no word: no program's name, no `--help` and no `--version`.
fn no_rules<'a>(alloc: Global) -> Command<'a>
    ensures { app_of result ≡ rules_with [] }
{
    Command::new(alloc, "coord")
        .no_binary_name(true)
        .disable_help_flag(true)
        .disable_version_flag(true)
}

/// The rule for names.
fn name<'a>(alloc: Global) -> Arg<'a>
    ensures rule { rule_of result ≡ name_rule }
    ensures local { result.global ≡ false }
{
    Arg::new(alloc, "name").action(ArgAction::Append)
}

/// The rule for an option.
fn option<'a>(alloc: Global, id: &'a str) -> Arg<'a>
    ensures rule { rule_of result ≡ option_rule id.entry.now }
    ensures local { result.global ≡ false }
{
    Arg::new(alloc, id).long(id).action(ArgAction::Append)
}
