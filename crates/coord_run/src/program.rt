//! The whole call of the program.
ghost use Rattle.std.specs.Prelude.{◌≡◌, Some, map, string_bytes};
ghost use Rattle.coord_words.specs.SolveWords.{SolveWords};
ghost use Rattle.coord_run.specs.Names.{names_data};
ghost use Rattle.coord_words.specs.Names.{command_data};
ghost use Rattle.coord_run.specs.Answers.{MustAnswer};
ghost use Rattle.coord_run.specs.Headline.{Headline};
ghost use Rattle.coord_run.specs.Printing.{Prints};
ghost use Rattle.coord_run.specs.Program.{Does, usage_text};
ghost use Rattle.coord_words.specs.Table.{command_of};
ghost use Rattle.coord_words.specs.Words.{MayAsk, solve, three_files};

use crate::check::check;
use crate::drill::drill;
use crate::margins::margins;
use crate::pairs::pairs;
use crate::printing::print;
use crate::solve::solve_with;
use crate::status::{NO_MEMORY, USAGE};
use crate::words::{Command, Names, WordsRefusal, read_words};
use coord_io::{Folder, Sink};
use lp_advice::LpAdviser;
use std::alloc::Global;

/// The line for words that fit no command.
const USAGE_LINE: &[u8] =
    b"usage: coord solve NETWORK CURRENTS SHEET CERT [--gap N] [--budget N], check NETWORK CURRENTS CERT, pairs NETWORK, margins NETWORK CURRENTS SHEET, drill N\n";

/// Does what the words after the program's name ask for, and answers the status.
///
/// `solve NETWORK CURRENTS SHEET CERT` reads the network and the table of its fault currents, and writes the certificate
/// and then the settings sheet. Its ending or its refusal is printed on the sink. `pairs NETWORK` reads the network and
/// prints its pairs. `margins NETWORK CURRENTS SHEET` reads the three files and prints each row with its margins.
/// `check NETWORK CURRENTS CERT` reads the three files and prints the claim of the certificate, if all of it is right.
/// `drill N` searches a ring of that many buses, without files.
pub fn run<F: Folder, K: Sink>(alloc: Global, words: &[String], folder: &mut F, out: &mut K) -> u8
    ensures does { Does (command_of (map string_bytes words.now)) (F.state folder.old) (F.state folder.new) (K.state out.old) (K.state out.new) result }
    ensures headline { (asked : SolveWords) → command_of (map string_bytes words.now) ≡ Some (solve asked) →
        Headline asked (F.state folder.old) (F.state folder.new) (K.state out.old) (K.state out.new) result }
    ensures answers { MustAnswer (command_of (map string_bytes words.now)) (F.state folder.old) (F.state folder.new)
        (K.state out.old) (K.state out.new) result }
{
    obey(alloc, words, folder, out)
}

/// Does what the words ask for.
fn obey<F: Folder, K: Sink>(alloc: Global, words: &[String], folder: &mut F, out: &mut K) -> u8
    ensures { Does (command_of (map string_bytes words.now)) (F.state folder.old) (F.state folder.new)
        (K.state out.old) (K.state out.new) result }
{
    match read_words(alloc, words) {
        Ok(command) => carry_out(alloc, &command, folder, out),
        Err(WordsRefusal::Usage) => print_usage(out),
        Err(WordsRefusal::NoMemory) => NO_MEMORY,
    }
}

/// Prints the usage line, and answers the status.
pub fn print_usage<K: Sink>(out: &mut K) -> u8
    ensures { Prints usage_text 2 (K.state out.old) (K.state out.new) result }
{
    print(out, USAGE_LINE, USAGE)
}

/// Does the work of a command, and answers the status.
fn carry_out<F: Folder, K: Sink>(
    alloc: Global,
    command: &Command,
    folder: &mut F,
    out: &mut K,
) -> u8
    requires { MayAsk (command_data command.now) }
    ensures { Does (Some (command_data command.now)) (F.state folder.old) (F.state folder.new)
        (K.state out.old) (K.state out.new) result }
{
    match command {
        Command::Solve {
            network,
            currents,
            sheet,
            cert,
            gap,
            budget,
        } => solve_with(
            alloc,
            folder,
            out,
            network,
            currents,
            sheet,
            cert,
            *gap,
            *budget,
            &mut LpAdviser::new(),
        ),
        Command::Pairs { network } => pairs(alloc, folder, out, network),
        Command::Margins {
            network,
            currents,
            sheet,
        } => { margins(alloc, folder, out, &three_files(network, currents, sheet)) }
        Command::Check {
            network,
            currents,
            cert,
        } => { check(alloc, folder, out, &three_files(network, currents, cert)) }
        Command::Drill { n } => drill(alloc, out, *n),
    }
}

/// The names of a command that names three files: of a sheet and a certificate it asks for one.
fn three_files<'a>(network: &'a str, currents: &'a str, third: &'a str) -> Names<'a>
    ensures { names_data result ≡ three_files network.entry.now currents.entry.now third.entry.now }
{
    Names {
        network,
        currents,
        sheet: third,
        cert: third,
    }
}
