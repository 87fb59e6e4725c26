//! What no clause says: that words are read. The commands that they are were worked out by the rules of the command line.
use crate::{Command, WordsRefusal, read_words};
use std::alloc::AllocError;
use std::process::Abort;
use std::test;

/// The words as texts of their own, read.
fn read(
    rt: &(impl AllocGlobal + Abort),
    words: &[&str],
) -> Result<Result<Command, WordsRefusal>, AllocError> {
    let mut made = Vec::new(rt.alloc());
    for word in words {
        made.push(String::from_str(rt.alloc(), word)?)?;
    }
    Ok(read_words(rt.alloc(), made.as_slice()))
}

/// Whether the command has this name, these names of files, this gap and this budget; only `solve` has a budget,
/// and `drill` has the number of its buses there.
fn is(command: &Command, name: &str, files: &[&str], asked: (Option<u64>, u32)) -> bool {
    match command {
        Command::Solve {
            network,
            currents,
            sheet,
            cert,
            gap,
            budget,
        } => {
            name == "solve"
                && files
                    == [
                        network.as_str(),
                        currents.as_str(),
                        sheet.as_str(),
                        cert.as_str(),
                    ]
                    .as_slice()
                && asked == (*gap, *budget)
        }
        Command::Pairs { network } => name == "pairs" && files == [network.as_str()].as_slice(),
        Command::Margins {
            network,
            currents,
            sheet,
        } => {
            name == "margins"
                && files == [network.as_str(), currents.as_str(), sheet.as_str()].as_slice()
        }
        Command::Check {
            network,
            currents,
            cert,
        } => {
            name == "check"
                && files == [network.as_str(), currents.as_str(), cert.as_str()].as_slice()
        }
        Command::Drill { n } => name == "drill" && files.is_empty() && asked == (None, *n),
    }
}

/// Words, the names of files, the gap and the budget of their command.
const COMMANDS: [(&[&str], &[&str], (Option<u64>, u32)); 15] = [
    (
        &["solve", "n", "t", "s", "c"],
        &["n", "t", "s", "c"],
        (None, 20_000),
    ),
    (
        &["solve", "--gap=2", "n", "t", "s", "--", "c"],
        &["n", "t", "s", "c"],
        (Some(2), 20_000),
    ),
    (
        &["solve", "n", "--gap", "5", "t", "s", "--budget=3", "c"],
        &["n", "t", "s", "c"],
        (Some(5), 3),
    ),
    (
        &["solve", "n", "t", "s", "c", "--budget", "200000"],
        &["n", "t", "s", "c"],
        (None, 200_000),
    ),
    (
        &[
            "solve",
            "--gap",
            "1000000000000",
            "--budget",
            "1",
            "n",
            "t",
            "s",
            "c",
        ],
        &["n", "t", "s", "c"],
        (Some(1_000_000_000_000), 1),
    ),
    (
        &["solve", "n", "t", "s", "c", "--gap", "1", "--"],
        &["n", "t", "s", "c"],
        (Some(1), 20_000),
    ),
    (
        &["solve", "", "-", "--", "--", "--gap=5"],
        &["", "-", "--", "--gap=5"],
        (None, 20_000),
    ),
    (&["pairs", "n"], &["n"], (None, 0)),
    (&["pairs", "--", "-n"], &["-n"], (None, 0)),
    (&["margins", "n", "t", "s"], &["n", "t", "s"], (None, 0)),
    (&["check", "n", "t", "c"], &["n", "t", "c"], (None, 0)),
    (
        &["check", "n", "--", "-t", "n"],
        &["n", "-t", "n"],
        (None, 0),
    ),
    (&["drill", "3"], &[], (None, 3)),
    (&["drill", "48"], &[], (None, 48)),
    (&["drill", "--", "5"], &[], (None, 5)),
];

#[test]
fn words_are_commands(rt: HostRuntime) -> Result<(), test::Fail> {
    for (words, files, asked) in &COMMANDS {
        let Ok(command) = read(&rt, words)? else {
            panic!(rt; "no command");
        };
        assert!(rt; is(&command, words[0], files, *asked));
    }
    Ok(())
}

/// Words that fit no command.
const USAGE: [&[&str]; 49] = [
    &[],
    &["help"],
    &["--help"],
    &["--version"],
    &["-h"],
    &[""],
    &["Solve", "n", "t", "s", "c"],
    &["solve"],
    &["solve", "n", "t", "s"],
    &["solve", "n", "t", "s", "c", "d"],
    &["solve", "n", "t", "n", "c"],
    &["solve", "n", "t", "t", "c"],
    &["solve", "n", "t", "s", "n"],
    &["solve", "n", "n", "s", "c"],
    &["solve", "n", "t", "s", "t"],
    &["solve", "n", "t", "s", "s"],
    &["solve", "n", "t", "s", "c", "--gap", "0"],
    &["solve", "n", "t", "s", "c", "--gap", "5", "--gap", "5"],
    &["solve", "--gap=5", "n", "t", "s", "c", "--gap=5"],
    &["solve", "n", "t", "s", "c", "--gap", "1000000000001"],
    &["solve", "n", "t", "s", "c", "--budget", "200001"],
    &["solve", "n", "t", "s", "c", "--budget", "0"],
    &["solve", "n", "t", "s", "c", "--gap", "05"],
    &["solve", "n", "t", "s", "c", "--gap", "+5"],
    &["solve", "n", "t", "s", "c", "--gap=-5"],
    &["solve", "n", "t", "s", "c", "--gap", "-5"],
    &["solve", "n", "t", "s", "c", "--gap", "-"],
    &["solve", "n", "t", "s", "c", "--gap", "--"],
    &["solve", "n", "t", "s", "--gap", "--", "c", "5"],
    &["solve", "n", "t", "s", "c", "--gap="],
    &["solve", "n", "t", "s", "c", "--gap", ""],
    &["solve", "n", "t", "s", "c", "--gap"],
    &["solve", "n", "t", "s", "c", "--ga", "5"],
    &["solve", "n", "t", "s", "c", "--bud=3"],
    &["solve", "n", "t", "s", "c", "--help"],
    &["solve", "n", "t", "s", "c", "-h"],
    &["check", "n", "t"],
    &["check", "n", "t", "c", "d"],
    &["check", "n", "t", "c", "--gap=5"],
    &["Check", "n", "t", "c"],
    &["pairs", "-n"],
    &["margins", "n", "t", "s", "--budget=3"],
    &["drill"],
    &["drill", "2"],
    &["drill", "49"],
    &["drill", "03"],
    &["drill", "x"],
    &["drill", "-5"],
    &["drill", "3", "4"],
];

#[test]
fn other_words_fit_no_command(rt: HostRuntime) -> Result<(), test::Fail> {
    for words in &USAGE {
        let Err(WordsRefusal::Usage) = read(&rt, words)? else {
            panic!(rt; "not usage");
        };
    }
    Ok(())
}
