use super::endings::{Ending, end};
use super::*;
use coord_io::DiskFolder;
use std::fs;
use std::rt::Files;

/// A call over the network n and the table t, what it answers, and a file afterwards.
struct Refused {
    words: &'static [&'static str],
    status: u8,
    text: &'static str,
    after: &'static [(&'static str, &'static str)],
}

const USAGE: &str =
    "usage: coord solve NETWORK CURRENTS SHEET CERT [--gap N] [--budget N], check NETWORK CURRENTS CERT, pairs NETWORK, margins NETWORK CURRENTS SHEET, drill N\n";

const REFUSED: [Refused; 9] = [
    Refused {
        words: &["solve", "m", "t", "s", "c"],
        status: 9,
        text: "missing: m\n",
        after: &[("s", OLD_SHEET)],
    },
    Refused {
        words: &["solve", "n", "m", "s", "c"],
        status: 9,
        text: "missing: m\n",
        after: &[("s", OLD_SHEET)],
    },
    Refused {
        words: &["margins", "n", "t", "m"],
        status: 9,
        text: "missing: m\n",
        after: &[],
    },
    Refused {
        words: &["pairs", "m"],
        status: 9,
        text: "missing: m\n",
        after: &[],
    },
    Refused {
        words: &["check", "n", "t", "m"],
        status: 9,
        text: "missing: m\n",
        after: &[],
    },
    // a name after `--` is that of a file, and options may stand anywhere
    Refused {
        words: &[
            "solve",
            "--gap=1000",
            "n",
            "t",
            "--budget",
            "20000",
            "--",
            "-s",
            "c",
        ],
        status: 0,
        text: REPORT,
        after: &[("-s", SHEET), ("s", OLD_SHEET), ("c", CERT)],
    },
    Refused {
        words: &["solve", "n", "t", "-", "c"],
        status: 0,
        text: REPORT,
        after: &[("-", SHEET), ("c", CERT)],
    },
    Refused {
        words: &["solve", "n", "t", "s", "t"],
        status: 2,
        text: USAGE,
        after: &[("t", CURRENTS)],
    },
    Refused {
        words: &["solve", "n", "t", "s", "c", "--gap", "0"],
        status: 2,
        text: USAGE,
        after: &[("s", OLD_SHEET)],
    },
];

#[test]
fn each_call_answers_by_its_words_and_files(rt: HostRuntime) -> Result<(), test::Fail> {
    let files = [("n", NETWORK), ("t", CURRENTS), ("s", OLD_SHEET)];
    for case in &REFUSED {
        answers(
            &rt,
            case.words,
            &files,
            None,
            case.status,
            case.text,
            case.after,
        )?;
    }
    Ok(())
}

/// Format 3 with a pair that is named twice.
const TWICE_NAMED: &str = "format = 3
interval = [
    { backup = \"R1\", primary = \"R2\", cti_ms = 225 },
    { backup = \"R1\", primary = \"R2\", cti_ms = 225 },
]";

const FAULTY: [Ending; 13] = [
    Ending {
        network: NETWORK,
        changes: &[(NETWORK, "")],
        currents: CURRENTS,
        status: 13,
        report: "network: missing top 0 format\n",
        sheet: OLD_SHEET,
    },
    Ending {
        network: NETWORK,
        changes: &[("\"R2\"", "\"R1\"")],
        currents: CURRENTS,
        status: 13,
        report: "network: double-name relay 2 name\n",
        sheet: OLD_SHEET,
    },
    Ending {
        network: NETWORK,
        changes: &[("load_amps = 0", "amps = 0")],
        currents: CURRENTS,
        status: 13,
        report: "network: unknown-key relay 1\n",
        sheet: OLD_SHEET,
    },
    // a key of format 2, and a pair that is named twice
    Ending {
        network: NETWORK,
        changes: &[("load_amps = 0", "least_ms = 100")],
        currents: CURRENTS,
        status: 13,
        report: "network: unknown-key relay 1\n",
        sheet: OLD_SHEET,
    },
    Ending {
        network: NETWORK,
        changes: &[("format = 1", TWICE_NAMED)],
        currents: CURRENTS,
        status: 13,
        report: "network: double-name interval 2 primary\n",
        sheet: OLD_SHEET,
    },
    // 54.9756/0.05 s is the first time of 2^40 ns or more
    Ending {
        network: NETWORK,
        changes: &[
            ("format = 1", "format = 4"),
            (
                "\"iec-b\"",
                "\"custom\"\ncustom_k = 549756\ncustom_c = 0\ncustom_j = 1\ncustom_h = 1",
            ),
        ],
        currents: CURRENTS,
        status: 13,
        report: "network: out-of-range relay 1 custom_k\n",
        sheet: OLD_SHEET,
    },
    Ending {
        network: NETWORK,
        changes: &[],
        currents: "fault,relay,amp\nF1,R2,1000\nF1,R1,1000\nF2,R1,1900\n",
        status: 14,
        report: "currents: bad-header\n",
        sheet: OLD_SHEET,
    },
    Ending {
        network: NETWORK,
        changes: &[],
        currents: "fault,relay,amps\nF1,R2\nF1,R1,1000\nF2,R1,1900\n",
        status: 14,
        report: "currents: bad-record 1\n",
        sheet: OLD_SHEET,
    },
    Ending {
        network: NETWORK,
        changes: &[],
        currents: "fault,relay,amps\nF1,R2,1000\nF1,R1,1000\nF3,R1,1900\n",
        status: 14,
        report: "currents: unknown-fault 3\n",
        sheet: OLD_SHEET,
    },
    Ending {
        network: NETWORK,
        changes: &[],
        currents: "fault,relay,amps\nF1,R2,1000\nF1,R3,1000\nF2,R1,1900\n",
        status: 14,
        report: "currents: unknown-relay 2\n",
        sheet: OLD_SHEET,
    },
    Ending {
        network: NETWORK,
        changes: &[],
        currents: "fault,relay,amps\nF1,R2,1000\nF1,R1,abc\nF2,R1,1900\n",
        status: 14,
        report: "currents: bad-amps 2\n",
        sheet: OLD_SHEET,
    },
    Ending {
        network: NETWORK,
        changes: &[],
        currents: "fault,relay,amps\nF1,R2,1000\nF1,R1,1000\nF2,R1,1900\nF1,R2,1000\n",
        status: 14,
        report: "currents: double-entry 4\n",
        sheet: OLD_SHEET,
    },
    Ending {
        network: NETWORK,
        changes: &[],
        currents: "fault,relay,amps\nF1,R2,1000\nF1,R1,1000\n",
        status: 14,
        report: "currents: no-primary F2\n",
        sheet: OLD_SHEET,
    },
];

#[test]
fn inputs_are_refused_for_their_first_fault(rt: HostRuntime) -> Result<(), test::Fail> {
    Ok(end(&rt, &FAULTY)?)
}

#[test]
fn files_of_the_disk_are_read_and_written(rt: HostRuntime) -> Result<(), test::Fail> {
    fs::write(&rt, "coord_run_n", NETWORK)?;
    fs::write(&rt, "coord_run_t", CURRENTS)?;
    print_over_disk(&rt)?;
    for name in &["coord_run_n", "coord_run_t", "coord_run_s", "coord_run_c"] {
        fs::remove_file(&rt, *name)?;
    }
    Ok(())
}

/// Words over the disk, and what is printed.
const OVER_DISK: [(&[&str], &str); 3] = [
    (
        &[
            "solve",
            "coord_run_n",
            "coord_run_t",
            "coord_run_s",
            "coord_run_c",
        ],
        REPORT,
    ),
    (
        &["check", "coord_run_n", "coord_run_t", "coord_run_c"],
        ACCEPTED,
    ),
    (
        &["margins", "coord_run_n", "coord_run_t", "coord_run_s"],
        "row F1 R1 R2 loose 0 strict 0\nrows 1 kept 1\n",
    ),
];

/// Asserts what is printed over the disk.
fn print_over_disk(rt: &(impl Files + AllocGlobal + Abort)) -> Result<(), AllocError> {
    let mut folder = DiskFolder::new(rt);
    for (words, text) in &OVER_DISK {
        let (status, out) = called(rt, words, &mut folder)?;
        assert!(rt;
            status == 0 && out.bytes() == text.as_bytes(),
            "not printed: {text}"
        );
    }
    Ok(())
}
