//! Certificates that are written and accepted, and how others are refused: at a line, at a node, or for what they claim.
//! Each is also read a byte a call.
use super::certs::*;
use super::folders::ByteFolder;
use super::*;

/// A study, the status of `solve`, the certificate that it writes, and how `check` accepts it.
struct Solved {
    study: &'static Study,
    status: u8,
    cert: &'static str,
    text: &'static str,
}

const SOLVED: [Solved; 6] = [
    Solved {
        study: LONG,
        status: 0,
        cert: ONE_BOX,
        text: ACCEPTED,
    },
    Solved {
        study: PLUGS,
        status: 0,
        cert: THREE_BOXES,
        text: "accepted closed cost 262500 bound 262500 boxes 3\n",
    },
    Solved {
        study: SHORT,
        status: 3,
        cert: EMPTY,
        text: "accepted no-settings cost none bound none boxes 1\n",
    },
    Solved {
        study: SOONER,
        status: 0,
        cert: CERT_3,
        text: "accepted closed cost 225000 bound 225000 boxes 1\n",
    },
    Solved {
        study: BY_CONSTANTS,
        status: 0,
        cert: CERT_4,
        text: ACCEPTED,
    },
    Solved {
        study: HAIR,
        status: 7,
        cert: ONE_HAIR,
        text: "accepted hairline cost none bound 269999 boxes 1\n",
    },
];

#[test]
fn what_is_solved_is_accepted_a_byte_a_call(rt: HostRuntime) -> Result<(), test::Fail> {
    for solved in &SOLVED {
        let network = edited(&rt, solved.study.network, solved.study.changes)?;
        accept(&rt, network.as_str(), solved.study.currents, solved)?;
    }
    Ok(())
}

/// Asserts that `solve` writes this certificate, and that `check` then accepts it, a byte a call.
fn accept<'x>(
    rt: &(impl AllocGlobal + Abort),
    network: &'x str,
    currents: &'x str,
    solved: &Solved,
) -> Result<(), AllocError> {
    let files = folder_of(rt, &[("n", network), ("t", currents)], None)?;
    let mut folder = ByteFolder { files };
    let (status, _report) = called(rt, &SOLVE, &mut folder)?;
    assert_eq!(rt; status, solved.status, "{}", solved.text);
    let cert = folder.files.bytes("c");
    assert!(rt; cert == Some(solved.cert.as_bytes()), "{}", solved.text);
    let (status, report) = called(rt, &CHECK, &mut folder)?;
    assert!(rt; report.bytes() == solved.text.as_bytes(), "{}", solved.text);
    assert_eq!(rt; status, 0, "{}", solved.text);
    Ok(())
}

/// A certificate with a part of it replaced, over a study, and what `check` answers.
struct Checked {
    study: &'static Study,
    cert: &'static str,
    change: (&'static str, &'static str),
    status: u8,
    text: &'static str,
}

/// Asserts that the certificates are answered so.
fn check(rt: &(impl AllocGlobal + Abort), cases: &[Checked]) -> Result<(), AllocError> {
    for case in cases {
        let network = edited(rt, case.study.network, case.study.changes)?;
        let cert = edited(rt, case.cert, &[case.change])?;
        checks(
            rt,
            network.as_str(),
            case.study.currents,
            cert.as_str(),
            case.status,
            case.text,
        )?;
    }
    Ok(())
}

/// Asserts that the certificate over these inputs is answered by this status and text, also a byte a call.
pub fn checks<'x>(
    rt: &(impl AllocGlobal + Abort),
    network: &'x str,
    currents: &'x str,
    cert: &'x str,
    status: u8,
    text: &str,
) -> Result<(), AllocError> {
    let files = [("n", network), ("t", currents), ("c", cert)];
    answers(rt, &CHECK, &files, None, status, text, &[])?;
    let files = folder_of(rt, &files, None)?;
    let mut folder = ByteFolder { files };
    let (found, out) = called(rt, &CHECK, &mut folder)?;
    assert!(rt; out.bytes() == text.as_bytes(), "not printed: {text}");
    assert_eq!(rt; found, status, "{text}");
    Ok(())
}

/// Certificates that `solve` doesn't write: certificate 2 of the formats 1 and 2, and certificate 1 of format 2.
const ALSO_ACCEPTED: [Checked; 3] = [
    Checked {
        study: LONG,
        cert: CERT_4,
        change: ("study 4 2 1", "study 1 2 1"),
        status: 0,
        text: ACCEPTED,
    },
    Checked {
        study: OF_FORMAT_2,
        cert: CERT_4,
        change: ("study 4 2 1", "study 2 2 1"),
        status: 0,
        text: ACCEPTED,
    },
    Checked {
        study: OF_FORMAT_2,
        cert: ONE_BOX,
        change: ("", ""),
        status: 0,
        text: ACCEPTED,
    },
];

#[test]
fn either_certificate_of_the_first_formats_is_accepted(rt: HostRuntime) -> Result<(), test::Fail> {
    Ok(check(&rt, &ALSO_ACCEPTED)?)
}

const LINES: [Checked; 8] = [
    Checked {
        study: PLUGS,
        cert: THREE_BOXES,
        change: ("gap 1000", "gap 01000"),
        status: 17,
        text: "certificate: line 3 gap\n",
    },
    Checked {
        study: PLUGS,
        cert: THREE_BOXES,
        change: ("B 1\nB 1\n", "B 1\n"),
        status: 17,
        text: "certificate: line 11 node\n",
    },
    Checked {
        study: PLUGS,
        cert: THREE_BOXES,
        change: ("end\n", "end"),
        status: 17,
        text: "certificate: line 12 end\n",
    },
    Checked {
        study: PLUGS,
        cert: THREE_BOXES,
        change: ("end\n", "end\nend\n"),
        status: 17,
        text: "certificate: line 13 after\n",
    },
    // R1 has no plug above step 1
    Checked {
        study: PLUGS,
        cert: THREE_BOXES,
        change: ("S 0 0", "S 0 1"),
        status: 18,
        text: "certificate: node 1 split-at\n",
    },
    Checked {
        study: LONG,
        cert: EMPTY,
        change: ("", ""),
        status: 18,
        text: "certificate: node 1 not-empty\n",
    },
    // twice the one row, and a row that the study doesn't have
    Checked {
        study: PLUGS,
        cert: THREE_BOXES,
        change: ("S 0 0\nB 1\nB 1\n", "B 1 0:1 0:1\n"),
        status: 17,
        text: "certificate: line 9 node\n",
    },
    Checked {
        study: PLUGS,
        cert: THREE_BOXES,
        change: ("S 0 0\nB 1\nB 1\n", "B 1 4000:1\n"),
        status: 18,
        text: "certificate: node 1 row-number\n",
    },
];

#[test]
fn a_line_or_a_node_that_is_wrong_is_refused(rt: HostRuntime) -> Result<(), test::Fail> {
    Ok(check(&rt, &LINES)?)
}

const CLAIMS: [Checked; 14] = [
    Checked {
        study: LONG,
        cert: CERT_3,
        change: ("", ""),
        status: 19,
        text: "certificate: claim study printed 3 2 1 found 1 2 1\n",
    },
    Checked {
        study: SOONER,
        cert: ONE_BOX,
        change: ("", ""),
        status: 19,
        text: "certificate: claim study printed none found 3 2 1\n",
    },
    Checked {
        study: BY_CONSTANTS,
        cert: ONE_BOX,
        change: ("", ""),
        status: 19,
        text: "certificate: claim study printed none found 4 2 1\n",
    },
    Checked {
        study: OF_FORMAT_2,
        cert: CERT_4,
        change: ("study 4 2 1", "study 2 3 1"),
        status: 19,
        text: "certificate: claim study printed 2 3 1 found 2 2 1\n",
    },
    Checked {
        study: BY_CONSTANTS,
        cert: CERT_4,
        change: ("study 4 2 1", "study 4 2 2"),
        status: 19,
        text: "certificate: claim study printed 4 2 2 found 4 2 1\n",
    },
    Checked {
        study: PLUGS,
        cert: THREE_BOXES,
        change: ("settings 0:4 0:0", "settings 0:4"),
        status: 19,
        text: "certificate: claim relays printed 1 found 2\n",
    },
    // R1 has one plug here
    Checked {
        study: LONG,
        cert: ONE_BOX,
        change: ("settings 0:4", "settings 1:4"),
        status: 19,
        text: "certificate: claim step R1\n",
    },
    // R1 takes 300 ms at dial 0.200, 225 ms more than R2
    Checked {
        study: LONG,
        cert: ONE_BOX,
        change: ("settings 0:4", "settings 0:3"),
        status: 19,
        text: "certificate: claim row F1 R1 R2\n",
    },
    Checked {
        study: LONG,
        cert: ONE_BOX,
        change: ("cost 262500", "cost 262501"),
        status: 19,
        text: "certificate: claim cost printed 262501 found 262500\n",
    },
    Checked {
        study: LONG,
        cert: ONE_BOX,
        change: ("boxes 1", "boxes 2"),
        status: 19,
        text: "certificate: claim boxes printed 2 found 1\n",
    },
    // The weight adds the interval, 300 ms, and 3 s for the dial of R2, which is 0.050 at least, and takes 0.75 s for that of
    // R1, which is 1.000 at most.
    Checked {
        study: PLUGS,
        cert: THREE_BOXES,
        change: ("B 1\nB 1\n", "B 1 0:1\nB 1\n"),
        status: 19,
        text: "certificate: claim bound printed 262500 found 0\n",
    },
    // a width of 1 ns at dial 0.280 is 280 ps, rounded up to a microsecond, and one more
    Checked {
        study: HAIR,
        cert: NO_HAIR,
        change: ("", ""),
        status: 19,
        text: "certificate: claim gap printed 1 least 2\n",
    },
    Checked {
        study: LONG,
        cert: ONE_BOX,
        change: ("ending closed", "ending budget-spent"),
        status: 19,
        text: "certificate: claim ending printed budget-spent found closed\n",
    },
    // no leaf is a hair
    Checked {
        study: HAIR,
        cert: NO_HAIR,
        change: ("gap 1\n", "gap 2\n"),
        status: 19,
        text: "certificate: claim ending printed hairline found none\n",
    },
];

#[test]
fn a_claim_that_is_wrong_is_refused(rt: HostRuntime) -> Result<(), test::Fail> {
    Ok(check(&rt, &CLAIMS)?)
}
