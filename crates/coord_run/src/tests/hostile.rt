//! Certificates that are cut, too deep or without an end.
use super::certs::{PLUGS, THREE_BOXES};
use super::checks::checks;
use super::folders::EndlessFolder;
use super::*;

/// What is due at each line of the certificate of three boxes.
const DUE: [&str; 12] = [
    "format", "ending", "gap", "budget", "boxes", "bound", "cost", "settings", "node", "node",
    "node", "end",
];

#[test]
fn a_certificate_that_is_cut_is_refused_at_the_cut(rt: HostRuntime) -> Result<(), test::Fail> {
    for length in 0..THREE_BOXES.len() {
        refuse_front(&rt, &THREE_BOXES.as_bytes()[..length])?;
    }
    Ok(())
}

/// Asserts that the front of the certificate is refused at the line in which it ends.
fn refuse_front(rt: &(impl AllocGlobal + Abort), front: &[u8]) -> Result<(), AllocError> {
    let before = front.iter().filter(|byte| **byte == b'\n').count();
    let due = DUE.get(before).expect(rt, "a line");
    let text = format!(in rt.alloc(); "certificate: line {} {due}\n", before as u64 + 1)?;
    let front = str::from_utf8(front).expect(rt, "a text");
    refuse(rt, front, text.as_str())
}

// The first eight lines are the head, and 3,072 splits may stand on a path.
#[test]
fn a_certificate_that_is_too_deep_is_refused(rt: HostRuntime) -> Result<(), test::Fail> {
    let head = THREE_BOXES
        .strip_suffix("S 0 0\nB 1\nB 1\nend\n")
        .expect(&rt, "a head");
    let mut cert = String::from_str(rt.alloc(), head)?;
    for _ in 0..3_073 {
        cert.push_str("S 0 0\n")?;
    }
    Ok(refuse(&rt, cert.as_str(), "certificate: line 3081 node\n")?)
}

/// Asserts that the certificate is refused for this line, over R1 with two plugs.
fn refuse(rt: &(impl AllocGlobal + Abort), cert: &str, text: &str) -> Result<(), AllocError> {
    let network = edited(rt, PLUGS.network, PLUGS.changes)?;
    checks(rt, network.as_str(), CURRENTS, cert, 17, text)
}

#[test]
fn a_certificate_without_an_end_is_too_long(rt: HostRuntime) -> Result<(), test::Fail> {
    let files = folder_of(&rt, &[("n", WITH_DIALS), ("t", CURRENTS)], None)?;
    let mut folder = EndlessFolder { files };
    let (status, out) = called(&rt, &CHECK, &mut folder)?;
    assert!(rt; out.bytes() == b"too long: c 536870912\n".as_slice());
    assert_eq!(rt; status, 12);
    Ok(())
}
