//! A folder and a sink that never fail.
use super::certs::ONE_BOX;
use super::*;
use coord_io::{QuietFile, QuietFolder, QuietSink, are_quiet};

/// A file of a quiet folder.
fn quiet(rt: &(impl AllocGlobal + Abort), name: &str, text: &str) -> Result<QuietFile, AllocError> {
    Ok(QuietFile {
        name: Name::new(name.as_bytes()).expect(rt, "a name"),
        bytes: Vec::from_slice(rt.alloc(), text.as_bytes())?,
        room: 4_096,
    })
}

#[test]
fn a_folder_and_a_sink_that_never_fail_hold_the_answer(rt: HostRuntime) -> Result<(), test::Fail> {
    let mut files = Vec::new(rt.alloc());
    for (name, text) in &[("n", WITH_DIALS), ("t", CURRENTS), ("s", ""), ("c", "")] {
        files.push(quiet(&rt, name, text)?)?;
    }
    assert!(rt; are_quiet(&files));
    let mut folder = QuietFolder::new(files)?;
    let mut out = QuietSink::new(rt.alloc(), 4_096)?;
    let words = owned(&rt, &SOLVE)?;
    assert_eq!(rt; run(rt.alloc(), words.as_slice(), &mut folder, &mut out), 0);
    assert!(rt; out.bytes() == Some(REPORT.as_bytes()));
    assert!(rt; folder.bytes("s") == Some(SHEET.as_bytes()));
    assert!(rt; folder.bytes("c") == Some(ONE_BOX.as_bytes()));
    Ok(())
}
