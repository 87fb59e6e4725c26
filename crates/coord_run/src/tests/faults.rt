//! What a command answers and leaves behind if a call of the outside fails: each call in turn, until none is left.
use super::certs::ONE_BOX;
use super::folders::ByteFolder;
use super::*;

/// What the certificate's file holds before the call.
const OLD_CERT: &str = "an old certificate\n";

const PAIRS: [&str; 2] = ["pairs", "n"];

/// A command over the two relays in line: its words, what it prints if no call fails, the sheet and the certificate before
/// it and afterwards, and how often it reads, starts and adds to each file.
struct Tried {
    words: &'static [&'static str],
    report: &'static str,
    sheet: (&'static str, &'static str),
    cert: (&'static str, &'static str),
    made: [(&'static str, [u32; 3]); 4],
}

// Of a file of one piece the second read finds the end.
const TRIED: [Tried; 4] = [
    Tried {
        words: &SOLVE,
        report: REPORT,
        sheet: (OLD_SHEET, SHEET),
        cert: (OLD_CERT, ONE_BOX),
        made: [
            ("n", [2, 0, 0]),
            ("t", [2, 0, 0]),
            ("s", [0, 1, 1]),
            ("c", [0, 1, 1]),
        ],
    },
    Tried {
        words: &CHECK,
        report: ACCEPTED,
        sheet: (OLD_SHEET, OLD_SHEET),
        cert: (ONE_BOX, ONE_BOX),
        made: [
            ("n", [2, 0, 0]),
            ("t", [2, 0, 0]),
            ("s", [0, 0, 0]),
            ("c", [2, 0, 0]),
        ],
    },
    Tried {
        words: &MARGINS,
        report: "row F1 R1 R2 loose 0 strict 0\nrows 1 kept 1\n",
        sheet: (SHEET, SHEET),
        cert: (OLD_CERT, OLD_CERT),
        made: [
            ("n", [2, 0, 0]),
            ("t", [2, 0, 0]),
            ("s", [2, 0, 0]),
            ("c", [0, 0, 0]),
        ],
    },
    Tried {
        words: &PAIRS,
        report: "primary R2 backup R1\npairs 1\n",
        sheet: (OLD_SHEET, OLD_SHEET),
        cert: (OLD_CERT, OLD_CERT),
        made: [
            ("n", [2, 0, 0]),
            ("t", [0, 0, 0]),
            ("s", [0, 0, 0]),
            ("c", [0, 0, 0]),
        ],
    },
];

const KINDS: [CallKind; 3] = [CallKind::ReadAt, CallKind::Start, CallKind::Append];

#[test]
fn each_failing_call_is_told_and_the_files_are_kept(rt: HostRuntime) -> Result<(), test::Fail> {
    for tried in &TRIED {
        fail_at_each_file(&rt, tried)?;
    }
    Ok(())
}

fn fail_at_each_file(rt: &(impl AllocGlobal + Abort), tried: &Tried) -> Result<(), AllocError> {
    fail_to_print(rt, tried)?;
    for (name, made) in &tried.made {
        fail_at_each_kind(rt, tried, name, made)?;
    }
    Ok(())
}

fn fail_at_each_kind(
    rt: &(impl AllocGlobal + Abort),
    tried: &Tried,
    name: &'static str,
    made: &[u32],
) -> Result<(), AllocError> {
    for (kind, made) in KINDS.iter().zip(made) {
        fail_in_turn(rt, tried, *kind, name, *made)?;
    }
    Ok(())
}

/// Lets the first, the second and the third call of a kind on a file fail. The command makes that many of them.
fn fail_in_turn(
    rt: &(impl AllocGlobal + Abort),
    tried: &Tried,
    kind: CallKind,
    name: &'static str,
    made: u32,
) -> Result<(), AllocError> {
    for nth in 1..4 {
        let told = if nth <= made { Some(kind) } else { None };
        fail_once(rt, tried, (kind, name, nth), told)?;
    }
    Ok(())
}

/// Asserts what the command answers and leaves if that call fails. `told` is its kind, if the command makes it.
fn fail_once(
    rt: &(impl AllocGlobal + Abort),
    tried: &Tried,
    planned: (CallKind, &'static str, u32),
    told: Option<CallKind>,
) -> Result<(), AllocError> {
    let (_, name, nth) = planned;
    let files = [
        ("n", WITH_DIALS),
        ("t", CURRENTS),
        ("s", tried.sheet.0),
        ("c", tried.cert.0),
    ];
    let mut folder = folder_of(rt, &files, Some(planned))?;
    let (status, out) = called(rt, tried.words, &mut folder)?;
    assert!(rt;
        is_answer(tried, name, told, status, out.bytes()),
        "{name} {nth}"
    );
    assert!(rt; are_kept(&folder, tried, status), "{name} {nth}");
    Ok(())
}

/// Whether the status and what is printed are those of this failing call, or of none.
fn is_answer(tried: &Tried, name: &str, told: Option<CallKind>, status: u8, text: &[u8]) -> bool {
    match told {
        None => status == 0 && text == tried.report.as_bytes(),
        Some(CallKind::ReadAt) => status == 10 && names(text, b"read fault: ", name),
        Some(_) => status == 11 && names(text, b"write fault: ", name),
    }
}

/// Whether the line is these words and the name.
fn names(line: &[u8], words: &[u8], name: &str) -> bool {
    match line.strip_prefix(words) {
        Some(rest) => rest.strip_suffix(b"\n") == Some(name.as_bytes()),
        None => false,
    }
}

/// Whether the files are as they may be after this status.
///
/// The certificate is as before or a front of its text. The sheet is as before unless the certificate is whole, and then is
/// as before or a front of its own.
fn are_kept(folder: &MemFolder, tried: &Tried, status: u8) -> bool {
    let sheet = folder.bytes("s").unwrap_or(b"");
    let cert = folder.bytes("c").unwrap_or(b"");
    let whole = cert == tried.cert.1.as_bytes();
    folder.bytes("n") == Some(WITH_DIALS.as_bytes())
        && folder.bytes("t") == Some(CURRENTS.as_bytes())
        && match status {
            0 => whole && sheet == tried.sheet.1.as_bytes(),
            11 => {
                is_front(cert, tried.cert)
                    && (is_front(sheet, tried.sheet) && whole || sheet == tried.sheet.0.as_bytes())
            }
            _ => sheet == tried.sheet.0.as_bytes() && cert == tried.cert.0.as_bytes(),
        }
}

/// Whether the bytes are the text before, or a front of the one afterwards.
fn is_front(bytes: &[u8], (before, after): (&str, &str)) -> bool {
    bytes == before.as_bytes() || after.as_bytes().starts_with(bytes)
}

/// Asserts that the command prints nothing if the first write alone fails, and does all else.
fn fail_to_print(rt: &(impl AllocGlobal + Abort), tried: &Tried) -> Result<(), AllocError> {
    let files = [
        ("n", WITH_DIALS),
        ("t", CURRENTS),
        ("s", tried.sheet.0),
        ("c", tried.cert.0),
    ];
    let mut folder = folder_of(rt, &files, None)?;
    let out = MemSink::new(rt.alloc(), vec![in rt.alloc(); 1]?);
    let (status, out) = called_over(rt, tried.words, &mut folder, out)?;
    assert!(rt; out.bytes().is_empty());
    assert_eq!(rt; status, 11);
    assert!(rt; are_kept(&folder, tried, 0));
    Ok(())
}

#[test]
fn a_certificate_is_written_up_to_the_call_that_fails(rt: HostRuntime) -> Result<(), test::Fail> {
    for nth in 1..115 {
        fail_at_byte(&rt, "c", nth, b"write fault: c\n")?;
    }
    Ok(())
}

#[test]
fn a_sheet_is_written_up_to_the_call_that_fails(rt: HostRuntime) -> Result<(), test::Fail> {
    for nth in 1..118 {
        fail_at_byte(&rt, "s", nth, b"write fault: s\n")?;
    }
    Ok(())
}

/// Asserts what `solve` leaves if the call fails that adds that byte to the file.
fn fail_at_byte(
    rt: &(impl AllocGlobal + Abort),
    name: &'static str,
    nth: u32,
    line: &[u8],
) -> Result<(), AllocError> {
    let files = [("n", WITH_DIALS), ("t", CURRENTS), ("s", OLD_SHEET)];
    let files = folder_of(rt, &files, Some((CallKind::Append, name, nth)))?;
    let mut folder = ByteFolder { files };
    let (status, out) = called(rt, &SOLVE, &mut folder)?;
    assert!(rt; status == 11 && out.bytes() == line, "{name} {nth}");
    assert!(rt; is_cut(&folder.files, name, nth), "{name} {nth}");
    Ok(())
}

/// Whether the file of that name has the bytes before that one of its text, and the other is as it has to be.
fn is_cut(folder: &MemFolder, name: &str, nth: u32) -> bool {
    let (sheet, cert) = (folder.bytes("s"), folder.bytes("c"));
    let count = nth.saturating_sub(1) as usize;
    if name == "c" {
        sheet == Some(OLD_SHEET.as_bytes()) && cert == ONE_BOX.as_bytes().get(..count)
    } else {
        sheet == SHEET.as_bytes().get(..count) && cert == Some(ONE_BOX.as_bytes())
    }
}
