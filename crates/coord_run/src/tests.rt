//! What no clause says: that calls succeed, the values of whole studies, and which planned failure is met. The settings,
//! costs and margins were worked out by hand.
mod advised;
mod certs;
mod checks;
mod drills;
mod endings;
mod faults;
mod folders;
mod formats;
mod hostile;
mod limits;
mod listing;
mod margins;
mod quiet;
mod refusals;
mod searches;

use crate::program::run;
use coord_io::{CallKind, Fail, Folder, MemFile, MemFolder, MemSink, names_differ};
use coord_model::Name;
use std::alloc::AllocError;
use std::process::Abort;
use std::test;

/// Two lines in a row, a relay with one setting at the near end of each, and a fault on each.
const NETWORK: &str = r#"format = 1

[study]
cti_ms = 300

[[line]]
name = "AB"
from = "A"
to = "B"

[[line]]
name = "BC"
from = "B"
to = "C"

[[relay]]
name = "R1"
line = "AB"
bus = "A"
curve = "iec-b"
ct_primary = 100
ct_secondary = 1
plug_first = 100
plug_step = 100
plug_count = 1
dial_first = 250
dial_step = 50
dial_count = 1
load_amps = 0

[[relay]]
name = "R2"
line = "BC"
bus = "B"
curve = "iec-b"
ct_primary = 100
ct_secondary = 1
plug_first = 100
plug_step = 100
plug_count = 1
dial_first = 50
dial_step = 50
dial_count = 1
load_amps = 0

[[fault]]
name = "F1"
line = "BC"
weight = 1

[[fault]]
name = "F2"
line = "AB"
weight = 1
"#;

/// The same with dials of both relays from 0.050 to 1.000.
const WITH_DIALS: &str = r#"format = 1

[study]
cti_ms = 300

[[line]]
name = "AB"
from = "A"
to = "B"

[[line]]
name = "BC"
from = "B"
to = "C"

[[relay]]
name = "R1"
line = "AB"
bus = "A"
curve = "iec-b"
ct_primary = 100
ct_secondary = 1
plug_first = 100
plug_step = 100
plug_count = 1
dial_first = 50
dial_step = 50
dial_count = 20
load_amps = 0

[[relay]]
name = "R2"
line = "BC"
bus = "B"
curve = "iec-b"
ct_primary = 100
ct_secondary = 1
plug_first = 100
plug_step = 100
plug_count = 1
dial_first = 50
dial_step = 50
dial_count = 20
load_amps = 0

[[fault]]
name = "F1"
line = "BC"
weight = 1

[[fault]]
name = "F2"
line = "AB"
weight = 1
"#;

/// The fault on the second line feeds both relays, at 10 times pickup; the one on the first feeds R1, at 19 times.
const CURRENTS: &str = "fault,relay,amps\nF1,R2,1000\nF1,R1,1000\nF2,R1,1900\n";

/// R1 takes 0.375 s at F1, 0.3 s more than R2, and 0.1875 s at F2.
const REPORT: &str = "closed cost 262500 bound 262500 boxes 1\n";

const SHEET: &str = "coord-sheet 1
ending closed
cost 262500
bound 262500
relay R1 plug 1.00 dial 0.250
relay R2 plug 1.00 dial 0.050
end
";

/// The plain bound of the one box is the cost.
const CERT: &str = "coord-certificate 1
ending closed
gap 1000
budget 20000
boxes 1
bound 262500
cost 262500
settings 0:0 0:0
B 1
end
";

const NO_SETTINGS: &str = "coord-sheet 1\nending no-settings\ncost none\nbound none\nend\n";

/// What the sheet's file holds before the call.
const OLD_SHEET: &str = "an old sheet\n";

const SOLVE: [&str; 5] = ["solve", "n", "t", "s", "c"];

const CHECK: [&str; 4] = ["check", "n", "t", "c"];

const MARGINS: [&str; 4] = ["margins", "n", "t", "s"];

const ACCEPTED: &str = "accepted closed cost 262500 bound 262500 boxes 1\n";

/// A call of a file that is to fail: its kind, the file and the number of the call.
type Planned = Option<(CallKind, &'static str, u32)>;

/// The text with the first of each part replaced in turn.
fn edited(
    rt: &(impl AllocGlobal + Abort),
    text: &str,
    changes: &[(&str, &str)],
) -> Result<String, AllocError> {
    let mut text = String::from_str(rt.alloc(), text)?;
    for (old, new) in changes {
        let mut made = String::new(rt.alloc());
        let Some((before, after)) = text.split_once(*old) else {
            panic!(rt; "no {old}");
        };
        made.push_str(before)?;
        made.push_str(new)?;
        made.push_str(after)?;
        text = made;
    }
    Ok(text)
}

/// A folder of these files that fails at this call.
fn folder_of(
    rt: &(impl AllocGlobal + Abort),
    files: &[(&str, &str)],
    planned: Planned,
) -> Result<MemFolder, AllocError> {
    let mut made = Vec::new(rt.alloc());
    for (name, text) in files {
        made.push(MemFile {
            name: String::from_str(rt.alloc(), name)?,
            bytes: Vec::from_slice(rt.alloc(), text.as_bytes())?,
        })?;
    }
    let mut fails = Vec::new(rt.alloc());
    if let Some((call, name, nth)) = planned {
        let name = Name::new(name.as_bytes()).expect(rt, "a name");
        fails.push(Fail { call, name, nth })?;
    }
    assert!(rt; names_differ(&made));
    Ok(MemFolder::new(rt.alloc(), made, fails))
}

/// The program called with these words over these files: asserts the status, what is printed, and the files afterwards.
fn answers(
    rt: &(impl AllocGlobal + Abort),
    words: &[&str],
    files: &[(&str, &str)],
    planned: Planned,
    status: u8,
    text: &str,
    after: &[(&str, &str)],
) -> Result<(), AllocError> {
    let mut folder = folder_of(rt, files, planned)?;
    let (found, out) = called(rt, words, &mut folder)?;
    assert!(rt; out.bytes() == text.as_bytes(), "not printed: {text}");
    assert_eq!(rt; found, status, "{text}");
    for (name, bytes) in after {
        assert!(rt;
            folder.bytes(name) == Some(bytes.as_bytes()),
            "{name} is not {bytes}"
        );
    }
    Ok(())
}

/// The program called with these words over the folder: its status and what is printed.
fn called<F: Folder>(
    rt: &(impl AllocGlobal + Abort),
    words: &[&str],
    folder: &mut F,
) -> Result<(u8, MemSink), AllocError> {
    let out = MemSink::new(rt.alloc(), Vec::new(rt.alloc()));
    called_over(rt, words, folder, out)
}

/// The program called with these words over the folder and the sink: its status and what is printed.
fn called_over<F: Folder>(
    rt: &(impl AllocGlobal + Abort),
    words: &[&str],
    folder: &mut F,
    out: MemSink,
) -> Result<(u8, MemSink), AllocError> {
    let mut out = out;
    let words = owned(rt, words)?;
    let status = run(rt.alloc(), words.as_slice(), folder, &mut out);
    Ok((status, out))
}

/// The words as texts of their own.
fn owned(rt: &impl AllocGlobal, words: &[&str]) -> Result<Vec<String>, AllocError> {
    let mut made = Vec::new(rt.alloc());
    for word in words {
        made.push(String::from_str(rt.alloc(), word)?)?;
    }
    Ok(made)
}
