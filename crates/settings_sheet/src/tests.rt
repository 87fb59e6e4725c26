//! Settings sheets both ways, for two relays in a row.
ghost use Rattle.std.specs.Prelude.{◌≡◌, IfOk};
ghost use Rattle.coord_model.specs.Limits.{FitsStudy};
ghost use Rattle.coord_model.specs.Name.{IsName};
ghost use Rattle.coord_model.specs.StudyData.{study_data};

use crate::reader::read_sheet;
use crate::refusal::{SheetKind, SheetRefusal};
use crate::text::sheet_bytes;
use coord_model::{CurveName, Ending, Line, Name, Relay, Study};
use std::alloc::Global;

const CLOSED: &[u8] =
    b"coord-sheet 1\nending closed\ncost 262500\nbound 262500\nrelay R1 plug 1.00 dial 0.250\nrelay R2 plug 1.00 dial 0.050\nend\n";

/// A relay at the front of a line, with one plug of 1 A and 20 dials from 0.050 on.
fn relay(name: Name, line: u16) -> Relay
    ensures { result ≡ record result {
      line = line;
      bus = line;
      curve = CurveName.IecB;
      ct_primary = 100;
      ct_secondary = 1;
      plug_first = 100;
      plug_step = 100;
      plug_count = 1;
      dial_first = 50;
      dial_step = 50;
      dial_count = 20;
      load_amps = 0;
      least_ms = 0;
      most_ms = 0;
    } }
{
    Relay {
        name,
        line,
        bus: line,
        curve: CurveName::IecB,
        ct_primary: 100,
        ct_secondary: 1,
        plug_first: 100,
        plug_step: 100,
        plug_count: 1,
        dial_first: 50,
        dial_step: 50,
        dial_count: 20,
        load_amps: 0,
        least_ms: 0,
        most_ms: 0,
    }
}

fn name(bytes: &[u8]) -> Name
    requires { IsName bytes.now }
{
    Name::new(bytes).unwrap()
}

/// Two lines in a row with a relay at the front of each.
fn two_relays(alloc: Global) -> Result<Study, SheetRefusal>
    ensures fits { IfOk result (λ study. FitsStudy (study_data study)) }
{
    let lines = [
        Line {
            name: name(b"AB"),
            from: 0,
            to: 1,
        },
        Line {
            name: name(b"BC"),
            from: 1,
            to: 2,
        },
    ];
    let relays = [relay(name(b"R1"), 0), relay(name(b"R2"), 1)];
    Ok(Study {
        format: 1,
        cti_ms: 300,
        sense: 110,
        cap: 20,
        load_percent: 120,
        buses: Vec::from_slice(alloc, &[name(b"A"), name(b"B"), name(b"C")])?,
        lines: Vec::from_slice(alloc, &lines)?,
        relays: Vec::from_slice(alloc, &relays)?,
        faults: Vec::new(alloc),
        exempt: Vec::new(alloc),
        intervals: Vec::new(alloc),
    })
}

#[test]
fn writes_what_it_reads(rt: HostRuntime) -> Result<(), SheetRefusal> {
    let study = two_relays(rt.alloc())?;
    let sheet = read_sheet(rt.alloc(), &study, CLOSED)?;
    let bytes = sheet_bytes(rt.alloc(), &study, &sheet).expect(&rt, "memory");
    assert_eq!(rt; bytes.as_slice(), CLOSED);
    assert_eq!(rt; (sheet.cost, sheet.bound), (Some(262_500), Some(262_500)));
    assert_eq!(rt; sheet.ending, Ending::Closed);
    let choice = sheet.choice.expect(&rt, "settings");
    assert_eq!(rt; choice.pickup.as_slice(), [0, 0].as_slice());
    assert_eq!(rt; choice.dial.as_slice(), [4, 0].as_slice());
    Ok(())
}

/// A text, and the line and the kind of its fault.
type Row = (&'static [u8], u32, SheetKind);

/// Texts that stop being a sheet of the two relays, one for each kind of line.
const STOPS: [Row; 12] = [
    (b"coord-sheet 1", 1, SheetKind::Format),
    (b"coord-sheet 2\n", 1, SheetKind::Format),
    (b"coord-sheet 1\nending open\n", 2, SheetKind::Ending),
    (
        b"coord-sheet 1\nending closed\ncost 01\n",
        3,
        SheetKind::Cost,
    ),
    (
        b"coord-sheet 1\nending closed\ncost 10000000000000000\n",
        3,
        SheetKind::Cost,
    ),
    (
        b"coord-sheet 1\nending no-settings\ncost 1\n",
        3,
        SheetKind::Cost,
    ),
    (
        b"coord-sheet 1\nending hairline\ncost none\nbound none\n",
        4,
        SheetKind::Bound,
    ),
    (
        b"coord-sheet 1\nending hairline\ncost 1\nbound 1\nrelay R1 plug 1.00 dial 0.260\n",
        5,
        SheetKind::Relay,
    ),
    (
        b"coord-sheet 1\nending hairline\ncost 1\nbound 1\nrelay R1 plug 1.00 dial 0.250\n",
        6,
        SheetKind::Relay,
    ),
    (
        b"coord-sheet 1\nending hairline\ncost none\nbound 1\nrelay R1 plug 1.00 dial 0.250\n",
        5,
        SheetKind::End,
    ),
    (
        b"coord-sheet 1\nending no-settings\ncost none\nbound none\nend",
        5,
        SheetKind::End,
    ),
    (
        b"coord-sheet 1\nending no-settings\ncost none\nbound none\nend\nx",
        6,
        SheetKind::After,
    ),
];

#[test]
fn names_the_first_line_that_stops(rt: HostRuntime) -> Result<(), SheetRefusal> {
    let study = two_relays(rt.alloc())?;
    for (text, line, kind) in &STOPS {
        let Err(refusal) = read_sheet(rt.alloc(), &study, text) else {
            panic!(rt; "a sheet");
        };
        let stop = SheetRefusal::Fault {
            line: *line,
            kind: *kind,
        };
        assert_eq!(rt; refusal, stop);
    }
    Ok(())
}
