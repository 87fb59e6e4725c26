//! Two parallel lines from bus A to bus B and a line from B on to C, with a relay at each end but at C.
ghost use Rattle.std.specs.Prelude.{◌≡◌, ◌<◌, ◌≤◌, All, IfOk, length};
ghost use Rattle.coord_model.specs.Limits.{FitsStudy};
ghost use Rattle.coord_model.specs.StudyData.{study_data};

use crate::pairs;
use coord_model::{CurveName, Exempt, Line, Name, NoMemory, Pair, Relay, Study};
use std::alloc::Global;

// Relays 0 and 1 stand at A and B of the first parallel line, 2 and 3 at A and B of the second, 4 at B of the line on.
// Each of 0 to 3 is backed by the relay at the far end of the other parallel line, 4 by both relays at A.
#[test]
fn parallel_lines_back_each_other(rt: HostRuntime) -> Result<(), NoMemory> {
    let study = parallel_lines(rt.alloc(), &[])?;
    let found = pairs(rt.alloc(), &study)?;
    let backing = [
        pair(3, 0),
        pair(2, 1),
        pair(1, 2),
        pair(0, 3),
        pair(0, 4),
        pair(2, 4),
    ];
    assert!(rt; found.as_slice() == backing.as_slice());
    Ok(())
}

#[test]
fn an_exempt_pair_is_left_out(rt: HostRuntime) -> Result<(), NoMemory> {
    let exempt = [Exempt {
        backup: 0,
        primary: 4,
    }];
    let study = parallel_lines(rt.alloc(), &exempt)?;
    let found = pairs(rt.alloc(), &study)?;
    let backing = [pair(3, 0), pair(2, 1), pair(1, 2), pair(0, 3), pair(2, 4)];
    assert!(rt; found.as_slice() == backing.as_slice());
    Ok(())
}

/// The study, with the given pairs exempt.
fn parallel_lines(alloc: Global, exempt: &[Exempt]) -> Result<Study, NoMemory>
    requires few { length exempt.now ≤ 1024 }
    requires relays { All (λ e. (e.backup < 5) × (e.primary < 5)) exempt.now }
    ensures { IfOk result (λ study. FitsStudy (study_data study)) }
{
    let lines = [line(0, 1), line(0, 1), line(1, 2)];
    let relays = [
        relay(0, 0),
        relay(0, 1),
        relay(1, 0),
        relay(1, 1),
        relay(2, 1),
    ];
    Ok(Study {
        format: 1,
        cti_ms: 300,
        sense: 110,
        cap: 20,
        load_percent: 120,
        buses: Vec::from_slice(alloc, &[name(), name(), name()])?,
        lines: Vec::from_slice(alloc, &lines)?,
        relays: Vec::from_slice(alloc, &relays)?,
        faults: Vec::new(alloc),
        exempt: Vec::from_slice(alloc, exempt)?,
        intervals: Vec::new(alloc),
    })
}

fn line(from: u16, to: u16) -> Line
    ensures { result ≡ record result { from = from; to = to } }
{
    Line {
        name: name(),
        from,
        to,
    }
}

fn relay(line: u16, bus: u16) -> Relay
    ensures { result ≡ record result {
      line = line;
      bus = bus;
      curve = CurveName.IecB;
      ct_primary = 100;
      ct_secondary = 1;
      plug_first = 100;
      plug_step = 100;
      plug_count = 1;
      dial_first = 50;
      dial_step = 50;
      dial_count = 20;
      load_amps = 0;
      least_ms = 0;
      most_ms = 0;
    } }
{
    Relay {
        name: name(),
        line,
        bus,
        curve: CurveName::IecB,
        ct_primary: 100,
        ct_secondary: 1,
        plug_first: 100,
        plug_step: 100,
        plug_count: 1,
        dial_first: 50,
        dial_step: 50,
        dial_count: 20,
        load_amps: 0,
        least_ms: 0,
        most_ms: 0,
    }
}

fn name() -> Name {
    Name::new(b"X").unwrap()
}

fn pair(backup: u16, primary: u16) -> Pair {
    Pair { backup, primary }
}
