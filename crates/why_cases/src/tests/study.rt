//! A row that is met by a hair, twice.
ghost use Rattle.std.specs.Prelude.{◌≡◌, ◌<◌, ◌≤◌, All, IfOk, length};
ghost use Rattle.coord_model.specs.Limits.{FitsStudy};
ghost use Rattle.coord_model.specs.StudyData.{study_data, entries_of};

use coord_model::{Current, Currents, CurveName, Fault, Line, Name, NoMemory, Relay, Study};
use margin_rows::{BuildFault, Instance, build};
use std::alloc::Global;

/// Two lines in a row with a relay at the front of each, two faults on the second at multiple 8 for each relay, and one on
/// the first. The interval is 270 ms. Dials are by 0.140, up to 0.420 of the first relay and up to 0.280 of the second.
pub fn tied_twice(alloc: Global) -> Result<Instance, BuildFault> {
    build(alloc, tied_study(alloc)?, tied_currents(alloc)?)
}

fn name() -> Name {
    Name::new(b"X").unwrap()
}

fn relay(line: u16, dial_count: u32) -> Relay
    ensures { result ≡ record result {
      line = line;
      bus = line;
      curve = CurveName.IecB;
      ct_primary = 100;
      ct_secondary = 1;
      plug_first = 100;
      plug_step = 100;
      plug_count = 1;
      dial_first = 140;
      dial_step = 140;
      dial_count = dial_count;
      load_amps = 0;
      least_ms = 0;
      most_ms = 0;
    } }
{
    Relay {
        name: name(),
        line,
        bus: line,
        curve: CurveName::IecB,
        ct_primary: 100,
        ct_secondary: 1,
        plug_first: 100,
        plug_step: 100,
        plug_count: 1,
        dial_first: 140,
        dial_step: 140,
        dial_count,
        load_amps: 0,
        least_ms: 0,
        most_ms: 0,
    }
}

fn fault(line: u16) -> Fault
    ensures line { result.line ≡ line }
    ensures weight { result.weight ≡ 1 }
{
    Fault {
        name: name(),
        line,
        weight: 1,
    }
}

fn line(from: u16, to: u16) -> Line
    ensures from_is { result.from ≡ from }
    ensures to_is { result.to ≡ to }
{
    Line {
        name: name(),
        from,
        to,
    }
}

fn tied_study(alloc: Global) -> Result<Study, NoMemory>
    ensures fits { IfOk result (λ study. FitsStudy (study_data study)) }
    ensures faults { IfOk result (λ study. length study.faults.items ≡ 3) }
    ensures relays { IfOk result (λ study. length study.relays.items ≡ 2) }
{
    Ok(Study {
        format: 1,
        cti_ms: 270,
        sense: 110,
        cap: 20,
        load_percent: 120,
        buses: Vec::from_slice(alloc, &[name(), name(), name()])?,
        lines: Vec::from_slice(alloc, &[line(0, 1), line(1, 2)])?,
        relays: Vec::from_slice(alloc, &[relay(0, 3), relay(1, 2)])?,
        faults: Vec::from_slice(alloc, &[fault(1), fault(0), fault(1)])?,
        exempt: Vec::new(alloc),
        intervals: Vec::new(alloc),
    })
}

fn tied_currents(alloc: Global) -> Result<Currents, NoMemory>
    ensures few { IfOk result (λ currents. length (entries_of currents) ≤ 8192) }
    ensures each { IfOk result (λ currents. All (λ entry. (entry.fault < 3) × (entry.relay < 2) × (entry.amps ≤ 100000)) (entries_of currents)) }
{
    let entries = [
        current(0, 1, 800),
        current(0, 0, 800),
        current(1, 0, 1_000),
        current(2, 1, 800),
        current(2, 0, 800),
    ];
    Ok(Currents {
        entries: Vec::from_slice(alloc, &entries)?,
    })
}

fn current(fault: u16, relay: u16, amps: u32) -> Current
    ensures { result ≡ record { fault = fault; relay = relay; amps = amps } }
{
    Current { fault, relay, amps }
}
