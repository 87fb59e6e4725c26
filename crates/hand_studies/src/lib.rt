//! Studies that are worked out by hand, for the tests of the crates that work on boxes: curve B takes 13.5/(M - 1)
//! seconds at the multiple of pickup M and dial 1. No program uses them.
#![tactic(auto)]

mod chain;
mod single;

ghost use Rattle.std.specs.Prelude.{◌≡◌, ◌<◌, ◌≤◌, All, IfOk, length};
ghost use Rattle.coord_model.specs.Limits.{FitsStudy};
ghost use Rattle.coord_model.specs.PartLimits.{IsBetween};
ghost use Rattle.coord_model.specs.StudyData.{study_data, entries_of};

pub use chain::relay_chain;
use coord_model::{Current, Currents, CurveName, Fault, Line, Name, NoMemory, Relay, Study};
use margin_rows::{BuildFault, Instance, build};
pub use single::capped_line;
use std::alloc::Global;

fn name() -> Name {
    Name::new(b"X").unwrap()
}

/// A relay with CT 100 to 1, curve B and plugs from 1 A by 1 A. Its dials begin with their step.
fn relay(line: u16, bus: u16, plug_count: u32, dial: u32, dial_count: u32, load_amps: u32) -> Relay
    ensures { result ≡ record result {
      line = line;
      bus = bus;
      curve = CurveName.IecB;
      ct_primary = 100;
      ct_secondary = 1;
      plug_first = 100;
      plug_step = 100;
      plug_count = plug_count;
      dial_first = dial;
      dial_step = dial;
      dial_count = dial_count;
      load_amps = load_amps;
      least_ms = 0;
      most_ms = 0;
    } }
{
    Relay {
        name: name(),
        line,
        bus,
        curve: CurveName::IecB,
        ct_primary: 100,
        ct_secondary: 1,
        plug_first: 100,
        plug_step: 100,
        plug_count,
        dial_first: dial,
        dial_step: dial,
        dial_count,
        load_amps,
        least_ms: 0,
        most_ms: 0,
    }
}

/// A fault on a line.
fn fault(line: u16) -> Fault
    ensures line { result.line ≡ line }
    ensures weight { result.weight ≡ 1 }
{
    Fault {
        name: name(),
        line,
        weight: 1,
    }
}

/// The least and the greatest operating time of a relay in milliseconds; 0 stands for no limit.
#[derive(Clone, Copy)]
pub struct Limits {
    pub least_ms: u32,
    pub most_ms: u32,
}

/// Two lines in a row with a relay at the front of each, and a fault on each. Dials are by 0.050, of the second relay up
/// to 1.000, and that one has the limits.
pub fn two_lines(
    alloc: Global,
    dial_count: u32,
    load_amps: u32,
    limits: Limits,
) -> Result<Instance, BuildFault>
    requires dials { IsBetween 1 dial_count 20 }
    requires load { load_amps ≤ 1000 }
    requires limits { (limits.least_ms ≤ 1000) × (limits.most_ms ≤ 1000) }
    ensures { IfOk result (λ inst. length inst.study.relays ≡ 2) }
{
    build(
        alloc,
        two_lines_study(alloc, 1, dial_count, load_amps, limits)?,
        two_lines_currents(alloc)?,
    )
}

/// The same with two pickups for the first relay, dials up to 1.000, and no limits.
pub fn two_pickups(alloc: Global) -> Result<Instance, BuildFault>
    ensures { IfOk result (λ inst. length inst.study.relays ≡ 2) }
{
    let limits = Limits {
        least_ms: 0,
        most_ms: 0,
    };
    build(
        alloc,
        two_lines_study(alloc, 2, 20, 0, limits)?,
        two_lines_currents(alloc)?,
    )
}

fn two_lines_study(
    alloc: Global,
    plug_count: u32,
    dial_count: u32,
    load_amps: u32,
    limits: Limits,
) -> Result<Study, NoMemory>
    requires plugs { IsBetween 1 plug_count 2 }
    requires dials { IsBetween 1 dial_count 20 }
    requires load { load_amps ≤ 1000 }
    requires limits { (limits.least_ms ≤ 1000) × (limits.most_ms ≤ 1000) }
    ensures fits { IfOk result (λ study. FitsStudy (study_data study)) }
    ensures faults { IfOk result (λ study. length study.faults.items ≡ 2) }
    ensures relays { IfOk result (λ study. length study.relays.items ≡ 2) }
{
    let lines = [
        Line {
            name: name(),
            from: 0,
            to: 1,
        },
        Line {
            name: name(),
            from: 1,
            to: 2,
        },
    ];
    let relays = [
        relay(0, 0, plug_count, 50, dial_count, load_amps),
        Relay {
            least_ms: limits.least_ms,
            most_ms: limits.most_ms,
            ..relay(1, 1, 1, 50, 20, 0)
        },
    ];
    Ok(Study {
        format: 2,
        cti_ms: 300,
        sense: 110,
        cap: 20,
        load_percent: 120,
        buses: Vec::from_slice(alloc, &[name(), name(), name()])?,
        lines: Vec::from_slice(alloc, &lines)?,
        relays: Vec::from_slice(alloc, &relays)?,
        faults: Vec::from_slice(alloc, &[fault(1), fault(0)])?,
        exempt: Vec::new(alloc),
        intervals: Vec::new(alloc),
    })
}

fn two_lines_currents(alloc: Global) -> Result<Currents, NoMemory>
    ensures few { IfOk result (λ currents. length (entries_of currents) ≤ 8192) }
    ensures each { IfOk result (λ currents. All (λ entry. (entry.fault < 2) × (entry.relay < 2) × (entry.amps ≤ 100000)) (entries_of currents)) }
{
    let entries = [
        Current {
            fault: 0,
            relay: 1,
            amps: 1_000,
        },
        Current {
            fault: 0,
            relay: 0,
            amps: 1_000,
        },
        Current {
            fault: 1,
            relay: 0,
            amps: 1_900,
        },
    ];
    Ok(Currents {
        entries: Vec::from_slice(alloc, &entries)?,
    })
}

/// The two lines with a fault on the second alone, at multiple 8 for each relay, an interval of 270 ms, and the dials
/// 0.140 and 0.280: one tick apart the relays meet the interval exactly, which the enclosures can't tell.
pub fn tied_lines(alloc: Global) -> Result<Instance, BuildFault>
    ensures { IfOk result (λ inst. length inst.study.relays ≡ 2) }
{
    build(alloc, tied_lines_study(alloc)?, tied_lines_currents(alloc)?)
}

fn tied_lines_study(alloc: Global) -> Result<Study, NoMemory>
    ensures fits { IfOk result (λ study. FitsStudy (study_data study)) }
    ensures faults { IfOk result (λ study. length study.faults.items ≡ 1) }
    ensures relays { IfOk result (λ study. length study.relays.items ≡ 2) }
{
    let lines = [
        Line {
            name: name(),
            from: 0,
            to: 1,
        },
        Line {
            name: name(),
            from: 1,
            to: 2,
        },
    ];
    let relays = [relay(0, 0, 1, 140, 2, 0), relay(1, 1, 1, 140, 2, 0)];
    Ok(Study {
        format: 2,
        cti_ms: 270,
        sense: 110,
        cap: 20,
        load_percent: 120,
        buses: Vec::from_slice(alloc, &[name(), name(), name()])?,
        lines: Vec::from_slice(alloc, &lines)?,
        relays: Vec::from_slice(alloc, &relays)?,
        faults: Vec::from_slice(alloc, &[fault(1)])?,
        exempt: Vec::new(alloc),
        intervals: Vec::new(alloc),
    })
}

fn tied_lines_currents(alloc: Global) -> Result<Currents, NoMemory>
    ensures few { IfOk result (λ currents. length (entries_of currents) ≤ 8192) }
    ensures each { IfOk result (λ currents. All (λ entry. (entry.fault < 1) × (entry.relay < 2) × (entry.amps ≤ 100000)) (entries_of currents)) }
{
    let entries = [
        Current {
            fault: 0,
            relay: 1,
            amps: 800,
        },
        Current {
            fault: 0,
            relay: 0,
            amps: 800,
        },
    ];
    Ok(Currents {
        entries: Vec::from_slice(alloc, &entries)?,
    })
}

/// Two lines side by side with a relay at the front of the one and at the far end of the other, and a fault on each. So
/// the relays back each other, at two pickups and dials by 0.002.
pub fn parallel_lines(alloc: Global, dial_count: u32) -> Result<Instance, BuildFault>
    requires { IsBetween 1 dial_count 100 }
    ensures { IfOk result (λ inst. length inst.study.relays ≡ 2) }
{
    build(
        alloc,
        parallel_lines_study(alloc, dial_count)?,
        parallel_lines_currents(alloc)?,
    )
}

fn parallel_lines_study(alloc: Global, dial_count: u32) -> Result<Study, NoMemory>
    requires { IsBetween 1 dial_count 100 }
    ensures fits { IfOk result (λ study. FitsStudy (study_data study)) }
    ensures faults { IfOk result (λ study. length study.faults.items ≡ 2) }
    ensures relays { IfOk result (λ study. length study.relays.items ≡ 2) }
{
    let line = Line {
        name: name(),
        from: 0,
        to: 1,
    };
    let relays = [
        relay(0, 0, 2, 2, dial_count, 0),
        relay(1, 1, 2, 2, dial_count, 0),
    ];
    Ok(Study {
        format: 2,
        cti_ms: 324,
        sense: 110,
        cap: 20,
        load_percent: 120,
        buses: Vec::from_slice(alloc, &[name(), name()])?,
        lines: Vec::from_slice(alloc, &[line, line])?,
        relays: Vec::from_slice(alloc, &relays)?,
        faults: Vec::from_slice(alloc, &[fault(0), fault(1)])?,
        exempt: Vec::new(alloc),
        intervals: Vec::new(alloc),
    })
}

fn parallel_lines_currents(alloc: Global) -> Result<Currents, NoMemory>
    ensures few { IfOk result (λ currents. length (entries_of currents) ≤ 8192) }
    ensures each { IfOk result (λ currents. All (λ entry. (entry.fault < 2) × (entry.relay < 2) × (entry.amps ≤ 100000)) (entries_of currents)) }
{
    let entries = [
        Current {
            fault: 0,
            relay: 0,
            amps: 1_000,
        },
        Current {
            fault: 0,
            relay: 1,
            amps: 400,
        },
        Current {
            fault: 1,
            relay: 1,
            amps: 1_000,
        },
        Current {
            fault: 1,
            relay: 0,
            amps: 400,
        },
    ];
    Ok(Currents {
        entries: Vec::from_slice(alloc, &entries)?,
    })
}
