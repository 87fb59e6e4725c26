//! The studies that the tests use, and their currents.
ghost use Rattle.std.specs.Prelude.{◌≡◌, ◌<◌, ◌≤◌, All, IfOk, length};
ghost use Rattle.coord_model.specs.Limits.{FitsStudy};
ghost use Rattle.coord_model.specs.PartLimits.{FitsCurve, IsBetween};
ghost use Rattle.coord_model.specs.StudyData.{study_data, entries_of};

use coord_model::{
    Current, Currents, CurveName, Fault, Line, Name, NoMemory, PairInterval, Relay, Study,
};
use margin_rows::{BuildFault, Instance, build};
use std::alloc::Global;

fn name() -> Name {
    Name::new(b"X").unwrap()
}

/// A relay at the front of a line, with CT 100 to 1, curve B and plugs from 1 A.
fn relay(
    line: u16,
    plug_step: u32,
    plug_count: u32,
    dial: u32,
    dial_count: u32,
    load_amps: u32,
) -> Relay
    ensures { result ≡ record result {
      line = line;
      bus = line;
      curve = CurveName.IecB;
      ct_primary = 100;
      ct_secondary = 1;
      plug_first = 100;
      plug_step = plug_step;
      plug_count = plug_count;
      dial_first = dial;
      dial_step = dial;
      dial_count = dial_count;
      load_amps = load_amps;
      least_ms = 0;
      most_ms = 0;
    } }
{
    Relay {
        name: name(),
        line,
        bus: line,
        curve: CurveName::IecB,
        ct_primary: 100,
        ct_secondary: 1,
        plug_first: 100,
        plug_step,
        plug_count,
        dial_first: dial,
        dial_step: dial,
        dial_count,
        load_amps,
        least_ms: 0,
        most_ms: 0,
    }
}

/// Two lines in a row with a relay at the front of each, and a fault on each. The first relay has `dial_count` dials.
pub fn two_lines(alloc: Global, dial_count: u32) -> Result<Instance, BuildFault>
    requires { IsBetween 1 dial_count 20 }
{
    build(
        alloc,
        two_lines_study(alloc, dial_count, 0, 0, &[])?,
        two_lines_currents(alloc)?,
    )
}

/// The same two lines with an interval of the pair's own, a least time of the second relay and a greatest time of the
/// first, in milliseconds.
pub fn two_lines_limited(
    alloc: Global,
    own_ms: u32,
    least_ms: u32,
    most_ms: u32,
) -> Result<Instance, BuildFault>
    requires own { IsBetween 1 own_ms 1000 }
    requires least { least_ms ≤ 1000 }
    requires most { most_ms ≤ 1000 }
{
    let own = [PairInterval {
        backup: 0,
        primary: 1,
        cti_ms: own_ms,
    }];
    build(
        alloc,
        two_lines_study(alloc, 20, least_ms, most_ms, &own)?,
        two_lines_currents(alloc)?,
    )
}

fn two_lines_study(
    alloc: Global,
    dial_count: u32,
    least_ms: u32,
    most_ms: u32,
    own: &[PairInterval],
) -> Result<Study, NoMemory>
    requires dials { IsBetween 1 dial_count 20 }
    requires least { least_ms ≤ 1000 }
    requires most { most_ms ≤ 1000 }
    requires few { length own.now ≤ 1 }
    requires own { All (λ own. (own.backup < 2) × (own.primary < 2) × IsBetween 1 own.cti_ms 1000) own.now }
    ensures fits { IfOk result (λ study. FitsStudy (study_data study)) }
    ensures faults { IfOk result (λ study. length study.faults.items ≡ 2) }
    ensures relays { IfOk result (λ study. length study.relays.items ≡ 2) }
{
    let lines = [
        Line {
            name: name(),
            from: 0,
            to: 1,
        },
        Line {
            name: name(),
            from: 1,
            to: 2,
        },
    ];
    let relays = [
        Relay {
            most_ms,
            ..relay(0, 100, 1, 50, dial_count, 0)
        },
        Relay {
            least_ms,
            ..relay(1, 100, 1, 50, 20, 0)
        },
    ];
    let faults = [
        Fault {
            name: name(),
            line: 1,
            weight: 1,
        },
        Fault {
            name: name(),
            line: 0,
            weight: 1,
        },
    ];
    Ok(Study {
        format: 1,
        cti_ms: 300,
        sense: 110,
        cap: 20,
        load_percent: 120,
        buses: Vec::from_slice(alloc, &[name(), name(), name()])?,
        lines: Vec::from_slice(alloc, &lines)?,
        relays: Vec::from_slice(alloc, &relays)?,
        faults: Vec::from_slice(alloc, &faults)?,
        exempt: Vec::new(alloc),
        intervals: Vec::from_slice(alloc, own)?,
    })
}

fn two_lines_currents(alloc: Global) -> Result<Currents, NoMemory>
    ensures few { IfOk result (λ currents. length (entries_of currents) ≤ 8192) }
    ensures each { IfOk result (λ currents. All (λ entry. (entry.fault < 2) × (entry.relay < 2) × (entry.amps ≤ 100000)) (entries_of currents)) }
{
    let entries = [
        Current {
            fault: 0,
            relay: 1,
            amps: 1_000,
        },
        Current {
            fault: 0,
            relay: 0,
            amps: 1_000,
        },
        Current {
            fault: 1,
            relay: 0,
            amps: 1_900,
        },
    ];
    Ok(Currents {
        entries: Vec::from_slice(alloc, &entries)?,
    })
}

/// The same two lines with an interval of 270 ms, dials 0.140 and 0.280, and a fault on the second line alone. The
/// first relay has `dial_count` dials, the second a least time in milliseconds.
pub fn one_fault(alloc: Global, dial_count: u32, least_ms: u32) -> Result<Instance, BuildFault>
    requires dials { IsBetween 1 dial_count 20 }
    requires least { least_ms ≤ 1000 }
{
    build(
        alloc,
        one_fault_study(alloc, dial_count, least_ms)?,
        one_fault_currents(alloc)?,
    )
}

fn one_fault_study(alloc: Global, dial_count: u32, least_ms: u32) -> Result<Study, NoMemory>
    requires dials { IsBetween 1 dial_count 20 }
    requires least { least_ms ≤ 1000 }
    ensures fits { IfOk result (λ study. FitsStudy (study_data study)) }
    ensures faults { IfOk result (λ study. length study.faults.items ≡ 1) }
    ensures relays { IfOk result (λ study. length study.relays.items ≡ 2) }
{
    let lines = [
        Line {
            name: name(),
            from: 0,
            to: 1,
        },
        Line {
            name: name(),
            from: 1,
            to: 2,
        },
    ];
    let relays = [
        relay(0, 100, 1, 140, dial_count, 0),
        Relay {
            least_ms,
            ..relay(1, 100, 1, 140, 2, 0)
        },
    ];
    Ok(Study {
        format: 1,
        cti_ms: 270,
        sense: 110,
        cap: 20,
        load_percent: 120,
        buses: Vec::from_slice(alloc, &[name(), name(), name()])?,
        lines: Vec::from_slice(alloc, &lines)?,
        relays: Vec::from_slice(alloc, &relays)?,
        faults: Vec::from_slice(
            alloc,
            &[Fault {
                name: name(),
                line: 1,
                weight: 1,
            }],
        )?,
        exempt: Vec::new(alloc),
        intervals: Vec::new(alloc),
    })
}

fn one_fault_currents(alloc: Global) -> Result<Currents, NoMemory>
    ensures few { IfOk result (λ currents. length (entries_of currents) ≤ 8192) }
    ensures each { IfOk result (λ currents. All (λ entry. (entry.fault < 1) × (entry.relay < 2) × (entry.amps ≤ 100000)) (entries_of currents)) }
{
    let entries = [
        Current {
            fault: 0,
            relay: 1,
            amps: 800,
        },
        Current {
            fault: 0,
            relay: 0,
            amps: 800,
        },
    ];
    Ok(Currents {
        entries: Vec::from_slice(alloc, &entries)?,
    })
}

/// One line with a relay of two pickups and a fault on it.
pub fn one_line(
    alloc: Global,
    curve: CurveName,
    plug_step: u32,
    load_amps: u32,
    amps: u32,
) -> Result<Instance, BuildFault>
    requires curve { FitsCurve curve }
    requires plug_step { IsBetween 1 plug_step 100 }
    requires load { load_amps ≤ 500 }
    requires amps { amps ≤ 100000 }
{
    build(
        alloc,
        one_line_study(alloc, curve, plug_step, load_amps)?,
        one_line_currents(alloc, amps)?,
    )
}

fn one_line_study(
    alloc: Global,
    curve: CurveName,
    plug_step: u32,
    load_amps: u32,
) -> Result<Study, NoMemory>
    requires curve { FitsCurve curve }
    requires plug_step { IsBetween 1 plug_step 100 }
    requires load { load_amps ≤ 500 }
    ensures fits { IfOk result (λ study. FitsStudy (study_data study)) }
    ensures faults { IfOk result (λ study. length study.faults.items ≡ 1) }
    ensures relays { IfOk result (λ study. length study.relays.items ≡ 1) }
{
    let relay = Relay {
        curve,
        ..relay(0, plug_step, 2, 50, 1, load_amps)
    };
    Ok(Study {
        format: 1,
        cti_ms: 300,
        sense: 110,
        cap: 20,
        load_percent: 120,
        buses: Vec::from_slice(alloc, &[name(), name()])?,
        lines: Vec::from_slice(
            alloc,
            &[Line {
                name: name(),
                from: 0,
                to: 1,
            }],
        )?,
        relays: Vec::from_slice(alloc, &[relay])?,
        faults: Vec::from_slice(
            alloc,
            &[Fault {
                name: name(),
                line: 0,
                weight: 1,
            }],
        )?,
        exempt: Vec::new(alloc),
        intervals: Vec::new(alloc),
    })
}

fn one_line_currents(alloc: Global, amps: u32) -> Result<Currents, NoMemory>
    requires { amps ≤ 100000 }
    ensures few { IfOk result (λ currents. length (entries_of currents) ≤ 8192) }
    ensures each { IfOk result (λ currents. All (λ entry. (entry.fault < 1) × (entry.relay < 1) × (entry.amps ≤ 100000)) (entries_of currents)) }
{
    Ok(Currents {
        entries: Vec::from_slice(
            alloc,
            &[Current {
                fault: 0,
                relay: 0,
                amps,
            }],
        )?,
    })
}

/// One line with a relay of two pickups and two faults on it, of weights 2 and 3.
pub fn two_faults(alloc: Global) -> Result<Instance, BuildFault> {
    build(alloc, two_faults_study(alloc)?, two_faults_currents(alloc)?)
}

fn two_faults_study(alloc: Global) -> Result<Study, NoMemory>
    ensures fits { IfOk result (λ study. FitsStudy (study_data study)) }
    ensures faults { IfOk result (λ study. length study.faults.items ≡ 2) }
    ensures relays { IfOk result (λ study. length study.relays.items ≡ 1) }
{
    let line = Line {
        name: name(),
        from: 0,
        to: 1,
    };
    let faults = [
        Fault {
            name: name(),
            line: 0,
            weight: 2,
        },
        Fault {
            name: name(),
            line: 0,
            weight: 3,
        },
    ];
    Ok(Study {
        format: 1,
        cti_ms: 300,
        sense: 110,
        cap: 20,
        load_percent: 120,
        buses: Vec::from_slice(alloc, &[name(), name()])?,
        lines: Vec::from_slice(alloc, &[line])?,
        relays: Vec::from_slice(alloc, &[relay(0, 100, 2, 50, 1, 0)])?,
        faults: Vec::from_slice(alloc, &faults)?,
        exempt: Vec::new(alloc),
        intervals: Vec::new(alloc),
    })
}

fn two_faults_currents(alloc: Global) -> Result<Currents, NoMemory>
    ensures few { IfOk result (λ currents. length (entries_of currents) ≤ 8192) }
    ensures each { IfOk result (λ currents. All (λ entry. (entry.fault < 2) × (entry.relay < 1) × (entry.amps ≤ 100000)) (entries_of currents)) }
{
    let entries = [
        Current {
            fault: 0,
            relay: 0,
            amps: 1_000,
        },
        Current {
            fault: 1,
            relay: 0,
            amps: 800,
        },
    ];
    Ok(Currents {
        entries: Vec::from_slice(alloc, &entries)?,
    })
}
