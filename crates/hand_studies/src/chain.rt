//! Three relays in a chain, each the backup of the next one.
ghost use Rattle.std.specs.Prelude.{◌≡◌, ◌<◌, ◌≤◌, All, IfOk, length};
ghost use Rattle.coord_model.specs.Limits.{FitsStudy};
ghost use Rattle.coord_model.specs.StudyData.{study_data, entries_of};

use crate::{fault, name, relay};
use coord_model::{Current, Currents, Line, NoMemory, Relay, Study};
use margin_rows::{BuildFault, Instance, build};
use std::alloc::Global;

/// Three lines in a row with a relay at the front of each, and a fault on each, the last line's first. The interval is 30
/// ms. The last relay has the dial 1.000, and the first one may take 81 ms. The others have two pickups and dials by 0.002
/// up to 1.000. A relay is at 10 times its low pickup as primary, and at 4 times as backup.
pub fn relay_chain(alloc: Global) -> Result<Instance, BuildFault>
    ensures { IfOk result (λ inst. length inst.study.relays ≡ 3) }
{
    build(
        alloc,
        relay_chain_study(alloc)?,
        relay_chain_currents(alloc)?,
    )
}

fn relay_chain_study(alloc: Global) -> Result<Study, NoMemory>
    ensures fits { IfOk result (λ study. FitsStudy (study_data study)) }
    ensures faults { IfOk result (λ study. length study.faults.items ≡ 3) }
    ensures relays { IfOk result (λ study. length study.relays.items ≡ 3) }
{
    let lines = [
        Line {
            name: name(),
            from: 0,
            to: 1,
        },
        Line {
            name: name(),
            from: 1,
            to: 2,
        },
        Line {
            name: name(),
            from: 2,
            to: 3,
        },
    ];
    let relays = [
        Relay {
            most_ms: 81,
            ..relay(0, 0, 2, 2, 500, 0)
        },
        relay(1, 1, 2, 2, 500, 0),
        relay(2, 2, 1, 1_000, 1, 0),
    ];
    Ok(Study {
        format: 2,
        cti_ms: 30,
        sense: 110,
        cap: 20,
        load_percent: 120,
        buses: Vec::from_slice(alloc, &[name(), name(), name(), name()])?,
        lines: Vec::from_slice(alloc, &lines)?,
        relays: Vec::from_slice(alloc, &relays)?,
        faults: Vec::from_slice(alloc, &[fault(2), fault(1), fault(0)])?,
        exempt: Vec::new(alloc),
        intervals: Vec::new(alloc),
    })
}

fn relay_chain_currents(alloc: Global) -> Result<Currents, NoMemory>
    ensures few { IfOk result (λ currents. length (entries_of currents) ≤ 8192) }
    ensures each { IfOk result (λ currents. All (λ entry. (entry.fault < 3) × (entry.relay < 3) × (entry.amps ≤ 100000)) (entries_of currents)) }
{
    let entries = [
        Current {
            fault: 0,
            relay: 2,
            amps: 1_000,
        },
        Current {
            fault: 0,
            relay: 1,
            amps: 400,
        },
        Current {
            fault: 1,
            relay: 1,
            amps: 1_000,
        },
        Current {
            fault: 1,
            relay: 0,
            amps: 400,
        },
        Current {
            fault: 2,
            relay: 0,
            amps: 1_000,
        },
    ];
    Ok(Currents {
        entries: Vec::from_slice(alloc, &entries)?,
    })
}
