//! One relay alone.
ghost use Rattle.std.specs.Prelude.{◌≡◌, ◌<◌, ◌≤◌, All, IfOk, length};
ghost use Rattle.coord_model.specs.Limits.{FitsStudy};
ghost use Rattle.coord_model.specs.StudyData.{study_data, entries_of};

use crate::{fault, name, relay};
use coord_model::{Current, Currents, Line, NoMemory, Study};
use margin_rows::{BuildFault, Instance, build};
use std::alloc::Global;

/// One line with a relay of two pickups at its front and one dial, 0.050, and a fault of 100,000 A: at both pickups the
/// multiple is the cap of 20.
pub fn capped_line(alloc: Global) -> Result<Instance, BuildFault>
    ensures { IfOk result (λ inst. length inst.study.relays ≡ 1) }
{
    build(
        alloc,
        capped_line_study(alloc)?,
        capped_line_currents(alloc)?,
    )
}

fn capped_line_study(alloc: Global) -> Result<Study, NoMemory>
    ensures fits { IfOk result (λ study. FitsStudy (study_data study)) }
    ensures faults { IfOk result (λ study. length study.faults.items ≡ 1) }
    ensures relays { IfOk result (λ study. length study.relays.items ≡ 1) }
{
    let line = Line {
        name: name(),
        from: 0,
        to: 1,
    };
    Ok(Study {
        format: 1,
        cti_ms: 300,
        sense: 110,
        cap: 20,
        load_percent: 120,
        buses: Vec::from_slice(alloc, &[name(), name()])?,
        lines: Vec::from_slice(alloc, &[line])?,
        relays: Vec::from_slice(alloc, &[relay(0, 0, 2, 50, 1, 0)])?,
        faults: Vec::from_slice(alloc, &[fault(0)])?,
        exempt: Vec::new(alloc),
        intervals: Vec::new(alloc),
    })
}

fn capped_line_currents(alloc: Global) -> Result<Currents, NoMemory>
    ensures few { IfOk result (λ currents. length (entries_of currents) ≤ 8192) }
    ensures each { IfOk result (λ currents. All (λ entry. (entry.fault < 1) × (entry.relay < 1) × (entry.amps ≤ 100000)) (entries_of currents)) }
{
    let entry = Current {
        fault: 0,
        relay: 0,
        amps: 100_000,
    };
    Ok(Currents {
        entries: Vec::from_slice(alloc, &[entry])?,
    })
}
