//! A study without files: a ring of buses with a line from each to the next, a relay at each end of each line, and two
//! faults on each line.
//!
//! Numbers `k` of buses, lines, relays and faults run round the ring from 1 to `n`. Whether the ring can be coordinated
//! is left to others.
#![tactic(auto)]

mod currents;
mod names;
mod study;
#[cfg(test)]
mod tests;

ghost use Rattle.std.specs.Prelude.{◌≡◌, ◌≤◌, IfOk};
ghost use Rattle.coord_model.specs.Limits.{FitsStudy, FitsCurrents};
ghost use Rattle.coord_model.specs.StudyData.{study_data, entries_of};
ghost use Rattle.drill_ring.specs.Drill.{drill_data};
ghost use Rattle.drill_ring.specs.DrillCurrents.{drill_currents};

use crate::currents::currents;
use crate::study::study;
use coord_model::{Currents, NoMemory, Study};
use std::alloc::Global;

/// The study of a ring of `n` buses, and its currents.
pub fn drill_study(alloc: Global, n: u32) -> Result<(Study, Currents), NoMemory>
    requires ring { (3 ≤ n) × (n ≤ 48) }

    ensures exact { IfOk result (λ made. (study_data made.0 ≡ drill_data n) × (entries_of made.1 ≡ drill_currents n)) }

    // Usable in a case.
    ensures fits { IfOk result (λ made. FitsStudy (study_data made.0) × FitsCurrents (study_data made.0) (entries_of made.1)) }
{
    let n = n as u16;
    Ok((study(alloc, n)?, currents(alloc, n)?))
}
