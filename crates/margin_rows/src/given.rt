//! What is given: a study and its currents, with the currents as a table.
ghost use Rattle.std.specs.Prelude.{◌≡◌, ◌*◌, ◌<◌, ◌≤◌, [], length, All, IfOk};
ghost use Rattle.coord_model.specs.Cost.{weight_of};
ghost use Rattle.coord_model.specs.Limits.{FitsStudy, FitsCurrents};
ghost use Rattle.coord_model.specs.Rows.{amps_at};
ghost use Rattle.coord_model.specs.StudyData.{study_data, entries_of};
ghost use Rattle.margin_rows.specs.Case.{case_of};
ghost use Rattle.margin_rows.specs.Given.{HasPlace, HoldsAmps};

use coord_model::{Current, Currents, Fault, NoMemory, Relay, Study};
use std::alloc::Global;
use std::marker::Model;

/// A study and its currents, with a table of the current of each relay at each fault.
#[derive(Drop)]
pub struct Given {
    study: Study,
    currents: Currents,
    amps: Vec<u32>,
}

impl Model for Given {
    ghost use Rattle.margin_rows.specs.Case.{Case, case_of};
    ghost use Rattle.margin_rows.specs.Given.{IsGiven};

    ghost Value = { Case };

    ghost view = { λ a. case_of a.study a.currents };

    ghost invariant = { λ a. IsGiven (case_of a.study a.currents) a.amps.items };
}

impl Given {
    ghost use Rattle.coord_model.specs.Limits.{FitsStudy, FitsCurrents};

    /// A study and its currents, with their table.
    pub fn new(alloc: Global, study: Study, currents: Currents) -> Result<Given, NoMemory>
        requires study { FitsStudy (study_data study) }
        requires currents { FitsCurrents (study_data study) (entries_of currents) }
        ensures { IfOk result (λ given. given ≡ case_of study currents) }
    {
        let amps = amps(
            alloc,
            study.faults.len(),
            study.relays.len(),
            currents.entries.as_slice(),
        )?;
        Ok(Given {
            study,
            currents,
            amps,
        })
    }

    /// The study.
    pub fn study(&self) -> &Study
        ensures value { study_data result.now ≡ self.now.study }
        ensures study { FitsStudy self.now.study }
        ensures currents { FitsCurrents self.now.study self.now.currents }
    {
        &self.study
    }

    /// The weight of a fault.
    pub fn weight(&self, fault: u16) -> u64
        requires { fault < length self.now.study.faults }
        ensures exact { result ≡ weight_of self.now.study fault }
        ensures small { result ≤ 1000 }
    {
        u64::from(self.study().faults[usize::from(fault)].weight)
    }

    /// The current of a relay at a fault, in primary amperes; 0 for none.
    pub fn amps(&self, fault: u16, relay: u16) -> u32
        requires fault { fault < length self.now.study.faults }
        requires relay { relay < length self.now.study.relays }
        ensures { result ≡ amps_at self.now.currents fault relay }
    {
        self.amps[usize::from(fault) * self.study.relays.len() + usize::from(relay)]
    }
}

/// The table of the currents: the place of each relay at each fault, fault by fault.
fn amps(
    alloc: Global,
    faults: usize,
    relays: usize,
    entries: &[Current],
) -> Result<Vec<u32>, NoMemory>
    requires faults { faults ≤ 256 }
    requires relays { relays ≤ 96 }
    requires entries { All (λ entry. (entry.fault < faults) × (entry.relay < relays)) entries.now }

    ensures size { IfOk result (λ table. length table.items ≡ faults * relays) }
    ensures each { IfOk result (λ table. HoldsAmps relays entries.now table.items) }
{
    let mut table = vec![in alloc; 0; faults * relays]?;
    fill(relays, entries, table.as_mut_slice());
    Ok(table)
}

/// Writes each entry to its place in a table of zeros, unless an earlier entry above 0 stands there.
fn fill(relays: usize, entries: &[Current], table: &mut [u32])
    requires relays { relays ≤ 96 }
    requires places { All (HasPlace relays (length table.old)) entries.now }
    requires empty { HoldsAmps relays [] table.old }
    ensures { HoldsAmps relays entries.now table.new }
{
    for entry in entries {
        let place = usize::from(entry.fault) * relays + usize::from(entry.relay);
        if table[place] == 0 {
            table[place] = entry.amps;
        }
    }
}
