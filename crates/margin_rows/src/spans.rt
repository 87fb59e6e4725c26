//! The pickup steps of the first box: those that sense each current that counts, and clear the load.
ghost use Rattle.std.specs.Prelude.{◌≡◌, ℕ, ◌<◌, ◌≤◌, ◌↔◌, length, Contains, IfOk, IsTrue, IsSomeAnd, slice_get};
ghost use Rattle.coord_model.specs.Allowed.{Senses, ClearsLoad, IsUsed};
ghost use Rattle.coord_model.specs.Limits.{FitsStudy};
ghost use Rattle.coord_model.specs.PartLimits.{FitsRelay};
ghost use Rattle.coord_model.specs.StudyData.{study_data};
ghost use Rattle.coord_model.specs.Time.{plug_at};
ghost use Rattle.margin_rows.specs.Case.{rows_in, terms_in};
ghost use Rattle.margin_rows.specs.FirstBox.{IsFirstSpanOf};
ghost use Rattle.margin_rows.specs.Reach.{steps_of, AreReaches, IsCut, IsClearSpan};

use crate::given::Given;
use coord_model::{NoMemory, Relay, Row, Study, Term};
use std::alloc::Global;

/// The span of each relay in the first box.
pub fn first_spans(
    alloc: Global,
    given: &Given,
    terms: &[Term],
    rows: &[Row],
) -> Result<Vec<Option<(u16, u16)>>, NoMemory>
    requires terms { terms.now ≡ terms_in given.now }
    requires rows { rows.now ≡ rows_in given.now }

    ensures count { IfOk result (λ spans. length spans.items ≡ length given.now.study.relays) }
    ensures each { IfOk result (λ spans. (i : ℕ) → i < length given.now.study.relays → IsSomeAnd (slice_get spans.items i) (IsFirstSpanOf given.now i)) }
{
    let mut reach = all_steps(alloc, given)?;
    let left = reach.as_mut_slice();
    leave_terms(given, terms, left);
    leave_rows(given, terms, rows, left);
    spans(alloc, given, reach.as_slice())
}

/// The number of pickup steps of each relay.
fn all_steps(alloc: Global, given: &Given) -> Result<Vec<u16>, NoMemory>
    ensures { IfOk result (λ reach. AreReaches given.now (λ f i. ⊥) reach.items) }
{
    let mut reach = Vec::new(alloc);
    for relay in given.study().relays.as_slice() {
        reach.push(relay.plug_count as u16)?;
    }
    Ok(reach)
}

/// Leaves the steps that sense the currents of the terms.
fn leave_terms(given: &Given, terms: &[Term], reach: &mut [u16])
    requires terms { terms.now ≡ terms_in given.now }
    requires reach { AreReaches given.now (λ f i. ⊥) reach.old }
    ensures { AreReaches given.now (λ f i. Contains terms.now (record { fault = f; relay = i })) reach.new }
{
    for term in terms {
        let place = usize::from(term.relay);
        reach[place] = sensing(given, term.fault, term.relay, reach[place]);
    }
}

/// Leaves the steps that sense the currents of the rows' backups too.
fn leave_rows(given: &Given, terms: &[Term], rows: &[Row], reach: &mut [u16])
    requires terms { terms.now ≡ terms_in given.now }
    requires rows { rows.now ≡ rows_in given.now }
    requires reach { AreReaches given.now (λ f i. Contains terms.now (record { fault = f; relay = i })) reach.old }
    ensures { AreReaches given.now (IsUsed given.now.study given.now.currents) reach.new }
{
    for row in rows {
        let place = usize::from(row.backup);
        reach[place] = sensing(given, row.fault, row.backup, reach[place]);
    }
}

/// How many of a relay's first steps sense its current at a fault.
fn sensing(given: &Given, fault: u16, relay: u16, reach: u16) -> u16
    requires fault { fault < length given.now.study.faults }
    requires relay { relay < length given.now.study.relays }
    requires reach { reach ≤ steps_of given.now relay }
    ensures { IsCut given.now fault relay reach result }
{
    let amps = given.amps(fault, relay);
    let study = given.study();
    let mut past = reach;
    while past > 0 && !senses(study, &study.relays[usize::from(relay)], past - 1, amps) {
        past -= 1;
    }
    past
}

/// Whether a pickup step senses a current: at the least multiple of pickup or above.
pub fn senses(study: &Study, relay: &Relay, step: u16, amps: u32) -> bool
    requires study { FitsStudy (study_data study.now) }
    requires relay { FitsRelay (study_data study.now) relay.now }
    requires step { step < relay.now.plug_count }
    requires amps { amps ≤ 100000 }
    ensures { IsTrue result ↔ Senses (study_data study.now) relay.now step amps }
{
    let num = 100 * u64::from(amps) * u64::from(relay.ct_secondary);
    let den = plug(relay, step) * u64::from(relay.ct_primary);
    u64::from(study.sense) * den <= 100 * num
}

/// Whether a pickup step clears the load.
fn clears_load(study: &Study, relay: &Relay, step: u16) -> bool
    requires study { FitsStudy (study_data study.now) }
    requires relay { FitsRelay (study_data study.now) relay.now }
    requires step { step < relay.now.plug_count }
    ensures { IsTrue result ↔ ClearsLoad (study_data study.now) relay.now step }
{
    let load = u64::from(study.load_percent)
        * u64::from(relay.load_amps)
        * u64::from(relay.ct_secondary);
    load <= plug(relay, step) * u64::from(relay.ct_primary)
}

/// The plug at a pickup step, in hundredths of a secondary ampere.
pub fn plug(relay: &Relay, step: u16) -> u64
    ensures { result ≡ plug_at relay.now step }
{
    u64::from(relay.plug_first) + u64::from(step) * u64::from(relay.plug_step)
}

/// The spans from the steps that sense, by leaving out those that do not clear the load.
fn spans(alloc: Global, given: &Given, reach: &[u16]) -> Result<Vec<Option<(u16, u16)>>, NoMemory>
    requires { AreReaches given.now (IsUsed given.now.study given.now.currents) reach.now }

    ensures count { IfOk result (λ spans. length spans.items ≡ length given.now.study.relays) }
    ensures each { IfOk result (λ spans. (i : ℕ) → i < length given.now.study.relays → IsSomeAnd (slice_get spans.items i) (IsFirstSpanOf given.now i)) }
{
    let mut spans = Vec::new(alloc);
    for relay in 0..given.study().relays.len() as u16 {
        spans.push(span(given, relay, reach[usize::from(relay)]))?;
    }
    Ok(spans)
}

/// The steps below `past` that clear the load. `None`: there are none.
fn span(given: &Given, relay: u16, past: u16) -> Option<(u16, u16)>
    requires relay { relay < length given.now.study.relays }
    requires past { past ≤ steps_of given.now relay }
    ensures { IsClearSpan given.now relay past result }
{
    let study = given.study();
    for step in 0..past {
        if clears_load(study, &study.relays[usize::from(relay)], step) {
            return Some((step, past - 1));
        }
    }
    None
}
