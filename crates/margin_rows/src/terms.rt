//! The terms: which operating times count.
ghost use Rattle.std.specs.Prelude.{◌≡◌, ◌<◌, ◌++◌, length, IfOk, OnOk};
ghost use Rattle.coord_model.specs.Rows.{is_primary, terms_at};
ghost use Rattle.margin_rows.specs.Case.{terms_in};

use crate::given::Given;
use coord_model::{NoMemory, Term};
use std::alloc::Global;

/// The terms, by fault and then by relay.
pub fn terms(alloc: Global, given: &Given) -> Result<Vec<Term>, NoMemory>
    ensures { IfOk result (λ terms. terms.items ≡ terms_in given.now) }
{
    let mut terms = Vec::new(alloc);
    for fault in 0..given.study().faults.len() as u16 {
        push_terms_at(given, fault, &mut terms)?;
    }
    Ok(terms)
}

/// Adds the terms of a fault.
fn push_terms_at(given: &Given, fault: u16, terms: &mut Vec<Term>) -> Result<(), NoMemory>
    requires { fault < length given.now.study.faults }
    ensures { OnOk result (terms.new.items ≡ terms.old.items ++ terms_at given.now.study given.now.currents fault) }
{
    for relay in 0..given.study().relays.len() as u16 {
        if is_primary(given, fault, relay) {
            terms.push(Term { fault, relay })?;
        }
    }
    Ok(())
}

/// Whether a relay stands on a fault's line and has a current at it.
pub fn is_primary(given: &Given, fault: u16, relay: u16) -> bool
    requires fault { fault < length given.now.study.faults }
    requires relay { relay < length given.now.study.relays }
    ensures { result ≡ is_primary given.now.study given.now.currents fault relay }
{
    let study = given.study();
    let line = study.faults[usize::from(fault)].line;
    study.relays[usize::from(relay)].line == line && given.amps(fault, relay) > 0
}
