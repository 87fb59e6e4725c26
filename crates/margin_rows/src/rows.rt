//! The rows: where a backup has to wait for a primary, and where a time has a limit of its own.
ghost use Rattle.std.specs.Prelude.{◌≡◌, ℕ, ◌<◌, ◌≤◌, ◌++◌, length, map, filter, IfOk, IfErr, OnOk};
ghost use Rattle.coord_model.specs.Pairs.{pairs_of};
ghost use Rattle.coord_model.specs.Rows.{rows_at, interval_rows, limit_row};
ghost use Rattle.margin_rows.specs.Case.{rows_in, terms_in};
ghost use Rattle.margin_rows.specs.Refusal.{HasCause};
ghost use Rattle.margin_rows.specs.Waiting.{waits_at, has_limit};

use crate::fault::BuildFault;
use crate::given::Given;
use crate::terms::is_primary;
use coord_model::limits::MOST_ROWS;
use coord_model::{NoMemory, Pair, Row, RowKind, Term};
use std::alloc::Global;

/// The rows: the interval rows by fault, then by primary, then by backup; the least rows by fault and then by relay;
/// the most rows in the same order.
pub fn rows(
    alloc: Global,
    given: &Given,
    pairs: &[Pair],
    terms: &[Term],
) -> Result<Vec<Row>, BuildFault>
    requires pairs { pairs.now ≡ pairs_of given.now.study }
    requires terms { terms.now ≡ terms_in given.now }
    ensures rows { IfOk result (λ rows. rows.items ≡ rows_in given.now) }
    ensures few { IfOk result (λ rows. length rows.items ≤ 4096) }
    ensures refused { IfErr result (HasCause given.now) }
{
    let mut rows = interval_rows(alloc, given, pairs)?;
    push_limit_rows(given, RowKind::Least, terms, &mut rows)?;
    push_limit_rows(given, RowKind::Most, terms, &mut rows)?;
    if rows.len() > MOST_ROWS as usize {
        return Err(BuildFault::TooManyRows { limit: MOST_ROWS });
    }
    Ok(rows)
}

/// The interval rows.
fn interval_rows(alloc: Global, given: &Given, pairs: &[Pair]) -> Result<Vec<Row>, BuildFault>
    requires { pairs.now ≡ pairs_of given.now.study }
    ensures rows { IfOk result (λ rows. rows.items ≡ interval_rows given.now.study given.now.currents) }
    ensures refused { IfErr result (HasCause given.now) }
{
    let mut rows = Vec::new(alloc);
    for fault in 0..given.study().faults.len() as u16 {
        push_rows_at(given, pairs, fault, &mut rows)?;
        if rows.len() > MOST_ROWS as usize {
            return Err(BuildFault::TooManyRows { limit: MOST_ROWS });
        }
    }
    Ok(rows)
}

/// Adds the rows of the least times, or of the greatest times.
fn push_limit_rows(
    given: &Given,
    kind: RowKind,
    terms: &[Term],
    rows: &mut Vec<Row>,
) -> Result<(), NoMemory>
    requires { terms.now ≡ terms_in given.now }
    ensures { OnOk result (rows.new.items ≡ rows.old.items ++ map (limit_row kind) (filter (has_limit given.now kind) (terms_in given.now))) }
{
    for term in terms {
        if has_limit(given, kind, term.relay) {
            rows.push(limit_row(kind, *term))?;
        }
    }
    Ok(())
}

/// Whether a relay has a least time, or a greatest time.
fn has_limit(given: &Given, kind: RowKind, relay: u16) -> bool
    requires { relay < length given.now.study.relays }
    ensures { (f : ℕ) → result ≡ has_limit given.now kind (record { fault = f; relay = relay }) }
{
    let relay = &given.study().relays[usize::from(relay)];
    match kind {
        RowKind::Interval => false,
        RowKind::Least => relay.least_ms > 0,
        RowKind::Most => relay.most_ms > 0,
    }
}

/// The row of a kind that limits the time of a term.
fn limit_row(kind: RowKind, term: Term) -> Row
    ensures { result ≡ limit_row kind term }
{
    Row {
        kind,
        fault: term.fault,
        backup: term.relay,
        primary: term.relay,
    }
}

/// Adds the rows of a fault.
fn push_rows_at(
    given: &Given,
    pairs: &[Pair],
    fault: u16,
    rows: &mut Vec<Row>,
) -> Result<(), NoMemory>
    requires pairs { pairs.now ≡ pairs_of given.now.study }
    requires fault { fault < length given.now.study.faults }
    ensures { OnOk result (rows.new.items ≡ rows.old.items ++ rows_at given.now.study given.now.currents fault) }
{
    for pair in pairs {
        if waits(given, fault, pair) {
            rows.push(Row {
                kind: RowKind::Interval,
                fault,
                backup: pair.backup,
                primary: pair.primary,
            })?;
        }
    }
    Ok(())
}

/// Whether at a fault the primary of a pair clears it and the backup has a current.
fn waits(given: &Given, fault: u16, pair: &Pair) -> bool
    requires fault { fault < length given.now.study.faults }
    requires backup { pair.now.backup < length given.now.study.relays }
    requires primary { pair.now.primary < length given.now.study.relays }
    ensures { result ≡ waits_at given.now fault pair.now }
{
    is_primary(given, fault, pair.primary) && given.amps(fault, pair.backup) > 0
}
