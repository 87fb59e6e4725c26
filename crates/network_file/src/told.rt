//! A network file as it is told: its tables in order, each read whole.
ghost use Rattle.std.specs.Prelude.{◌≡◌, ◌+◌, ◌-◌, ◌^◌, ◌<◌, ◌≤◌, length, map, vec_len, All, IfOk, OnOk};
ghost use Rattle.coord_model.specs.PartLimits.{IsBetween};
ghost use Rattle.network_file.specs.EntryLimits.{StudyKeeps, RelaySuits, FaultKeeps, IntervalKeeps, IntervalsSuit, ToldKeeps};
ghost use Rattle.network_file.specs.Fault.{Gives, Reads};
ghost use Rattle.network_file.specs.Tables.{within, elements_at, some_elements_at};
ghost use Rattle.network_file.specs.Elements.{top, place_after, entry_at, entries_of, lines_at, relays_at, faults_at, exempt_at, intervals_at};
ghost use Rattle.network_file.specs.Told.{told_data, told_in, study_at};
ghost use Rattle.toml.specs.View.{view, table_view};

use crate::entries::{
    Entry, ExemptEntry, FaultEntry, IntervalEntry, LineEntry, RelayEntry, StudyEntry,
};
use crate::fault::{NetFault, Place};
use crate::fields::{Fields, member};
use coord_model::limits::{
    LAST_FORMAT, MOST_EXEMPT, MOST_FAULTS, MOST_INTERVALS, MOST_LINES, MOST_RELAYS,
};
use coord_model::{Key, NetKind, TableName, What};
use std::alloc::Global;
use toml::{Table, Value};

/// What a network file tells, with names where a study has numbers.
#[derive(Drop)]
pub(crate) struct Told {
    pub format: u32,
    pub study: StudyEntry,
    pub lines: Vec<LineEntry>,
    pub relays: Vec<RelayEntry>,
    pub faults: Vec<FaultEntry>,
    pub exempt: Vec<ExemptEntry>,
    pub intervals: Vec<IntervalEntry>,
}

/// The top of the document.
const TOP: Place = Place {
    table: TableName::Top,
    index: 0,
};

/// The study.
const STUDY: Place = Place {
    table: TableName::Study,
    index: 0,
};

/// What a document tells.
#[tactic(auto, unfolding(crate::specs::Told::told_in))]
pub(crate) fn told_in(alloc: Global, document: &Table) -> Result<Told, NetFault>
    ensures exact { Gives told_data result (told_in (table_view document.now)) }
    ensures keeps { IfOk result (λ told. ToldKeeps (told_data told)) }
    ensures suits { IfOk result (λ told. IntervalsSuit (told_data told)) }
{
    let top = Fields {
        table: document,
        place: TOP,
    };
    let format = top.number(Key::Format, 1, LAST_FORMAT)?;
    top.only(
        format,
        &[
            Key::Format,
            Key::Study,
            Key::Line,
            Key::Relay,
            Key::Fault,
            Key::Exempt,
            Key::Interval,
        ],
    )?;
    Ok(Told {
        format,
        study: study_at(format, document)?,
        lines: lines_at(alloc, format, document)?,
        relays: relays_at(alloc, format, document)?,
        faults: faults_at(alloc, format, document)?,
        exempt: exempt_at(alloc, format, document)?,
        intervals: intervals_at(alloc, format, document)?,
    })
}

#[tactic(auto, unfolding(crate::specs::Told::study_at))]
fn study_at(format: u32, document: &Table) -> Result<StudyEntry, NetFault>
    ensures exact { result ≡ study_at format (table_view document.now) }
    ensures keeps { IfOk result StudyKeeps }
{
    let Some(value) = member(document, Key::Study) else {
        return Err(TOP.fault(NetKind::Missing, Key::Study));
    };
    let Some(table) = value.as_table() else {
        return Err(TOP.fault(NetKind::WrongKind, Key::Study));
    };
    StudyEntry::read(
        format,
        Fields {
            table,
            place: STUDY,
        },
    )
}

#[tactic(auto, unfolding(crate::specs::Elements::lines_at))]
fn lines_at(alloc: Global, format: u32, document: &Table) -> Result<Vec<LineEntry>, NetFault>
    ensures exact { Gives (λ v. v.items) result (lines_at format (table_view document.now)) }
    ensures count { IfOk result (λ v. IsBetween 1 (vec_len v) 64) }
{
    let elements = some_elements_at(document, Key::Line)?;
    within(What::Lines, MOST_LINES, elements.len())?;
    entries_of(alloc, format, TableName::Line, elements)
}

#[tactic(auto, unfolding(crate::specs::Elements::relays_at))]
fn relays_at(alloc: Global, format: u32, document: &Table) -> Result<Vec<RelayEntry>, NetFault>
    ensures exact { Gives (λ v. v.items) result (relays_at format (table_view document.now)) }
    ensures count { IfOk result (λ v. IsBetween 1 (vec_len v) 96) }
    ensures keeps { IfOk result (λ v. All (RelaySuits format) v.items) }
{
    let elements = some_elements_at(document, Key::Relay)?;
    within(What::Relays, MOST_RELAYS, elements.len())?;
    entries_of(alloc, format, TableName::Relay, elements)
}

#[tactic(auto, unfolding(crate::specs::Elements::faults_at))]
fn faults_at(alloc: Global, format: u32, document: &Table) -> Result<Vec<FaultEntry>, NetFault>
    ensures exact { Gives (λ v. v.items) result (faults_at format (table_view document.now)) }
    ensures count { IfOk result (λ v. vec_len v ≤ 256) }
    ensures keeps { IfOk result (λ v. All FaultKeeps v.items) }
{
    let elements = elements_at(document, Key::Fault)?;
    within(What::Faults, MOST_FAULTS, elements.len())?;
    entries_of(alloc, format, TableName::Fault, elements)
}

#[tactic(auto, unfolding(crate::specs::Elements::exempt_at))]
fn exempt_at(alloc: Global, format: u32, document: &Table) -> Result<Vec<ExemptEntry>, NetFault>
    ensures exact { Gives (λ v. v.items) result (exempt_at format (table_view document.now)) }
    ensures count { IfOk result (λ v. vec_len v ≤ 1024) }
{
    let elements = elements_at(document, Key::Exempt)?;
    within(What::Exempt, MOST_EXEMPT, elements.len())?;
    entries_of(alloc, format, TableName::Exempt, elements)
}

#[tactic(auto, unfolding(crate::specs::Elements::intervals_at))]
fn intervals_at(
    alloc: Global,
    format: u32,
    document: &Table,
) -> Result<Vec<IntervalEntry>, NetFault>
    ensures exact { Gives (λ v. v.items) result (intervals_at format (table_view document.now)) }
    ensures count { IfOk result (λ v. vec_len v ≤ 1024) }
    ensures keeps { IfOk result (λ v. All IntervalKeeps v.items) }
{
    let elements = elements_at(document, Key::Interval)?;
    within(What::Intervals, MOST_INTERVALS, elements.len())?;
    entries_of(alloc, format, TableName::Interval, elements)
}

/// The elements of the array at a key of the top; none where the key isn't there.
#[tactic(auto, using(crate::proofs::ItemLists::listed_view), unfolding(crate::specs::Tables::elements_at))]
fn elements_at(document: &Table, key: Key) -> Result<&[Value], NetFault>
    ensures { Reads (λ s. map view s.now) result (elements_at top key (table_view document.now)) }
{
    let Some(value) = member(document, key) else {
        return Ok(&[]);
    };
    match value.as_array() {
        Some(array) => Ok(array.as_slice()),
        None => Err(TOP.fault(NetKind::WrongKind, key)),
    }
}

/// The elements of the array at a key of the top, which has some.
#[tactic(auto, unfolding(crate::specs::Tables::some_elements_at))]
fn some_elements_at(document: &Table, key: Key) -> Result<&[Value], NetFault>
    ensures exact { Reads (λ s. map view s.now) result (some_elements_at top key (table_view document.now)) }
    ensures some { IfOk result (λ s. 0 < length s.now) }
{
    let elements = elements_at(document, key)?;
    if elements.is_empty() {
        return Err(TOP.fault(NetKind::Missing, key));
    }
    Ok(elements)
}

/// Refuses more than the limit.
#[tactic(auto, unfolding(crate::specs::Tables::within))]
pub(crate) fn within(what: What, limit: u32, count: usize) -> Result<(), NetFault>
    ensures exact { result ≡ within what limit count }
    ensures few { OnOk result (count ≤ limit) }
{
    if count > limit as usize {
        return Err(NetFault::TooMany { what, limit });
    }
    Ok(())
}

/// The elements of an array as entries.
fn entries_of<E: Entry>(
    alloc: Global,
    format: u32,
    table: TableName,
    elements: &[Value],
) -> Result<Vec<E>, NetFault>
    requires { length elements.now ≤ 1024 }
    ensures exact { Gives (λ v. v.items) result (entries_of (E.entry_of format) table (map view elements.now)) }
    ensures count { IfOk result (λ v. vec_len v ≡ length elements.now) }
    ensures keeps { IfOk result (λ v. All (E.Keeps format) v.items) }
{
    let mut entries = Vec::with_capacity(alloc, elements.len())?;
    for element in elements {
        let place = place_after(table, &entries);
        entries.push(entry_at(format, place, element)?)?;
    }
    Ok(entries)
}

/// The place of the element after those before it.
pub(crate) fn place_after<T>(table: TableName, before: &[T]) -> Place
    requires { length before.now ≤ 1024 }
    ensures { result ≡ place_after table before.now }
{
    Place {
        table,
        index: before.len() as u16 + 1,
    }
}

/// An element as an entry: it has to be a table.
#[tactic(auto, unfolding(crate::specs::Elements::entry_at))]
fn entry_at<E: Entry>(format: u32, place: Place, element: &Value) -> Result<E, NetFault>
    ensures exact { result ≡ entry_at (E.entry_of format) place (view element.now) }
    ensures keeps { IfOk result (E.Keeps format) }
{
    let Some(table) = element.as_table() else {
        return Err(place.whole_fault(NetKind::WrongKind));
    };
    E::read(format, Fields { table, place })
}
