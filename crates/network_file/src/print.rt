//! A study as a network file.
ghost use Rattle.std.specs.Prelude.{◌≡◌, map, Some, Ok, All, IfOk, length, vec_len, string_bytes};
ghost use Rattle.coord_model.specs.Limits.{FitsStudy};
ghost use Rattle.coord_model.specs.StudyData.{study_data};
ghost use Rattle.coord_model.specs.declared.kinds.TableName.{TableName};
ghost use Rattle.network_file.specs.Elements.{entries_of};
ghost use Rattle.network_file.specs.EntryLimits.{IntervalsSuit, ToldKeeps};
ghost use Rattle.network_file.specs.Network.{network_of};
ghost use Rattle.network_file.specs.Printed.{IsPlain, ArePlain};
ghost use Rattle.network_file.specs.Rules.{IsNamed, IsInFormat};
ghost use Rattle.network_file.specs.Told.{told_data, told_in};
ghost use Rattle.toml.specs.Parse.{parse_document};
ghost use Rattle.toml.specs.View.{view, array_view, table_view};

use crate::entries::Entry;
use crate::named::told_of;
use crate::new_table::NewTable;
use crate::told::Told;
use coord_model::{Key, NoMemory, Study};
use std::alloc::{AllocError, Global};
use toml::ser::Error;
use toml::value::Array;
use toml::{Table, Value};

/// A text in the network file's format that reads as the study.
///
/// The text has the study's format. The study keeps the rules of a network file of that format, as each study that
/// is read does. Each key that the format has is written, also if its value is the default. The keys of a table
/// are in the order of their letters.
pub fn print_network(alloc: Global, study: &Study) -> Result<Vec<u8>, NoMemory>
    requires fits { FitsStudy (study_data study.now) }
    requires named { IsNamed (study_data study.now) }
    requires in_format { IsInFormat (study_data study.now) }
    ensures reads { IfOk result (λ text. network_of text.items ≡ Ok (study_data study.now)) }
{
    let told = told_of(alloc, study)?;
    let document = document_of(alloc, &told)?;
    let text = text_of(alloc, &document)?;
    Ok(text.into_bytes())
}

/// The document of what is told.
fn document_of(alloc: Global, told: &Told) -> Result<Table, AllocError>
    requires keeps { ToldKeeps (told_data told.now) }
    requires suits { IntervalsSuit (told_data told.now) }
    ensures reads { IfOk result (λ table. told_in (table_view table) ≡ Ok (told_data told.now)) }
    ensures plain { IfOk result (λ table. IsPlain 2 (table_view table)) }
{
    let mut table = NewTable::new(alloc);
    table.number(Key::Format, told.format)?;
    table.put(
        Key::Study,
        Value::from(told.study.table(alloc, told.format)?),
    )?;
    table.put(
        Key::Line,
        Value::from(array_of(alloc, told.format, &told.lines)?),
    )?;
    table.put(
        Key::Relay,
        Value::from(array_of(alloc, told.format, &told.relays)?),
    )?;
    table.put(
        Key::Fault,
        Value::from(array_of(alloc, told.format, &told.faults)?),
    )?;
    table.put(
        Key::Exempt,
        Value::from(array_of(alloc, told.format, &told.exempt)?),
    )?;
    let intervals = Value::from(array_of(alloc, told.format, &told.intervals)?);
    table.put_known(told.format, Key::Interval, intervals)?;
    Ok(table.done())
}

/// The entries as an array of tables.
fn array_of<E: Entry>(alloc: Global, format: u32, entries: &[E]) -> Result<Array, AllocError>
    requires { All (E.Keeps format) entries.now }
    ensures reads { IfOk result (λ array. (table : TableName) → entries_of (E.entry_of format) table (map view array.items) ≡ Ok entries.now) }
    ensures count { IfOk result (λ array. vec_len array ≡ length entries.now) }
    ensures plain { IfOk result (λ array. ArePlain 1 (array_view array)) }
{
    let mut tables = Vec::with_capacity(alloc, entries.len())?;
    for entry in entries {
        let table = entry.table(alloc, format)?;
        tables.push(Value::from(table))?;
    }
    Ok(tables)
}

/// The text of a document. Only memory can fail, since it has no dates.
fn text_of(alloc: Global, document: &Table) -> Result<String, NoMemory>
    requires { IsPlain 2 (table_view document.now) }
    ensures { IfOk result (λ text. parse_document (string_bytes text) ≡ Some (table_view document.now)) }
{
    match toml::table_to_string(alloc, document) {
        Ok(text) => Ok(text),
        Err(Error::OutOfMemory) => Err(NoMemory),
        Err(Error::DateInvalid) => unreachable!(),
    }
}
