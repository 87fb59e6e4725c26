//! The whole table.
ghost use Rattle.std.specs.Prelude.{◌≡◌, ◌≢◌, ◌≤◌, [], ◌∷◌, ◌<◌, ℕ, suc, Ok, Err, length, IfOk, IfErr, IfSome, IsErrOf, IsSome, MatchResult, All};
ghost use Rattle.std.specs.List.{AllPairs, list_any};
ghost use Rattle.csv.specs.Records.{fields_of};
ghost use Rattle.coord_model.specs.Limits.{FitsStudy, FitsCurrent, FitsCurrents};
ghost use Rattle.coord_model.specs.StudyData.{entries_of, study_data};
ghost use Rattle.fault_table.specs.Records.{IsReading, records_left};
ghost use Rattle.fault_table.specs.Table.{AreForOne, HavePrimaries, currents_of, GoesOn, entries_from, feeds, is_header, table_of, unfed_fault};

use crate::entry::{next_entry, three_fields};
use crate::fault::TableFault;
use crate::records::next_record;
use coord_model::{Current, Currents, Study};
use csv::{ByteRecord, Reader, ReaderBuilder};
use std::alloc::Global;
use std::io::Read;

/// The currents of a table's bytes, or its first fault: the header, then each record in turn (too many, not three
/// fields, an unknown fault, an unknown relay, bad amperes, a repeated entry), then a fault of the study at which
/// no relay on its line has a current. One leading byte order mark is dropped.
pub fn read_currents(alloc: Global, study: &Study, bytes: &[u8]) -> Result<Currents, TableFault>
    requires { FitsStudy (study_data study.now) }
    ensures exact { MatchResult result
        (λ currents. currents_of (study_data study.now) bytes.now ≡ Ok (entries_of currents))
        (λ fault. fault ≢ TableFault.NoMemory → currents_of (study_data study.now) bytes.now ≡ Err fault) }
    ensures fits { IfOk result (λ currents. FitsCurrents (study_data study.now) (entries_of currents)) }
    ensures primaries { IfOk result (λ currents. HavePrimaries (study_data study.now) (entries_of currents)) }
    ensures once { IfOk result (λ currents. AllPairs (λ one other. ¬ (AreForOne one other)) (entries_of currents)) }
    ensures named { (fault : ℕ) → IsErrOf result (TableFault.NoPrimary fault) → fault < length (study_data study.now).faults }
{
    let mut reader = ReaderBuilder::new()
        .has_headers(false)
        .flexible(true)
        .from_reader(alloc, bytes);
    let mut fields = ByteRecord::new(alloc);
    read_table(alloc, study, &mut reader, &mut fields)
}

/// The currents of the records that the reader has left, up to one more than a table may have.
fn read_table<R: Read>(
    alloc: Global,
    study: &Study,
    reader: &mut Reader<R>,
    fields: &mut ByteRecord,
) -> Result<Currents, TableFault>
    requires fits { FitsStudy (study_data study.now) }
    requires reading { IsReading R.remaining reader.old }
    ensures exact { MatchResult result
        (λ currents. table_of (study_data study.now) (records_left R.remaining 8194 reader.old) ≡ Ok (entries_of currents))
        (λ fault. fault ≢ TableFault.NoMemory → table_of (study_data study.now) (records_left R.remaining 8194 reader.old) ≡ Err fault) }
    ensures fits { IfOk result (λ currents. FitsCurrents (study_data study.now) (entries_of currents)) }
{
    if !next_record(reader, fields)? {
        return Err(TableFault::BadHeader);
    }
    if !is_header(fields) {
        return Err(TableFault::BadHeader);
    }
    let entries = read_entries(alloc, study, reader, fields)?;
    if let Some(fault) = unfed_fault(study, &entries) {
        return Err(TableFault::NoPrimary { fault });
    }
    Ok(Currents { entries })
}

/// Whether a record is the header.
#[tactic(auto, unfolding(crate::specs::Table::is_header))]
fn is_header(fields: &ByteRecord) -> bool
    ensures { result ≡ is_header (fields_of fields.now) }
{
    match three_fields(fields) {
        Some((fault, relay, amps)) => fault == b"fault".as_slice()
            && relay == b"relay".as_slice()
            && amps == b"amps".as_slice(),
        None => false,
    }
}

/// The entries of the records that the reader has left.
fn read_entries<R: Read>(
    alloc: Global,
    study: &Study,
    reader: &mut Reader<R>,
    fields: &mut ByteRecord,
) -> Result<Vec<Current>, TableFault>
    requires fits { FitsStudy (study_data study.now) }
    requires reading { IsReading R.remaining reader.old }
    ensures exact { MatchResult result
        (λ entries. entries_from (study_data study.now) [] (records_left R.remaining 8193 reader.old) ≡ Ok entries.items)
        (λ fault. fault ≢ TableFault.NoMemory → entries_from (study_data study.now) [] (records_left R.remaining 8193 reader.old) ≡ Err fault) }
    ensures fits { IfOk result (λ entries. FitsCurrents (study_data study.now) entries.items) }
{
    let mut entries = Vec::new(alloc);
    while let Some(entry) = read_entry(study, &entries, reader, fields)? {
        entries.push(entry)?;
    }
    Ok(entries)
}

/// The entry of the next record, after the earlier ones, if there is a record.
fn read_entry<R: Read>(
    study: &Study,
    earlier: &[Current],
    reader: &mut Reader<R>,
    fields: &mut ByteRecord,
) -> Result<Option<Current>, TableFault>
    requires fits { FitsStudy (study_data study.now) }
    requires reading { IsReading R.remaining reader.old }
    requires few { length earlier.now ≤ 8192 }
    ensures next { IfOk result (λ found. GoesOn (study_data study.now) earlier.now
        (λ n. records_left R.remaining n reader.old) (λ n. records_left R.remaining n reader.new) found) }
    ensures fault { IfErr result (λ fault. fault ≢ TableFault.NoMemory → (n : ℕ)
        → entries_from (study_data study.now) earlier.now (records_left R.remaining (suc n) reader.old) ≡ Err fault) }
    ensures reading { IfOk result (λ found. IsSome found → IsReading R.remaining reader.new) }
    ensures fits { IfOk result (λ found. IfSome found (FitsCurrent (study_data study.now))) }
    ensures room { IfOk result (λ found. IsSome found → length earlier.now < 8192) }
{
    if !next_record(reader, fields)? {
        return Ok(None);
    }
    let entry = next_entry(study, earlier, fields)?;
    Ok(Some(entry))
}

/// The first fault at which no relay on its line has a current.
#[tactic(auto, unfolding(crate::specs::Table::unfed_fault))]
fn unfed_fault(study: &Study, entries: &[Current]) -> Option<u16>
    requires fits { FitsStudy (study_data study.now) }
    requires entries { FitsCurrents (study_data study.now) entries.now }
    ensures { result ≡ unfed_fault (study_data study.now) entries.now }
{
    for fault in 0..study.faults.len() {
        if !is_fed(study, fault, entries) {
            return Some(fault as u16);
        }
    }
    None
}

/// Whether a relay on the fault's line has a current at it.
fn is_fed(study: &Study, fault: usize, entries: &[Current]) -> bool
    requires entries { FitsCurrents (study_data study.now) entries.now }
    ensures { result ≡ list_any (feeds (study_data study.now) fault) entries.now }
{
    entries.iter().any(|entry| feeds(study, fault, entry))
}

/// Whether the entry is a current of a relay on the fault's line at the fault.
fn feeds(study: &Study, fault: usize, entry: &Current) -> bool
    ensures { result ≡ feeds (study_data study.now) fault entry.now }
{
    if usize::from(entry.fault) != fault || entry.amps == 0 {
        return false;
    }
    match (
        study.faults.get(fault),
        study.relays.get(usize::from(entry.relay)),
    ) {
        (Some(fault), Some(relay)) => relay.line == fault.line,
        _ => false,
    }
}
