//! One record of the table.
ghost use Rattle.std.specs.Prelude.{◌≡◌, ◌+◌, ◌<◌, ◌≤◌, ◌^◌, length, IfOk, IfSome, IsTrue, option_map};
ghost use Rattle.std.specs.List.{list_all};
ghost use Rattle.std.specs.Str.{bytes_eq};
ghost use Rattle.csv.specs.Records.{fields_of};
ghost use Rattle.coord_model.specs.Limits.{FitsStudy, FitsCurrent};
ghost use Rattle.coord_model.specs.StudyData.{study_data};
ghost use Rattle.fault_table.specs.Entry.{amps_in, entry_of, fault_named, is_digit, is_repeated, next_entry, record_of, relay_named, three_fields, value_of};

use crate::fault::TableFault;
use coord_model::limits::{GREATEST_AMPS, MOST_CURRENTS};
use coord_model::{Current, Name, Study};
use csv::ByteRecord;

/// The entry of the record after the earlier ones.
#[tactic(auto, unfolding(crate::specs::Entry::next_entry))]
pub fn next_entry(
    study: &Study,
    earlier: &[Current],
    fields: &ByteRecord,
) -> Result<Current, TableFault>
    requires fits { FitsStudy (study_data study.now) }
    requires few { length earlier.now ≤ 8192 }
    ensures exact { result ≡ next_entry (study_data study.now) earlier.now (fields_of fields.now) }
    ensures fits { IfOk result (FitsCurrent (study_data study.now)) }
    ensures room { IfOk result (λ _. length earlier.now < 8192) }
{
    let n = earlier.len() as u32 + 1;
    if n > MOST_CURRENTS {
        return Err(TableFault::TooMany {
            limit: MOST_CURRENTS,
        });
    }
    let entry = record_of(study, n, fields)?;
    if is_repeated(earlier, &entry) {
        return Err(TableFault::DoubleEntry { n });
    }
    Ok(entry)
}

/// The entry of record `n`.
#[tactic(auto, unfolding(crate::specs::Entry::record_of))]
fn record_of(study: &Study, n: u32, fields: &ByteRecord) -> Result<Current, TableFault>
    requires { FitsStudy (study_data study.now) }
    ensures exact { result ≡ record_of (study_data study.now) n (fields_of fields.now) }
    ensures fits { IfOk result (FitsCurrent (study_data study.now)) }
{
    let Some((fault, relay, amps)) = three_fields(fields) else {
        return Err(TableFault::BadRecord { n });
    };
    entry_of(study, n, fault, relay, amps)
}

/// The fields of a record that has three.
#[tactic(auto, using(crate::proofs::FieldReads::three))]
pub fn three_fields(fields: &ByteRecord) -> Option<(&[u8], &[u8], &[u8])>
    ensures { option_map (λ t. (t.0.now, t.1.now, t.2.now)) result ≡ three_fields (fields_of fields.now) }
{
    if fields.get(3).is_some() {
        return None;
    }
    Some((fields.get(0)?, fields.get(1)?, fields.get(2)?))
}

/// The entry of three fields.
#[tactic(auto, unfolding(crate::specs::Entry::entry_of))]
fn entry_of(
    study: &Study,
    n: u32,
    fault: &[u8],
    relay: &[u8],
    amps: &[u8],
) -> Result<Current, TableFault>
    requires { FitsStudy (study_data study.now) }
    ensures exact { result ≡ entry_of (study_data study.now) n fault.now relay.now amps.now }
    ensures fits { IfOk result (FitsCurrent (study_data study.now)) }
{
    let fault = fault_named(study, fault).ok_or(TableFault::UnknownFault { n })?;
    let relay = relay_named(study, relay).ok_or(TableFault::UnknownRelay { n })?;
    let amps = amps_in(amps).ok_or(TableFault::BadAmps { n })?;
    Ok(Current { fault, relay, amps })
}

/// Whether the name is spelled so.
fn is_named(own: &Name, name: &[u8]) -> bool
    ensures { result ≡ bytes_eq own.now name.now }
{
    own.bytes() == name
}

/// The number of the fault with this name.
fn fault_named(study: &Study, name: &[u8]) -> Option<u16>
    requires { FitsStudy (study_data study.now) }
    ensures exact { result ≡ fault_named (study_data study.now) name.now }
    ensures within { IfSome result (λ fault. fault < length (study_data study.now).faults) }
{
    for (i, fault) in study.faults.iter().enumerate() {
        if is_named(&fault.name, name) {
            return Some(i as u16);
        }
    }
    None
}

/// The number of the relay with this name.
fn relay_named(study: &Study, name: &[u8]) -> Option<u16>
    requires { FitsStudy (study_data study.now) }
    ensures exact { result ≡ relay_named (study_data study.now) name.now }
    ensures within { IfSome result (λ relay. relay < length (study_data study.now).relays) }
{
    for (i, relay) in study.relays.iter().enumerate() {
        if is_named(&relay.name, name) {
            return Some(i as u16);
        }
    }
    None
}

/// The amperes of a field: 1 to 6 digits, up to 100,000.
#[tactic(auto, unfolding(crate::specs::Entry::amps_in))]
fn amps_in(field: &[u8]) -> Option<u32>
    ensures exact { result ≡ amps_in field.now }
    ensures limit { IfSome result (λ amps. amps ≤ 100000) }
{
    if !(1 <= field.len() && field.len() <= 6 && are_digits(field)) {
        return None;
    }
    let amps = value_of(field);
    if amps <= GREATEST_AMPS {
        Some(amps)
    } else {
        None
    }
}

/// Whether each byte is a decimal digit.
fn are_digits(field: &[u8]) -> bool
    ensures { result ≡ list_all is_digit field.now }
{
    field.iter().all(|b| 48 <= *b && *b <= 57)
}

/// The number that up to six digits spell.
fn value_of(digits: &[u8]) -> u32
    requires few { length digits.now ≤ 6 }
    requires digits { IsTrue (list_all is_digit digits.now) }
    ensures { result ≡ value_of digits.now }
{
    let mut value = 0;
    for digit in digits {
        value = 10 * value + u32::from(*digit - b'0');
    }
    value
}

/// Whether an earlier entry is for the same fault and relay.
fn is_repeated(earlier: &[Current], entry: &Current) -> bool
    ensures { result ≡ is_repeated earlier.now entry.now }
{
    earlier
        .iter()
        .any(|e| e.fault == entry.fault && e.relay == entry.relay)
}
