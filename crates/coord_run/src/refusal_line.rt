//! The line in which a refusal is printed.
ghost use Rattle.std.specs.Prelude.{◌≡◌, ◌++◌, IfOk, OnOk};
ghost use Rattle.std.specs.Fmt.{decimal};
ghost use Rattle.coord_run.specs.FileLimits.{most_bytes_of};
ghost use Rattle.coord_run.specs.Names.{names_data};
ghost use Rattle.coord_run.specs.RefusalText.{gap_text, name_of, name_text, place_text, record_text, refusal_text, sheet_line_text, too_long_text, too_many_text};
ghost use Rattle.coord_run.specs.RefusalWords.{key_text};

use crate::cert_refusal_line::{cert_claim, cert_line, cert_node};
use crate::inputs::most_bytes;
use crate::refusal::{File, Refusal};
use crate::refusal_words::{due_word, kind_word, table_word, what_word};
use crate::words::Names;
use coord_model::{Key, NetKind, NoMemory, TableName, What};
use coord_text::push_number;
use network_file::word;
use settings_sheet::SheetKind;
use std::alloc::Global;

/// The line of a refusal of a command with these names.
pub fn refusal_line(
    alloc: Global,
    names: &Names<'_>,
    refusal: &Refusal,
) -> Result<Vec<u8>, NoMemory>
    ensures { IfOk result (λ line. line.items ≡ refusal_text (names_data names.now) refusal.now) }
{
    match refusal {
        Refusal::Missing(file) => file_line(alloc, b"missing: ", names, *file),
        Refusal::ReadFault(file) => file_line(alloc, b"read fault: ", names, *file),
        Refusal::TooLong(file) => too_long_line(alloc, names, *file),
        Refusal::NotText => Ok(Vec::from_slice(alloc, b"network: not-text\n")?),
        Refusal::NotToml => Ok(Vec::from_slice(alloc, b"network: not-toml\n")?),
        Refusal::Network {
            kind,
            table,
            index,
            key,
        } => place_line(alloc, *kind, *table, *index, *key),
        Refusal::TooMany { what, limit } => too_many_line(alloc, *what, *limit),
        Refusal::BadHeader => Ok(Vec::from_slice(alloc, b"currents: bad-header\n")?),
        Refusal::BadRecord { n } => record_line(alloc, b"bad-record", *n),
        Refusal::UnknownFault { n } => record_line(alloc, b"unknown-fault", *n),
        Refusal::UnknownRelay { n } => record_line(alloc, b"unknown-relay", *n),
        Refusal::BadAmps { n } => record_line(alloc, b"bad-amps", *n),
        Refusal::DoubleEntry { n } => record_line(alloc, b"double-entry", *n),
        Refusal::NoPrimary(name) => name_line(alloc, b"currents: no-primary ", name.bytes()),
        Refusal::GapTooSmall { given, least } => gap_line(alloc, *given, *least),
        Refusal::CertLine { line, kind } => cert_line(alloc, *line, *kind),
        Refusal::CertNode { number, kind } => cert_node(alloc, *number, *kind),
        Refusal::CertClaim(fault) => cert_claim(alloc, fault),
        Refusal::SheetLine { line, kind } => sheet_line(alloc, *line, *kind),
        Refusal::SheetPickup(name) => name_line(alloc, b"sheet: pickup ", name.bytes()),
    }
}

/// The name of a file of a command.
fn name_of<'a>(names: &Names<'a>, file: File) -> &'a str
    ensures { result.now ≡ name_of (names_data names.now) file }
{
    match file {
        File::Network => names.network,
        File::Currents => names.currents,
        File::Sheet => names.sheet,
        File::Cert => names.cert,
    }
}

/// A line about a file.
fn file_line(
    alloc: Global,
    label: &[u8],
    names: &Names<'_>,
    file: File,
) -> Result<Vec<u8>, NoMemory>
    ensures { IfOk result (λ line. line.items ≡ name_text label.now (name_of (names_data names.now) file)) }
{
    name_line(alloc, label, name_of(names, file).as_bytes())
}

/// A line about a file or another name.
#[tactic(auto, unfolding(crate::specs::RefusalText::name_text))]
pub fn name_line(alloc: Global, label: &[u8], name: &[u8]) -> Result<Vec<u8>, NoMemory>
    ensures { IfOk result (λ line. line.items ≡ name_text label.now name.now) }
{
    let mut line = Vec::from_slice(alloc, label)?;
    line.extend_from_slice(name)?;
    line.extend_from_slice(b"\n")?;
    Ok(line)
}

/// The line of a file that is too long.
#[tactic(auto, unfolding(crate::specs::RefusalText::too_long_text))]
fn too_long_line(alloc: Global, names: &Names<'_>, file: File) -> Result<Vec<u8>, NoMemory>
    ensures { IfOk result (λ line. line.items ≡ too_long_text (name_of (names_data names.now) file) (most_bytes_of file)) }
{
    let mut line = Vec::from_slice(alloc, b"too long: ")?;
    line.extend_from_slice(name_of(names, file).as_bytes())?;
    line.extend_from_slice(b" ")?;
    push_number(&mut line, most_bytes(file))?;
    line.extend_from_slice(b"\n")?;
    Ok(line)
}

/// The line of a fault at a place of the network file.
#[tactic(auto, unfolding(crate::specs::RefusalText::place_text))]
fn place_line(
    alloc: Global,
    kind: NetKind,
    table: TableName,
    index: u16,
    key: Option<Key>,
) -> Result<Vec<u8>, NoMemory>
    ensures { IfOk result (λ line. line.items ≡ place_text kind table index key) }
{
    let mut line = Vec::from_slice(alloc, b"network: ")?;
    line.extend_from_slice(kind_word(kind))?;
    line.extend_from_slice(b" ")?;
    line.extend_from_slice(table_word(table))?;
    line.extend_from_slice(b" ")?;
    push_number(&mut line, u64::from(index))?;
    push_key(&mut line, key)?;
    line.extend_from_slice(b"\n")?;
    Ok(line)
}

fn push_key(line: &mut Vec<u8>, key: Option<Key>) -> Result<(), NoMemory>
    ensures { OnOk result (line.new.items ≡ line.old.items ++ key_text key) }
{
    let Some(key) = key else {
        return Ok(());
    };
    line.extend_from_slice(b" ")?;
    line.extend_from_slice(word(key).as_bytes())?;
    Ok(())
}

/// The line of a quantity that passes its limit.
#[tactic(auto, unfolding(crate::specs::RefusalText::too_many_text))]
fn too_many_line(alloc: Global, what: What, limit: u32) -> Result<Vec<u8>, NoMemory>
    ensures { IfOk result (λ line. line.items ≡ too_many_text what limit) }
{
    let mut line = Vec::from_slice(alloc, b"too many: ")?;
    line.extend_from_slice(what_word(what))?;
    line.extend_from_slice(b" ")?;
    push_number(&mut line, u64::from(limit))?;
    line.extend_from_slice(b"\n")?;
    Ok(line)
}

/// The line of a fault of a record of the currents table.
#[tactic(auto, unfolding(crate::specs::RefusalText::record_text))]
fn record_line(alloc: Global, kind: &[u8], n: u32) -> Result<Vec<u8>, NoMemory>
    ensures { IfOk result (λ line. line.items ≡ record_text kind.now n) }
{
    let mut line = Vec::from_slice(alloc, b"currents: ")?;
    line.extend_from_slice(kind)?;
    line.extend_from_slice(b" ")?;
    push_number(&mut line, u64::from(n))?;
    line.extend_from_slice(b"\n")?;
    Ok(line)
}

/// The line of a gap that is too small.
#[tactic(auto, unfolding(crate::specs::RefusalText::gap_text))]
fn gap_line(alloc: Global, given: u64, least: u64) -> Result<Vec<u8>, NoMemory>
    ensures { IfOk result (λ line. line.items ≡ gap_text given least) }
{
    let mut line = Vec::from_slice(alloc, b"gap too small: ")?;
    push_number(&mut line, given)?;
    line.extend_from_slice(b" least ")?;
    push_number(&mut line, least)?;
    line.extend_from_slice(b"\n")?;
    Ok(line)
}

/// The line of a fault at a line of the sheet.
#[tactic(auto, unfolding(crate::specs::RefusalText::sheet_line_text))]
fn sheet_line(alloc: Global, number: u32, kind: SheetKind) -> Result<Vec<u8>, NoMemory>
    ensures { IfOk result (λ line. line.items ≡ sheet_line_text number kind) }
{
    let mut line = Vec::from_slice(alloc, b"sheet: line ")?;
    push_number(&mut line, u64::from(number))?;
    line.extend_from_slice(b" ")?;
    line.extend_from_slice(due_word(kind))?;
    line.extend_from_slice(b"\n")?;
    Ok(line)
}
