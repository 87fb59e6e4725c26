//! A settings sheet, read back from its text.
ghost use Rattle.std.specs.Prelude.{◌≡◌, ◌+◌, ◌^◌, ◌<◌, length, codes, IfErr, IfOk, IsSome, MatchResult};
ghost use Rattle.std.specs.Option.{option_map};
ghost use Rattle.coord_model.specs.Choice.{choice_data};
ghost use Rattle.coord_model.specs.Limits.{FitsStudy};
ghost use Rattle.coord_model.specs.StudyData.{study_data};
ghost use Rattle.settings_sheet.specs.RelayStops.{IsRelayStop};
ghost use Rattle.settings_sheet.specs.SheetData.{IsSheet, SheetData, sheet_data};
ghost use Rattle.settings_sheet.specs.SheetFaults.{IsRefusalOf};
ghost use Rattle.settings_sheet.specs.SheetLines.{settings_lines};
ghost use Rattle.settings_sheet.specs.SheetText.{sheet_text};
ghost use Rattle.settings_sheet.specs.Stages.{HasSettings, IsEndStop};

use crate::elements::read_end;
use crate::head::read_head;
use crate::refusal::{SheetKind, SheetRefusal, fault};
use crate::relay_lines::read_choice;
use crate::sheet::Sheet;
use coord_model::{Choice, Study};
use std::alloc::Global;

/// The sheet of the study whose text the bytes are.
///
/// An error: `Fault` names the first line, counted from 1, such that the lines up to it begin no sheet of the study,
/// and what is due there. Where the text ends too early, that is the line which is missing.
pub fn read_sheet(alloc: Global, study: &Study, bytes: &[u8]) -> Result<Sheet, SheetRefusal>
    requires fits { FitsStudy (study_data study.now) }
    ensures is { IfOk result (λ sheet. IsSheet (study_data study.now) (sheet_data sheet)) }
    ensures said { IfOk result (λ sheet. bytes.now ≡ sheet_text (study_data study.now) (sheet_data sheet)) }
    ensures read { (sheet : SheetData) → IsSheet (study_data study.now) sheet → bytes.now ≡ sheet_text (study_data study.now) sheet
        → MatchResult result (λ read. sheet_data read ≡ sheet) (λ refusal. refusal ≡ SheetRefusal.NoMemory) }
    ensures stops { IfErr result (IsRefusalOf (study_data study.now) bytes.now) }
{
    sheet_in(alloc, study, bytes)
}

/// The sheet of the study whose text the bytes are, the only one.
fn sheet_in(alloc: Global, study: &Study, bytes: &[u8]) -> Result<Sheet, SheetRefusal>
    requires fits { FitsStudy (study_data study.now) }
    ensures is { IfOk result (λ sheet. IsSheet (study_data study.now) (sheet_data sheet)) }
    ensures said { IfOk result (λ sheet. bytes.now ≡ sheet_text (study_data study.now) (sheet_data sheet)) }
    ensures only { IfOk result (λ read. (sheet : SheetData) → IsSheet (study_data study.now) sheet
        → bytes.now ≡ sheet_text (study_data study.now) sheet → sheet_data read ≡ sheet) }
    ensures stops { IfErr result (IsRefusalOf (study_data study.now) bytes.now) }
{
    let (head, left) = read_head(bytes)?;
    let (choice, left) = read_settings(alloc, study, head.cost, left)?;
    read_close(left, end_line(study, &choice))?;
    Ok(Sheet {
        ending: head.ending,
        cost: head.cost,
        bound: head.bound,
        choice,
    })
}

/// The settings, where there is a cost, and what follows their lines.
fn read_settings<'a>(
    alloc: Global,
    study: &Study,
    cost: Option<u64>,
    text: &'a [u8],
) -> Result<(Option<Choice>, &'a [u8]), SheetRefusal>
    requires fits { FitsStudy (study_data study.now) }
    ensures said { IfOk result (λ read. HasSettings (study_data study.now) cost text.now (option_map choice_data read.0) read.1.now) }
    ensures stops { IfErr result (λ refusal. IsRelayStop (study_data study.now) text.now refusal) }
    ensures issued { IfErr result (λ _. IsSome cost) }
{
    if cost.is_none() {
        return Ok((None, text));
    }
    let (choice, left) = read_choice(alloc, study, text)?;
    Ok((Some(choice), left))
}

/// The number of the last line.
fn end_line(study: &Study, choice: &Option<Choice>) -> u32
    requires fits { FitsStudy (study_data study.now) }
    ensures small { result < 2 ^ 16 }
    ensures exact { result ≡ 5 + length (settings_lines (study_data study.now) (option_map choice_data choice.now)) }
{
    match choice {
        Some(_) => study.relays.len() as u32 + 5,
        None => 5,
    }
}

/// Reads the last line, whose number is `line`, and that nothing follows it.
fn read_close(text: &[u8], line: u32) -> Result<(), SheetRefusal>
    requires small { line < 2 ^ 16 }
    ensures said { IfOk result (λ _. text.now ≡ codes "end\n") }
    ensures stops { IfErr result (IsEndStop text.now line) }
{
    let Some(left) = read_end(text) else {
        return Err(fault(line, SheetKind::End));
    };
    if !left.is_empty() {
        return Err(fault(line + 1, SheetKind::After));
    }
    Ok(())
}
