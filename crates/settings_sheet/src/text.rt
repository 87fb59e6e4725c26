//! The text of a settings sheet.
ghost use Rattle.std.specs.Prelude.{◌≡◌, ◌++◌, codes, IfOk, IfSome, OnOk};
ghost use Rattle.std.specs.Option.{option_map};
ghost use Rattle.coord_model.specs.Allowed.{AreOnSteps};
ghost use Rattle.coord_model.specs.Choice.{choice_data};
ghost use Rattle.coord_model.specs.Limits.{FitsStudy};
ghost use Rattle.coord_model.specs.StudyData.{study_data};
ghost use Rattle.coord_text.specs.Claims.{amount, ended, ending_word, text_of};
ghost use Rattle.settings_sheet.specs.SheetLines.{head_lines, settings_lines};
ghost use Rattle.settings_sheet.specs.SheetText.{IsSheet, sheet_data, sheet_text};

use crate::lines::push_relay_lines;
use crate::sheet::Sheet;
use coord_model::{Choice, NoMemory, Study};
use coord_text::{ending_word, push_amount};
use std::alloc::Global;

/// The text of a sheet of the study.
pub fn sheet_bytes(alloc: Global, study: &Study, sheet: &Sheet) -> Result<Vec<u8>, NoMemory>
    requires fits { FitsStudy (study_data study.now) }
    requires sheet { IsSheet (study_data study.now) (sheet_data sheet.now) }
    ensures { IfOk result (λ bytes. bytes.items ≡ sheet_text (study_data study.now) (sheet_data sheet.now)) }
{
    let mut out = Vec::new(alloc);
    push_head(&mut out, sheet)?;
    push_settings(&mut out, study, &sheet.choice)?;
    out.extend_from_slice(b"end\n")?;
    Ok(out)
}

/// Adds the lines that begin a sheet.
fn push_head(out: &mut Vec<u8>, sheet: &Sheet) -> Result<(), NoMemory>
    ensures { OnOk result (out.new.items ≡ out.old.items ++ text_of (head_lines sheet.now.ending sheet.now.cost sheet.now.bound)) }
{
    push_labelled(out, b"coord-sheet ", b"1")?;
    push_labelled(out, b"ending ", ending_word(sheet.ending))?;
    push_labelled_amount(out, b"cost ", sheet.cost)?;
    push_labelled_amount(out, b"bound ", sheet.bound)?;
    Ok(())
}

/// Adds the lines of the settings, if there are any.
#[tactic(auto, unfolding(crate::specs::SheetText::relay_lines))]
fn push_settings(out: &mut Vec<u8>, study: &Study, choice: &Option<Choice>) -> Result<(), NoMemory>
    requires fits { FitsStudy (study_data study.now) }
    requires on_steps { IfSome (option_map choice_data choice.now) (AreOnSteps (study_data study.now)) }
    ensures { OnOk result (out.new.items ≡ out.old.items ++ text_of (settings_lines (study_data study.now) (option_map choice_data choice.now))) }
{
    match choice {
        Some(choice) => push_relay_lines(out, study, choice),
        None => Ok(()),
    }
}

/// Adds a line with a label and a word.
fn push_labelled(out: &mut Vec<u8>, label: &[u8], word: &[u8]) -> Result<(), NoMemory>
    ensures { OnOk result (out.new.items ≡ out.old.items ++ ended (label.now ++ word.now)) }
{
    out.extend_from_slice(label)?;
    out.extend_from_slice(word)?;
    out.extend_from_slice(b"\n")?;
    Ok(())
}

/// Adds a line with a label and a number or `none`.
fn push_labelled_amount(out: &mut Vec<u8>, label: &[u8], n: Option<u64>) -> Result<(), NoMemory>
    ensures { OnOk result (out.new.items ≡ out.old.items ++ ended (label.now ++ amount n)) }
{
    out.extend_from_slice(label)?;
    push_amount(out, n)?;
    out.extend_from_slice(b"\n")?;
    Ok(())
}
