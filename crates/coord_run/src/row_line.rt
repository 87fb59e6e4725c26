//! The line of a row of the coordination.
ghost use Rattle.std.specs.Prelude.{◌≡◌, ◌<◌, ◌++◌, length, IfOk, OnOk};
ghost use Rattle.coord_model.specs.Choice.{choice_data};
ghost use Rattle.coord_model.specs.StudyData.{study_data};
ghost use Rattle.coord_run.specs.RowLine.{fault_name, is_kept, relay_name, row_margins, row_names, row_text_at};
ghost use Rattle.margin_rows.specs.Case.{row_at, rows_in};
ghost use Rattle.margin_rows.specs.FirstBox.{IsInFirstBox};

use coord_model::{Choice, NoMemory, RowKind, Study};
use coord_text::push_signed;
use margin_rows::{Instance, loose_row, strict_row};

/// Adds the line of a row with its margins at a choice, and answers whether the choice strictly meets it.
pub fn push_row(
    out: &mut Vec<u8>,
    inst: &Instance,
    choice: &Choice,
    row: u16,
) -> Result<bool, NoMemory>
    requires first_box { IsInFirstBox inst.now (choice_data choice.now) }
    requires is_row { row < length (rows_in inst.now) }
    ensures line { OnOk result (out.new.items ≡ out.old.items ++ row_text_at inst.now (choice_data choice.now) row) }
    ensures kept { IfOk result (λ kept. kept ≡ is_kept inst.now (choice_data choice.now) (row_at inst.now row)) }
{
    let study = inst.study();
    let at = inst.row(row);
    push_names(
        out,
        at.kind,
        fault_name(study, at.fault),
        relay_name(study, at.backup),
        relay_name(study, at.primary),
    )?;
    let strict = strict_row(inst, choice, row);
    push_margins(out, loose_row(inst, choice, row), strict)?;
    Ok(strict >= 0)
}

/// Adds the names of a row: its kind, its fault, and its relays.
#[tactic(auto, unfolding(crate::specs::RowLine::row_names))]
pub fn push_names(
    out: &mut Vec<u8>,
    kind: RowKind,
    fault: &[u8],
    backup: &[u8],
    primary: &[u8],
) -> Result<(), NoMemory>
    ensures { OnOk result (out.new.items ≡ out.old.items ++ row_names kind fault.now backup.now primary.now) }
{
    match kind {
        RowKind::Interval => {
            push_words(out, b"row ", fault)?;
            push_words(out, b" ", backup)?;
            push_words(out, b" ", primary)
        }
        RowKind::Least => {
            push_words(out, b"least ", fault)?;
            push_words(out, b" ", primary)
        }
        RowKind::Most => {
            push_words(out, b"most ", fault)?;
            push_words(out, b" ", primary)
        }
    }
}

/// Adds a word and a name after it.
pub fn push_words(out: &mut Vec<u8>, word: &[u8], name: &[u8]) -> Result<(), NoMemory>
    ensures { OnOk result (out.new.items ≡ out.old.items ++ word.now ++ name.now) }
{
    out.extend_from_slice(word)?;
    out.extend_from_slice(name)?;
    Ok(())
}

/// Adds the loose and the strict margin of a row.
#[tactic(auto, unfolding(crate::specs::RowLine::row_margins))]
fn push_margins(out: &mut Vec<u8>, loose: i64, strict: i64) -> Result<(), NoMemory>
    ensures { OnOk result (out.new.items ≡ out.old.items ++ row_margins loose strict) }
{
    out.extend_from_slice(b" loose ")?;
    push_signed(out, loose)?;
    out.extend_from_slice(b" strict ")?;
    push_signed(out, strict)?;
    out.extend_from_slice(b"\n")?;
    Ok(())
}

/// The name of a fault, by its number.
fn fault_name(study: &Study, fault: u16) -> &[u8]
    ensures { result.now ≡ fault_name (study_data study.now) fault }
{
    match study.faults.get(usize::from(fault)) {
        Some(fault) => fault.name.bytes(),
        None => &[],
    }
}

/// The name of a relay, by its number.
pub fn relay_name(study: &Study, relay: u16) -> &[u8]
    ensures { result.now ≡ relay_name (study_data study.now) relay }
{
    match study.relays.get(usize::from(relay)) {
        Some(relay) => relay.name.bytes(),
        None => &[],
    }
}
