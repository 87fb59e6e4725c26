//! The report that `solve` prints.
ghost use Rattle.std.specs.Prelude.{◌≡◌, Some, ◌<◌, ◌++◌, length, IfOk, IfSome, OnOk};
ghost use Rattle.coord_model.specs.Choice.{choice_data};
ghost use Rattle.coord_run.specs.Report.{ending_line, ending_text, hair_text, none_line, report_text};
ghost use Rattle.margin_rows.specs.Case.{rows_in};
ghost use Rattle.margin_rows.specs.FirstBox.{IsInFirstBox};

use crate::row_line::push_row;
use branch_bound::{HairPlace, Outcome};
use coord_model::{Ending, NoMemory};
use coord_text::{push_amount, push_number};
use margin_rows::Instance;
use settings_sheet::push_relay_lines;
use std::alloc::Global;

/// The report of an outcome.
pub fn report_bytes(alloc: Global, inst: &Instance, outcome: &Outcome) -> Result<Vec<u8>, NoMemory>
    requires first_box { IfSome outcome.now.hair (λ hair. IsInFirstBox inst.now (choice_data hair.choice)) }
    requires is_row { IfSome outcome.now.hair (λ hair. hair.row < length (rows_in inst.now)) }
    ensures { IfOk result (λ bytes. bytes.items ≡ report_text inst.now outcome.now) }
{
    let mut out = ending_bytes(alloc, outcome)?;
    if let Some(hair) = &outcome.hair {
        push_hair(&mut out, inst, hair)?;
    }
    Ok(out)
}

/// Adds the row that a hairline shows, and its settings.
fn push_hair(out: &mut Vec<u8>, inst: &Instance, hair: &HairPlace) -> Result<(), NoMemory>
    requires first_box { IsInFirstBox inst.now (choice_data hair.now.choice) }
    requires is_row { hair.now.row < length (rows_in inst.now) }
    ensures { OnOk result (out.new.items ≡ out.old.items ++ hair_text inst.now (Some hair.now)) }
{
    push_row(out, inst, &hair.choice, hair.row)?;
    push_relay_lines(out, inst.study(), &hair.choice)
}

/// The line of an outcome's ending.
fn ending_bytes(alloc: Global, outcome: &Outcome) -> Result<Vec<u8>, NoMemory>
    ensures { IfOk result (λ line. line.items ≡ ending_text outcome.now.ending outcome.now.cost outcome.now.bound outcome.now.boxes) }
{
    let word: &[u8] = match outcome.ending {
        Ending::NoSettings => return none_bytes(alloc, outcome.boxes),
        Ending::Closed => b"closed",
        Ending::BudgetSpent => b"budget spent",
        Ending::Hairline => b"hairline",
    };
    line_bytes(alloc, word, outcome.cost, outcome.bound, outcome.boxes)
}

/// The line of a search that found that no choice is allowed.
#[tactic(auto, unfolding(crate::specs::Report::none_line))]
fn none_bytes(alloc: Global, boxes: u32) -> Result<Vec<u8>, NoMemory>
    ensures { IfOk result (λ line. line.items ≡ none_line boxes) }
{
    let mut line = Vec::from_slice(alloc, b"no settings boxes ")?;
    push_number(&mut line, u64::from(boxes))?;
    line.extend_from_slice(b"\n")?;
    Ok(line)
}

/// The line of another ending.
#[tactic(auto, unfolding(crate::specs::Report::ending_line))]
fn line_bytes(
    alloc: Global,
    word: &[u8],
    cost: Option<u64>,
    bound: Option<u64>,
    boxes: u32,
) -> Result<Vec<u8>, NoMemory>
    ensures { IfOk result (λ line. line.items ≡ ending_line word.now cost bound boxes) }
{
    let mut line = Vec::from_slice(alloc, word)?;
    line.extend_from_slice(b" cost ")?;
    push_amount(&mut line, cost)?;
    line.extend_from_slice(b" bound ")?;
    push_amount(&mut line, bound)?;
    line.extend_from_slice(b" boxes ")?;
    push_number(&mut line, u64::from(boxes))?;
    line.extend_from_slice(b"\n")?;
    Ok(line)
}
