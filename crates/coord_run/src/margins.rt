//! The command `margins`.
ghost use Rattle.std.specs.Prelude.{◌≡◌, ◌<◌, ◌++◌, length, IfOk, IfErr, OnOk};
ghost use Rattle.std.specs.Option.{option_map};
ghost use Rattle.coord_model.specs.Choice.{choice_data};
ghost use Rattle.coord_run.specs.Margins.{IsMarginsOutput, MarginsCause, ReportsMargins, kept_rows, margins_text, row_texts, rows_text};
ghost use Rattle.coord_run.specs.Handing.{IsWritable, output_data};
ghost use Rattle.coord_run.specs.Names.{names_data};
ghost use Rattle.coord_io.specs.Outside.{IsReadAlone};
ghost use Rattle.coord_run.specs.Settings.{FitFirstBox};
ghost use Rattle.coord_run.specs.Stops.{StopsFor};
ghost use Rattle.margin_rows.specs.Case.{rows_in};
ghost use Rattle.margin_rows.specs.FirstBox.{IsInFirstBox};

use crate::end::{Output, hand_over};
use crate::inputs::read_case;
use crate::pairs::push_count;
use crate::refusal::Stop;
use crate::row_line::push_row;
use crate::settings::read_settings;
use crate::words::Names;
use coord_io::{Folder, Sink};
use coord_model::{Choice, NoMemory};
use coord_text::push_number;
use margin_rows::Instance;
use std::alloc::Global;

/// Reads the network, the currents and the sheet, and prints each row with its margins, or the line of a refusal.
///
/// Margins are in picoseconds. The answer is the status.
pub fn margins<F: Folder, K: Sink>(
    alloc: Global,
    folder: &mut F,
    out: &mut K,
    names: &Names<'_>,
) -> u8
    ensures { ReportsMargins (names_data names.now) (F.state folder.old) (F.state folder.new) (K.state out.old) (K.state out.new) result }
{
    let work = work(alloc, folder, names);
    hand_over(alloc, folder, out, names, work)
}

/// The report on the three files.
fn work<'a, F: Folder>(alloc: Global, folder: &mut F, names: &Names<'a>) -> Result<Output<'a>, Stop>
    ensures report { IfOk result (λ output. IsMarginsOutput (names_data names.now) (F.state folder.old) (F.state folder.new) (output_data output)) }
    ensures writable { IfOk result IsWritable }
    ensures stopped { IfErr result (λ stop. StopsFor stop (MarginsCause (names_data names.now) (F.state folder.old) (F.state folder.new))) }
    ensures alone { IsReadAlone (F.state folder.old) (F.state folder.new) }
{
    let inst = read_case(alloc, folder, names.network, names.currents)?;
    let choice = read_settings(alloc, folder, names.sheet, &inst)?;
    let report = margins_bytes(alloc, &inst, &choice)?;
    Ok(Output {
        files: None,
        report,
        status: 0,
    })
}

/// The margins of the rows at a choice, or that there is none.
fn margins_bytes(
    alloc: Global,
    inst: &Instance,
    choice: &Option<Choice>,
) -> Result<Vec<u8>, NoMemory>
    requires { FitFirstBox inst.now (option_map choice_data choice.now) }
    ensures { IfOk result (λ text. text.items ≡ margins_text inst.now (option_map choice_data choice.now)) }
{
    let Some(choice) = choice else {
        return Ok(Vec::from_slice(alloc, b"no settings\n")?);
    };
    let mut text = Vec::new(alloc);
    let kept = push_rows(&mut text, inst, choice)?;
    push_counts(&mut text, inst.rows().len(), kept)?;
    Ok(text)
}

/// Adds the lines of the rows, and answers how many of them the choice strictly meets.
fn push_rows(out: &mut Vec<u8>, inst: &Instance, choice: &Choice) -> Result<usize, NoMemory>
    requires { IsInFirstBox inst.now (choice_data choice.now) }
    ensures rows { OnOk result (out.new.items ≡ out.old.items ++ row_texts inst.now (choice_data choice.now) (rows_in inst.now)) }
    ensures kept { IfOk result (λ kept. kept ≡ kept_rows inst.now (choice_data choice.now)) }
{
    let mut kept = 0;
    for row in 0..inst.rows().len() as u16 {
        if push_row(out, inst, choice, row)? {
            kept += 1;
        }
    }
    Ok(kept)
}

/// Adds the number of rows, and of those that are strictly met.
#[tactic(auto, unfolding(crate::specs::Margins::rows_text, crate::specs::Pairs::count_text))]
fn push_counts(out: &mut Vec<u8>, rows: usize, kept: usize) -> Result<(), NoMemory>
    ensures { OnOk result (out.new.items ≡ out.old.items ++ rows_text rows kept) }
{
    out.extend_from_slice(b"rows ")?;
    push_number(out, rows as u64)?;
    push_count(out, b" kept ", kept)?;
    Ok(())
}
