//! The command `pairs`.
ghost use Rattle.std.specs.Prelude.{◌≡◌, ◌++◌, length, IfOk, IfErr, OnOk};
ghost use Rattle.coord_model.specs.Limits.{FitsStudy};
ghost use Rattle.coord_model.specs.StudyData.{study_data};
ghost use Rattle.coord_io.specs.Outside.{IsReadAlone};
ghost use Rattle.coord_run.specs.Causes.{NetworkCause};
ghost use Rattle.coord_run.specs.Handing.{IsWritable, output_data};
ghost use Rattle.coord_run.specs.Names.{names_data};
ghost use Rattle.coord_run.specs.Pairs.{IsPairsOutput, ListsPairs, count_text, pair_text, pair_texts, pairs_text};
ghost use Rattle.coord_run.specs.Stops.{StopsFor};
ghost use Rattle.coord_words.specs.Words.{only};

use crate::end::{Output, hand_over};
use crate::inputs::read_study;
use crate::refusal::Stop;
use crate::row_line::relay_name;
use crate::words::Names;
use coord_io::{Folder, Sink};
use coord_model::{NoMemory, Pair, Study};
use coord_text::push_number;
use relay_pairs::pairs as pairs_of;
use std::alloc::Global;

/// Reads the network and prints its pairs, or the line of a refusal. The answer is the status.
pub fn pairs<F: Folder, K: Sink>(alloc: Global, folder: &mut F, out: &mut K, network: &str) -> u8
    ensures { ListsPairs network.now (F.state folder.old) (F.state folder.new) (K.state out.old) (K.state out.new) result }
{
    let work = work(alloc, folder, network);
    hand_over(alloc, folder, out, &only(network), work)
}

/// The names of a command that names the network alone.
fn only<'a>(network: &'a str) -> Names<'a>
    ensures { names_data result ≡ only network.entry.now }
{
    Names {
        network,
        currents: network,
        sheet: network,
        cert: network,
    }
}

/// The report on the network file.
fn work<'a, F: Folder>(alloc: Global, folder: &mut F, network: &'a str) -> Result<Output<'a>, Stop>
    ensures report { IfOk result (λ output. IsPairsOutput (F.state folder.old) (F.state folder.new) network.now (output_data output)) }
    ensures writable { IfOk result IsWritable }
    ensures stopped { IfErr result (λ stop. StopsFor stop (NetworkCause (F.state folder.old) (F.state folder.new) network.now)) }
    ensures alone { IsReadAlone (F.state folder.old) (F.state folder.new) }
{
    let study = read_study(alloc, folder, network)?;
    let report = pairs_bytes(alloc, &study)?;
    Ok(Output {
        files: None,
        report,
        status: 0,
    })
}

/// The pairs of a study as text, and how many there are.
fn pairs_bytes(alloc: Global, study: &Study) -> Result<Vec<u8>, NoMemory>
    requires { FitsStudy (study_data study.now) }
    ensures { IfOk result (λ text. text.items ≡ pairs_text (study_data study.now)) }
{
    let pairs = pairs_of(alloc, study)?;
    let mut text = Vec::new(alloc);
    push_pairs(&mut text, study, pairs.as_slice())?;
    push_count(&mut text, b"pairs ", pairs.len())?;
    Ok(text)
}

/// Adds the lines of pairs.
fn push_pairs(out: &mut Vec<u8>, study: &Study, pairs: &[Pair]) -> Result<(), NoMemory>
    ensures { OnOk result (out.new.items ≡ out.old.items ++ pair_texts (study_data study.now) pairs.now) }
{
    for pair in pairs {
        push_pair(
            out,
            relay_name(study, pair.primary),
            relay_name(study, pair.backup),
        )?;
    }
    Ok(())
}

/// Adds the line of a pair.
#[tactic(auto, unfolding(crate::specs::Pairs::pair_text))]
fn push_pair(out: &mut Vec<u8>, primary: &[u8], backup: &[u8]) -> Result<(), NoMemory>
    ensures { OnOk result (out.new.items ≡ out.old.items ++ pair_text primary.now backup.now) }
{
    out.extend_from_slice(b"primary ")?;
    out.extend_from_slice(primary)?;
    out.extend_from_slice(b" backup ")?;
    out.extend_from_slice(backup)?;
    out.extend_from_slice(b"\n")?;
    Ok(())
}

/// Adds a line with a count.
#[tactic(auto, unfolding(crate::specs::Pairs::count_text))]
pub fn push_count(out: &mut Vec<u8>, label: &[u8], count: usize) -> Result<(), NoMemory>
    ensures { OnOk result (out.new.items ≡ out.old.items ++ count_text label.now count) }
{
    out.extend_from_slice(label)?;
    push_number(out, count as u64)?;
    out.extend_from_slice(b"\n")?;
    Ok(())
}
