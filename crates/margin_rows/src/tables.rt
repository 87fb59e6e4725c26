//! What an instance works out once.
ghost use Rattle.std.specs.Prelude.{IfOk, IfErr};
ghost use Rattle.margin_rows.specs.Case.{FitsCase};
ghost use Rattle.margin_rows.specs.Refusal.{HasCause};
ghost use Rattle.margin_rows.specs.Tables.{AreTablesOf};

use crate::demand::{Demand, demands};
use crate::ends::Ends;
use crate::fault::BuildFault;
use crate::given::Given;
use crate::rows::rows;
use crate::runs::{RowRuns, no_runs, row_runs, term_runs};
use crate::spans::first_spans;
use crate::sums::term_sums;
use crate::terms::terms;
use coord_model::{Row, Term};
use relay_pairs::pairs;
use std::alloc::Global;

/// The rows and what each asks for, the terms, the first box, the operating times, where those of each term and row begin, and their sums over
/// the terms.
#[derive(Drop)]
pub struct Tables {
    pub rows: Vec<Row>,
    pub demands: Vec<Demand>,
    pub terms: Vec<Term>,
    pub spans: Vec<Option<(u16, u16)>>,
    pub times: Vec<Ends>,
    pub term_runs: Vec<usize>,
    pub row_runs: Vec<RowRuns>,
    pub sums: Vec<u64>,
}

/// The tables of a study and its currents.
pub fn tabulate(alloc: Global, given: &Given) -> Result<Tables, BuildFault>
    ensures fits { IfOk result (λ _. FitsCase given.now) }
    ensures exact { IfOk result (AreTablesOf given.now) }
    ensures refused { IfErr result (HasCause given.now) }
{
    let pairs = pairs(alloc, given.study())?;
    let terms = terms(alloc, given)?;
    let rows = rows(alloc, given, pairs.as_slice(), terms.as_slice())?;
    let demands = demands(alloc, given, rows.as_slice())?;
    let spans = first_spans(alloc, given, terms.as_slice(), rows.as_slice())?;
    let mut runs = no_runs(alloc, given)?;
    let term_runs = term_runs(alloc, given, terms.as_slice(), &mut runs)?;
    let sums = term_sums(
        alloc,
        given,
        terms.as_slice(),
        spans.as_slice(),
        runs.times.as_slice(),
        term_runs.as_slice(),
    )?;
    let row_runs = row_runs(alloc, given, rows.as_slice(), &mut runs)?;
    Ok(Tables {
        rows,
        demands,
        terms,
        spans,
        times: runs.times,
        term_runs,
        row_runs,
        sums,
    })
}
