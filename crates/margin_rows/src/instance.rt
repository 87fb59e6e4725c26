//! An instance: a study and its currents, with what is worked out from them once.
ghost use Rattle.std.specs.Prelude.{◌≡◌, ◌≢◌, ◌↔◌, ◌*◌, ◌<◌, ◌≤◌, ◌^◌, pos, ◌≤ℤ◌, ◌+ℤ◌, ◌+◌, Some, slice_get, length, Contains, IfOk, IfErr, IsTrue};
ghost use Rattle.std.specs.List.{AllPairs};
ghost use Rattle.coord_model.specs.Cost.{weight_of};
ghost use Rattle.coord_model.specs.Limits.{FitsStudy, FitsCurrents};
ghost use Rattle.coord_model.specs.Rows.{is_primary};
ghost use Rattle.coord_model.specs.StudyData.{study_data, entries_of};
ghost use Rattle.coord_model.specs.declared.study.Row.{Row};
ghost use Rattle.coord_model.specs.declared.study.Term.{Term};
ghost use Rattle.margin_rows.specs.Case.{case_of, rows_in, terms_in, row_at, term_at, FitsCase};
ghost use Rattle.margin_rows.specs.FirstBox.{IsFirstStep, IsFirstSpanOf};
ghost use Rattle.margin_rows.specs.Demands.{demand_of, row_constant};
ghost use Rattle.margin_rows.specs.Order.{IsAsked, RowBefore, TermBefore};
ghost use Rattle.margin_rows.specs.Price.{term_sum};
ghost use Rattle.margin_rows.specs.Refusal.{HasCause};
ghost use Rattle.margin_rows.specs.Times.{time_at, ends, IsOrdinary};

use crate::demand::Demand;
use crate::ends::Ends;
use crate::fault::BuildFault;
use crate::given::Given;
use crate::sums::place;
use crate::tables::{Tables, tabulate};
use coord_model::{Currents, Row, Study, Term};
use std::alloc::Global;
use std::marker::Model;

/// A study with its currents, and beside them its terms, its rows, the first box and the operating times.
#[derive(Drop)]
pub struct Instance {
    given: Given,
    tables: Tables,
}

impl Model for Instance {
    ghost use Rattle.margin_rows.specs.Case.{Case, FitsCase};
    ghost use Rattle.margin_rows.specs.Tables.{AreTablesOf};

    ghost Value = { Case };

    ghost view = { λ a. a.given };

    ghost invariant = { λ a. FitsCase a.given × AreTablesOf a.given a.tables };
}

/// An instance of a study and its currents.
///
/// On a refusal both are dropped.
pub fn build(alloc: Global, study: Study, currents: Currents) -> Result<Instance, BuildFault>
    requires study { FitsStudy (study_data study) }
    requires currents { FitsCurrents (study_data study) (entries_of currents) }

    ensures exact { IfOk result (λ inst. inst ≡ case_of study currents) }
    ensures fits { IfOk result FitsCase }
    ensures refused { IfErr result (HasCause (case_of study currents)) }
{
    let given = Given::new(alloc, study, currents)?;
    let tables = tabulate(alloc, &given)?;
    Ok(Instance { given, tables })
}

impl Instance {
    /// The study.
    pub fn study(&self) -> &Study
        ensures value { study_data result.now ≡ self.now.study }
        ensures fits { FitsCase self.now }
    {
        self.given.study()
    }

    /// The rows: the interval rows by fault, then by primary, then by backup; the least rows by fault and then by
    /// relay; the most rows in the same order.
    pub fn rows(&self) -> &[Row]
        ensures value { result.now ≡ rows_in self.now }
        ensures fits { FitsCase self.now }

        // A row is listed exactly if it is asked for.
        ensures listed { (row : Row) → Contains result.now row ↔ IsAsked row.kind self.now row }
        ensures ordered { AllPairs RowBefore result.now }
        ensures once { AllPairs (λ row other. row ≢ other) result.now }
    {
        self.tables.rows.as_slice()
    }

    /// The row with a number.
    pub fn row(&self, row: u16) -> Row
        requires { row < length (rows_in self.now) }
        ensures exact { result ≡ row_at self.now row }
        ensures fault { result.fault < length self.now.study.faults }
        ensures backup { result.backup < length self.now.study.relays }
        ensures primary { result.primary < length self.now.study.relays }
        ensures fits { FitsCase self.now }
    {
        self.tables.rows[usize::from(row)]
    }

    /// What a row asks for and what it grants, in picoseconds.
    pub(crate) fn demand(&self, row: u16) -> Demand
        requires { row < length (rows_in self.now) }
        ensures exact { result ≡ demand_of self.now.study (row_at self.now row) }
        ensures asked_small { result.asked ≤ 10 ^ 14 }
        ensures granted_small { result.granted ≤ 2 * 10 ^ 16 }
    {
        self.tables.demands[usize::from(row)]
    }

    /// The constant of a row, in picoseconds: the coordination interval, the least time, or the greatest time with its
    /// sign turned.
    #[tactic(auto, unfolding(crate::specs::Demands::row_constant))]
    pub fn row_constant(&self, row: u16) -> i64
        requires { row < length (rows_in self.now) }
        ensures exact { result ≡ row_constant self.now.study (row_at self.now row) }
        ensures not_low { pos 0 ≤ℤ (result +ℤ pos (2 * 10 ^ 16)) }
        ensures not_high { result ≤ℤ pos (10 ^ 14) }
    {
        let demand = self.demand(row);
        demand.asked as i64 - demand.granted as i64
    }

    /// The terms, by fault and then by relay.
    pub fn terms(&self) -> &[Term]
        ensures value { result.now ≡ terms_in self.now }
        ensures fits { FitsCase self.now }

        // A term is listed exactly if its relay clears its fault first.
        ensures listed { (term : Term) → Contains result.now term ↔ IsTrue (is_primary self.now.study self.now.currents term.fault term.relay) }
        ensures ordered { AllPairs TermBefore result.now }
        ensures once { AllPairs (λ term other. term ≢ other) result.now }
    {
        self.tables.terms.as_slice()
    }

    /// The term with a number.
    pub fn term(&self, term: u16) -> Term
        requires { term < length (terms_in self.now) }
        ensures exact { result ≡ term_at self.now term }
        ensures fault { result.fault < length self.now.study.faults }
        ensures relay { result.relay < length self.now.study.relays }
    {
        self.tables.terms[usize::from(term)]
    }

    /// The weight of a fault.
    pub(crate) fn weight(&self, fault: u16) -> u64
        requires { fault < length self.now.study.faults }
        ensures exact { result ≡ weight_of self.now.study fault }
        ensures small { result ≤ 1000 }
    {
        self.given.weight(fault)
    }

    /// The lowest and the highest pickup step of a relay in the first box. `None`: it has none.
    pub fn first_pickups(&self, relay: u16) -> Option<(u16, u16)>
        requires { relay < length self.now.study.relays }
        ensures { IsFirstSpanOf self.now relay result }
    {
        self.tables.spans[usize::from(relay)]
    }

    /// The ends of the backup's time and of the primary's time at a row, in nanoseconds at dial 1.
    ///
    /// At a least or most row the two are one relay, with its times at two pickup steps.
    pub fn row_times(
        &self,
        row: u16,
        backup_step: u16,
        primary_step: u16,
    ) -> ((u64, u64), (u64, u64))
        requires row { row < length (rows_in self.now) }
        requires backup_step { IsFirstStep self.now (row_at self.now row).backup backup_step }
        requires primary_step { IsFirstStep self.now (row_at self.now row).primary primary_step }

        ensures backup { let r : Row = row_at self.now row in result.0 ≡ ends (time_at self.now r.fault r.backup backup_step) }
        ensures primary { let r : Row = row_at self.now row in result.1 ≡ ends (time_at self.now r.fault r.primary primary_step) }

        // Both times are above 0 and below 2^40.
        ensures backup_ordinary { let r : Row = row_at self.now row in IsOrdinary (time_at self.now r.fault r.backup backup_step) }
        ensures primary_ordinary { let r : Row = row_at self.now row in IsOrdinary (time_at self.now r.fault r.primary primary_step) }
    {
        let backup = self.backup_time(row, backup_step);
        let primary = self.primary_time(row, primary_step);
        ((backup.lower, backup.upper), (primary.lower, primary.upper))
    }

    /// The ends of the backup's time at a row, in nanoseconds at dial 1.
    pub fn backup_time(&self, row: u16, step: u16) -> Ends
        requires row { row < length (rows_in self.now) }
        requires step { IsFirstStep self.now (row_at self.now row).backup step }

        ensures lower { let r : Row = row_at self.now row in result.lower ≡ (time_at self.now r.fault r.backup step).lower }
        ensures upper { let r : Row = row_at self.now row in result.upper ≡ (time_at self.now r.fault r.backup step).upper }

        // The time is above 0, and its ends are in order and below 2^40.
        ensures ordinary { let r : Row = row_at self.now row in IsOrdinary (time_at self.now r.fault r.backup step) }
    {
        let start = self.tables.row_runs[usize::from(row)].backup;
        time_in(self.tables.times.as_slice(), start, step)
    }

    /// The ends of the primary's time at a row, in nanoseconds at dial 1.
    pub fn primary_time(&self, row: u16, step: u16) -> Ends
        requires row { row < length (rows_in self.now) }
        requires step { IsFirstStep self.now (row_at self.now row).primary step }

        ensures lower { let r : Row = row_at self.now row in result.lower ≡ (time_at self.now r.fault r.primary step).lower }
        ensures upper { let r : Row = row_at self.now row in result.upper ≡ (time_at self.now r.fault r.primary step).upper }

        // The time is above 0, and its ends are in order and below 2^40.
        ensures ordinary { let r : Row = row_at self.now row in IsOrdinary (time_at self.now r.fault r.primary step) }
    {
        let start = self.tables.row_runs[usize::from(row)].primary;
        time_in(self.tables.times.as_slice(), start, step)
    }

    /// The ends of the relay's time at a term, in nanoseconds at dial 1.
    pub fn term_time(&self, term: u16, step: u16) -> (u64, u64)
        requires term { term < length (terms_in self.now) }
        requires step { IsFirstStep self.now (term_at self.now term).relay step }

        ensures lower { let t : Term = term_at self.now term in result.0 ≡ (time_at self.now t.fault t.relay step).lower }
        ensures upper { let t : Term = term_at self.now term in result.1 ≡ (time_at self.now t.fault t.relay step).upper }

        // The time is above 0, and its ends are in order and below 2^40.
        ensures ordinary { let t : Term = term_at self.now term in IsOrdinary (time_at self.now t.fault t.relay step) }
    {
        let start = self.tables.term_runs[usize::from(term)];
        let ends = time_in(self.tables.times.as_slice(), start, step);
        (ends.lower, ends.upper)
    }

    /// The sum over a relay's terms of weight times time at the lower end, in nanoseconds at dial 1.
    pub fn term_sum(&self, relay: u16, step: u16) -> u64
        requires { IsFirstStep self.now relay step }
        ensures exact { result ≡ term_sum self.now relay step }
        ensures small { result ≤ 2 ^ 59 }
    {
        self.tables.sums[place(relay, step)]
    }
}

/// The ends that stand at a pickup step of a run.
fn time_in(times: &[Ends], start: usize, step: u16) -> Ends
    requires { start + step < length times.now }
    ensures { slice_get times.now (start + step) ≡ Some result }
{
    times[start + usize::from(step)]
}
