//! A search, step by step.
ghost use Rattle.std.specs.Prelude.{◌≡◌, ◌+◌, ◌≤◌, ◌^◌, ◌↔◌, length, IfOk, IfSome, OnOk, OnErr, IsTrue};
ghost use Rattle.margin_rows.specs.Box.{Box};
ghost use Rattle.margin_rows.specs.Gap.{IsGapEnough};
ghost use Rattle.search_tree.specs.Plan.{plan_of};
ghost use Rattle.search_tree.specs.Steps.{IsOpen};
ghost use Rattle.step_rules.specs.Issuing.{IsPriced};
ghost use Rattle.branch_bound.specs.Advancing.{IsAdvance};
ghost use Rattle.branch_bound.specs.Searching.{Placed};

use crate::fault::SearchFault;
use crate::finish::conclude;
use crate::outcome::Outcome;
use crate::taking::take;
use advice::Adviser;
use coord_model::NoMemory;
use margin_rows::{Instance, least_gap};
use search_tree::SearchTree;
use std::alloc::Global;
use std::marker::Model;
use step_rules::{Issued, OpenBox, handle};

/// One search. It borrows the instance for as long as it lives.
#[derive(Drop)]
pub struct Solver<'a> {
    alloc: Global,
    inst: &'a Instance,
    gap: u64,
    budget: u32,
    boxes: u32,
    issued: Option<Issued>,
    tree: SearchTree<OpenBox>,
}

impl<'a> Model for Solver<'a> {
    ghost use Rattle.branch_bound.specs.Searching.{IsSearch, Search};

    ghost Value = { Search };

    ghost view = { λ a. record {
      case = a.inst.now;
      gap = a.gap;
      budget = a.budget;
      boxes = a.boxes;
      issued = a.issued;
      slots = a.tree;
    } };

    ghost invariant = { λ a. IsSearch (record {
      case = a.inst.now;
      gap = a.gap;
      budget = a.budget;
      boxes = a.boxes;
      issued = a.issued;
      slots = a.tree;
    }) };
}

impl<'a> Solver<'a> {
    ghost use Rattle.branch_bound.specs.Advancing.{HasNotFallen, IsBegun, IsStepOf};
    ghost use Rattle.branch_bound.specs.Leading.{IsLeadOf, TurnsFirst};
    ghost use Rattle.branch_bound.specs.Machine.{IsDone};
    ghost use Rattle.branch_bound.specs.Outcome.{IsOutcome};
    ghost use Rattle.branch_bound.specs.Searching.{state_of};

    /// A search with one open box: the first box of the study.
    pub fn new(
        alloc: Global,
        inst: &'a Instance,
        gap: u64,
        budget: u32,
    ) -> Result<Solver<'a>, SearchFault>
        requires gap { gap ≤ 10 ^ 12 }
        requires budget { 1 ≤ budget }
        requires budget_small { budget ≤ 200000 }
        ensures begun { IsBegun inst.now gap budget result }
    {
        let least = least_gap(inst);
        if gap < least {
            return Err(SearchFault::GapTooSmall { given: gap, least });
        }
        let first = OpenBox::first(alloc, inst)?;
        let tree = SearchTree::new(alloc, first.bound, first)?;
        Ok(Solver {
            alloc,
            inst,
            gap,
            budget,
            boxes: 0,
            issued: None,
            tree,
        })
    }

    /// Whether the search is done: no box is open, or the budget of boxes is spent.
    pub fn done(&self) -> bool
        ensures { IsTrue result ↔ IsDone self.now.budget (state_of self.now) }
    {
        self.boxes == self.budget || self.tree.lead().is_none()
    }

    /// The least bound of the open boxes, in whole weighted microseconds; 0 if the first box has an empty span and is
    /// still open. `None`: no box is open.
    pub fn lead(&self) -> Option<u64>
        ensures { IsLeadOf self.now result }
    {
        match self.tree.first() {
            Some((_, open)) => Some(open.bound),
            None => None,
        }
    }

    /// Handles one open box: of those with the least bound the one made first, a low half before its high half.
    ///
    /// Want of memory leaves the search as it was, so that the step may be taken again.
    pub fn step<A: Adviser>(&mut self, adviser: &mut A) -> Result<(), NoMemory>
        requires goes_on { ¬ (IsDone self.old.budget (state_of self.old)) }

        // It is a step of the machine, on the open box that comes first.
        ensures stepped { OnOk result (IsStepOf self.old self.new) }
        ensures first { OnOk result (TurnsFirst self.old self.new) }
        ensures unchanged { OnErr result (self.new ≡ self.old) }

        // The least bound of the open boxes never falls.
        ensures rises { OnOk result (HasNotFallen self.old self.new) }
    {
        advance(
            self.alloc,
            self.inst,
            self.gap,
            &mut self.issued,
            &mut self.tree,
            adviser,
        )?;
        self.boxes += 1;
        Ok(())
    }

    /// The outcome of a search that is done. After want of memory the search is lost.
    pub fn finish(self) -> Result<Outcome, NoMemory>
        requires { IsDone self.budget (state_of self) }
        ensures { IfOk result (IsOutcome self.entry.case self.entry.gap self.entry.budget (state_of self.entry)) }
    {
        let tree = self.tree.into_tree(self.alloc)?;
        conclude(
            self.alloc,
            self.inst,
            self.gap,
            self.budget,
            self.boxes,
            self.issued,
            tree,
        )
    }
}

/// Handles the open box that comes first.
fn advance<A: Adviser>(
    alloc: Global,
    inst: &Instance,
    gap: u64,
    issued: &mut Option<Issued>,
    tree: &mut SearchTree<OpenBox>,
    adviser: &mut A,
) -> Result<(), NoMemory>
    requires open { IsOpen (plan_of tree.old) }
    requires room { length tree.old + 2 ≤ 400001 }
    requires placed { (first : Box) × Placed inst.now first (plan_of tree.old) }
    requires priced { IfSome issued.old (IsPriced inst.now) }
    requires gap { IsGapEnough inst.now gap }

    ensures advanced { OnOk result (IsAdvance inst.now gap issued.old issued.new tree.old tree.new) }
    ensures unchanged { OnErr result (tree.new ≡ tree.old) }
    ensures same_issued { OnErr result (issued.new ≡ issued.old) }
{
    let Some((_, open)) = tree.first() else {
        return Ok(());
    };
    let (handling, better) = handle(alloc, inst, open, issued, gap, adviser)?;
    take(tree, handling)?;
    if better.is_some() {
        *issued = better;
    }
    Ok(())
}
