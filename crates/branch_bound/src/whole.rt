//! A whole search.
ghost use Rattle.std.specs.Prelude.{◌≤◌, ◌^◌};
ghost use Rattle.branch_bound.specs.Outcome.{Ends};

use crate::fault::SearchFault;
use crate::outcome::Outcome;
use crate::solver::Solver;
use advice::Adviser;
use margin_rows::Instance;
use std::alloc::Global;

/// Searches the settings of a study until no box is open or the budget of boxes is spent.
///
/// `gap` is in whole weighted microseconds. The one refusal besides want of memory is a gap below the least gap.
pub fn search<A: Adviser>(
    alloc: Global,
    inst: &Instance,
    gap: u64,
    budget: u32,
    adviser: &mut A,
) -> Result<Outcome, SearchFault>
    requires gap { gap ≤ 10 ^ 12 }
    requires budget { 1 ≤ budget }
    requires budget_small { budget ≤ 200000 }
    ensures { Ends inst.now gap budget result }
{
    let mut solver = Solver::new(alloc, inst, gap, budget)?;
    while !solver.done() {
        solver.step(adviser)?;
    }
    Ok(solver.finish()?)
}
