//! What whole searches come to.
ghost use Rattle.std.specs.Prelude.{◌≤◌};

use super::{BUDGET, FIRST_ROW, GAP, SECOND_ROW};
use advice::{Advice, Adviser, NullAdviser};
use branch_bound::{Outcome, SearchFault, Solver, search};
use coord_model::{Ending, NoMemory, Weights};
use hand_studies::{capped_line, parallel_lines, relay_chain, tied_lines, two_pickups};
use margin_rows::{BuildFault, Instance, Ranges};
use std::alloc::Global;

/// An adviser that weighs both rows once, and the cost four times, and says nothing of use afterwards.
#[derive(Clone, Copy)]
struct Once {
    asked: bool,
}

impl Adviser for Once {
    fn advise(
        &mut self,
        alloc: Global,
        inst: &Instance,
        ranges: &Ranges,
    ) -> Result<Advice, NoMemory> {
        let advice = NullAdviser.advise(alloc, inst, ranges)?;
        if self.asked {
            return Ok(advice);
        }
        self.asked = true;
        let both = [FIRST_ROW, SECOND_ROW];
        Ok(Advice {
            weights: Weights {
                lambda: 4,
                rows: Vec::from_slice(alloc, &both)?,
            },
            ..advice
        })
    }
}

/// The ending, the cost, the bound and the boxes of a search without advice.
fn came_to(
    alloc: Global,
    inst: &Instance,
    budget: u32,
) -> Result<(Ending, Option<u64>, Option<u64>, u32), SearchFault>
    requires least { 1 ≤ budget }
    requires most { budget ≤ 200000 }
{
    let outcome = search(alloc, inst, GAP, budget, &mut NullAdviser)?;
    Ok((outcome.ending, outcome.cost, outcome.bound, outcome.boxes))
}

/// The least bounds after each of the first steps, if none is below the one before.
fn first_lead<A: Adviser>(
    alloc: Global,
    inst: &Instance,
    adviser: &mut A,
) -> Result<Option<u64>, SearchFault> {
    let mut solver = Solver::new(alloc, inst, GAP, BUDGET)?;
    let mut first = None;
    let mut last = 0;
    for _ in 0..100_u32 {
        if solver.done() {
            return Ok(first);
        }
        solver.step(adviser)?;
        let Some(lead) = solver.lead() else {
            return Ok(first);
        };
        if lead < last {
            return Ok(None);
        }
        last = lead;
        first = first.or(Some(lead));
    }
    Ok(None)
}

// At 1.00 the first relay needs dial 0.250: 0.25 * 0.75 s + 0.05 * 1.5 s. At 2.00 it costs more at its least dial.
#[test]
fn the_lower_pickup_is_the_better_one(rt: HostRuntime) -> Result<(), BuildFault> {
    let alloc = rt.alloc();
    let inst = two_pickups(alloc)?;
    let Ok(all) = came_to(alloc, &inst, BUDGET) else {
        return Err(BuildFault::NoMemory);
    };
    assert!(rt; all == (Ending::Closed, Some(262_500), Some(262_500), 3));
    Ok(())
}

// At 20 times pickup the relay takes 13.5/19 s at dial 1, whichever its pickup: 35,526.3 us at 0.050.
#[test]
fn capped_multiples_close_one_box(rt: HostRuntime) -> Result<(), BuildFault> {
    let alloc = rt.alloc();
    let inst = capped_line(alloc)?;
    let Ok(all) = came_to(alloc, &inst, BUDGET) else {
        return Err(BuildFault::NoMemory);
    };
    assert!(rt; all == (Ending::Closed, Some(35_527), Some(35_526), 1));
    Ok(())
}

// The second relay has to take 1,530 ms as backup. So it takes 382.5 ms or more as primary, the first one 412.5 ms as
// backup, and 103 ms as primary, where it may take 81 ms. No row alone shows that before the first relay has one pickup.
#[test]
fn a_chain_that_no_settings_keep_is_split_once(rt: HostRuntime) -> Result<(), BuildFault> {
    let alloc = rt.alloc();
    let inst = relay_chain(alloc)?;
    let Ok(all) = came_to(alloc, &inst, BUDGET) else {
        return Err(BuildFault::NoMemory);
    };
    assert!(rt; all == (Ending::NoSettings, None, None, 3));
    Ok(())
}

// Both dials 0.028 at 1.00 cost 84,000 and are short of the interval; the issued ones are 0.108. One box is not enough.
#[test]
fn a_spent_budget_leaves_open_boxes(rt: HostRuntime) -> Result<(), BuildFault> {
    let alloc = rt.alloc();
    let inst = parallel_lines(alloc, 100)?;
    let Ok(one) = came_to(alloc, &inst, 1) else {
        return Err(BuildFault::NoMemory);
    };
    assert!(rt; one == (Ending::BudgetSpent, Some(324_000), Some(84_000), 1));
    let Ok(all) = came_to(alloc, &inst, BUDGET) else {
        return Err(BuildFault::NoMemory);
    };
    assert!(rt; all.0 == Ending::Closed && all.1 == Some(216_000) && all.3 >= 3);
    Ok(())
}

// With weights 1 for both rows and 4 for the cost the halves of the first box have the bound 204,000 and more.
#[test]
fn the_lead_never_falls(rt: HostRuntime) -> Result<(), BuildFault> {
    let alloc = rt.alloc();
    let inst = parallel_lines(alloc, 100)?;
    let Ok(plain) = first_lead(alloc, &inst, &mut NullAdviser) else {
        return Err(BuildFault::NoMemory);
    };
    assert!(rt; plain == Some(84_000));
    let Ok(advised) = first_lead(alloc, &inst, &mut Once { asked: false }) else {
        return Err(BuildFault::NoMemory);
    };
    assert!(rt; advised == Some(204_000));
    Ok(())
}

// At 0.280 and 0.140 the interval is kept exactly, which no enclosure shows. The least gap is 2.
#[test]
fn an_exact_tie_is_a_hairline(rt: HostRuntime) -> Result<(), BuildFault> {
    let alloc = rt.alloc();
    let inst = tied_lines(alloc)?;
    let small = search(alloc, &inst, 1, BUDGET, &mut NullAdviser);
    let refused = matches!(small, Err(SearchFault::GapTooSmall { given: 1, least: 2 }));
    assert!(rt; refused);
    let Ok(outcome) = search(alloc, &inst, GAP, BUDGET, &mut NullAdviser) else {
        return Err(BuildFault::NoMemory);
    };
    assert!(rt; hairline(&outcome));
    Ok(())
}

/// Whether nothing is issued, and the first row is shown with the second dial of the backup.
fn hairline(outcome: &Outcome) -> bool {
    let shown = match &outcome.hair {
        Some(place) => place.row == 0 && &*place.choice.dial == [1, 0].as_slice(),
        None => false,
    };
    shown && outcome.cost.is_none() && outcome.bound == Some(269_999) && outcome.boxes == 1
}
