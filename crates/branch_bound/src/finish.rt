//! The outcome of a done search.
ghost use Rattle.std.specs.Prelude.{◌≡◌, ◌≢◌, false, None, IfOk, IfSome, MatchOption};
ghost use Rattle.std.specs.Option.{option_map};
ghost use Rattle.coord_model.specs.Choice.{choice_data};
ghost use Rattle.coord_model.specs.Tree.{shape};
ghost use Rattle.coord_model.specs.declared.choice.Ending.TheVariants.{Hairline};
ghost use Rattle.margin_rows.specs.Box.{FitsBox};
ghost use Rattle.margin_rows.specs.Case.{Case};
ghost use Rattle.cert_tree.specs.Endings.{has_hair};
ghost use Rattle.cert_tree.specs.NodeRules.{IsRight};
ghost use Rattle.step_rules.specs.Issuing.{IsPriced, costs, settings_of};
ghost use Rattle.branch_bound.specs.Concluding.{IsConcluded};
ghost use Rattle.branch_bound.specs.Facts.{Every};
ghost use Rattle.branch_bound.specs.HairLeaf.{IsFirstHair};
ghost use Rattle.branch_bound.specs.Outcome.{IsOutcome};

use crate::ending::bound_and_ending;
use crate::hair::first_hair;
use crate::outcome::{HairPlace, Outcome};
use coord_model::{Choice, Ending, NoMemory, Node};
use margin_rows::{Instance, Ranges};
use std::alloc::Global;
use step_rules::Issued;

/// The outcome of a done search with this tree.
pub fn conclude(
    alloc: Global,
    inst: &Instance,
    gap: u64,
    budget: u32,
    boxes: u32,
    issued: Option<Issued>,
    tree: Node,
) -> Result<Outcome, NoMemory>
    requires { IsConcluded inst.now gap budget boxes issued (shape tree) }
    ensures { IfOk result (IsOutcome inst.now gap budget (record { tree = shape tree; issued = settings_of issued })) }
{
    let first = Ranges::first(alloc, inst)?;
    let cost = cost_of(&issued);
    let (bound, ending) = bound_and_ending(alloc, inst, &first, &tree, cost, gap, budget)?;
    let hair = hair_of(inst, first, &tree, ending)?;
    Ok(Outcome {
        ending,
        issued: choice_of(issued),
        cost,
        bound,
        gap,
        budget,
        boxes,
        hair,
        tree,
    })
}

/// The first hair leaf of a tree, if the search ended with a hairline.
fn hair_of(
    inst: &Instance,
    first: Ranges,
    tree: &Node,
    ending: Ending,
) -> Result<Option<HairPlace>, NoMemory>
    requires fits { FitsBox inst.now first }
    requires right { Every inst.now (IsRight inst.now) first (shape tree.now) }
    ensures hairline { ending ≡ Hairline → IfOk result (λ found. MatchOption found (has_hair (shape tree.now) ≡ false) (λ place. IsFirstHair inst.now first (shape tree.now) place.row (choice_data place.choice))) }
    ensures none { ending ≢ Hairline → IfOk result (λ found. found ≡ None) }
{
    match ending {
        Ending::Hairline => first_hair(inst, first, tree),
        _ => Ok(None),
    }
}

/// The cost of what is issued.
fn cost_of(issued: &Option<Issued>) -> Option<u64>
    ensures { (case : Case) → IfSome issued.now (IsPriced case) → result ≡ costs case (settings_of issued.now) }
{
    match issued {
        Some(issued) => Some(issued.cost),
        None => None,
    }
}

/// The settings that are issued.
fn choice_of(issued: Option<Issued>) -> Option<Choice>
    ensures { option_map choice_data result ≡ settings_of issued }
{
    match issued {
        Some(issued) => Some(issued.choice),
        None => None,
    }
}
