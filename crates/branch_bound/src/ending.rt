//! The bound and the ending of a done search.
ghost use Rattle.std.specs.Prelude.{◌≡◌, ℕ, Option, Some, IfOk};
ghost use Rattle.coord_model.specs.Tree.{shape};
ghost use Rattle.coord_model.specs.TreeLimits.{FitsTree};
ghost use Rattle.coord_model.specs.declared.choice.Ending.{Ending as EndingData};
ghost use Rattle.margin_rows.specs.Box.{FitsBox};
ghost use Rattle.cert_tree.specs.Endings.{ending_of as ending_by_tree};
ghost use Rattle.cert_tree.specs.Holding.{Holds};

use cert_tree::{TreeRefusal, ending_of, holds_at};
use coord_model::{Ending, NoMemory, Node};
use margin_rows::{Instance, Ranges};
use std::alloc::Global;

/// The bound and the ending of a tree that holds and has an ending, whatever its bound is.
///
/// The bound is worked out by the walk over the tree by which certificates are checked.
pub fn bound_and_ending(
    alloc: Global,
    inst: &Instance,
    first: &Ranges,
    tree: &Node,
    cost: Option<u64>,
    gap: u64,
    budget: u32,
) -> Result<(Option<u64>, Ending), NoMemory>
    requires fits { FitsBox inst.now first.now }
    requires limits { FitsTree (shape tree.now) }
    requires holds { (bound : Option ℕ) × Holds inst.now first.now (shape tree.now) bound }
    requires ended { (bound : Option ℕ) → Holds inst.now first.now (shape tree.now) bound → (ending : EndingData) × (ending_by_tree (shape tree.now) bound cost gap budget ≡ Some ending) }

    ensures bound { IfOk result (λ end. Holds inst.now first.now (shape tree.now) end.0) }
    ensures ending { IfOk result (λ end. ending_by_tree (shape tree.now) end.0 cost gap budget ≡ Some end.1) }
{
    let bound = match holds_at(alloc, inst, first, tree) {
        Ok(bound) => bound,
        Err(TreeRefusal::NoMemory) => return Err(NoMemory),
        Err(TreeRefusal::Fault { .. }) => unreachable!(),
    };
    let Some(ending) = ending_of(tree, bound, cost, gap, budget) else {
        unreachable!()
    };
    Ok((bound, ending))
}
