//! Settings that are offered in a step.
ghost use Rattle.std.specs.Prelude.{IfOk, IfSome};
ghost use Rattle.std.specs.Option.{option_map};
ghost use Rattle.coord_model.specs.Choice.{choice_data};
ghost use Rattle.margin_rows.specs.Box.{FitsBox, HasNoEmptySpan};
ghost use Rattle.margin_rows.specs.FirstBox.{IsInFirstBox};
ghost use Rattle.margin_rows.specs.Least.{IsStrictLeastOf};
ghost use Rattle.step_rules.specs.Offers.{IsAdvisedOffer, lowest_pickups};

use coord_model::{Choice, NoMemory};
use margin_rows::{Instance, Ranges, strict_least};
use std::alloc::Global;

/// What is offered for advised pickups: their strict-least settings. `None`: there are none, or some relay has no
/// pickup of its span there.
pub fn advised_offer(
    alloc: Global,
    inst: &Instance,
    ranges: &Ranges,
    pickups: &[u16],
) -> Result<Option<Choice>, NoMemory>
    requires { FitsBox inst.now ranges.now }
    ensures exact { IfOk result (λ found. IsAdvisedOffer inst.now ranges.now pickups.now (option_map choice_data found)) }
    ensures first_box { IfOk result (λ found. IfSome found (λ choice. IsInFirstBox inst.now (choice_data choice))) }
{
    if ranges.holds_pickups(pickups) {
        strict_least(alloc, inst, pickups)
    } else {
        Ok(None)
    }
}

/// The strict-least settings of the lowest pickups of a box. `None`: there are none.
pub fn lowest_offer(
    alloc: Global,
    inst: &Instance,
    ranges: &Ranges,
) -> Result<Option<Choice>, NoMemory>
    requires fits { FitsBox inst.now ranges.now }
    requires steps { HasNoEmptySpan ranges.now }
    ensures exact { IfOk result (λ found. IsStrictLeastOf inst.now (lowest_pickups ranges.now) (option_map choice_data found)) }
    ensures first_box { IfOk result (λ found. IfSome found (λ choice. IsInFirstBox inst.now (choice_data choice))) }
{
    let lowest = ranges.lowest()?;
    strict_least(alloc, inst, &lowest.pickup)
}
