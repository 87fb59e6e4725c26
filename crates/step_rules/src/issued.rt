//! Settings that are issued.
ghost use Rattle.std.specs.Prelude.{◌≡◌, ◌↔◌, Option, IfSome, IsTrue};
ghost use Rattle.std.specs.Option.{option_map};
ghost use Rattle.coord_model.specs.Choice.{Settings, choice_data};
ghost use Rattle.margin_rows.specs.Case.{Case};
ghost use Rattle.margin_rows.specs.FirstBox.{IsInFirstBox};
ghost use Rattle.step_rules.specs.Issuing.{IsPriced, costs, latest};
ghost use Rattle.step_rules.specs.Offers.{Reaches, offered};

use coord_model::Choice;
use margin_rows::{Instance, cost};

/// Settings that are issued, and their cost in whole weighted microseconds.
#[derive(Drop)]
pub struct Issued {
    pub choice: Choice,
    pub cost: u64,
}

/// The cost of the latest settings that are issued.
pub fn latest_cost(inst: &Instance, before: &Option<Issued>, new: &Option<Issued>) -> Option<u64>
    requires before { IfSome before.now (IsPriced inst.now) }
    requires new { IfSome new.now (IsPriced inst.now) }
    ensures { result ≡ costs inst.now (latest before.now new.now) }
{
    match new.as_ref().or(before.as_ref()) {
        Some(issued) => Some(issued.cost),
        None => None,
    }
}

/// The new settings after these are offered too: they are issued if none are, or if they cost less.
pub fn offer(
    inst: &Instance,
    before: &Option<Issued>,
    new: Option<Issued>,
    choice: Option<Choice>,
) -> Option<Issued>
    requires before { IfSome before.now (IsPriced inst.now) }
    requires new { IfSome new (IsPriced inst.now) }
    requires first_box { IfSome choice (λ c. IsInFirstBox inst.now (choice_data c)) }
    ensures exact { latest before.now result ≡ offered inst.now (latest before.now new) (option_map choice_data choice) }
    ensures priced { IfSome result (IsPriced inst.now) }
{
    let Some(choice) = choice else {
        return new;
    };
    let cost = cost(inst, &choice);
    match latest_cost(inst, before, &new) {
        Some(held) if held <= cost => new,
        _ => Some(Issued { choice, cost }),
    }
}

/// Whether a bound and the gap come to at least the cost of what is issued.
pub fn reaches(bound: u64, gap: u64, cost: Option<u64>) -> bool
    ensures { (case : Case) (issued : Option Settings) → cost ≡ costs case issued → IsTrue result ↔ Reaches case gap issued bound }
{
    match cost {
        Some(cost) => cost.saturating_sub(gap) <= bound,
        None => false,
    }
}
