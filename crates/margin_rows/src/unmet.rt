//! What a choice fails first: a row that it does not strictly meet, or a relay whose pickup is not in the first box.
ghost use Rattle.std.specs.Prelude.{◌<◌, ◌↔◌, length, All, IfSome, IsNone, IsTrue};
ghost use Rattle.coord_model.specs.Allowed.{AreOnSteps, IsAllowed};
ghost use Rattle.coord_model.specs.Choice.{choice_data};
ghost use Rattle.margin_rows.specs.Case.{rows_in, FitsCase};
ghost use Rattle.margin_rows.specs.FirstBox.{IsFirstStep, IsInFirstBox};
ghost use Rattle.margin_rows.specs.Margin.{MeetsStrictly};
ghost use Rattle.margin_rows.specs.Unmet.{IsFirstUnmet, IsFirstOutside};

use crate::instance::Instance;
use crate::margin::strict_row;
use coord_model::Choice;

/// Whether a choice strictly meets every row.
pub fn strict_ok(inst: &Instance, choice: &Choice) -> bool
    requires { IsInFirstBox inst.now (choice_data choice.now) }

    ensures exact { IsTrue result ↔ All (MeetsStrictly inst.now (choice_data choice.now)) (rows_in inst.now) }
    ensures allowed { IsTrue result → IsAllowed inst.now.study inst.now.currents (choice_data choice.now) }
{
    first_unmet(inst, choice).is_none()
}

/// The first row that a choice does not strictly meet. `None`: it strictly meets every row.
pub fn first_unmet(inst: &Instance, choice: &Choice) -> Option<u16>
    requires { IsInFirstBox inst.now (choice_data choice.now) }

    ensures unmet { IfSome result (IsFirstUnmet inst.now (choice_data choice.now)) }
    ensures met { IsNone result → All (MeetsStrictly inst.now (choice_data choice.now)) (rows_in inst.now) }
    ensures fits { FitsCase inst.now }
{
    for row in 0..inst.rows().len() as u16 {
        if strict_row(inst, choice, row) < 0 {
            return Some(row);
        }
    }
    None
}

/// The first relay whose pickup is not in the first box. `None`: the choice lies in the first box.
pub fn first_outside(inst: &Instance, choice: &Choice) -> Option<u16>
    requires { AreOnSteps inst.now.study (choice_data choice.now) }

    ensures outside { IfSome result (IsFirstOutside inst.now (choice_data choice.now)) }
    ensures inside { IsNone result → IsInFirstBox inst.now (choice_data choice.now) }
{
    for relay in 0..inst.study().relays.len() as u16 {
        if !is_first_step(inst, relay, choice.pickup[usize::from(relay)]) {
            return Some(relay);
        }
    }
    None
}

/// Whether the first box has a pickup step of a relay.
fn is_first_step(inst: &Instance, relay: u16, step: u16) -> bool
    requires { relay < length inst.now.study.relays }
    ensures { IsTrue result ↔ IsFirstStep inst.now relay step }
{
    match inst.first_pickups(relay) {
        Some((low, high)) => low <= step && step <= high,
        None => false,
    }
}
