//! Settings of a certificate: whether they are allowed, and what they cost.
ghost use Rattle.std.specs.Prelude.{◌≡◌, ◌<◌, ◌↔◌, length, is_some, All, IfErr, IfSome, IsNone, IsOk, IsTrue};
ghost use Rattle.std.specs.Option.{option_map};
ghost use Rattle.coord_model.specs.Allowed.{IsAllowed};
ghost use Rattle.coord_model.specs.Choice.{choice_data};
ghost use Rattle.coord_model.specs.Cost.{CostsAtMost};
ghost use Rattle.cert_check.specs.ClaimFaults.{IsFirstOfSettings};
ghost use Rattle.cert_check.specs.Claims.{IfPrinted, IsFirstOff, IsPriced, IsPrintedAnd};
ghost use Rattle.margin_rows.specs.Box.{IsDialStep};
ghost use Rattle.margin_rows.specs.Case.{rows_in};
ghost use Rattle.margin_rows.specs.FirstBox.{IsFirstStep, IsInFirstBox};
ghost use Rattle.margin_rows.specs.Margin.{MeetsStrictly};

use crate::kind::ClaimKind;
use coord_model::Choice;
use margin_rows::{Instance, cost, first_unmet};

/// Whether settings, if they are printed, lie in the first box, strictly meet every row, and cost what is printed.
pub(crate) fn settings_right(
    inst: &Instance,
    choice: Option<&Choice>,
    cost: Option<u64>,
) -> Result<(), ClaimKind>
    requires paired { IfSome choice (λ choice. length choice.now.pickup.items ≡ length choice.now.dial.items) }
    requires both { is_some choice ≡ is_some cost }

    ensures right { IsOk result → IfPrinted (option_map (λ choice. choice_data choice.now) choice.entry) cost (IsPriced inst.now) }
    ensures allowed { IsOk result → IfSome choice.entry (λ choice. IsAllowed inst.now.study inst.now.currents (choice_data choice.now)) }
    ensures at_most { IsOk result → IfPrinted (option_map (λ choice. choice_data choice.now) choice.entry) cost (CostsAtMost inst.now.study inst.now.currents) }
    ensures first { IfErr result (λ kind. IsPrintedAnd (option_map (λ choice. choice_data choice.now) choice.entry) cost (IsFirstOfSettings inst.now kind)) }
{
    match (choice, cost) {
        (Some(choice), Some(cost)) => priced(inst, choice, cost),
        _ => Ok(()),
    }
}

/// Whether a choice lies in the first box, strictly meets every row, and costs what is printed.
fn priced(inst: &Instance, choice: &Choice, printed: u64) -> Result<(), ClaimKind>
    requires paired { length choice.now.pickup.items ≡ length choice.now.dial.items }

    ensures right { IsOk result → IsPriced inst.now (choice_data choice.now) printed }
    ensures allowed { IsOk result → IsAllowed inst.now.study inst.now.currents (choice_data choice.now) }
    ensures at_most { IsOk result → CostsAtMost inst.now.study inst.now.currents (choice_data choice.now) printed }
    ensures first { IfErr result (λ kind. IsFirstOfSettings inst.now kind (choice_data choice.now) printed) }
{
    let relays = inst.study().relays.len();
    if choice.pickup.len() != relays {
        return Err(ClaimKind::Relays {
            printed: choice.pickup.len() as u64,
            found: relays as u64,
        });
    }
    match first_off(inst, choice) {
        Some(relay) => Err(ClaimKind::Step { relay }),
        None => met(inst, choice, printed),
    }
}

/// Whether a choice of the first box strictly meets every row, and costs what is printed.
fn met(inst: &Instance, choice: &Choice, printed: u64) -> Result<(), ClaimKind>
    requires { IsInFirstBox inst.now (choice_data choice.now) }

    ensures right { IsOk result → IsPriced inst.now (choice_data choice.now) printed }
    ensures allowed { IsOk result → IsAllowed inst.now.study inst.now.currents (choice_data choice.now) }
    ensures at_most { IsOk result → CostsAtMost inst.now.study inst.now.currents (choice_data choice.now) printed }
    ensures first { IfErr result (λ kind. IsFirstOfSettings inst.now kind (choice_data choice.now) printed) }
{
    match first_unmet(inst, choice) {
        Some(row) => Err(ClaimKind::Row { row }),
        None => costs(inst, choice, printed),
    }
}

/// Whether a choice that strictly meets every row costs what is printed.
fn costs(inst: &Instance, choice: &Choice, printed: u64) -> Result<(), ClaimKind>
    requires inside { IsInFirstBox inst.now (choice_data choice.now) }
    requires meets { All (MeetsStrictly inst.now (choice_data choice.now)) (rows_in inst.now) }

    ensures right { IsOk result → IsPriced inst.now (choice_data choice.now) printed }
    ensures allowed { IsAllowed inst.now.study inst.now.currents (choice_data choice.now) }
    ensures at_most { IsOk result → CostsAtMost inst.now.study inst.now.currents (choice_data choice.now) printed }
    ensures first { IfErr result (λ kind. IsFirstOfSettings inst.now kind (choice_data choice.now) printed) }
{
    let found = cost(inst, choice);
    if printed != found {
        return Err(ClaimKind::Cost { printed, found });
    }
    Ok(())
}

/// The first relay whose pickup isn't in the first box, or whose dial step it doesn't have.
fn first_off(inst: &Instance, choice: &Choice) -> Option<u16>
    requires pickups { length choice.now.pickup.items ≡ length inst.now.study.relays }
    requires dials { length choice.now.dial.items ≡ length inst.now.study.relays }

    ensures off { IfSome result (IsFirstOff inst.now (choice_data choice.now)) }
    ensures inside { IsNone result → IsInFirstBox inst.now (choice_data choice.now) }
{
    for relay in 0..inst.study().relays.len() as u16 {
        let at = usize::from(relay);
        if !is_on(inst, relay, choice.pickup[at], choice.dial[at]) {
            return Some(relay);
        }
    }
    None
}

/// Whether the first box has a pickup step of a relay, and the relay a dial step.
fn is_on(inst: &Instance, relay: u16, pickup: u16, dial: u16) -> bool
    requires { relay < length inst.now.study.relays }
    ensures { IsTrue result ↔ (IsFirstStep inst.now relay pickup × IsDialStep inst.now relay dial) }
{
    let Some((low, high)) = inst.first_pickups(relay) else {
        return false;
    };
    let dials = inst.study().relays[usize::from(relay)].dial_count;
    low <= pickup && pickup <= high && u32::from(dial) < dials
}
