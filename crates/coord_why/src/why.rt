//! The chain behind a dial.
ghost use Rattle.std.specs.Prelude.{◌≡◌, ℕ, ◌<◌, ◌≤◌, length, slice_index, All, IfErr, IfOk, OnOk};
ghost use Rattle.coord_model.specs.Choice.{choice_data};
ghost use Rattle.coord_why.specs.Chains.{IsChain, EndsAt, IsNamed, dial_steps, NeedsStep, IsLeastBelow, HasCause};
ghost use Rattle.margin_rows.specs.Case.{rows_in};
ghost use Rattle.margin_rows.specs.FirstBox.{IsInFirstBox};
ghost use Rattle.margin_rows.specs.Margin.{MeetsLoosely};

use crate::back::links_to;
use crate::climb::raise_all;
use crate::fault::ChainFault;
use crate::link::Link;
use coord_model::Choice;
use margin_rows::Instance;
use std::alloc::Global;

/// The chain of rows behind the dial of a relay in a choice that loosely meets every row: why the dial can't be lower
/// with the choice's pickups.
///
/// Of two rows that ask for the same step the chain names the one that asks first as the dials rise from their first
/// steps, in rounds over the rows by number. `NotLeast`: with the choice's pickups all rows can be loosely met with the
/// relay at a lower dial; `step` is the least such dial step.
pub fn chain(
    alloc: Global,
    inst: &Instance,
    choice: &Choice,
    relay: u16,
) -> Result<Vec<Link>, ChainFault>
    requires first_box { IsInFirstBox inst.now (choice_data choice.now) }
    requires loose { All (MeetsLoosely inst.now (choice_data choice.now)) (rows_in inst.now) }
    requires relay { relay < length inst.now.study.relays }

    ensures chain { IfOk result (λ links. IsChain inst.now choice.now.pickup.items links.items) }
    ensures ends { IfOk result (λ links. EndsAt links.items relay (slice_index choice.now.dial.items relay)) }
    ensures few { IfOk result (λ links. length links.items ≤ dial_steps inst.now.study) }
    ensures named { IfOk result (λ links. All (IsNamed inst.now) links.items) }

    // All allowed settings with these pickups have at least the dial step of the last link.
    ensures needed { OnOk result (NeedsStep inst.now.study inst.now.currents choice.now.pickup.items relay (slice_index choice.now.dial.items relay)) }

    ensures least { OnOk result ((step : ℕ) → ¬ (IsLeastBelow inst.now (choice_data choice.now) relay step)) }
    ensures refused { IfErr result (HasCause inst.now (choice_data choice.now) relay) }
{
    let climb = raise_all(alloc, inst, choice)?;
    let last = climb.latest[usize::from(relay)];
    let step = climb.raises[last].link.step;
    if step < choice.dial[usize::from(relay)] {
        return Err(ChainFault::NotLeast { step });
    }
    Ok(links_to(alloc, climb.raises.as_slice(), last)?)
}
