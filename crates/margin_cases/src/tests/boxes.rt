//! The boxes of a study of one relay with two pickups and one dial.
ghost use Rattle.margin_rows.specs.Box.{FitsBox};
ghost use Rattle.std.specs.Prelude.{IfOk, IfSome};

use super::studies::one_line;
use coord_model::{CurveName, NoMemory};
use margin_rows::{BuildFault, Instance, Ranges};

#[test]
fn a_box_is_split_between_two_pickups(rt: HostRuntime) -> Result<(), BuildFault> {
    let inst = one_line(rt.alloc(), CurveName::IecB, 100, 0, 1_000)?;
    let first = Ranges::first(rt.alloc(), &inst)?;
    assert!(rt; spans(&inst, &first) == Some(((0, 1), (0, 0))));
    let Some((lower, upper)) = halves(&inst, &first)? else {
        return Err(BuildFault::NoMemory);
    };
    assert!(rt; spans(&inst, &lower) == Some(((0, 0), (0, 0))));
    assert!(rt; spans(&inst, &upper) == Some(((1, 1), (0, 0))));
    assert!(rt; halves(&inst, &upper)?.is_none());
    assert!(rt; first.holds_pickups(&[1]) && !lower.holds_pickups(&[1]));
    assert!(rt; lower.has_one_pickup() && !first.has_one_pickup());
    Ok(())
}

#[test]
fn a_box_is_cut_into_another(rt: HostRuntime) -> Result<(), BuildFault> {
    let inst = one_line(rt.alloc(), CurveName::IecB, 100, 0, 1_000)?;
    let mut low = Ranges::first(rt.alloc(), &inst)?;
    let mut high = low.copy()?;
    assert!(rt; cut(&inst, &mut low, &mut high));
    assert!(rt; spans(&inst, &low) == Some(((0, 0), (0, 0))));
    assert!(rt; spans(&inst, &high) == Some(((1, 1), (0, 0))));
    Ok(())
}

/// The first and the last step of relay 0's pickups, and of its dials. `None`: there is no relay.
fn spans(inst: &Instance, ranges: &Ranges) -> Option<((u16, u16), (u16, u16))>
    requires { FitsBox inst.now ranges.now }
{
    if inst.study().relays.is_empty() {
        return None;
    }
    let pickup = ranges.pickup(0);
    let dial = ranges.dial(0);
    Some(((pickup.lo, pickup.hi), (dial.lo, dial.hi)))
}

/// The halves of a box, cut above relay 0's pickup step 0. `None`: it cannot be split there.
fn halves(inst: &Instance, ranges: &Ranges) -> Result<Option<(Ranges, Ranges)>, NoMemory>
    requires { FitsBox inst.now ranges.now }
    ensures { IfOk result (λ halves. IfSome halves (λ h. FitsBox inst.now h.0 × FitsBox inst.now h.1)) }
{
    if inst.study().relays.is_empty() || !ranges.can_split(0, 0) {
        return Ok(None);
    }
    Ok(Some(ranges.split(0, 0)?))
}

/// Cuts a box above relay 0's pickup step 0 into it and another, and says whether it can.
fn cut(inst: &Instance, low: &mut Ranges, high: &mut Ranges) -> bool
    requires low { FitsBox inst.now low.old }
    requires high { FitsBox inst.now high.old }
    ensures low { FitsBox inst.now low.new }
    ensures high { FitsBox inst.now high.new }
{
    if inst.study().relays.is_empty() || !low.can_split(0, 0) {
        return false;
    }
    low.cut(0, 0, high);
    true
}
