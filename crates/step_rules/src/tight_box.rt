//! The tight box of an open box.
ghost use Rattle.std.specs.Prelude.{◌≡◌, IfOk, IfSome};
ghost use Rattle.margin_rows.specs.Box.{FitsBox};
ghost use Rattle.box_range.specs.Drops.{IsTight};
ghost use Rattle.step_rules.specs.OpenBoxes.{IsOpenBox, IsTightBox};

use crate::open_box::OpenBox;
use box_bound::Parts;
use coord_model::NoMemory;
use margin_rows::{Instance, Ranges};
use std::alloc::Global;

/// A tight box with its parts.
#[derive(Drop)]
pub struct TightBox {
    pub ranges: Ranges,
    pub parts: Parts,
}

/// A tight box within an open box, with its parts.
pub fn tight_box(
    alloc: Global,
    inst: &Instance,
    parent: &OpenBox,
    ranges: Ranges,
) -> Result<TightBox, NoMemory>
    requires parent { IsOpenBox inst.now parent.now }
    requires fits { FitsBox inst.now ranges }
    requires tight { IsTight inst.now ranges }
    ensures fits { IfOk result (IsTightBox inst.now) }
    ensures ranges { IfOk result (λ tight. tight.ranges ≡ ranges) }
{
    let Some(parts) = &parent.parts else {
        let parts = Parts::new(alloc, inst, &ranges)?;
        return Ok(TightBox { ranges, parts });
    };
    let mut parts = parts.copy()?;
    parts.follow(inst, &parent.ranges, &ranges);
    Ok(TightBox { ranges, parts })
}
