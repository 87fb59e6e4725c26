//! The first hair leaf of a tree.
ghost use Rattle.std.specs.Prelude.{◌≡◌, false, IfOk, IsSomeAnd, MatchOption};
ghost use Rattle.coord_model.specs.Choice.{choice_data};
ghost use Rattle.coord_model.specs.Tree.{shape};
ghost use Rattle.margin_rows.specs.Box.{Box, FitsBox};
ghost use Rattle.margin_rows.specs.Lowest.{lowest_of};
ghost use Rattle.box_range.specs.Drops.{TightensTo};
ghost use Rattle.cert_tree.specs.Endings.{has_hair};
ghost use Rattle.cert_tree.specs.NodeRules.{IsRight};
ghost use Rattle.branch_bound.specs.Facts.{Every};
ghost use Rattle.branch_bound.specs.HairLeaf.{IsFirstHair};

use crate::outcome::HairPlace;
use box_range::tighten;
use coord_model::{NoMemory, Node};
use margin_rows::{Instance, Ranges};

/// The first hair leaf of a tree at a box, in pre-order. `None`: it has none.
pub fn first_hair(
    inst: &Instance,
    ranges: Ranges,
    node: &Node,
) -> Result<Option<HairPlace>, NoMemory>
    requires fits { FitsBox inst.now ranges }
    requires right { Every inst.now (IsRight inst.now) ranges (shape node.now) }
    ensures { IfOk result (λ found. MatchOption found (has_hair (shape node.now) ≡ false) (λ place. IsFirstHair inst.now ranges (shape node.now) place.row (choice_data place.choice))) }
{
    match node {
        Node::Hair { row } => hair_at(inst, ranges, *row),
        Node::Split {
            relay,
            at,
            low,
            high,
        } => {
            let mut tight = ranges;
            let _ = tighten(inst, &mut tight);
            let (lower, upper) = tight.split(*relay, *at)?;
            match first_hair(inst, lower, low)? {
                Some(place) => Ok(Some(place)),
                None => first_hair(inst, upper, high),
            }
        }
        _ => Ok(None),
    }
}

/// The lowest settings of the tight box of a box, with a row.
fn hair_at(inst: &Instance, ranges: Ranges, row: u16) -> Result<Option<HairPlace>, NoMemory>
    requires fits { FitsBox inst.now ranges }
    requires tight { (tight : Box) × TightensTo inst.now ranges tight }
    ensures { IfOk result (λ found. IsSomeAnd found (λ place. (place.row ≡ row) × ((tight : Box) × TightensTo inst.now ranges tight × (choice_data place.choice ≡ lowest_of tight)))) }
{
    let mut tight = ranges;
    let _ = tighten(inst, &mut tight);
    Ok(Some(HairPlace {
        row,
        choice: tight.lowest()?,
    }))
}
