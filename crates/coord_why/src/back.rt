//! The way back from a raise to the one that it all rests on.
ghost use Rattle.std.specs.Prelude.{◌≡◌, ℕ, ◌<◌, ◌≤◌, List, length, slice_get, IfOk, IsSomeAnd};
ghost use Rattle.coord_why.specs.Chains.{IsChain, EndsAt};
ghost use Rattle.coord_why.specs.Raises.{AreFounded, RestEarlier};
ghost use Rattle.margin_rows.specs.Case.{Case};

use crate::climb::Raise;
use crate::link::Link;
use coord_model::NoMemory;
use std::alloc::Global;

/// The links up to that of a raise, each after the one that it rests on.
pub fn links_to(alloc: Global, raises: &[Raise], last: usize) -> Result<Vec<Link>, NoMemory>
    requires last { last < length raises.now }
    requires earlier { RestEarlier raises.now }

    ensures chain { IfOk result (λ links. (case : Case) (pickups : List ℕ) → AreFounded case pickups raises.now → IsChain case pickups links.items) }
    ensures ends { IfOk result (λ links. IsSomeAnd (slice_get raises.now last) (λ raise. EndsAt links.items raise.link.relay raise.link.step)) }
    ensures few { IfOk result (λ links. length links.items ≤ length raises.now) }
{
    let mut links = Vec::new(alloc);
    let mut next = Some(last);
    while let Some(number) = next {
        let raise = raises[number];
        links.push(raise.link)?;
        next = raise.rests;
    }
    links.reverse();
    Ok(links)
}
