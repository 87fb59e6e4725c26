//! The largest weights.
ghost use Rattle.std.specs.Prelude.{◌≡◌, ◌≤◌, ◌==◌, ◌↔◌, map, Contains, vec_len};
ghost use Rattle.std.specs.List.{IsDistinct};
ghost use Rattle.std.specs.List.Sorted.{IsStrictlyIncreasing};
ghost use Rattle.std.specs.Ordering.{is_lt};
ghost use Rattle.coord_model.specs.declared.weights.Weight.{Weight};
ghost use Rattle.dual_round.specs.Kept.{ranks_before, Stays};

use coord_model::Weight;
use coord_model::limits::MOST_WEIGHTS;
use std::cmp::Ordering;

/// The largest weights, in the order of their rows. Of equal ones those of the lower rows.
pub fn largest(mut weights: Vec<Weight>) -> Vec<Weight>
    requires distinct { IsDistinct ◌==◌ (map (λ w. w.row) weights.items) }
    ensures kept { (w : Weight) → Contains result.items w ↔ Stays weights.items w }
    ensures at_most_64 { vec_len result ≤ 64 }
    ensures ascending { IsStrictlyIncreasing (map (λ w. w.row) result.items) }
{
    weights.sort_unstable_by(|v, w| by_rank(v, w));
    weights.truncate(MOST_WEIGHTS);
    weights.sort_unstable_by_key(|w| w.row);
    weights
}

/// The order of ranks: the larger weight first, and of equal ones that of the lower row.
fn by_rank(v: &Weight, w: &Weight) -> Ordering
    ensures { is_lt result ≡ ranks_before v.now w.now }
{
    w.weight.cmp(&v.weight).then(v.row.cmp(&w.row))
}
