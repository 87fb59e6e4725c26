//! The sums of a relay's times over the weighted rows that ask it to be fast, and over those that ask it to be slow.
ghost use Rattle.std.specs.Prelude.{◌≡◌, ◌<◌, ◌≤◌, ◌*◌, ◌^◌, length, sum_by};
ghost use Rattle.margin_rows.specs.Case.{rows_in};
ghost use Rattle.margin_rows.specs.FirstBox.{IsFirstStep};
ghost use Rattle.box_bound.specs.RelayParts.{backup_part, primary_part};
ghost use Rattle.box_bound.specs.Weighing.{FitWeights};

use coord_model::{RowKind, Weight};
use margin_rows::Instance;

/// The sum of weight times time at the lower end over the rows that ask a relay to be fast, in nanoseconds at dial 1.
pub fn primary_sum(inst: &Instance, weights: &[Weight], relay: u16, step: u16) -> u128
    requires fit { FitWeights inst.now weights.now }
    requires step { IsFirstStep inst.now relay step }

    ensures exact { result ≡ sum_by (primary_part inst.now relay step) weights.now }
    ensures small { result ≤ 2 ^ 78 }
{
    let mut sum = 0;
    for &weight in weights {
        sum += primary_part(inst, weight, relay, step);
    }
    sum
}

/// The sum of weight times time at the upper end over the rows that ask a relay to be slow, in nanoseconds at dial 1.
pub fn backup_sum(inst: &Instance, weights: &[Weight], relay: u16, step: u16) -> u128
    requires fit { FitWeights inst.now weights.now }
    requires step { IsFirstStep inst.now relay step }

    ensures exact { result ≡ sum_by (backup_part inst.now relay step) weights.now }
    ensures small { result ≤ 2 ^ 78 }
{
    let mut sum = 0;
    for &weight in weights {
        sum += backup_part(inst, weight, relay, step);
    }
    sum
}

/// Weight times time of a row's primary, or 0 where that is another relay or may be slow.
fn primary_part(inst: &Instance, weight: Weight, relay: u16, step: u16) -> u128
    requires row { weight.row < length (rows_in inst.now) }
    requires step { IsFirstStep inst.now relay step }

    ensures exact { result ≡ primary_part inst.now relay step weight }
    ensures small { result ≤ 2 ^ 72 }
{
    let row = inst.row(weight.row);
    if row.primary != relay || row.kind == RowKind::Least {
        return 0;
    }
    weighted(weight.weight, inst.primary_time(weight.row, step).lower)
}

/// Weight times time of a row's backup, or 0 where that is another relay or may be fast.
fn backup_part(inst: &Instance, weight: Weight, relay: u16, step: u16) -> u128
    requires row { weight.row < length (rows_in inst.now) }
    requires step { IsFirstStep inst.now relay step }

    ensures exact { result ≡ backup_part inst.now relay step weight }
    ensures small { result ≤ 2 ^ 72 }
{
    let row = inst.row(weight.row);
    if row.backup != relay || row.kind == RowKind::Most {
        return 0;
    }
    weighted(weight.weight, inst.backup_time(weight.row, step).upper)
}

/// A time by a weight.
fn weighted(weight: u32, time: u64) -> u128
    requires { time < 2 ^ 40 }
    ensures exact { result ≡ weight * time }
    ensures small { result ≤ 2 ^ 72 }
{
    u128::from(weight) * u128::from(time)
}
