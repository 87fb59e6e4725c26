//! The division that makes the two ends of an operating time.
ghost use Rattle.std.specs.Prelude.{◌≡◌, ◌*◌, ◌^◌, ◌<◌, ◌≤◌};
ghost use Rattle.coord_model.specs.Enclosure.{ends_between};

use crate::curve::CurveForm;

/// The time `k / (P - 1) + c` of a curve at dial 1 in whole nanoseconds: its lower end and its upper end.
///
/// P is the power of the multiple, M^(e/h). It lies between `low/unit` and `high/unit`. The lower end is the
/// time at the high end, rounded down, and the upper end the time at the low end, rounded up. P is at least
/// 4097/4096: near to 1 the time is long, and at 1 it has no end.
pub fn ends_between(form: CurveForm, unit: u128, low: u128, high: u128) -> (u64, u64)
    requires some_unit { 0 < unit }
    requires fits { form.k4 * 100000 * unit < 2 ^ 127 }
    requires above_one { 4097 * unit ≤ 4096 * low }
    requires ordered { low ≤ high }
    ensures exact { let ends = ends_between form unit low high in result ≡ (ends.lower, ends.upper) }
{
    let scaled = u128::from(form.k4) * 100_000 * unit;
    let constant = u64::from(form.c4) * 100_000;
    let lower = scaled / (high - unit);
    let upper = scaled.div_ceil(low - unit);
    (lower as u64 + constant, upper as u64 + constant)
}
