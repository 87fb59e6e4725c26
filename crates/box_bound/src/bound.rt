//! The bound of a dual value.
ghost use Rattle.std.specs.Prelude.{◌≡◌, ◌≤◌, ◌<◌, ◌^◌};
ghost use Rattle.box_bound.specs.LowerBound.{bound_at};

/// The picoseconds of a microsecond.
const PICOSECONDS: u128 = 1_000_000;

/// The greatest bound; no choice costs as much.
const GREATEST_BOUND: u128 = 9_999_999_999_999_999;

/// The bound of a dual value in whole weighted microseconds: the value over lambda, rounded down.
///
/// `value` is in picoseconds times lambda. The bound of a value below 0 is 0, and none is above 10^16 - 1.
pub fn bound_of(value: i128, lambda: u32) -> u64
    requires { 1 ≤ lambda }
    ensures { result ≡ bound_at value lambda }
{
    let whole = value.max(0) as u128 / (u128::from(lambda) * PICOSECONDS);
    whole.min(GREATEST_BOUND) as u64
}
