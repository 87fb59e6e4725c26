//! The two ends of the root that the power of a multiple is, found by halving.
ghost use Rattle.std.specs.Prelude.{◌≡◌, ◌+◌, ◌*◌, ◌^◌, ◌<◌, ◌≤◌};
ghost use Rattle.coord_model.specs.CustomForm.{IsInRange};
ghost use Rattle.coord_model.specs.CustomRoot.{high_power, last, low_power, one, power_down, IsHighEnd, IsLowEnd};
ghost use Rattle.coord_model.specs.Enclosure.{IsEnclosable};
ghost use Rattle.coord_model.specs.Time.{Multiple};
ghost use Rattle.curve_custom.specs.Ends.{RootsAreBest, high_end, low_end};

use crate::power::{LAST, ONE, power_down, power_down_is_at_least, power_up, power_up_is_at_most};
use coord_model::CurveForm;

/// The power M^(e/h) of the multiple M = `num/den`, enclosed: its low and its high end in units of 2^-48.
///
/// The low end is the greatest number whose power, each product rounded up, is at most M^e, each product rounded down; the
/// high end is the least whose power, each product rounded down, is at least M^e, each product rounded up.
pub fn root_ends(form: CurveForm, num: u64, den: u64) -> (u128, u128)
    requires range { IsInRange form }
    requires exponent { 2 * form.e ≤ 3 * form.h }
    requires root { 2 ≤ form.h }
    requires multiple { IsEnclosable (record { num = num; den = den }) }

    ensures exact { let m : Multiple = record { num = num; den = den } in result ≡ (low_end form.h (low_power form m), high_end form.h (high_power form m)) }
    ensures ordered { result.0 ≤ result.1 }
    ensures above_one { one + 2 ^ 36 ≤ result.0 }
{
    let low = low_end(form.h, low_power(form, num, den));
    let high = high_end(form.h, high_power(form, num, den));
    (low, high)
}

/// The ends of each root are the best that its powers show, and at most 2^8 apart.
pub fn roots_are_best()
    ensures { RootsAreBest }
{}

/// The power M^e of the multiple M = `num/den`, rounded down at each step.
fn low_power(form: CurveForm, num: u64, den: u64) -> u128
    requires range { IsInRange form }
    requires multiple { IsEnclosable (record { num = num; den = den }) }

    ensures exact { let m : Multiple = record { num = num; den = den } in result ≡ low_power form m }
    ensures above { one ≤ result }
    ensures small { result ≤ 2 ^ 68 }
{
    power_down(u128::from(num) * ONE / u128::from(den), form.e)
}

/// The power M^e of the multiple M = `num/den`, rounded up at each step.
fn high_power(form: CurveForm, num: u64, den: u64) -> u128
    requires range { IsInRange form }
    requires multiple { IsEnclosable (record { num = num; den = den }) }

    ensures exact { let m : Multiple = record { num = num; den = den } in result ≡ high_power form m }
    ensures small { result ≤ 2 ^ 68 }
{
    power_up((u128::from(num) * ONE).div_ceil(u128::from(den)), form.e)
}

/// The greatest number from 1 to 256 whose power, rounded up, is at most a power.
#[tactic(auto, using(coord_model::proofs::CustomRoots::one_is_at_most))]
fn low_end(h: u32, power: u128) -> u128
    requires power { (one ≤ power) × (power ≤ 2 ^ 68) }
    ensures { IsLowEnd h power result }
{
    let mut low = ONE;
    let mut top = LAST;
    while low < top {
        let middle = (low + top).div_ceil(2);
        if power_up_is_at_most(middle, h, power) {
            low = middle;
        } else {
            top = middle - 1;
        }
    }
    low
}

/// The least number from 1 to 256 whose power, rounded down, is at least a power.
fn high_end(h: u32, power: u128) -> u128
    requires power { (power ≤ 2 ^ 68) × (power ≤ power_down last h) }
    ensures { IsHighEnd h power result }
{
    let mut bottom = ONE;
    let mut high = LAST;
    while bottom < high {
        let middle = (bottom + high) / 2;
        if power_down_is_at_least(middle, h, power) {
            high = middle;
        } else {
            bottom = middle + 1;
        }
    }
    high
}
