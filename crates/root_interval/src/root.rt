//! The two ends of the 50th root, found by halving.

ghost use Rattle.std.specs.Prelude.{◌≡◌, ◌*◌, ◌+◌, ◌≤◌, ◌<◌, ◌^◌};
ghost use Rattle.root_interval.specs.Root.{low_end, high_end, IsLowEnd, IsHighEnd, NeverFalls};

use crate::power::{pow50_down, pow50_up};
use crate::product::ONE;

// The last number that is tried as a root: nine eighths, in units of 2^-56.
const LAST: u128 = ONE + (1 << 53);

/// The 50th root of `num / den`, enclosed: the ends (low, high) in units of 2^-56.
///
/// The low end is the greatest number whose 50th power is at most the multiple though every product is
/// rounded up; the high end is the least whose power is at least the multiple though every product is
/// rounded down. The multiple lies from 1.05 to 30.
pub fn root50(num: u64, den: u64) -> (u128, u128)
    requires num_bounded { num ≤ 3000000000 }
    requires den_positive { 1 ≤ den }
    requires den_bounded { den ≤ 100000000 }
    requires least { 105 * den ≤ 100 * num }
    requires greatest { num ≤ 30 * den }

    ensures exact { result ≡ (low_end num den, high_end num den) }
    ensures low { IsLowEnd num den result.0 }
    ensures high { IsHighEnd num den result.1 }

    // The 50th powers of the ends, exact: in units of 2^-2800.
    ensures encloses_low { result.0 ^ 50 * den ≤ num * 2 ^ 2800 }
    ensures encloses_high { num * 2 ^ 2800 ≤ result.1 ^ 50 * den }

    ensures ordered { result.0 ≤ result.1 }
    ensures narrow { result.1 ≤ result.0 + 2 ^ 14 }
    ensures above_one { ONE + 3 * 2 ^ 44 ≤ result.0 }
{
    (low_end(num, den), high_end(num, den))
}

/// Neither end falls as the multiple grows.
pub fn ends_never_fall()
    ensures { NeverFalls }
{}

// The greatest number in range whose power, rounded up, is at most the multiple.
#[tactic(auto, using(crate::proofs::RootLaws::one_is_at_most))]
fn low_end(num: u64, den: u64) -> u128
    requires num_bounded { num ≤ 3000000000 }
    requires den_bounded { den ≤ 100000000 }
    requires least { den ≤ num }
    ensures { IsLowEnd num den result }
{
    let mut low = ONE;
    let mut top = LAST;
    while low < top {
        let middle = (low + top).div_ceil(2);
        if pow50_up(middle) * u128::from(den) <= u128::from(num) * ONE {
            low = middle;
        } else {
            top = middle - 1;
        }
    }
    low
}

// The least number in range whose power, rounded down, is at least the multiple.
#[tactic(auto, using(crate::proofs::RootLaws::last_is_at_least))]
fn high_end(num: u64, den: u64) -> u128
    requires num_bounded { num ≤ 3000000000 }
    requires den_bounded { den ≤ 100000000 }
    requires greatest { num ≤ 30 * den }
    ensures { IsHighEnd num den result }
{
    let mut bottom = ONE;
    let mut high = LAST;
    while bottom < high {
        let middle = (bottom + high) / 2;
        if pow50_down(middle) * u128::from(den) >= u128::from(num) * ONE {
            high = middle;
        } else {
            bottom = middle + 1;
        }
    }
    high
}

#[cfg(test)]
mod tests {
    use super::*;

    // 10^(1/50) is 1.04712854805089953346.., and 75453563820976634 of 2^-56 are the most that lie below it.
    #[test]
    fn the_root_of_ten_lies_between_the_ends(rt: HostRuntime) {
        let (low, high) = root50(10, 1);
        assert!(rt; low <= 75_453_563_820_976_634);
        assert!(rt; 75_453_563_820_976_635 <= high);
    }
}
