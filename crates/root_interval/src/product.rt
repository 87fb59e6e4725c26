//! Products in units of 2^-56, rounded to one side.

ghost use Rattle.std.specs.Prelude.{◌≡◌, ◌*◌, ◌<◌, ◌^◌};
ghost use Rattle.root_interval.specs.Product.{mul_down, mul_up};

/// One, in units of 2^-56.
pub const ONE: u128 = 1 << 56;

/// The product of two numbers in units of 2^-56, rounded down to such a unit.
#[tactic(auto, unfolding(crate::specs::Product::mul_down))]
pub fn mul_down(a: u128, b: u128) -> u128
    requires fits { a * b < 2 ^ 127 }
    ensures exact { result ≡ mul_down a b }
{
    a * b / ONE
}

/// The product of two numbers in units of 2^-56, rounded up to such a unit.
#[tactic(auto, unfolding(crate::specs::Product::mul_up))]
pub fn mul_up(a: u128, b: u128) -> u128
    requires fits { a * b < 2 ^ 127 }
    ensures exact { result ≡ mul_up a b }
{
    (a * b).div_ceil(ONE)
}

#[cfg(test)]
mod tests {
    use super::*;

    // (1 + e)^2 is 1 + 2e + e^2, and e^2 is less than a unit.
    #[test]
    fn a_part_of_a_unit_is_rounded(rt: HostRuntime) {
        assert_eq!(rt; mul_down(ONE + 1, ONE + 1), ONE + 2);
        assert_eq!(rt; mul_up(ONE + 1, ONE + 1), ONE + 3);
    }
}
