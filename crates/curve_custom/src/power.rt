//! Powers in units of 2^-48, each product rounded to one side, compared with a number.
ghost use Rattle.std.specs.Prelude.{◌≡◌, ◌*◌, ◌^◌, ◌<◌, ◌≤◌, ◌↔◌, IsTrue};
ghost use Rattle.coord_model.specs.CustomRoot.{last, one, power_down, power_up, product_down, product_up};

/// One, in units of 2^-48.
pub const ONE: u128 = 1 << 48;

/// The last number that is tried as a root: 256.
pub const LAST: u128 = 1 << 56;

/// The product of two numbers in units of 2^-48, rounded down.
#[tactic(auto, unfolding(coord_model::specs::CustomRoot::product_down))]
fn product_down(a: u128, b: u128) -> u128
    requires fits { a * b < 2 ^ 127 }
    ensures { result ≡ product_down a b }
{
    a * b / ONE
}

/// The product of two numbers in units of 2^-48, rounded up.
#[tactic(auto, unfolding(coord_model::specs::CustomRoot::product_up))]
fn product_up(a: u128, b: u128) -> u128
    requires fits { a * b < 2 ^ 127 }
    ensures { result ≡ product_up a b }
{
    (a * b).div_ceil(ONE)
}

/// Whether the `times`-th power of `r`, rounded up at each product, is at most a number.
#[tactic(auto, using(coord_model::proofs::CustomPowers::up_stays), unfolding(coord_model::specs::CustomRoot::power_up))]
pub fn power_up_is_at_most(r: u128, times: u32, number: u128) -> bool
    requires r { (one ≤ r) × (r ≤ last) }
    requires number { number ≤ 2 ^ 68 }
    ensures { IsTrue result ↔ power_up r times ≤ number }
{
    let mut power = ONE;
    for _ in 0..times {
        if power > number {
            return false;
        }
        power = product_up(power, r);
    }
    power <= number
}

/// Whether the `times`-th power of `r`, rounded down at each product, is at least a number.
#[tactic(auto, using(coord_model::proofs::CustomPowers::down_stays), unfolding(coord_model::specs::CustomRoot::power_down))]
pub fn power_down_is_at_least(r: u128, times: u32, number: u128) -> bool
    requires r { (one ≤ r) × (r ≤ last) }
    requires number { number ≤ 2 ^ 68 }
    ensures { IsTrue result ↔ number ≤ power_down r times }
{
    let mut power = ONE;
    for _ in 0..times {
        if power >= number {
            return true;
        }
        power = product_down(power, r);
    }
    power >= number
}

/// The power of a multiple `a`, up to the fourth, rounded down at each product.
#[tactic(auto, using(coord_model::proofs::CustomPowers::fits_down), unfolding(coord_model::specs::CustomRoot::power_down))]
pub fn power_down(a: u128, times: u32) -> u128
    requires a { (one ≤ a) × (a ≤ 30 * one) }
    requires times { times ≤ 4 }
    ensures exact { result ≡ power_down a times }
    ensures small { result ≤ 2 ^ 68 }
{
    let mut power = ONE;
    for _ in 0..times {
        power = product_down(power, a);
    }
    power
}

/// The power of a multiple `a`, up to the fourth, rounded up at each product.
#[tactic(auto, using(coord_model::proofs::CustomPowers::fits_up), unfolding(coord_model::specs::CustomRoot::power_up))]
pub fn power_up(a: u128, times: u32) -> u128
    requires a { (one ≤ a) × (a ≤ 30 * one) }
    requires times { times ≤ 4 }
    ensures exact { result ≡ power_up a times }
    ensures small { result ≤ 2 ^ 68 }
{
    let mut power = ONE;
    for _ in 0..times {
        power = product_up(power, a);
    }
    power
}
