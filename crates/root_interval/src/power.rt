//! The 50th power in units of 2^-56, every product rounded to one side.

ghost use Rattle.std.specs.Prelude.{◌≡◌, ◌<◌, ◌^◌};
ghost use Rattle.root_interval.specs.Power.{pow50_down, pow50_up, IsInRange};

use crate::product::{mul_down, mul_up};

/// The 50th power of `r` by seven products, each rounded down. In units of 2^-56; `r` is from 1 to 9/8.
#[tactic(auto, using(crate::proofs::PowerBounds::bounds), unfolding(crate::specs::Power::pow50))]
pub fn pow50_down(r: u128) -> u128
    requires in_range { IsInRange r }
    ensures exact { result ≡ pow50_down r }
    ensures below { result < 2 ^ 70 }
{
    let r2 = mul_down(r, r);
    let r4 = mul_down(r2, r2);
    let r8 = mul_down(r4, r4);
    let r16 = mul_down(r8, r8);
    let r32 = mul_down(r16, r16);
    let r48 = mul_down(r32, r16);
    mul_down(r48, r2)
}

/// The 50th power of `r` by seven products, each rounded up. In units of 2^-56; `r` is from 1 to 9/8.
#[tactic(auto, using(crate::proofs::PowerBounds::bounds), unfolding(crate::specs::Power::pow50))]
pub fn pow50_up(r: u128) -> u128
    requires in_range { IsInRange r }
    ensures exact { result ≡ pow50_up r }
    ensures below { result < 2 ^ 70 }
{
    let r2 = mul_up(r, r);
    let r4 = mul_up(r2, r2);
    let r8 = mul_up(r4, r4);
    let r16 = mul_up(r8, r8);
    let r32 = mul_up(r16, r16);
    let r48 = mul_up(r32, r16);
    mul_up(r48, r2)
}
