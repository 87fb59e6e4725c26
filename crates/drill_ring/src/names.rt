//! Names of a letter and a number, and the numbers round the ring.
ghost use Rattle.std.specs.Prelude.{◌≡◌, ◌≤◌, ◌<◌, ◌∷◌};
ghost use Rattle.std.specs.Fmt.{decimal};
ghost use Rattle.drill_ring.specs.Drill.{after};
ghost use Rattle.drill_ring.specs.DrillCurrents.{before};

use coord_model::Name;

/// The name of a capital letter and a number.
pub fn name(letter: u8, number: u16) -> Name
    requires letter { (65 ≤ letter) × (letter ≤ 90) }
    requires number { number < 100 }
    ensures { result ≡ letter ∷ decimal number }
{
    let ones = b'0' + (number % 10) as u8;
    if number < 10 {
        Name::new(&[letter, ones]).unwrap()
    } else {
        let tens = b'0' + (number / 10) as u8;
        Name::new(&[letter, tens, ones]).unwrap()
    }
}

/// The number after `k` on a ring of `n`.
pub fn after(n: u16, k: u16) -> u16
    requires { k ≤ 48 }
    ensures { result ≡ after n k }
{
    if k == n { 1 } else { k + 1 }
}

/// The number before `k` on a ring of `n`.
pub fn before(n: u16, k: u16) -> u16
    requires { 1 ≤ k }
    ensures { result ≡ before n k }
{
    if k == 1 { n } else { k - 1 }
}
