//! The line of the settings.
ghost use Rattle.std.specs.Prelude.{◌≡◌, ◌≢◌, ℕ, ◌≤◌, List, ◌++◌, codes, length, map, take, IfSome, IsNone};
ghost use Rattle.coord_model.specs.Choice.{Settings, choice_data};
ghost use Rattle.coord_model.specs.declared.weights.Weight.{Weight};
ghost use Rattle.cert_text.specs.CertData.{AreSettings};
ghost use Rattle.cert_text.specs.CertText.{step_words};
ghost use Rattle.cert_text.specs.Pairs.{AreWithin};

use crate::nodes::read_pairs;
use coord_model::limits::{MOST_DIALS, MOST_PLUGS, MOST_RELAYS};
use coord_model::{Choice, Weight};

/// The settings of the line, which are put into the choice. `None`: the line has none.
pub fn read_steps(line: &[u8], pairs: &mut [Weight], choice: &mut Choice) -> Option<()>
    requires pairs_room { length pairs.now ≡ 96 }
    requires pickup_room { length choice.now.pickup.items ≡ 96 }
    requires dial_room { length choice.now.dial.items ≡ 96 }
    ensures is { IfSome result (λ _. AreSettings (choice_data choice.new)) }
    ensures said { IfSome result (λ _. line.now ≡ codes "settings" ++ step_words choice.new.pickup.items choice.new.dial.items) }
    ensures no_such { IsNone result → (settings : Settings) → AreSettings settings → line.now ≢ codes "settings" ++ step_words settings.pickup settings.dial }
    ensures length { length pairs.new ≡ length pairs.old }
    ensures unchanged { IsNone result → choice.new ≡ choice.old }
{
    let words = line.strip_prefix(b"settings")?;
    let n = read_pairs(
        words,
        MOST_PLUGS as u16 - 1,
        MOST_DIALS - 1,
        MOST_RELAYS as usize,
        pairs,
    )?;
    if n == 0 {
        return None;
    }
    put_steps(choice, &pairs[..n]);
    Some(())
}

/// Puts the first numbers of the pairs into the pickups, and the second into the dials.
fn put_steps(choice: &mut Choice, pairs: &[Weight])
    requires few { length pairs.now ≤ 96 }
    requires within { AreWithin 63 3999 pairs.now }
    requires pickup_room { length choice.now.pickup.items ≡ 96 }
    requires dial_room { length choice.now.dial.items ≡ 96 }
    ensures pickup { choice.new.pickup.items ≡ map (λ w. w.row) pairs.now }
    ensures dial { choice.new.dial.items ≡ map (λ w. w.weight) pairs.now }
{
    for i in 0..pairs.len() {
        choice.pickup[i] = pairs[i].row;
        choice.dial[i] = pairs[i].weight as u16;
    }
    choice.pickup.truncate(pairs.len());
    choice.dial.truncate(pairs.len());
}
