//! The lines of the relays, read back.
ghost use Rattle.std.specs.Prelude.{◌≡◌, ◌≢◌, ◌==◌, ℕ, ◌+◌, ◌*◌, ◌<◌, ◌≤◌, length, List, ◌∷◌, ◌++◌, codes, Some, IfSome, IfOk, IfErr, IsNone};
ghost use Rattle.std.specs.List.{position_or_len};
ghost use Rattle.coord_model.specs.Allowed.{AreOnSteps, IsOnSteps};
ghost use Rattle.coord_model.specs.Choice.{choice_data};
ghost use Rattle.coord_model.specs.PartLimits.{FitsRelay};
ghost use Rattle.coord_model.specs.Limits.{FitsStudy};
ghost use Rattle.coord_model.specs.Name.{IsName};
ghost use Rattle.coord_model.specs.StudyData.{StudyData, study_data};
ghost use Rattle.coord_text.specs.Claims.{text_of};
ghost use Rattle.settings_sheet.specs.RelayStops.{AreNames, HasNoSpace, IsRelayStop};
ghost use Rattle.settings_sheet.specs.SheetLines.{relay_words, settings_lines};

use crate::refusal::{SheetKind, SheetRefusal, fault};
use coord_model::limits::{GREATEST_DIAL, GREATEST_PLUG};
use coord_model::{Choice, Relay, Study};
use coord_text::{read_fixed, split_line};
use std::alloc::Global;

/// The settings on the lines of the relays, in study order, and what follows them.
pub fn read_choice<'a>(
    alloc: Global,
    study: &Study,
    text: &'a [u8],
) -> Result<(Choice, &'a [u8]), SheetRefusal>
    requires { FitsStudy (study_data study.now) }
    ensures on_steps { IfOk result (λ read. AreOnSteps (study_data study.now) (choice_data read.0)) }
    ensures said { IfOk result (λ read.
        text.now ≡ text_of (settings_lines (study_data study.now) (Some (choice_data read.0))) ++ read.1.now) }
    ensures names { IfOk result (λ _. AreNames (study_data study.now)) }
    ensures stops { IfErr result (IsRelayStop (study_data study.now) text.now) }
{
    let mut choice = lowest_choice(alloc, study)?;
    let mut left = text;
    for i in 0..study.relays.len() {
        let Some((pickup, dial, rest)) = read_relay(left, &study.relays[i]) else {
            return Err(fault(i as u32 + 5, SheetKind::Relay));
        };
        choice.pickup[i] = pickup;
        choice.dial[i] = dial;
        left = rest;
    }
    Ok((choice, left))
}

/// The lowest steps of each relay.
fn lowest_choice(alloc: Global, study: &Study) -> Result<Choice, SheetRefusal>
    requires { FitsStudy (study_data study.now) }
    ensures on_steps { IfOk result (λ choice. AreOnSteps (study_data study.now) (choice_data choice)) }
    ensures refused { IfErr result (λ refusal. refusal ≡ SheetRefusal.NoMemory) }
{
    Ok(Choice {
        pickup: vec![in alloc; 0; study.relays.len()]?,
        dial: vec![in alloc; 0; study.relays.len()]?,
    })
}

/// The pickup step and the dial step on the line of the relay, and what follows it.
fn read_relay<'a>(left: &'a [u8], relay: &Relay) -> Option<(u16, u16, &'a [u8])>
    requires fits { (study : StudyData) × FitsRelay study relay.now }
    ensures name { IsName relay.now.name }
    ensures on_steps { IfSome result (λ read. IsOnSteps relay.now read.0 read.1) }
    ensures said { IfSome result (λ read. left.now ≡ relay_words relay.now read.0 read.1 ++ 10 ∷ read.2.now) }
    ensures no_such { IsNone result → (pickup dial : ℕ) (rest : List ℕ) → IsOnSteps relay.now pickup dial
        → left.now ≢ relay_words relay.now pickup dial ++ 10 ∷ rest }
{
    let name = relay.name.bytes();
    let (line, rest) = split_line(left)?;
    let (pickup, dial) = steps_on(line, name, relay)?;
    Some((pickup, dial, rest))
}

/// The pickup step and the dial step that the line says.
fn steps_on(line: &[u8], name: &[u8], relay: &Relay) -> Option<(u16, u16)>
    requires fits { (study : StudyData) × FitsRelay study relay.now }
    requires name { name.now ≡ relay.now.name }
    ensures on_steps { IfSome result (λ read. IsOnSteps relay.now read.0 read.1) }
    ensures said { IfSome result (λ read. line.now ≡ relay_words relay.now read.0 read.1) }
    ensures no_such { IsNone result → (pickup dial : ℕ) → IsOnSteps relay.now pickup dial → line.now ≢ relay_words relay.now pickup dial }
{
    let (plug, dial) = settings_on(line, name)?;
    let plug = read_fixed(plug, 2, GREATEST_PLUG as u64)?;
    let dial = read_fixed(dial, 3, GREATEST_DIAL as u64)?;
    let pickup = step_at(relay.plug_first, relay.plug_step, relay.plug_count, plug)?;
    let dial = step_at(relay.dial_first, relay.dial_step, relay.dial_count, dial)?;
    Some((pickup, dial))
}

/// The plug and the dial as the line of the named relay spells them.
fn settings_on<'a>(line: &'a [u8], name: &[u8]) -> Option<(&'a [u8], &'a [u8])>
    ensures plain { IfSome result (λ read. HasNoSpace read.0.now) }
    ensures said { IfSome result (λ read. line.now ≡ codes "relay " ++ (name.now ++ (codes " plug " ++ (read.0.now ++ (codes " dial " ++ read.1.now))))) }
    ensures no_such { IsNone result → (plug dial : List ℕ) → HasNoSpace plug
        → line.now ≢ codes "relay " ++ (name.now ++ (codes " plug " ++ (plug ++ (codes " dial " ++ dial)))) }
{
    let words = line.strip_prefix(b"relay ")?;
    let words = words.strip_prefix(name)?;
    let words = words.strip_prefix(b" plug ")?;
    cut_at_dial(words)
}

/// The plug before the first space, and the dial behind it and its label.
fn cut_at_dial(words: &[u8]) -> Option<(&[u8], &[u8])>
    ensures plain { IfSome result (λ read. HasNoSpace read.0.now) }
    ensures said { IfSome result (λ read. words.now ≡ read.0.now ++ (codes " dial " ++ read.1.now)) }
    ensures no_such { IsNone result → (plug dial : List ℕ) → HasNoSpace plug → words.now ≢ plug ++ (codes " dial " ++ dial) }
{
    let (plug, rest) = words.split_at(word_len(words));
    Some((plug, rest.strip_prefix(b" dial ")?))
}

/// How many bytes stand before the first space, or all.
fn word_len(words: &[u8]) -> usize
    ensures exact { result ≡ position_or_len (λ b. b == 32) words.now }
    ensures within { result ≤ length words.now }
{
    words.iter().position(|b| *b == b' ').unwrap_or(words.len())
}

/// The step at which a setting has the value. `None`: it is on no step.
fn step_at(first: u32, step: u32, count: u32, value: u64) -> Option<u16>
    requires step { 1 ≤ step }
    requires count { count ≤ 4000 }
    ensures on_step { IfSome result (λ at. (at < count) × (first + at * step ≡ value)) }
    ensures no_such { IsNone result → (at : ℕ) → at < count → first + at * step ≢ value }
{
    let past = value.checked_sub(u64::from(first))?;
    if past % u64::from(step) != 0 {
        return None;
    }
    let at = past / u64::from(step);
    if at < u64::from(count) {
        Some(at as u16)
    } else {
        None
    }
}
