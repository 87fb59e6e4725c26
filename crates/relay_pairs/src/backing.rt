//! The pairs of a study.
ghost use Rattle.std.specs.Prelude.{◌≡◌, ◌≢◌, ◌<◌, ◌≤◌, ◌↔◌, ◌++◌, length, Contains, IfOk, OnOk, IsTrue};
ghost use Rattle.std.specs.List.{AllPairs};
ghost use Rattle.coord_model.specs.Limits.{FitsStudy};
ghost use Rattle.coord_model.specs.Pairs.{backs, is_exempt, ends_at, looks_towards, pairs_behind, pairs_of};
ghost use Rattle.coord_model.specs.StudyData.{study_data};
ghost use Rattle.coord_model.specs.declared.study.Pair.{Pair};
ghost use Rattle.relay_pairs.specs.Order.{ComesBefore};

use coord_model::{Line, NoMemory, Pair, Relay, Study};
use std::alloc::Global;

/// The pairs of a study: which relay backs which, by the numbers of the relays.
///
/// They are listed by primary and then by backup, each once.
pub fn pairs(alloc: Global, study: &Study) -> Result<Vec<Pair>, NoMemory>
    requires { FitsStudy (study_data study.now) }

    ensures exact { IfOk result (λ pairs. pairs.items ≡ pairs_of (study_data study.now)) }

    // A pair is listed exactly where the one relay backs the other.
    ensures listed { IfOk result (λ pairs. (pair : Pair) → Contains pairs.items pair ↔ IsTrue (backs (study_data study.now) pair.backup pair.primary)) }
    ensures ordered { IfOk result (λ pairs. AllPairs ComesBefore pairs.items) }
    ensures once { IfOk result (λ pairs. AllPairs (λ pair other. pair ≢ other) pairs.items) }
{
    let mut pairs = Vec::new(alloc);
    for primary in 0..study.relays.len() as u16 {
        push_pairs_behind(study, primary, &mut pairs)?;
    }
    Ok(pairs)
}

/// Adds the pairs of a primary.
fn push_pairs_behind(study: &Study, primary: u16, pairs: &mut Vec<Pair>) -> Result<(), NoMemory>
    requires study { FitsStudy (study_data study.now) }
    requires primary { primary < length study.now.relays.items }
    ensures { OnOk result (pairs.new.items ≡ pairs.old.items ++ pairs_behind (study_data study.now) primary) }
{
    for backup in 0..study.relays.len() as u16 {
        if backs(study, backup, primary) {
            pairs.push(Pair { backup, primary })?;
        }
    }
    Ok(())
}

/// Whether one relay backs another.
fn backs(study: &Study, backup: u16, primary: u16) -> bool
    requires study { FitsStudy (study_data study.now) }
    requires backup { backup < length study.now.relays.items }
    requires primary { primary < length study.now.relays.items }
    ensures { result ≡ backs (study_data study.now) backup primary }
{
    let backing = &study.relays[usize::from(backup)];
    let backed = &study.relays[usize::from(primary)];
    looks_towards(study, backing, backed) && !is_exempt(study, backup, primary)
}

/// Whether the backup stands at the far end of another line that meets the primary's bus.
fn looks_towards(study: &Study, backup: &Relay, primary: &Relay) -> bool
    requires { backup.now.line < length study.now.lines.items }
    ensures { result ≡ looks_towards (study_data study.now) (Some backup.now) (Some primary.now) }
{
    let line = &study.lines[usize::from(backup.line)];
    backup.line != primary.line && ends_at(line, primary.bus) && backup.bus != primary.bus
}

/// Whether a line has an end at a bus.
fn ends_at(line: &Line, bus: u16) -> bool
    ensures { result ≡ ends_at (Some line.now) bus }
{
    line.from == bus || line.to == bus
}

/// Whether a pair of relays is exempt.
fn is_exempt(study: &Study, backup: u16, primary: u16) -> bool
    ensures { result ≡ is_exempt (study_data study.now) backup primary }
{
    study.exempt.iter().any(|exempt| exempt.backup == backup && exempt.primary == primary)
}
