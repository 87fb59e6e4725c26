//! What a certificate claims, and whether it agrees.
ghost use Rattle.std.specs.Prelude.{◌≡◌, ◌≤◌, Option, Some, is_some, length, IfErr, IfOk, IfSome, IsNone, IsOk, IsTrue, ◌↔◌};
ghost use Rattle.std.specs.Option.{option_map};
ghost use Rattle.coord_model.specs.Allowed.{IsAllowed};
ghost use Rattle.coord_model.specs.Choice.{Settings, choice_data};
ghost use Rattle.coord_model.specs.Cost.{CostsAtMost};
ghost use Rattle.margin_rows.specs.Case.{FitsCase};
ghost use Rattle.cert_check.specs.ClaimFaults.{IsFirstClaimFault, IsFirstOfTree};
ghost use Rattle.margin_rows.specs.Gap.{IsGapEnough};
ghost use Rattle.cert_check.specs.Claims.{Agrees, IfPrinted, study_head};

use crate::found::Found;
use crate::kind::ClaimKind;
use crate::settings::settings_right;
use cert_text::CertHead;
use coord_model::{Choice, Ending, StudyHead};
use margin_rows::{Instance, least_gap};

/// What a certificate claims.
///
/// `gap`, `bound` and `cost` are in weighted microseconds, `budget` and `boxes` count boxes.
#[derive(Clone, Copy, PartialEq, Eq, Debug)]
pub struct Claim {
    pub ending: Ending,
    pub gap: u64,
    pub budget: u32,
    pub boxes: u32,
    pub bound: Option<u64>,
    pub cost: Option<u64>,
}

/// The claim of a certificate, if it agrees with the study, with the settings, and with what the tree gives.
///
/// An error says which claim is wrong first. It takes no memory.
pub fn check_claim(
    inst: &Instance,
    head: &CertHead,
    choice: Option<&Choice>,
    found: Found,
) -> Result<Claim, ClaimKind>
    requires both { is_some choice ≡ is_some head.now.cost }
    requires paired { IfSome choice (λ choice. length choice.now.pickup.items ≡ length choice.now.dial.items) }

    ensures agrees { IsOk result → Agrees inst.now head.now (option_map (λ choice. choice_data choice.now) choice.entry) found }

    // A claim that agrees is accepted.
    ensures accepts { Agrees inst.now head.now (option_map (λ choice. choice_data choice.now) choice.entry) found → IsOk result }
    ensures first { IfErr result (IsFirstClaimFault inst.now head.now (option_map (λ choice. choice_data choice.now) choice.entry) found) }
    ensures value { IfOk result (λ claim. claim ≡ record {
      ending = head.now.ending;
      gap = head.now.gap;
      budget = head.now.budget;
      boxes = head.now.boxes;
      bound = head.now.bound;
      cost = head.now.cost;
    }) }

    ensures fits { FitsCase inst.now }

    // Printed settings are allowed, and cost at most the printed cost.
    ensures allowed { IsOk result → IfSome choice.entry (λ choice. IsAllowed inst.now.study inst.now.currents (choice_data choice.now)) }
    ensures at_most { IsOk result → IfPrinted (option_map (λ choice. choice_data choice.now) choice.entry) head.now.cost (CostsAtMost inst.now.study inst.now.currents) }
{
    let study = study_head(inst);
    if !is_of_study(head.study, study) {
        return Err(ClaimKind::Study {
            printed: head.study,
            found: study,
        });
    }
    settings_right(inst, choice, head.cost)?;
    of_tree(inst, head, found)?;
    Ok(Claim {
        ending: head.ending,
        gap: head.gap,
        budget: head.budget,
        boxes: head.boxes,
        bound: head.bound,
        cost: head.cost,
    })
}

/// The format, the relays and the rows of a study.
pub fn study_head(inst: &Instance) -> StudyHead
    ensures value { result ≡ study_head inst.now }
    ensures fits { FitsCase inst.now }
{
    StudyHead {
        format: inst.study().format,
        relays: inst.study().relays.len() as u32,
        rows: inst.rows().len() as u32,
    }
}

/// Whether a certificate with this line of a study, or with none, belongs to the study.
fn is_of_study(printed: Option<StudyHead>, study: StudyHead) -> bool
    ensures some { IfSome printed (λ printed. IsTrue result ↔ (printed ≡ study)) }
    ensures none { IsNone printed → (IsTrue result ↔ (study.format ≤ 2)) }
{
    match printed {
        Some(printed) => printed == study,
        None => study.format <= 2,
    }
}

/// Whether the boxes, the bound, the gap and the ending are those of the study and of what the tree gives.
fn of_tree(inst: &Instance, head: &CertHead, given: Found) -> Result<(), ClaimKind>
    ensures boxes { IsOk result → head.now.boxes ≡ given.boxes }
    ensures bound { IsOk result → head.now.bound ≡ given.bound }
    ensures gap { IsOk result → IsGapEnough inst.now head.now.gap }
    ensures ending { IsOk result → Some head.now.ending ≡ given.ending }
    ensures accepts { (settings : Option Settings) → Agrees inst.now head.now settings given → IsOk result }
    ensures first { IfErr result (IsFirstOfTree inst.now head.now given) }
{
    if head.boxes != given.boxes {
        return Err(ClaimKind::Boxes {
            printed: u64::from(head.boxes),
            found: u64::from(given.boxes),
        });
    }
    if head.bound != given.bound {
        return Err(ClaimKind::Bound {
            printed: head.bound,
            found: given.bound,
        });
    }
    let least = least_gap(inst);
    if head.gap < least {
        return Err(ClaimKind::Gap {
            printed: head.gap,
            least,
        });
    }
    if given.ending != Some(head.ending) {
        return Err(ClaimKind::EndingIs {
            printed: head.ending,
            found: given.ending,
        });
    }
    Ok(())
}
