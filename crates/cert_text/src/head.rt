//! The lines before the settings, one function for each kind of line.
//!
//! Each takes the head so far, whose values that no line has said yet are ones that may come, and answers what is due
//! next. `None`: the line continues no certificate.
ghost use Rattle.std.specs.Prelude.{◌≡◌, ◌≢◌, ℕ, Option, List, [], ◌∷◌, ◌++◌, IfSome, IsNone};
ghost use Rattle.coord_model.specs.declared.cert.StudyHead.{StudyHead};
ghost use Rattle.coord_text.specs.Claims.{BoundGoesWith, CostGoesWith, IsShort, amount};
ghost use Rattle.cert_text.specs.CertData.{IsStudyHead};
ghost use Rattle.cert_text.specs.CertText.{study_line};
ghost use Rattle.cert_text.specs.HeadScan.{HeadTo, IsFront, IsHeadKind};
ghost use Rattle.cert_text.specs.Scanning.{Begins};
ghost use Rattle.cert_text.specs.declared.kinds.CertKind.TheVariants as kind;

use crate::kinds::{CertHead, CertKind};
use crate::numbers::{cut_number, last_count, last_number};
use coord_model::limits::{GREATEST_BUDGET, GREATEST_GAP, LAST_FORMAT, MOST_RELAYS, MOST_ROWS};
use coord_model::{Ending, StudyHead};
use coord_text::{bound_goes_with, cost_goes_with, read_amount, read_ending};

/// The head so far, and the kind of line that is due.
#[derive(Clone, Copy)]
pub struct Front {
    pub due: CertKind,
    pub head: CertHead,
}

/// What is due after a line before the settings.
pub fn next_front(due: CertKind, head: CertHead, line: &[u8]) -> Option<Front>
    requires { IsHeadKind due }
    ensures front { IfSome result (λ next. IsFront next.due) }
    ensures goes { IfSome result (λ next. (lines : List (List ℕ)) → HeadTo due lines head → HeadTo next.due (lines ++ line.now ∷ []) next.head) }
    ensures stops { IsNone result → (lines : List (List ℕ)) → HeadTo due lines head → ¬ Begins (lines ++ line.now ∷ []) }
{
    match due {
        CertKind::Format => next_format(head, line),
        CertKind::Study => next_study(head, line),
        CertKind::Ending => next_ending(head, line),
        CertKind::Gap => next_gap(head, line),
        CertKind::Budget => next_budget(head, line),
        CertKind::Boxes => next_boxes(head, line),
        CertKind::Bound => next_bound(head, line),
        CertKind::Cost => next_cost(head, line),
        CertKind::Settings | CertKind::Node | CertKind::End | CertKind::After => None,
    }
}

/// What is due after the first line.
fn next_format(head: CertHead, line: &[u8]) -> Option<Front>
    ensures front { IfSome result (λ next. IsFront next.due) }
    ensures goes { IfSome result (λ next. (lines : List (List ℕ)) → HeadTo kind.Format lines head → HeadTo next.due (lines ++ line.now ∷ []) next.head) }
    ensures stops { IsNone result → (lines : List (List ℕ)) → HeadTo kind.Format lines head → ¬ Begins (lines ++ line.now ∷ []) }
{
    let mut head = head;
    if line == b"coord-certificate 1".as_slice() {
        head.study = None;
        return Some(Front {
            due: CertKind::Ending,
            head,
        });
    }
    if line == b"coord-certificate 2".as_slice() {
        head.study = Some(StudyHead {
            format: 1,
            relays: 1,
            rows: 0,
        });
        return Some(Front {
            due: CertKind::Study,
            head,
        });
    }
    None
}

/// What is due after the line of the study.
fn next_study(head: CertHead, line: &[u8]) -> Option<Front>
    ensures front { IfSome result (λ next. IsFront next.due) }
    ensures goes { IfSome result (λ next. (lines : List (List ℕ)) → HeadTo kind.Study lines head → HeadTo next.due (lines ++ line.now ∷ []) next.head) }
    ensures stops { IsNone result → (lines : List (List ℕ)) → HeadTo kind.Study lines head → ¬ Begins (lines ++ line.now ∷ []) }
{
    let study = read_study(line)?;
    let mut head = head;
    head.study = Some(study);
    Some(Front {
        due: CertKind::Ending,
        head,
    })
}

/// What the line of the study says.
fn read_study(line: &[u8]) -> Option<StudyHead>
    ensures is { IfSome result IsStudyHead }
    ensures said { IfSome result (λ study. line.now ≡ study_line study) }
    ensures no_such { IsNone result → (study : StudyHead) → IsStudyHead study → line.now ≢ study_line study }
{
    let (format, rest) = cut_number(line, b"study ", LAST_FORMAT as u64)?;
    let (relays, rest) = cut_number(rest, b" ", MOST_RELAYS as u64)?;
    let rows = last_number(rest, b" ", MOST_ROWS as u64)?;
    if format == 0 {
        return None;
    }
    if relays == 0 {
        return None;
    }
    Some(StudyHead {
        format: format as u32,
        relays: relays as u32,
        rows: rows as u32,
    })
}

/// What is due after the line of the ending.
fn next_ending(head: CertHead, line: &[u8]) -> Option<Front>
    ensures front { IfSome result (λ next. IsFront next.due) }
    ensures goes { IfSome result (λ next. (lines : List (List ℕ)) → HeadTo kind.Ending lines head → HeadTo next.due (lines ++ line.now ∷ []) next.head) }
    ensures stops { IsNone result → (lines : List (List ℕ)) → HeadTo kind.Ending lines head → ¬ Begins (lines ++ line.now ∷ []) }
{
    let ending = read_ending(line.strip_prefix(b"ending ")?)?;
    let mut head = head;
    head.ending = ending;
    head.bound = least_with(ending);
    head.cost = least_with(ending);
    Some(Front {
        due: CertKind::Gap,
        head,
    })
}

/// A bound and a cost that go with the ending.
fn least_with(ending: Ending) -> Option<u64>
    ensures bound { BoundGoesWith ending result }
    ensures cost { CostGoesWith ending result }
    ensures short { IsShort result }
{
    match ending {
        Ending::NoSettings => None,
        Ending::Closed | Ending::BudgetSpent | Ending::Hairline => Some(0),
    }
}

/// What is due after the line of the gap.
fn next_gap(head: CertHead, line: &[u8]) -> Option<Front>
    ensures front { IfSome result (λ next. IsFront next.due) }
    ensures goes { IfSome result (λ next. (lines : List (List ℕ)) → HeadTo kind.Gap lines head → HeadTo next.due (lines ++ line.now ∷ []) next.head) }
    ensures stops { IsNone result → (lines : List (List ℕ)) → HeadTo kind.Gap lines head → ¬ Begins (lines ++ line.now ∷ []) }
{
    let gap = last_count(line, b"gap ", GREATEST_GAP)?;
    let mut head = head;
    head.gap = gap;
    Some(Front {
        due: CertKind::Budget,
        head,
    })
}

/// What is due after the line of the budget.
fn next_budget(head: CertHead, line: &[u8]) -> Option<Front>
    ensures front { IfSome result (λ next. IsFront next.due) }
    ensures goes { IfSome result (λ next. (lines : List (List ℕ)) → HeadTo kind.Budget lines head → HeadTo next.due (lines ++ line.now ∷ []) next.head) }
    ensures stops { IsNone result → (lines : List (List ℕ)) → HeadTo kind.Budget lines head → ¬ Begins (lines ++ line.now ∷ []) }
{
    let budget = last_count(line, b"budget ", GREATEST_BUDGET as u64)?;
    let mut head = head;
    head.budget = budget as u32;
    Some(Front {
        due: CertKind::Boxes,
        head,
    })
}

/// What is due after the line of the boxes.
fn next_boxes(head: CertHead, line: &[u8]) -> Option<Front>
    ensures front { IfSome result (λ next. IsFront next.due) }
    ensures goes { IfSome result (λ next. (lines : List (List ℕ)) → HeadTo kind.Boxes lines head → HeadTo next.due (lines ++ line.now ∷ []) next.head) }
    ensures stops { IsNone result → (lines : List (List ℕ)) → HeadTo kind.Boxes lines head → ¬ Begins (lines ++ line.now ∷ []) }
{
    let boxes = last_count(line, b"boxes ", GREATEST_BUDGET as u64)?;
    let mut head = head;
    head.boxes = boxes as u32;
    Some(Front {
        due: CertKind::Bound,
        head,
    })
}

/// What is due after the line of the bound.
fn next_bound(head: CertHead, line: &[u8]) -> Option<Front>
    ensures front { IfSome result (λ next. IsFront next.due) }
    ensures goes { IfSome result (λ next. (lines : List (List ℕ)) → HeadTo kind.Bound lines head → HeadTo next.due (lines ++ line.now ∷ []) next.head) }
    ensures stops { IsNone result → (lines : List (List ℕ)) → HeadTo kind.Bound lines head → ¬ Begins (lines ++ line.now ∷ []) }
{
    let bound = labelled_amount(line, b"bound ")?;
    if !bound_goes_with(head.ending, bound) {
        return None;
    }
    let mut head = head;
    head.bound = bound;
    Some(Front {
        due: CertKind::Cost,
        head,
    })
}

/// What is due after the line of the cost.
fn next_cost(head: CertHead, line: &[u8]) -> Option<Front>
    ensures front { IfSome result (λ next. IsFront next.due) }
    ensures goes { IfSome result (λ next. (lines : List (List ℕ)) → HeadTo kind.Cost lines head → HeadTo next.due (lines ++ line.now ∷ []) next.head) }
    ensures stops { IsNone result → (lines : List (List ℕ)) → HeadTo kind.Cost lines head → ¬ Begins (lines ++ line.now ∷ []) }
{
    let cost = labelled_amount(line, b"cost ")?;
    if !cost_goes_with(head.ending, cost) {
        return None;
    }
    let mut head = head;
    head.cost = cost;
    Some(Front {
        due: CertKind::Settings,
        head,
    })
}

/// The amount after the label.
fn labelled_amount(line: &[u8], label: &[u8]) -> Option<Option<u64>>
    ensures short { IfSome result IsShort }
    ensures said { IfSome result (λ n. line.now ≡ label.now ++ amount n) }
    ensures no_such { IsNone result → (n : Option ℕ) → IsShort n → line.now ≢ label.now ++ amount n }
{
    let word = line.strip_prefix(label)?;
    let n = read_amount(word)?;
    Some(n)
}
