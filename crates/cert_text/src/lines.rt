//! A certificate's lines, one after the other.
ghost use Rattle.std.specs.Prelude.{◌≡◌, ◌≢◌, ℕ, List, [], ◌∷◌, ◌++◌, is_err, false, IfErr, IfOk, IfSome, IsNone};
ghost use Rattle.std.specs.Option.{option_map};
ghost use Rattle.coord_model.specs.Choice.{choice_data};
ghost use Rattle.cert_text.specs.DueNodes.{stack};
ghost use Rattle.cert_text.specs.ScanState.{Follows, IsItem, settings_with, state_of, weights_of};
ghost use Rattle.cert_text.specs.HeadScan.{HeadTo, IsFront, IsHeadKind};
ghost use Rattle.cert_text.specs.Scanning.{Begins, NodesTo, Reached};
ghost use Rattle.cert_text.specs.declared.kinds.CertKind.TheVariants as kind;

use crate::dues::Dues;
use crate::head::next_front;
use crate::kinds::{CertHead, CertItem, CertKind};
use crate::nodes::read_node;
use crate::scan::CertScan;
use crate::settings::read_steps;
use coord_model::limits::MOST_RELAYS;
use coord_model::{Choice, Ending, NoMemory, Weight};
use std::alloc::Global;

impl CertScan {
    /// A scan before the first line.
    pub fn new(alloc: Global) -> Result<CertScan, NoMemory>
        ensures start { IfOk result (λ scan. Reached (state_of scan) []) }
        ensures open { IfOk result (λ scan. scan.refused ≡ false) }
    {
        Ok(CertScan {
            due: CertKind::Format,
            refused: false,
            head: CertHead {
                study: None,
                ending: Ending::NoSettings,
                gap: 1,
                budget: 1,
                boxes: 1,
                bound: None,
                cost: None,
            },
            choice: Choice {
                pickup: vec![in alloc; 0; MOST_RELAYS as usize]?,
                dial: vec![in alloc; 0; MOST_RELAYS as usize]?,
            },
            pairs: vec![in alloc; Weight { row: 0, weight: 0 }; MOST_RELAYS as usize]?,
            count: 0,
            dues: Dues::new(alloc)?,
        })
    }

    /// The kind of line that is due.
    pub fn due(&self) -> CertKind
        ensures { result ≡ self.now.due }
    {
        self.due
    }

    /// Whether a line was refused.
    pub fn refused(&self) -> bool
        ensures { result ≡ self.now.refused }
    {
        self.refused
    }

    /// The weights of the last node.
    pub fn weights(&self) -> &[Weight]
        ensures { result.now ≡ weights_of self.now }
    {
        &self.pairs[..self.count]
    }

    /// What the lines before the settings say. What no line has said yet has a value that may come.
    pub fn head(&self) -> &CertHead
        ensures { result.now ≡ self.now.head }
    {
        &self.head
    }

    /// The settings, if their line has some. That line was taken.
    pub fn choice(&self) -> Option<&Choice>
        requires taken { ¬ (IsFront self.now.due) }
        ensures { option_map (λ choice. choice_data choice.now) result ≡ settings_with self.now.head.cost self.now.choice }
    {
        match self.head.cost {
            Some(_) => Some(&self.choice),
            None => None,
        }
    }

    /// What the line is, if the lines so far with this one begin a certificate.
    ///
    /// An error is the kind of line that is due, and the scan has refused. Takes no memory.
    pub fn line(&mut self, line: &[u8]) -> Result<CertItem, CertKind>
        requires open { self.now.refused ≡ false }
        ensures goes { IfOk result (λ _. (lines : List (List ℕ)) → Reached (state_of self.old) lines → Reached (state_of self.new) (lines ++ line.now ∷ [])) }
        ensures stops { IfErr result (λ _. (lines : List (List ℕ)) → Reached (state_of self.old) lines → ¬ Begins (lines ++ line.now ∷ [])) }
        ensures begins { IfOk result (λ _. (lines : List (List ℕ)) → Reached (state_of self.old) lines → Begins (lines ++ line.now ∷ [])) }
        ensures item { IfOk result (λ item. IsItem item (state_of self.old) (state_of self.new) (weights_of self.new) line.now) }
        ensures follows { IfOk result (λ item. Follows item (state_of self.old) (state_of self.new) line.now) }
        ensures due { IfErr result (λ due. due ≡ self.old.due) }
        ensures refused { self.new.refused ≡ is_err result }
    {
        let due = self.due;
        match self.take(line) {
            Some(item) => Ok(item),
            None => {
                self.refused = true;
                Err(due)
            }
        }
    }

    /// Takes the line if it is one that is due.
    fn take(&mut self, line: &[u8]) -> Option<CertItem>
        ensures goes { IfSome result (λ _. (lines : List (List ℕ)) → Reached (state_of self.old) lines → Reached (state_of self.new) (lines ++ line.now ∷ [])) }
        ensures stops { IsNone result → (lines : List (List ℕ)) → Reached (state_of self.old) lines → ¬ Begins (lines ++ line.now ∷ []) }
        ensures item { IfSome result (λ item. IsItem item (state_of self.old) (state_of self.new) (weights_of self.new) line.now) }
        ensures follows { IfSome result (λ item. Follows item (state_of self.old) (state_of self.new) line.now) }
        ensures unchanged { self.new.refused ≡ self.old.refused }
    {
        match self.due {
            CertKind::Settings => self.take_settings(line),
            CertKind::Node => self.take_node(line),
            CertKind::End => self.take_end(line),
            CertKind::After => None,
            _ => self.take_head(line),
        }
    }

    /// Takes a line before the settings.
    fn take_head(&mut self, line: &[u8]) -> Option<CertItem>
        requires front { IsHeadKind self.now.due }
        ensures goes { IfSome result (λ _. (lines : List (List ℕ)) → Reached (state_of self.old) lines → Reached (state_of self.new) (lines ++ line.now ∷ [])) }
        ensures stops { IsNone result → (lines : List (List ℕ)) → Reached (state_of self.old) lines → ¬ Begins (lines ++ line.now ∷ []) }
        ensures item { IfSome result (λ item. IsItem item (state_of self.old) (state_of self.new) (weights_of self.new) line.now) }
        ensures follows { IfSome result (λ item. Follows item (state_of self.old) (state_of self.new) line.now) }
        ensures unchanged { self.new.refused ≡ self.old.refused }
    {
        let next = next_front(self.due, self.head, line)?;
        self.due = next.due;
        self.head = next.head;
        Some(CertItem::Head)
    }

    /// Takes the line of the settings.
    fn take_settings(&mut self, line: &[u8]) -> Option<CertItem>
        requires due { self.now.due ≡ kind.Settings }
        ensures goes { IfSome result (λ _. (lines : List (List ℕ)) → HeadTo kind.Settings lines self.old.head → Reached (state_of self.new) (lines ++ line.now ∷ [])) }
        ensures stops { IsNone result → (lines : List (List ℕ)) → HeadTo kind.Settings lines self.old.head → ¬ Begins (lines ++ line.now ∷ []) }
        ensures item { IfSome result (λ item. IsItem item (state_of self.old) (state_of self.new) (weights_of self.new) line.now) }
        ensures follows { IfSome result (λ item. Follows item (state_of self.old) (state_of self.new) line.now) }
        ensures unchanged { self.new.refused ≡ self.old.refused }
    {
        match self.head.cost {
            None => {
                if line != b"settings none".as_slice() {
                    return None;
                }
            }
            Some(_) => read_steps(line, &mut self.pairs, &mut self.choice)?,
        }
        self.dues.begin();
        self.due = CertKind::Node;
        Some(CertItem::Head)
    }

    /// Takes the line of a node.
    fn take_node(&mut self, line: &[u8]) -> Option<CertItem>
        requires due { self.now.due ≡ kind.Node }
        ensures goes { IfSome result (λ _. (lines : List (List ℕ)) → NodesTo (state_of self.old) lines → Reached (state_of self.new) (lines ++ line.now ∷ [])) }
        ensures stops { IsNone result → (lines : List (List ℕ)) → NodesTo (state_of self.old) lines → stack self.old.dues.depths.items self.old.dues.pending ≢ []
            → ¬ Begins (lines ++ line.now ∷ []) }
        ensures item { IfSome result (λ item. IsItem item (state_of self.old) (state_of self.new) (weights_of self.new) line.now) }
        ensures follows { IfSome result (λ item. Follows item (state_of self.old) (state_of self.new) line.now) }
        ensures unchanged { self.new.refused ≡ self.old.refused }
    {
        let (node, count) = read_node(line, &mut self.pairs)?;
        self.count = count;
        if !self.dues.take(node) {
            return None;
        }
        if self.dues.is_empty() {
            self.due = CertKind::End;
            return Some(CertItem::Node(node));
        }
        Some(CertItem::Node(node))
    }

    /// Takes the last line.
    fn take_end(&mut self, line: &[u8]) -> Option<CertItem>
        requires due { self.now.due ≡ kind.End }
        ensures goes { IfSome result (λ _. (lines : List (List ℕ)) → Reached (state_of self.old) lines → Reached (state_of self.new) (lines ++ line.now ∷ [])) }
        ensures stops { IsNone result → (lines : List (List ℕ)) → Reached (state_of self.old) lines → ¬ Begins (lines ++ line.now ∷ []) }
        ensures item { IfSome result (λ item. IsItem item (state_of self.old) (state_of self.new) (weights_of self.new) line.now) }
        ensures follows { IfSome result (λ item. Follows item (state_of self.old) (state_of self.new) line.now) }
        ensures unchanged { self.new.refused ≡ self.old.refused }
    {
        if line != b"end".as_slice() {
            return None;
        }
        self.due = CertKind::After;
        Some(CertItem::End)
    }
}
