//! A certificate's text, line by line.
ghost use Rattle.std.specs.Prelude.{◌≡◌, ◌+◌, ◌<◌, ◌≤◌, [], ◌∷◌, ◌++◌, List, length, vec_len, vec_capacity, IfOk, IfSome, IsTrue, IsFalse, OnErr, OnOk};
ghost use Rattle.std.specs.Option.{option_map};
ghost use Rattle.coord_model.specs.Choice.{choice_data};
ghost use Rattle.coord_model.specs.Tree.{Tree, shape};
ghost use Rattle.coord_text.specs.Claims.{ended};
ghost use Rattle.cert_text.specs.CertData.{AreSettings, IsCert, CertData, cert_data};
ghost use Rattle.cert_text.specs.CertText.{cert_lines};
ghost use Rattle.cert_text.specs.Forests.{FitPath, below, nodes_on, waiting};
ghost use Rattle.cert_text.specs.LinesLeft.{lines_from};
ghost use Rattle.cert_text.specs.Printing.{Prints, following, front_line};
ghost use Rattle.cert_text.specs.HeadScan.{IsFront};
ghost use Rattle.cert_text.specs.declared.kinds.CertKind.TheVariants as kind;

use crate::kinds::CertKind;
use crate::text::{
    push_count, push_format, push_labelled_amount, push_line, push_settings, push_study_words,
    push_word,
};
use coord_model::limits::MOST_SPLITS;
use coord_model::{Cert, NoMemory, Node, StudyHead};
use coord_text::ending_word;
use std::alloc::Global;
use std::marker::Model;

/// The most bytes of a line, with its line feed.
const LONGEST_LINE: usize = 1037;

/// The most nodes that wait on a path.
const LONGEST_PATH: usize = MOST_SPLITS as usize + 1;

/// A printer of a certificate's text. It keeps room for one line, and for the nodes that wait on a path.
#[derive(Drop)]
pub struct CertPrinter<'a> {
    cert: &'a Cert,
    due: CertKind,
    path: Vec<&'a Node>,
    line: Vec<u8>,
}

impl<'a> Model for CertPrinter<'a> {
    ghost use Rattle.std.specs.Prelude.{◌≤◌, vec_capacity};
    ghost use Rattle.cert_text.specs.CertData.{IsCert, cert_data};
    ghost use Rattle.cert_text.specs.Forests.{FitPath, waiting};
    ghost use Rattle.cert_text.specs.LinesLeft.{lines_from};
    ghost use Rattle.cert_text.specs.Printing.{Print};

    ghost Value = { Print };

    ghost view = { λ p. record { piece = p.line.items; left = lines_from p.due (cert_data p.cert.now) (waiting p.path.items) } };

    ghost invariant = { λ p. IsCert (cert_data p.cert.now) × FitPath (waiting p.path.items)
        × (3073 ≤ vec_capacity p.path) × (1037 ≤ vec_capacity p.line) };
}

impl<'a> CertPrinter<'a> {
    /// A printer that has printed nothing.
    pub fn new(alloc: Global, cert: &'a Cert) -> Result<CertPrinter<'a>, NoMemory>
        requires { IsCert (cert_data cert.now) }
        ensures { IfOk result (λ printer. printer.left ≡ cert_lines (cert_data cert.now)) }
    {
        let mut path = Vec::with_capacity(alloc, LONGEST_PATH)?;
        path.push(&cert.tree)?;
        Ok(CertPrinter {
            cert,
            due: CertKind::Format,
            path,
            line: Vec::with_capacity(alloc, LONGEST_LINE)?,
        })
    }

    /// Prints the next line. `false`: all lines are printed. Takes no memory.
    pub fn next(&mut self) -> bool
        ensures more { IsTrue result → Prints self.old.left self.new.piece self.new.left }
        ensures none { IsFalse result → (self.old.left ≡ []) × (self.new.left ≡ []) }
    {
        self.line.clear();
        self.due = match self.due {
            CertKind::After => return false,
            CertKind::Node | CertKind::End => print_node(&mut self.line, &mut self.path),
            _ => print_front(&mut self.line, self.cert, self.due),
        };
        true
    }

    /// The line that was printed last, with its line feed.
    pub fn piece(&self) -> &[u8]
        ensures { result.now ≡ self.now.piece }
    {
        &self.line
    }
}

/// Prints the line of this kind, and says the kind of the next one.
fn print_front(line: &mut Vec<u8>, cert: &Cert, due: CertKind) -> CertKind
    requires front { IsFront due }
    requires is { IsCert (cert_data cert.now) }
    requires empty { line.now.items ≡ [] }
    requires room { 1037 ≤ vec_capacity line.now }
    ensures prints { (trees : List Tree) → Prints (lines_from due (cert_data cert.now) trees) line.new.items (lines_from result (cert_data cert.now) trees) }
    ensures room { 1037 ≤ vec_capacity line.new }
{
    let _ = push_front(line, cert, due);
    following(due, &cert.study)
}

/// The kind of line that follows one of this kind.
fn following(due: CertKind, study: &Option<StudyHead>) -> CertKind
    ensures { result ≡ following due study.now }
{
    match due {
        CertKind::Format => match study {
            None => CertKind::Ending,
            Some(_) => CertKind::Study,
        },
        CertKind::Study => CertKind::Ending,
        CertKind::Ending => CertKind::Gap,
        CertKind::Gap => CertKind::Budget,
        CertKind::Budget => CertKind::Boxes,
        CertKind::Boxes => CertKind::Bound,
        CertKind::Bound => CertKind::Cost,
        CertKind::Cost => CertKind::Settings,
        _ => CertKind::Node,
    }
}

/// Adds the line of this kind, one up to the settings.
fn push_front(out: &mut Vec<u8>, cert: &Cert, due: CertKind) -> Result<(), NoMemory>
    requires settings { IfSome (option_map choice_data cert.now.choice) AreSettings }
    ensures added { OnOk result (out.new.items ≡ out.old.items ++ ended (front_line due (cert_data cert.now))) }
    ensures capacity { vec_capacity out.old ≤ vec_capacity out.new }
    ensures full { OnErr result (vec_capacity out.old < vec_len out.old + length (ended (front_line due (cert_data cert.now)))) }
{
    match due {
        CertKind::Format => push_format(out, &cert.study),
        CertKind::Study => push_study_words(out, &cert.study),
        CertKind::Ending => push_word(out, b"ending ", ending_word(cert.ending)),
        CertKind::Gap => push_count(out, b"gap ", cert.gap),
        CertKind::Budget => push_count(out, b"budget ", u64::from(cert.budget)),
        CertKind::Boxes => push_count(out, b"boxes ", u64::from(cert.boxes)),
        CertKind::Bound => push_labelled_amount(out, b"bound ", cert.bound),
        CertKind::Cost => push_labelled_amount(out, b"cost ", cert.cost),
        _ => push_settings(out, &cert.choice),
    }
}

/// Prints the line of the next node, or the last line, and says the kind of the next one.
fn print_node(line: &mut Vec<u8>, path: &mut Vec<&Node>) -> CertKind
    requires fit { FitPath (waiting path.now.items) }
    requires path_room { 3073 ≤ vec_capacity path.now }
    requires empty { line.now.items ≡ [] }
    requires room { 1037 ≤ vec_capacity line.now }
    ensures prints { (cert : CertData) → Prints (nodes_on (waiting path.old.items)) line.new.items (lines_from result cert (waiting path.new.items)) }
    ensures fit { FitPath (waiting path.new.items) }
    ensures path_room { 3073 ≤ vec_capacity path.new }
    ensures room { 1037 ≤ vec_capacity line.new }
{
    let Some(node) = path.pop() else {
        let _ = push_word(line, b"end", b"");
        return CertKind::After;
    };
    let _ = push_line(line, node);
    push_halves(path, node);
    CertKind::Node
}

/// Puts the halves of a split on the path, the low half last. Another node has none.
fn push_halves<'a>(path: &mut Vec<&'a Node>, node: &'a Node)
    requires fit { FitPath (shape node.now ∷ waiting path.now.items) }
    requires room { 3073 ≤ vec_capacity path.now }
    ensures waits { waiting path.new.items ≡ below (shape node.now) ++ waiting path.old.items }
    ensures fit { FitPath (waiting path.new.items) }
    ensures room { 3073 ≤ vec_capacity path.new }
{
    if let Node::Split { low, high, .. } = node {
        path.push_reserved(high);
        path.push_reserved(low);
    }
}
