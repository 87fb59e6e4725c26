//! The text of a certificate.
ghost use Rattle.std.specs.Prelude.{◌≡◌, ℕ, ◌+◌, ◌<◌, ◌≤◌, ◌∷◌, ◌++◌, codes, length, map, vec_len, vec_capacity, IfOk, IfSome, OnErr, OnOk};
ghost use Rattle.std.specs.Fmt.{decimal};
ghost use Rattle.std.specs.Option.{option_map};
ghost use Rattle.coord_model.specs.Choice.{choice_data};
ghost use Rattle.coord_model.specs.Tree.{nodes_of, root, shape};
ghost use Rattle.coord_text.specs.Claims.{amount, ended, text_of};
ghost use Rattle.cert_text.specs.CertData.{AreSettings, CertData, IsCert, cert_data, head_of};
ghost use Rattle.cert_text.specs.CertText.{TextsFit, cert_text, head_lines, opening, settings_line, step_words, study_line};
ghost use Rattle.cert_text.specs.Printing.{first_line, study_words};
ghost use Rattle.cert_text.specs.Nodes.{node_line, pair_word, weight_words};

use coord_model::{Cert, Choice, NoMemory, Node, StudyHead, Weight, Weights};
use coord_text::{ending_word, push_amount, push_number};
use std::alloc::Global;

/// The text of a certificate. It is the text of no other.
pub fn cert_bytes(alloc: Global, cert: &Cert) -> Result<Vec<u8>, NoMemory>
    requires { IsCert (cert_data cert.now) }
    ensures text { IfOk result (λ bytes. bytes.items ≡ cert_text (cert_data cert.now)) }
    ensures only { IfOk result (λ bytes. (other : CertData) → IsCert other → bytes.items ≡ cert_text other → cert_data cert.now ≡ other) }
    ensures fits { IfOk result (λ bytes. length bytes.items ≤ 536870912) }
{
    whole_text(alloc, cert)
}

/// The text of each certificate has at most 512 MiB: 400,001 lines of nodes and ten others, each of at most 1,037 bytes
/// with its line feed.
pub fn each_text_fits()
    ensures { TextsFit }
{}

/// The text of a certificate.
fn whole_text(alloc: Global, cert: &Cert) -> Result<Vec<u8>, NoMemory>
    requires { IsCert (cert_data cert.now) }
    ensures { IfOk result (λ bytes. bytes.items ≡ cert_text (cert_data cert.now)) }
{
    let mut out = Vec::new(alloc);
    push_head(&mut out, cert)?;
    push_settings(&mut out, &cert.choice)?;
    push_node(&mut out, &cert.tree)?;
    out.extend_from_slice(b"end\n")?;
    Ok(out)
}

/// Adds the lines before the settings.
fn push_head(out: &mut Vec<u8>, cert: &Cert) -> Result<(), NoMemory>
    ensures { OnOk result (out.new.items ≡ out.old.items ++ text_of (head_lines (head_of cert.now))) }
{
    push_opening(out, &cert.study)?;
    push_word(out, b"ending ", ending_word(cert.ending))?;
    push_count(out, b"gap ", cert.gap)?;
    push_count(out, b"budget ", u64::from(cert.budget))?;
    push_count(out, b"boxes ", u64::from(cert.boxes))?;
    push_labelled_amount(out, b"bound ", cert.bound)?;
    push_labelled_amount(out, b"cost ", cert.cost)?;
    Ok(())
}

/// Adds the lines before that of the ending.
fn push_opening(out: &mut Vec<u8>, study: &Option<StudyHead>) -> Result<(), NoMemory>
    ensures { OnOk result (out.new.items ≡ out.old.items ++ text_of (opening study.now)) }
{
    push_format(out, study)?;
    if study.is_some() {
        push_study_words(out, study)?;
    }
    Ok(())
}

/// Adds the first line.
pub fn push_format(out: &mut Vec<u8>, study: &Option<StudyHead>) -> Result<(), NoMemory>
    ensures added { OnOk result (out.new.items ≡ out.old.items ++ ended (first_line study.now)) }
    ensures capacity { vec_capacity out.old ≤ vec_capacity out.new }
    ensures full { OnErr result (vec_capacity out.old < vec_len out.old + length (ended (first_line study.now))) }
{
    match study {
        None => push_word(out, b"coord-certificate ", b"1"),
        Some(_) => push_word(out, b"coord-certificate ", b"2"),
    }
}

/// Adds the line of the study, an empty one where there is none.
pub fn push_study_words(out: &mut Vec<u8>, study: &Option<StudyHead>) -> Result<(), NoMemory>
    ensures added { OnOk result (out.new.items ≡ out.old.items ++ ended (study_words study.now)) }
    ensures capacity { vec_capacity out.old ≤ vec_capacity out.new }
    ensures full { OnErr result (vec_capacity out.old < vec_len out.old + length (ended (study_words study.now))) }
{
    match study {
        None => push_word(out, b"", b""),
        Some(study) => push_study(out, *study),
    }
}

/// Adds the line of the study.
fn push_study(out: &mut Vec<u8>, study: StudyHead) -> Result<(), NoMemory>
    ensures added { OnOk result (out.new.items ≡ out.old.items ++ ended (study_line study)) }
    ensures capacity { vec_capacity out.old ≤ vec_capacity out.new }
    ensures full { OnErr result (vec_capacity out.old < vec_len out.old + length (ended (study_line study))) }
{
    out.extend_from_slice(b"study ")?;
    push_number(out, u64::from(study.format))?;
    out.extend_from_slice(b" ")?;
    push_number(out, u64::from(study.relays))?;
    out.extend_from_slice(b" ")?;
    push_number(out, u64::from(study.rows))?;
    out.extend_from_slice(b"\n")?;
    Ok(())
}

/// Adds a line with a label and a word.
pub fn push_word(out: &mut Vec<u8>, label: &[u8], word: &[u8]) -> Result<(), NoMemory>
    ensures added { OnOk result (out.new.items ≡ out.old.items ++ ended (label.now ++ word.now)) }
    ensures capacity { vec_capacity out.old ≤ vec_capacity out.new }
    ensures full { OnErr result (vec_capacity out.old < vec_len out.old + length (ended (label.now ++ word.now))) }
{
    out.extend_from_slice(label)?;
    out.extend_from_slice(word)?;
    out.extend_from_slice(b"\n")?;
    Ok(())
}

/// Adds a line with a label and a number.
pub fn push_count(out: &mut Vec<u8>, label: &[u8], n: u64) -> Result<(), NoMemory>
    ensures added { OnOk result (out.new.items ≡ out.old.items ++ ended (label.now ++ decimal n)) }
    ensures capacity { vec_capacity out.old ≤ vec_capacity out.new }
    ensures full { OnErr result (vec_capacity out.old < vec_len out.old + length (ended (label.now ++ decimal n))) }
{
    out.extend_from_slice(label)?;
    push_number(out, n)?;
    out.extend_from_slice(b"\n")?;
    Ok(())
}

/// Adds a line with a label and a number or `none`.
pub fn push_labelled_amount(out: &mut Vec<u8>, label: &[u8], n: Option<u64>) -> Result<(), NoMemory>
    ensures added { OnOk result (out.new.items ≡ out.old.items ++ ended (label.now ++ amount n)) }
    ensures capacity { vec_capacity out.old ≤ vec_capacity out.new }
    ensures full { OnErr result (vec_capacity out.old < vec_len out.old + length (ended (label.now ++ amount n))) }
{
    out.extend_from_slice(label)?;
    push_amount(out, n)?;
    out.extend_from_slice(b"\n")?;
    Ok(())
}

/// Adds the line of the settings.
pub fn push_settings(out: &mut Vec<u8>, choice: &Option<Choice>) -> Result<(), NoMemory>
    requires { IfSome (option_map choice_data choice.now) AreSettings }
    ensures added { OnOk result (out.new.items ≡ out.old.items ++ ended (settings_line (option_map choice_data choice.now))) }
    ensures capacity { vec_capacity out.old ≤ vec_capacity out.new }
    ensures full { OnErr result (vec_capacity out.old < vec_len out.old + length (ended (settings_line (option_map choice_data choice.now)))) }
{
    match choice {
        None => push_word(out, b"settings ", b"none"),
        Some(choice) => {
            out.extend_from_slice(b"settings")?;
            push_steps(out, &choice.pickup, &choice.dial)?;
            out.extend_from_slice(b"\n")?;
            Ok(())
        }
    }
}

/// Adds the words of the settings.
fn push_steps(out: &mut Vec<u8>, pickup: &[u16], dial: &[u16]) -> Result<(), NoMemory>
    requires { length pickup.now ≡ length dial.now }
    ensures added { OnOk result (out.new.items ≡ out.old.items ++ step_words pickup.now dial.now) }
    ensures capacity { vec_capacity out.old ≤ vec_capacity out.new }
    ensures full { OnErr result (vec_capacity out.old < vec_len out.old + length (step_words pickup.now dial.now)) }
{
    for i in 0..pickup.len() {
        push_pair(out, u64::from(pickup[i]), u64::from(dial[i]))?;
    }
    Ok(())
}

/// Adds a word of two numbers after a space.
fn push_pair(out: &mut Vec<u8>, first: u64, second: u64) -> Result<(), NoMemory>
    ensures added { OnOk result (out.new.items ≡ out.old.items ++ 32 ∷ pair_word first second) }
    ensures capacity { vec_capacity out.old ≤ vec_capacity out.new }
    ensures full { OnErr result (vec_capacity out.old < vec_len out.old + length (32 ∷ pair_word first second)) }
{
    out.extend_from_slice(b" ")?;
    push_number(out, first)?;
    out.extend_from_slice(b":")?;
    push_number(out, second)
}

/// Adds the words of weights.
fn push_weights(out: &mut Vec<u8>, weights: &[Weight]) -> Result<(), NoMemory>
    ensures added { OnOk result (out.new.items ≡ out.old.items ++ weight_words weights.now) }
    ensures capacity { vec_capacity out.old ≤ vec_capacity out.new }
    ensures full { OnErr result (vec_capacity out.old < vec_len out.old + length (weight_words weights.now)) }
{
    for weight in weights {
        push_pair(out, u64::from(weight.row), u64::from(weight.weight))?;
    }
    Ok(())
}

/// Adds the line of a leaf with a bound.
fn push_weighing(out: &mut Vec<u8>, label: &[u8], weights: &Weights) -> Result<(), NoMemory>
    ensures added { OnOk result (out.new.items ≡ out.old.items ++ ended (label.now ++ (decimal weights.now.lambda ++ weight_words weights.now.rows.items))) }
    ensures capacity { vec_capacity out.old ≤ vec_capacity out.new }
    ensures full { OnErr result (vec_capacity out.old < vec_len out.old + length (ended (label.now ++ (decimal weights.now.lambda ++ weight_words weights.now.rows.items)))) }
{
    out.extend_from_slice(label)?;
    push_number(out, u64::from(weights.lambda))?;
    push_weights(out, &weights.rows)?;
    out.extend_from_slice(b"\n")?;
    Ok(())
}

/// Adds the line of a split.
fn push_split(out: &mut Vec<u8>, relay: u16, at: u16) -> Result<(), NoMemory>
    ensures added { OnOk result (out.new.items ≡ out.old.items ++ ended (codes "S " ++ (decimal relay ++ 32 ∷ decimal at))) }
    ensures capacity { vec_capacity out.old ≤ vec_capacity out.new }
    ensures full { OnErr result (vec_capacity out.old < vec_len out.old + length (ended (codes "S " ++ (decimal relay ++ 32 ∷ decimal at)))) }
{
    out.extend_from_slice(b"S ")?;
    push_number(out, u64::from(relay))?;
    out.extend_from_slice(b" ")?;
    push_number(out, u64::from(at))?;
    out.extend_from_slice(b"\n")?;
    Ok(())
}

/// Adds the line of a leaf that is void.
fn push_void(out: &mut Vec<u8>, weights: &[Weight]) -> Result<(), NoMemory>
    ensures added { OnOk result (out.new.items ≡ out.old.items ++ ended (codes "V" ++ weight_words weights.now)) }
    ensures capacity { vec_capacity out.old ≤ vec_capacity out.new }
    ensures full { OnErr result (vec_capacity out.old < vec_len out.old + length (ended (codes "V" ++ weight_words weights.now))) }
{
    out.extend_from_slice(b"V")?;
    push_weights(out, weights)?;
    out.extend_from_slice(b"\n")?;
    Ok(())
}

/// Adds the line of a node, without those below it.
pub fn push_line(out: &mut Vec<u8>, node: &Node) -> Result<(), NoMemory>
    ensures added { OnOk result (out.new.items ≡ out.old.items ++ ended (node_line (root (shape node.now)))) }
    ensures capacity { vec_capacity out.old ≤ vec_capacity out.new }
    ensures full { OnErr result (vec_capacity out.old < vec_len out.old + length (ended (node_line (root (shape node.now))))) }
{
    match node {
        Node::Split { relay, at, .. } => push_split(out, *relay, *at),
        Node::Empty => push_word(out, b"E", b""),
        Node::Void(weights) => push_void(out, weights),
        Node::Bound(weights) => push_weighing(out, b"B ", weights),
        Node::Hair { row } => push_count(out, b"H ", u64::from(*row)),
        Node::OpenLeaf(weights) => push_weighing(out, b"O ", weights),
    }
}

/// Adds the lines of a node and of those below it.
fn push_node(out: &mut Vec<u8>, node: &Node) -> Result<(), NoMemory>
    ensures { OnOk result (out.new.items ≡ out.old.items ++ text_of (map node_line (nodes_of (shape node.now)))) }
{
    push_line(out, node)?;
    if let Node::Split { low, high, .. } = node {
        push_node(out, low)?;
        push_node(out, high)?;
    }
    Ok(())
}
