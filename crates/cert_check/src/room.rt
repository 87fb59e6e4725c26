//! Room for one line.
ghost use Rattle.std.specs.Prelude.{◌≡◌, ◌≢◌, ℕ, List, [], ◌∷◌, ◌++◌, ◌↔◌, false, IfOk, IsTrue};
ghost use Rattle.cert_check.specs.OpenLines.{OpenLine};
ghost use Rattle.cert_check.specs.OpenLines.{IsLeft};

use coord_model::NoMemory;
use coord_model::limits::MOST_LINE_BYTES;
use std::alloc::Global;
use std::marker::Model;

/// A line whose end has not come. It is bad if it is too long, or has a byte that no line has.
#[derive(Drop)]
pub(crate) struct LineRoom {
    bytes: Vec<u8>,
    len: usize,
    bad: bool,
}

impl Model for LineRoom {
    ghost use Rattle.std.specs.Prelude.{◌≡◌, ◌≤◌, length, take};
    ghost use Rattle.cert_check.specs.OpenLines.{OpenLine};

    ghost Value = { OpenLine };

    ghost view = { λ a. record { text = take a.len a.bytes.items; bad = a.bad } };

    ghost invariant = { λ a. (length a.bytes.items ≡ 2048) × (a.len ≤ 2048) };
}

impl LineRoom {
    /// Room for a line, with nothing in it.
    pub(crate) fn new(alloc: Global) -> Result<LineRoom, NoMemory>
        ensures { IfOk result (λ room. IsLeft room []) }
    {
        Ok(LineRoom {
            bytes: vec![in alloc; 0; MOST_LINE_BYTES]?,
            len: 0,
            bad: false,
        })
    }

    /// Adds a byte of the line.
    pub(crate) fn push(&mut self, byte: u8)
        requires { byte ≢ 10 }
        ensures { (left : List ℕ) → IsLeft self.old left → IsLeft self.new (left ++ byte ∷ []) }
    {
        if self.len == MOST_LINE_BYTES || !(b' '..=b'~').contains(&byte) {
            self.bad = true;
            return;
        }
        self.bytes[self.len] = byte;
        self.len += 1;
    }

    /// Begins a line.
    pub(crate) fn clear(&mut self)
        ensures { IsLeft self.new [] }
    {
        self.len = 0;
        self.bad = false;
    }

    /// Whether the line is too long, or has a byte that no line has.
    pub(crate) fn is_bad(&self) -> bool
        ensures { result ≡ self.now.bad }
    {
        self.bad
    }

    /// Whether no byte of the line has come.
    pub(crate) fn is_empty(&self) -> bool
        ensures { (left : List ℕ) → IsLeft self.now left → IsTrue result ↔ (left ≡ []) }
    {
        self.len == 0 && !self.bad
    }

    /// The bytes of the line.
    pub(crate) fn text(&self) -> &[u8]
        ensures { result.now ≡ self.now.text }
    {
        &self.bytes[..self.len]
    }
}
