//! Names of buses, lines, relays and faults.
ghost use Rattle.std.specs.Prelude.{◌≡◌, ℕ, ◌+◌, ◌<◌, ◌≤◌, ◌↔◌, List, length, take, IsTrue, nat_eq, if◌then◌else◌};
ghost use Rattle.std.specs.List.{list_all};
ghost use Rattle.std.specs.Cmp.{partial_equiv_from_equiv};
ghost use Rattle.std.specs.Cmp.Lexicographic.{pointwise, nat_list_eq_equiv};
ghost use Rattle.std.specs.Cmp.Rules.{hashing};
ghost use Rattle.std.specs.Hash as fed;
ghost use Rattle.std.proofs.Common.{rules};
ghost use Rattle.coord_model.specs.Name.{is_name, is_name_byte, IsName};

use crate::limits::LONGEST_NAME;
use std::fmt;
use std::hash::{Hash, Hasher};
use std::marker::Model;

/// A name of 1 to 16 bytes, each an ASCII letter, a digit, `_`, `-` or `.`. It keeps its bytes in place.
#[derive(Clone, Copy)]
pub struct Name {
    len: usize,
    bytes: [u8; 16],
}

impl Model for Name {
    ghost use Rattle.std.specs.Prelude.{◌≡◌, ◌≤◌, ℕ, List, length, take};
    ghost use Rattle.std.proofs.Common.{arith, length-take-le};
    ghost use Rattle.coord_model.specs.Name.{IsStored, padded};

    ghost Value = { List ℕ };

    ghost view = { λ n. take n.len n.bytes };

    ghost invariant = { λ n. IsStored n.len n.bytes };

    ghost inverse = { λ bytes. record { len = length bytes; bytes = padded bytes } };

    ghost inverse_ok = { λ n h i. record {
      len = length-take-le n.len n.bytes (omega (arith, h.within, h.sixteen)) i;
      bytes = h.filled i;
    } };
}

impl Name {
    /// The name with these bytes. `None`: they are not 1 to 16 bytes that a name may have.
    pub fn new(bytes: &[u8]) -> Option<Name>
        ensures { result ≡ (if is_name bytes.now then Some bytes.now else None) }
    {
        if !is_name(bytes) {
            return None;
        }
        let mut kept = [0; LONGEST_NAME];
        kept[..bytes.len()].copy_from_slice(bytes);
        Some(Name {
            len: bytes.len(),
            bytes: kept,
        })
    }

    /// The bytes of the name.
    pub fn bytes(&self) -> &[u8]
        ensures value { result.now ≡ self.now }
        ensures name { IsName self.now }
    {
        &self.bytes[..self.len]
    }
}

/// Whether the bytes are those of a name.
fn is_name(bytes: &[u8]) -> bool
    ensures { result ≡ is_name bytes.now }
{
    1 <= bytes.len() && bytes.len() <= LONGEST_NAME && are_allowed(bytes)
}

/// Whether a name may have each of the bytes.
fn are_allowed(bytes: &[u8]) -> bool
    ensures { result ≡ list_all is_name_byte bytes.now }
{
    bytes.iter().all(is_allowed)
}

/// Whether a name may have the byte.
fn is_allowed(byte: &u8) -> bool
    ensures { result ≡ is_name_byte byte.now }
{
    matches!(byte, b'a'..=b'z' | b'A'..=b'Z' | b'0'..=b'9' | b'_' | b'-' | b'.')
}

impl PartialEq for Name {
    ghost eq = { pointwise nat_eq };

    ghost laws = { partial_equiv_from_equiv nat_list_eq_equiv };

    fn eq(&self, other: &Name) -> bool {
        self.bytes() == other.bytes()
    }
}

impl Eq for Name {
    ghost laws = { nat_list_eq_equiv };
}

impl Hash for Name {
    ghost hash_input = { fed.slice fed.u8 };

    ghost respects_eq = { Prim.search (hashing, rules) };

    fn hash<H: Hasher>(&self, state: &mut H) {
        self.bytes().hash(state);
    }
}
