//! The references of top-ups.

ghost use Rattle.std.specs.Prelude.{◌≡◌, IfSome, IfNone, IsTrue, ◌↔◌};
ghost use Rattle.std.specs.List.{AllPass};
ghost use Rattle.pw_model.specs.References.{IsReference, is_reference_byte};

use std::marker::Model;

/// The longest reference, in bytes.
pub const LONGEST_REFERENCE: usize = 32;

/// The reference of a top-up: 1 to 32 characters of A to Z, a to z, 0 to 9, `-` and `.`.
///
/// References are ordered as their bytes are: `P1` before `P1-` before `P10`.
#[derive(Clone, Copy, Debug, PartialEq, Eq, PartialOrd, Ord, Hash)]
pub struct Reference {
    // the text, and 0 behind it
    text: [u8; 32],
    size: u8,
}

impl Model for Reference {
    ghost use Rattle.std.specs.Prelude.{◌≡◌, ℕ, List, length, take};
    ghost use Rattle.pw_model.specs.References.{IsReference, padded};

    ghost Value = { List ℕ };

    ghost view = { λ r. take r.size r.text };

    ghost invariant = { λ r. IsReference (take r.size r.text) × (r.size ≡ length (take r.size r.text)) × (r.text ≡ padded (take r.size r.text)) };

    ghost inverse = { λ text. record { text = padded text; size = length text } };

    ghost use Rattle.pw_model.specs.lemmas.Inverse.{inverse-padded};

    ghost inverse_ok = { inverse-padded };
}

impl Reference {
    /// The reference of a text, if it is one: 1 to 32 characters of A to Z, a to z, 0 to 9, `-` and `.`.
    pub fn of(text: &[u8]) -> Option<Reference>
        ensures some { IfSome result (λ reference. (reference ≡ text.now) × IsReference text.now) }
        ensures none { IfNone result (¬ (IsReference text.now)) }
    {
        if text.is_empty() || text.len() > LONGEST_REFERENCE || !are_reference_bytes(text) {
            return None;
        }
        let mut padded = [0; 32];
        padded[..text.len()].copy_from_slice(text);
        Some(Reference {
            text: padded,
            size: text.len() as u8,
        })
    }

    /// The bytes of the text.
    pub fn bytes(&self) -> &[u8]
        ensures bytes { result.now ≡ self.now }
        ensures text { IsReference result.now }
    {
        &self.text[..usize::from(self.size)]
    }
}

// Whether a reference may have each of these bytes.
fn are_reference_bytes(text: &[u8]) -> bool
    ensures { IsTrue result ↔ AllPass is_reference_byte text.now }
{
    text.iter().all(|byte| is_reference_letter(*byte))
}

// Whether a byte is a letter, a digit, `-` or `.`.
fn is_reference_letter(byte: u8) -> bool
    ensures { result ≡ is_reference_byte byte }
{
    matches!(byte, b'A'..=b'Z' | b'a'..=b'z' | b'0'..=b'9' | b'-' | b'.')
}
