//! The code that an address states.

ghost use Rattle.std.specs.Prelude.{ℕ, ◌<◌, List, Option, IfSome, IfNone};
ghost use Rattle.std.specs.Char.{digit_value};
ghost use Rattle.pw_obis.specs.Address.{Storage, AddressEnding, IsCodeOf};
ghost use Rattle.pw_obis.specs.inner.Groups.{FirstGroup, ReadsBefore, ReadsBehind, Unreadable};

use crate::reference::Code;
use crate::texts::behind_mark;

// The group that a text begins with, and what stands behind it: one to three digits, of a value at most 255.
fn first_group(text: &[u8]) -> Option<(u8, &[u8])>
    ensures some { IfSome result (λ read. FirstGroup text.now read.0 read.1.now) }
    ensures none { IfNone result ((value : ℕ) (rest : List ℕ) → FirstGroup text.now value rest
        → ⊥) }
{
    let mut value: u32 = 0;
    let mut end = 0;
    while end < text.len() && text[end].is_ascii_digit() {
        if end == 3 {
            return None;
        }
        value = value * 10 + (text[end] - b'0') as u32;
        end += 1;
    }
    if end == 0 {
        return None;
    }
    if value > 255 {
        return None;
    }
    Some((value as u8, &text[end..]))
}

// A group with its mark behind it, where the text begins so, and what stands behind.
fn group_before(text: &[u8], mark: u8) -> (Option<u8>, &[u8])
    requires { digit_value mark < 10 → ⊥ }
    ensures { ReadsBefore mark text.now result.0 result.1.now }
{
    let Some((value, behind)) = first_group(text) else {
        return (None, text);
    };
    match behind_mark(behind, mark) {
        Some(rest) => (Some(value), rest),
        None => (None, text),
    }
}

// A group with its mark in front of it, where the text begins with the mark, and what stands behind;
// `None` where no group stands behind the mark.
fn group_behind(text: &[u8], mark: u8) -> Option<(Option<u8>, &[u8])>
    ensures some { IfSome result (λ read. ReadsBehind mark text.now read.0 read.1.now) }
    ensures none { IfNone result (Unreadable mark text.now) }
{
    let Some(behind) = behind_mark(text, mark) else {
        return Some((None, text));
    };
    let (value, rest) = first_group(behind)?;
    Some((Some(value), rest))
}

// The last group, `*F` or `&F`, of which the text may be.
fn storage(text: &[u8]) -> Option<Option<u8>>
    ensures some { IfSome result (λ f. Storage text.now f) }
    ensures none { IfNone result ((f : Option ℕ) → Storage text.now f → ⊥) }
{
    if text.is_empty() {
        return Some(None);
    }
    if text[0] != b'*' && text[0] != b'&' {
        return None;
    }
    let (value, rest) = first_group(&text[1..])?;
    if rest.is_empty() {
        Some(Some(value))
    } else {
        None
    }
}

// The groups D, E and F that an address ends with.
fn ending(text: &[u8]) -> Option<(u8, Option<u8>, Option<u8>)>
    ensures some { IfSome result (λ groups. AddressEnding text.now groups.0 groups.1 groups.2) }
    ensures none { IfNone result ((d : ℕ) (e f : Option ℕ) → AddressEnding text.now d e f → ⊥) }
{
    let (d, behind) = first_group(text)?;
    let (e, rest) = group_behind(behind, b'.')?;
    let f = storage(rest)?;
    Some((d, e, f))
}

/// The OBIS code of an address: an optional `A-`, an optional `B:`, then `C.D`, an optional `.E`, and
/// an optional `*F` or `&F`, each group one to three digits of value at most 255 (IEC 62056-6-1).
///
/// Any other address, as `F.F`, `C.1.0` and the empty one, has no code.
pub fn code(address: &[u8]) -> Option<Code>
    ensures { IsCodeOf address.now result }
{
    let (a, behind_a) = group_before(address, b'-');
    let (b, behind_b) = group_before(behind_a, b':');
    let (c, behind_c) = group_before(behind_b, b'.');
    let c = c?;
    let (d, e, f) = ending(behind_c)?;
    Some(Code { a, b, c, d, e, f })
}
