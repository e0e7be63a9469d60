//! The ends of texts, values, data sets and lines in a block.

ghost use Rattle.std.specs.Prelude.{◌≡◌, ℕ, suc, ◌+◌, ◌<◌, ◌≤◌, ◌↔◌, List, length, slice_index, IfSome, IfNone, IsTrue};
ghost use Rattle.pw_obis.specs.Line.{SetText, IsText, TextAt, ValueAt, ValuesAt, SetAt, SetsAt};

/// The byte at a place, and 0 past the end.
pub fn byte_at(bytes: &[u8], i: usize) -> u8
    ensures { result ≡ slice_index bytes.now i }
{
    if i < bytes.len() { bytes[i] } else { 0 }
}

// Whether a byte may stand in an address or a value: it is printed, and no parenthesis.
fn is_text(byte: u8) -> bool
    ensures { IsTrue result ↔ IsText byte }
{
    32 <= byte && byte <= 126 && byte != b'(' && byte != b')'
}

// The end of the text that stands at `from`.
fn text_end(block: &[u8], from: usize) -> usize
    requires { from ≤ length block.now }
    ensures text { TextAt block.now from result }
    ensures within { result ≤ length block.now }
{
    let mut to = from;
    while to < block.len() && is_text(block[to]) {
        to += 1;
    }
    to
}

// The end of the value that stands at `from`.
fn value_end(block: &[u8], from: usize) -> Option<usize>
    requires { from ≤ length block.now }
    ensures some { IfSome result (λ to. ValueAt block.now from to) }
    ensures within { IfSome result (λ to. (from < to) × (to ≤ length block.now)) }
    ensures none { IfNone result ((to : ℕ) → ValueAt block.now from to → ⊥) }
{
    if byte_at(block, from) != b'(' {
        return None;
    }
    let close = text_end(block, from + 1);
    if byte_at(block, close) == b')' {
        Some(close + 1)
    } else {
        None
    }
}

// The end of the values that stand at `from`.
fn values_end(block: &[u8], from: usize) -> Option<usize>
    requires { from ≤ length block.now }
    ensures some { IfSome result (λ to. (others : ℕ) × ValuesAt block.now (suc others) from to) }
    ensures within { IfSome result (λ to. (from < to) × (to ≤ length block.now)) }
    ensures none { IfNone result ((others to : ℕ) → ValuesAt block.now (suc others) from to → ⊥) }
{
    let mut to = value_end(block, from)?;
    while byte_at(block, to) == b'(' {
        to = value_end(block, to)?;
    }
    Some(to)
}

/// Where the address of the set at `from` ends, and where the set does.
pub fn set_end(block: &[u8], from: usize) -> Option<(usize, usize)>
    requires { from ≤ length block.now }
    ensures some { IfSome result (λ ends. SetAt block.now from ends.0 ends.1) }
    ensures within { IfSome result (λ ends. (from ≤ ends.0) × (ends.0 < ends.1)
        × (ends.1 ≤ length block.now)) }
    ensures none { IfNone result ((mid to : ℕ) → SetAt block.now from mid to → ⊥) }
{
    let mid = text_end(block, from);
    let to = values_end(block, mid)?;
    Some((mid, to))
}

/// The end of the line that stands at `from`: the place of its CR LF.
pub fn line_end(block: &[u8], from: usize) -> Option<usize>
    requires { from ≤ length block.now }
    ensures some { IfSome result (λ end. (sets : List SetText) × SetsAt block.now from end sets) }
    ensures within { IfSome result (λ end. (from ≤ end) × (end + 2 ≤ length block.now)) }
    ensures none { IfNone result ((end : ℕ) (sets : List SetText) → SetsAt block.now from end sets
        → ⊥) }
{
    let mut at = from;
    while byte_at(block, at) != b'\r' {
        at = set_end(block, at)?.1;
    }
    if byte_at(block, at + 1) == b'\n' {
        Some(at)
    } else {
        None
    }
}
