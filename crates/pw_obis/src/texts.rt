//! Marks and digits of a text.

ghost use Rattle.std.specs.Prelude.{◌≡◌, ℕ, ◌∷◌, ◌<◌, ◌≤◌, ◌↔◌, List, length, slice_index, IfSome, IfNone, IsTrue};
ghost use Rattle.pw_obis.specs.declared.energy.TheConstants.{LARGEST_WATT_HOURS};
ghost use Rattle.std.specs.Str.Parse.{digits_value_after, AllDigits, IsNumeral};

use crate::energy::LARGEST_WATT_HOURS;

/// The first place of a byte, or the text's length.
pub fn find(text: &[u8], byte: u8) -> usize
    ensures within { result ≤ length text.now }
    ensures before { (k : ℕ) → k < result → slice_index text.now k ≡ byte → ⊥ }
    ensures found { result < length text.now → slice_index text.now result ≡ byte }
{
    for (i, b) in text.iter().enumerate() {
        if *b == byte {
            return i;
        }
    }
    text.len()
}

/// What stands behind a mark, where the text begins with it.
pub fn behind_mark(text: &[u8], mark: u8) -> Option<&[u8]>
    ensures some { IfSome result (λ rest. text.now ≡ mark ∷ rest.now) }
    ensures none { IfNone result ((rest : List ℕ) → text.now ≡ mark ∷ rest → ⊥) }
{
    match text {
        [first, rest @ ..] if *first == mark => Some(rest),
        _ => None,
    }
}

// Whether each byte is a digit.
fn are_digits(text: &[u8]) -> bool
    ensures { IsTrue result ↔ AllDigits 10 text.now }
{
    for b in text {
        if !b.is_ascii_digit() {
            return false;
        }
    }
    true
}

/// Whether a text is one or more digits.
pub fn is_numeral(text: &[u8]) -> bool
    ensures { IsTrue result ↔ IsNumeral 10 text.now }
{
    !text.is_empty() && are_digits(text)
}

/// What digits make of a number that they are put behind, up to [`LARGEST_WATT_HOURS`].
pub fn with_digits(number: u64, digits: &[u8]) -> Option<u64>
    requires start { number ≤ LARGEST_WATT_HOURS }
    requires digits { AllDigits 10 digits.now }
    ensures some { IfSome result (λ n. (n ≡ digits_value_after 10 number digits.now)
        × (n ≤ LARGEST_WATT_HOURS)) }
    ensures none { IfNone result (LARGEST_WATT_HOURS < digits_value_after 10 number digits.now) }
{
    let mut value = number;
    for b in digits {
        value = value * 10 + (*b - b'0') as u64;
        if value > LARGEST_WATT_HOURS {
            return None;
        }
    }
    Some(value)
}
