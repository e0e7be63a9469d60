//! The words of an office file: names, clocks, registers, hours.

ghost use Rattle.std.specs.Prelude.{◌≡◌, ◌&&◌, MatchOption, None, Some, length, map, nat_le, string_bytes};
ghost use Rattle.std.specs.List.{list_all};
ghost use Rattle.pw_tariff.specs.Words.{clock_named, is_between, is_capital, is_name, is_name_character, is_new, register_named, whole_hour};

use crate::limits::HOUR;
use pw_obis::Register;
use pw_time::{Clock, Instant, utc};

// From the lowest of two bytes to the highest.
fn is_between(low: u8, high: u8, byte: u8) -> bool
    ensures { result ≡ is_between low high byte }
{
    low <= byte && byte <= high
}

// A to Z.
pub(crate) fn is_capital(byte: u8) -> bool
    ensures { result ≡ is_capital byte }
{
    is_between(b'A', b'Z', byte)
}

// A to Z, a to z, 0 to 9, '-' or '_'.
fn is_name_character(byte: u8) -> bool
    ensures { result ≡ is_name_character byte }
{
    is_capital(byte)
        || is_between(b'a', b'z', byte)
        || is_between(b'0', b'9', byte)
        || byte == b'-'
        || byte == b'_'
}

// One character or more, at most so many.
pub(crate) fn is_name(most: usize, text: &[u8]) -> bool
    ensures { result ≡ is_name most text.now }
{
    has_length(most, text) && are_name_characters(text)
}

// One byte or more, at most so many.
fn has_length(most: usize, text: &[u8]) -> bool
    ensures { result ≡ (nat_le 1 (length text.now) && nat_le (length text.now) most) }
{
    1 <= text.len() && text.len() <= most
}

// Nothing but characters of names.
fn are_name_characters(text: &[u8]) -> bool
    ensures { result ≡ list_all is_name_character text.now }
{
    text.iter().all(|byte| is_name_character(*byte))
}

// None of the earlier names.
pub(crate) fn is_new(name: &[u8], earlier: &[String]) -> bool
    ensures { result ≡ is_new name.now (map string_bytes earlier.now) }
{
    for other in earlier {
        if other.as_bytes() == name {
            return false;
        }
    }
    true
}

// What a meter's clock tells, by its word in the file.
pub(crate) fn clock_named(text: &[u8]) -> Option<Clock>
    ensures { result ≡ clock_named text.now }
{
    if text == b"marked".as_slice() {
        Some(Clock::Marked)
    } else if text == b"winter".as_slice() {
        Some(Clock::Winter)
    } else if text == b"local".as_slice() {
        Some(Clock::Local)
    } else {
        None
    }
}

// The register of a name, as the file lists those that count.
pub(crate) fn register_named(text: &[u8]) -> Option<Register>
    ensures { result ≡ register_named text.now }
{
    Register::ALL
        .iter()
        .copied()
        .find(|register| text == register.name().as_bytes())
}

// The whole hour of UTC that a text tells.
pub(crate) fn whole_hour(text: &[u8]) -> Option<Instant>
    ensures { MatchOption result (whole_hour text.now ≡ None)
        (λ instant. whole_hour text.now ≡ Some instant) }
{
    let Ok(instant) = utc(text) else {
        return None;
    };
    if instant.seconds() % HOUR != 0 {
        return None;
    }
    Some(instant)
}
