//! What stands behind the `!` that ends a block: the check that is stated there.

ghost use Rattle.std.specs.Prelude.{◌≡◌, ℕ, ◌+◌, ◌*◌, ◌<◌, ◌≤◌, length, IfSome, IfNone};
ghost use Rattle.pw_frame.specs.Frame.{IsHexadecimalDigit, StatedCrc, StatedCheck};

use crate::bytes::{CR, ETX, LF, byte_at};

// The value of a hexadecimal digit in either letter case.
fn hex_digit(byte: u8) -> Option<u16>
    ensures some { IfSome result (λ digit. IsHexadecimalDigit byte digit) }
    ensures none { IfNone result ((digit : ℕ) → IsHexadecimalDigit byte digit → ⊥) }
{
    match byte {
        b'0'..=b'9' => Some((byte - b'0') as u16),
        b'A'..=b'F' => Some((byte - b'A') as u16 + 10),
        b'a'..=b'f' => Some((byte - b'a') as u16 + 10),
        _ => None,
    }
}

/// The CRC16 that a telegram states behind the `!` at `end`.
pub fn stated_crc(rest: &[u8], end: usize) -> Option<u16>
    requires { end < length rest.now }
    ensures some { IfSome result (λ stated. StatedCrc rest.now end stated) }
    ensures within { IfSome result (λ _. end + 7 ≤ length rest.now) }
    ensures none { IfNone result ((stated : ℕ) → StatedCrc rest.now end stated → ⊥) }
{
    let a = hex_digit(byte_at(rest, end + 1))?;
    let b = hex_digit(byte_at(rest, end + 2))?;
    let c = hex_digit(byte_at(rest, end + 3))?;
    let d = hex_digit(byte_at(rest, end + 4))?;
    if byte_at(rest, end + 5) == CR && byte_at(rest, end + 6) == LF {
        Some(4096 * a + 256 * b + 16 * c + d)
    } else {
        None
    }
}

/// The check character that a readout states behind the `!` at `end`.
pub fn stated_check(rest: &[u8], end: usize) -> Option<u8>
    requires { end < length rest.now }
    ensures some { IfSome result (λ stated. StatedCheck rest.now end stated) }
    ensures within { IfSome result (λ _. end + 5 ≤ length rest.now) }
    ensures none { IfNone result ((stated : ℕ) → StatedCheck rest.now end stated → ⊥) }
{
    if rest.len() - end < 5 {
        return None;
    }
    if rest[end + 1] == CR && rest[end + 2] == LF && rest[end + 3] == ETX {
        Some(rest[end + 4])
    } else {
        None
    }
}
