//! Bytes of a body by their places, past its end too.

ghost use Rattle.std.specs.Prelude.{◌≡◌, ◌≤◌, ◌↔◌, slice_index, IsTrue};

pub const CR: u8 = b'\r';

pub const LF: u8 = b'\n';

pub const STX: u8 = 2;

pub const ETX: u8 = 3;

/// The byte at a place, and 0 past the end.
pub fn byte_at(bytes: &[u8], i: usize) -> u8
    ensures { result ≡ slice_index bytes.now i }
{
    if i < bytes.len() { bytes[i] } else { 0 }
}

/// Whether a byte is a character of a header or a line.
pub fn is_character(byte: u8) -> bool
    ensures { IsTrue result ↔ (32 ≤ byte) × (byte ≤ 126) }
{
    32 <= byte && byte <= 126
}
