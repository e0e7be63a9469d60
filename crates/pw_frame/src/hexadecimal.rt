//! Checks as they are told: in capital hexadecimal digits.

ghost use Rattle.std.specs.Prelude.{◌≡◌, ◌+◌, ◌<◌, ◌≤◌, ◌++◌, ◌∷◌, []};
ghost use Rattle.arrayvec.specs.ArrayString.{array_string_len};
ghost use Rattle.pw_frame.specs.Hexadecimal.{digit_character, four_digits as digits_of_word, two_digits as digits_of_byte};

use pw_line::{Line, ROOM};

/// A byte as two capital hexadecimal digits.
pub fn two_digits(byte: u8) -> Line
    ensures text { result.bytes ≡ digits_of_byte byte }
    ensures fits { array_string_len result ≤ 2 }
{
    let mut digits = Line::new();
    push_digit(&mut digits, byte / 16);
    push_digit(&mut digits, byte % 16);
    digits
}

/// A word as four capital hexadecimal digits.
pub fn four_digits(word: u16) -> Line
    ensures text { result.bytes ≡ digits_of_word word }
    ensures fits { array_string_len result ≤ 4 }
{
    let mut digits = two_digits((word / 256) as u8);
    digits.push_str(two_digits((word % 256) as u8).as_str());
    digits
}

// Puts the digit of a value behind those that stand there.
fn push_digit(line: &mut Line, value: u8)
    requires digit { value < 16 }
    requires room { array_string_len line.old < ROOM }
    ensures text { line.new.bytes ≡ line.old.bytes ++ digit_character value ∷ [] }
    ensures fits { array_string_len line.new ≡ array_string_len line.old + 1 }
{
    line.push(digit(value) as char);
}

// The character of a digit's value: from ten on a capital letter.
fn digit(value: u8) -> u8
    requires { value < 16 }
    ensures text { result ≡ digit_character value }
    ensures ascii { result < 128 }
{
    if value < 10 {
        b'0' + value
    } else {
        b'A' + (value - 10)
    }
}
