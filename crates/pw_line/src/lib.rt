//! Lines of text that take no memory, and the line that tells a refusal.
#![tactic(auto)]

ghost use Rattle.std.specs.Prelude.{◌≡◌, ◌+◌, ◌<◌, ◌≤◌, ◌++◌, codes, decimal, length};
ghost use Rattle.arrayvec.specs.ArrayString.{array_string_len};
ghost use Rattle.pw_line.specs.Refused.{memory_line, refused_line};

use arrayvec::ArrayString;
use itoa::Buffer;

/// The room of a line, in bytes.
pub const ROOM: usize = 192;

/// A line of text on the stack.
pub type Line = ArrayString<ROOM>;

/// A line of this text.
pub fn line_of(text: &str) -> Line
    requires { length text.now ≤ 100 }
    ensures text { result.bytes ≡ text.now }
    ensures fits { array_string_len result ≤ 100 }
{
    let mut line = Line::new();
    line.push_str(text);
    line
}

/// The line of a refusal without its end: `refused`, the number and the name.
pub fn refused(number: u8, name: &str) -> Line
    requires { length name.now ≤ 32 }
    ensures text { result.bytes ≡ refused_line number name.now }
    ensures fits { array_string_len result ≤ 61 }
{
    let mut line = Line::new();
    line.push_str("refused ");
    push_number(&mut line, number as u64);
    line.push_str(" ");
    line.push_str(name);
    line
}

/// The line of a call for which memory is refused, without its end.
pub fn memory_refused() -> Line
    ensures text { result.bytes ≡ memory_line }
    ensures fits { array_string_len result ≤ 61 }
{
    refused(62, "Memory")
}

/// Appends a number in decimal digits.
pub fn push_number(line: &mut Line, number: u64)
    requires { array_string_len line.old + 20 ≤ ROOM }
    ensures text { line.new.bytes ≡ line.old.bytes ++ decimal number }
    ensures fits { array_string_len line.new ≤ array_string_len line.old + 20 }
{
    line.push_str(Buffer::new().format(number));
}

/// The line with its end.
pub fn ended(line: Line) -> Line
    requires { array_string_len line < ROOM }
    ensures { result.bytes ≡ line.bytes ++ codes "\n" }
{
    let mut whole = line;
    whole.push_str("\n");
    whole
}
