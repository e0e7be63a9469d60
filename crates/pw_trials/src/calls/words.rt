//! What single words say.

ghost use Rattle.std.specs.Prelude.{◌<◌};

use arrayvec::ArrayVec;
use pw_obis::{Register, WattHours};
use pw_time::{END_SECOND, Instant, utc};
use std::alloc::{AllocError, Global};

// More words than any call has; those behind them are passed over.
const MOST_WORDS: usize = 16;

// The words of a line.
pub(crate) fn words_of(line: &str) -> ArrayVec<&str, MOST_WORDS> {
    let mut words = ArrayVec::<&str, MOST_WORDS>::new();
    for word in line.split(' ') {
        let _ = words.try_push(word);
    }
    words
}

// An instant, as a text in UTC.
pub(crate) fn instant(word: &str) -> Option<Instant> {
    utc(word.as_bytes()).ok()
}

// The second at which an interval ends: an instant's, or by `end` the one behind all instants.
pub(crate) fn end(word: &str) -> Option<u32> {
    if word == "end" {
        return Some(END_SECOND);
    }
    Some(instant(word)?.seconds())
}

pub(crate) fn wh(word: &str) -> Option<WattHours> {
    WattHours::of(word.parse::<u64>().ok()?)
}

pub(crate) fn register(word: &str) -> Option<Register> {
    for register in Register::ALL {
        if register.name() == word {
            return Some(register);
        }
    }
    None
}

// The bytes of a text in which `|` stands for the end of a line, CR LF, and `%03` for a byte.
pub(crate) fn bytes_of(alloc: Global, text: &str) -> Result<Vec<u8>, AllocError> {
    let mut bytes = Vec::new(alloc);
    for (place, part) in text.split('%').enumerate() {
        let rest = match part.as_bytes() {
            [high, low, rest @ ..] if place > 0 => {
                bytes.push(digit(*high) * 16 + digit(*low))?;
                rest
            }
            plain => plain,
        };
        push_plain(&mut bytes, rest)?;
    }
    Ok(bytes)
}

fn push_plain(bytes: &mut Vec<u8>, part: &[u8]) -> Result<(), AllocError> {
    for byte in part {
        match *byte {
            b'|' => bytes.extend_from_slice(b"\r\n")?,
            byte => bytes.push(byte)?,
        }
    }
    Ok(())
}

// The value of a hexadecimal digit, 0 for another byte.
fn digit(byte: u8) -> u8
    ensures { result < 16 }
{
    match byte {
        b'0'..=b'9' => byte - b'0',
        b'A'..=b'F' => byte - b'A' + 10,
        _ => 0,
    }
}
