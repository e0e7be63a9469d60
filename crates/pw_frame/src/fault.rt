//! How faults are reported.

ghost use Rattle.std.specs.Prelude.{◌≡◌, ◌<◌, ◌≤◌, ◌++◌, length};
ghost use Rattle.arrayvec.specs.ArrayString.{array_string_len};
ghost use Rattle.pw_frame.specs.Faults.{checks_text, frame_fault_details, frame_fault_told, part_line, place_text};

use crate::frame::FrameFault;
use crate::hexadecimal::{four_digits, two_digits};
use pw_line::{Line, ROOM, push_number, refused};
use std::fmt;

impl FrameFault {
    /// The number under which the fault is reported, from 10 to 15.
    pub fn number(self) -> u8
        ensures { result ≡ (frame_fault_told self).0 }
    {
        self.told().0
    }

    /// The name under which the fault is reported: that of the variant.
    pub fn name(self) -> &'static str
        ensures { result.now ≡ (frame_fault_told self).1 }
    {
        self.told().1
    }

    // The number and the name.
    fn told(self) -> (u8, &'static str)
        ensures number { result.0 ≡ (frame_fault_told self).0 }
        ensures name { result.1.now ≡ (frame_fault_told self).1 }
    {
        match self {
            FrameFault::Header { .. } => (10, "Header"),
            FrameFault::NoEnd { .. } => (11, "NoEnd"),
            FrameFault::Crc { .. } => (12, "Crc"),
            FrameFault::Trailer { .. } => (13, "Trailer"),
            FrameFault::BlockCheck { .. } => (14, "BlockCheck"),
            FrameFault::HighBit { .. } => (15, "HighBit"),
        }
    }

    /// What is told behind the name: `at` with the place, and for `Crc` and `BlockCheck` then `stated` and `computed`
    /// with the two checks in capital hexadecimal digits.
    pub fn details(self) -> Line
        ensures text { result.bytes ≡ frame_fault_details self }
        ensures fits { array_string_len result ≤ 49 }
    {
        match self {
            FrameFault::Crc {
                at,
                stated,
                computed,
            } => place_and_checks(at, &four_digits(stated), &four_digits(computed)),
            FrameFault::BlockCheck {
                at,
                stated,
                computed,
            } => place_and_checks(at, &two_digits(stated), &two_digits(computed)),
            FrameFault::Header { at }
            | FrameFault::NoEnd { at }
            | FrameFault::Trailer { at }
            | FrameFault::HighBit { at } => place(at),
        }
    }
}

// A place as it is told: `at` and its number.
fn place(at: usize) -> Line
    ensures text { result.bytes ≡ place_text at }
    ensures fits { array_string_len result ≤ 23 }
{
    let mut line = Line::new();
    line.push_str("at ");
    push_number(&mut line, at as u64);
    line
}

// A place, and behind it the check that stands in the frame and the one that its bytes have.
fn place_and_checks(at: usize, stated: &Line, computed: &Line) -> Line
    requires stated { array_string_len stated.now ≤ 4 }
    requires computed { array_string_len computed.now ≤ 4 }
    ensures text { result.bytes ≡ place_text at ++ checks_text stated.now.bytes computed.now.bytes }
    ensures fits { array_string_len result ≤ 49 }
{
    let mut line = place(at);
    line.push_str(" stated ");
    line.push_str(stated.as_str());
    line.push_str(" computed ");
    line.push_str(computed.as_str());
    line
}

/// The fault line of a part of a body, without its end: `refused`, the number, the name, and `part` with its number; where
/// no frame stands there, then what is told of it.
pub fn part_refused(number: u8, name: &str, part: u64, missing: Option<FrameFault>) -> Line
    requires { length name.now ≤ 32 }
    ensures text { result.bytes ≡ part_line number name.now part missing }
    ensures fits { array_string_len result < ROOM }
{
    let mut line = refused(number, name);
    line.push_str(" part ");
    push_number(&mut line, part);
    if let Some(fault) = missing {
        line.push_str(" ");
        line.push_str(fault.details().as_str());
    }
    line
}

/// What is told behind the name.
impl fmt::Display for FrameFault {
    ghost use Rattle.std.specs.Prelude.{Some};
    ghost use Rattle.pw_frame.specs.Faults.{frame_fault_details};

    ghost output = { λ fault. Some (frame_fault_details fault) };

    fn fmt<W: fmt::Write>(&self, f: &mut fmt::Formatter<W>) -> fmt::Result {
        f.write_str(self.details().as_str())
    }
}
