//! What a code stands for.

ghost use Rattle.std.specs.Prelude.{◌≡◌, ℕ, ◌≤◌, ◌↔◌, Option, Some, None, IfSome, IfNone, IsTrue};
ghost use Rattle.pw_obis.specs.References.{AbsentOr, AbsentOrUpTo, Refers, Energy, IsRegisterOf, OfTelegram, OfReadout, IsIdentifier, IsStamp, IsTime, IsDate, IsCodeOfMeaning};

use crate::reference::{Code, Register};

/// What a set can tell of whose a frame is and when it was taken: the identifier and the stamp of a telegram, the time and
/// the date of a readout.
#[derive(Clone, Copy, Debug, PartialEq, Eq)]
pub enum Meaning {
    Identifier,
    Stamp,
    Time,
    Date,
}

impl Meaning {
    /// Whether a code stands for it.
    pub fn is_meant_by(self, code: &Code) -> bool
        ensures { IsTrue result ↔ IsCodeOfMeaning self code.now }
    {
        match self {
            Meaning::Identifier => is_identifier(code),
            Meaning::Stamp => is_stamp(code),
            Meaning::Time => is_time(code),
            Meaning::Date => is_date(code),
        }
    }
}

// Whether a group is absent or the wanted one.
fn is_absent_or(wanted: u8, group: Option<u8>) -> bool
    ensures { IsTrue result ↔ AbsentOr wanted group }
{
    match group {
        None => true,
        Some(value) => value == wanted,
    }
}

// Whether a group is absent or at most so much.
fn is_absent_or_up_to(most: u8, group: Option<u8>) -> bool
    ensures { IsTrue result ↔ AbsentOrUpTo most group }
{
    match group {
        None => true,
        Some(value) => value <= most,
    }
}

// Whether a code has these groups, and no historical F.
fn refers(code: &Code, c: u8, d: u8, e: u8) -> bool
    ensures { IsTrue result ↔ Refers code.now c d e }
{
    code.c == c && code.d == d && code.e == Some(e) && is_absent_or(255, code.f)
}

/// The register of active energy that a code is one of, in telegrams and readouts alike
/// (IEC 62056-6-1): `1.8.E` is import, `2.8.E` export; A is absent or 1, B absent, 0 or 1, and F
/// absent or 255.
pub fn register(code: &Code) -> Option<Register>
    ensures { IsRegisterOf code.now result }
{
    if !is_absent_or(1, code.a) || !is_absent_or_up_to(1, code.b) {
        return None;
    }
    if refers(code, 1, 8, 0) {
        Some(Register::I0)
    } else if refers(code, 1, 8, 1) {
        Some(Register::I1)
    } else if refers(code, 1, 8, 2) {
        Some(Register::I2)
    } else if refers(code, 2, 8, 0) {
        Some(Register::E0)
    } else if refers(code, 2, 8, 1) {
        Some(Register::E1)
    } else if refers(code, 2, 8, 2) {
        Some(Register::E2)
    } else {
        None
    }
}

// Whether a code begins with `0-0:`, as those of a telegram itself do.
fn is_of_telegram(code: &Code, c: u8, d: u8, e: u8) -> bool
    ensures { IsTrue result ↔ OfTelegram code.now c d e }
{
    code.a == Some(0) && code.b == Some(0) && refers(code, c, d, e)
}

// Whether A and B of a code are those of a readout's clock.
fn is_of_readout(code: &Code, c: u8, d: u8, e: u8) -> bool
    ensures { IsTrue result ↔ OfReadout code.now c d e }
{
    is_absent_or_up_to(1, code.a) && is_absent_or_up_to(1, code.b) && refers(code, c, d, e)
}

/// Whether a code is the meter identifier of a telegram, `0-0:96.1.1`
/// (DSMR P1 Companion Standard 5.0.2). In a readout it means nothing.
pub fn is_identifier(code: &Code) -> bool
    ensures { IsTrue result ↔ IsIdentifier code.now }
{
    is_of_telegram(code, 96, 1, 1)
}

/// Whether a code is the stamp of a telegram, `0-0:1.0.0`
/// (DSMR P1 Companion Standard 5.0.2). In a readout it means nothing.
pub fn is_stamp(code: &Code) -> bool
    ensures { IsTrue result ↔ IsStamp code.now }
{
    is_of_telegram(code, 1, 0, 0)
}

/// Whether a code is the time of a readout, `0.9.1` (IEC 62056-6-1). In a telegram it means nothing.
pub fn is_time(code: &Code) -> bool
    ensures { IsTrue result ↔ IsTime code.now }
{
    is_of_readout(code, 0, 9, 1)
}

/// Whether a code is the date of a readout, `0.9.2` (IEC 62056-6-1). In a telegram it means nothing.
pub fn is_date(code: &Code) -> bool
    ensures { IsTrue result ↔ IsDate code.now }
{
    is_of_readout(code, 0, 9, 2)
}
