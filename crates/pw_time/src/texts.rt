//! The forms of stamps, of readouts' dates and times and of texts in UTC.

ghost use Rattle.std.specs.Prelude.{ℕ, ◌≡◌, ◌≢◌, ◌⊎◌, MatchOption};
ghost use Rattle.pw_time.specs.declared.civil.CivilTime.{CivilTime};
ghost use Rattle.pw_time.specs.Texts.{AreReadoutTexts, IsStampText, IsUtcText, run_together, separated};
ghost use Rattle.pw_time.specs.inner.Texts.{AreTwoDigits};

use crate::civil::CivilTime;
use crate::digits;

// What the text of a stamp tells, and its last byte: the season mark.
pub(crate) fn of_stamp(text: &[u8]) -> Option<(CivilTime, u8)>
    ensures { MatchOption result ((c : CivilTime) (mark : ℕ) → ¬ (IsStampText text.now c mark))
        (λ told. IsStampText text.now told.0 told.1) }
{
    if text.len() != 13 {
        return None;
    }
    let (year, month, day) = digits::run_together(&text[..6])?;
    let (hour, minute, second) = digits::run_together(&text[6..12])?;
    let civil = CivilTime {
        year: 2000 + u16::from(year),
        month,
        day,
        hour,
        minute,
        second,
    };
    Some((civil, text[12]))
}

// What a text in UTC tells.
pub(crate) fn of_utc(text: &[u8]) -> Option<CivilTime>
    ensures { MatchOption result ((c : CivilTime) → ¬ (IsUtcText text.now c)) (IsUtcText text.now) }
{
    if text.len() != 20 || text[10] != b'T' || text[19] != b'Z' {
        return None;
    }
    let century = digits::two_digits(text[0], text[1])?;
    let (year, month, day) = digits::separated(b'-', &text[2..10])?;
    let (hour, minute, second) = digits::separated(b':', &text[11..19])?;
    Some(CivilTime {
        year: u16::from(century) * 100 + u16::from(year),
        month,
        day,
        hour,
        minute,
        second,
    })
}

// What the date and the time of a readout tell.
pub(crate) fn of_readout(date: &[u8], time: &[u8]) -> Option<CivilTime>
    ensures { MatchOption result ((c : CivilTime) → ¬ (AreReadoutTexts date.now time.now c))
        (AreReadoutTexts date.now time.now) }
{
    let (year, month, day) = run_together_or_separated(b'-', date)?;
    let (hour, minute, second) = run_together_or_separated(b':', time)?;
    Some(CivilTime {
        year: 2000 + u16::from(year),
        month,
        day,
        hour,
        minute,
        second,
    })
}

// Three numbers of two digits each, with a byte between them or with nothing.
fn run_together_or_separated(byte: u8, text: &[u8]) -> Option<(u8, u8, u8)>
    ensures { MatchOption result ((a b c : ℕ) → AreTwoDigits a b c
        → (text.now ≢ run_together a b c) × (text.now ≢ separated byte a b c))
        (λ n. AreTwoDigits n.0 n.1 n.2
        × ((text.now ≡ run_together n.0 n.1 n.2) ⊎ (text.now ≡ separated byte n.0 n.1 n.2))) }
{
    match digits::run_together(text) {
        Some(numbers) => Some(numbers),
        None => digits::separated(byte, text),
    }
}
