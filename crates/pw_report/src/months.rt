//! The months of local calendars, by their texts, and their days.

ghost use Rattle.std.specs.Prelude.{◌≡◌, ◌≢◌, ◌↔◌, ℕ, ◌+◌, ◌/◌, ◌%◌, ◌<◌, ◌≤◌, IfNone, IfOk, IfSome, IsSome, MatchOption, length};
ghost use Rattle.pw_time.specs.declared.instant.TheConstants.{END_SECOND};
ghost use Rattle.pw_time.specs.Days.{BeginsAt, IsLocalDate, day_number};
ghost use Rattle.pw_time.specs.Instants.{IsInstant};
ghost use Rattle.pw_time.specs.Texts.{two_digits};
ghost use Rattle.pw_report.specs.Months.{AreDays, IsMonthText, IsSpan, IsThere, date_text as text_of_date, month_text as text_of_month};
ghost use Rattle.pw_report.specs.declared.months.Month.{Month as AMonth};
ghost use Rattle.pw_report.specs.inner.Digits.{IsDigit, of_century};

use pw_time::{Instant, Zone, day_begin, month_span};
use std::alloc::{AllocError, Global};

/// A month of local calendars, which show Central European time. There are those from 2000-01 to 2099-12.
#[derive(Clone, Copy, Debug, PartialEq, Eq)]
pub struct Month {
    pub year: u16,
    /// 1 is January.
    pub month: u8,
}

/// The month of a text `YYYY-MM`, from 2000-01 to 2099-12. No other text has one. (ISO 8601.)
pub fn month_of(text: &[u8]) -> Option<Month>
    ensures some { IfSome result (λ month. IsMonthText text.now month) }
    ensures none { IfNone result ((month : AMonth) → IsMonthText text.now month → ⊥) }
{
    let (short, month) = numbers_in(text)?;
    if month < 1 || 12 < month {
        return None;
    }
    let year = 2000 + u16::from(short);
    Some(Month { year, month })
}

// The two numbers of a text `20YY-MM`.
fn numbers_in(text: &[u8]) -> Option<(u8, u8)>
    ensures { MatchOption result ((a b : ℕ) → a < 100 → b < 100 → text.now ≢ of_century a b)
        (λ n. (n.0 < 100) × (n.1 < 100) × (text.now ≡ of_century n.0 n.1)) }
{
    let [two, zero, tens, ones, dash, ten, one] = *text else {
        return None;
    };
    if two != b'2' || zero != b'0' || dash != b'-' {
        return None;
    }
    Some((number_of(tens, ones)?, number_of(ten, one)?))
}

// The number of two digits.
fn number_of(tens: u8, ones: u8) -> Option<u8>
    ensures { MatchOption result (¬ (IsDigit tens × IsDigit ones))
        (λ n. (n < 100) × (tens ≡ 48 + n / 10) × (ones ≡ 48 + n % 10)) }
{
    match (tens, ones) {
        (b'0'..=b'9', b'0'..=b'9') => Some((tens - b'0') * 10 + (ones - b'0')),
        _ => None,
    }
}

// The two digits of a number below 100.
fn digits_of(number: u8) -> [u8; 2]
    requires { number < 100 }
    ensures { result ≡ two_digits number }
{
    [b'0' + number / 10, b'0' + number % 10]
}

// The text of a month, `YYYY-MM`.
pub(crate) fn month_text(month: Month) -> [u8; 7]
    requires { IsThere month }
    ensures { result ≡ text_of_month month }
{
    let century = digits_of((month.year / 100) as u8);
    let year = digits_of((month.year % 100) as u8);
    let number = digits_of(month.month);
    [
        century[0], century[1], year[0], year[1], b'-', number[0], number[1],
    ]
}

// The text of a date of a month, `YYYY-MM-DD`.
pub(crate) fn date_text(month: Month, day: u8) -> [u8; 10]
    requires there { IsThere month }
    requires day { day < 100 }
    ensures { result ≡ text_of_date month day }
{
    let text = month_text(month);
    let date = digits_of(day);
    [
        text[0], text[1], text[2], text[3], text[4], text[5], text[6], b'-', date[0], date[1],
    ]
}

// The first instant of a month, and the first second behind its last.
pub(crate) fn span_of(month: Month, zone: &Zone) -> (Instant, u32)
    requires { IsThere month }
    ensures { IsSpan month result.0 result.1 }
{
    match month_span(month.year, month.month, zone) {
        Some((begin, end)) => {
            let _begun = begin.seconds();
            (begin, end)
        }
        None => unreachable!(),
    }
}

// The last instant of a month.
pub(crate) fn last_before(from: Instant, until: u32) -> Instant
    requires later { from < until }
    requires ended { until ≤ END_SECOND }
    ensures { result + 1 ≡ until }
{
    let _begun = from.seconds();
    Instant::of(until - 1).unwrap()
}

// Where each day of a month begins.
pub(crate) fn begins_of(
    alloc: Global,
    month: Month,
    zone: &Zone,
) -> Result<Vec<Instant>, AllocError>
    requires { IsThere month }
    ensures days { IfOk result (λ begins. (from until : ℕ) → IsSpan month from until
        → AreDays month begins.items until) }
    ensures few { IfOk result (λ begins. length begins.items ≤ 31) }
{
    let mut begins = Vec::new(alloc);
    for day in 0..31_u8 {
        match begin_of(month, day + 1, zone) {
            Some(begin) => begins.push(begin)?,
            None => return Ok(begins),
        }
    }
    Ok(begins)
}

// Where a day of a month begins, if the month has it.
fn begin_of(month: Month, day: u8, zone: &Zone) -> Option<Instant>
    ensures there { IsSome result ↔ IsLocalDate month.year month.month day }
    ensures begins { IfSome result (BeginsAt (day_number month.year month.month day)) }
    ensures instant { IfSome result IsInstant }
{
    match day_begin(month.year, month.month, day, zone) {
        Some(begin) => {
            let _begun = begin.seconds();
            Some(begin)
        }
        None => None,
    }
}
