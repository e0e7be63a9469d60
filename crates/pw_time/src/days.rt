//! Local days and months as spans of instants.

ghost use Rattle.std.specs.Prelude.{◌≡◌, ◌*◌, ◌≤◌, ◌<◌, ◌⊎◌, ◌↔◌, ℕ, IsTrue, IsSome, IfSome};
ghost use Rattle.pw_time.specs.declared.instant.TheConstants.{FIRST_SECOND as first};
ghost use Rattle.pw_time.specs.Days.{BeginsAt, IsBound, IsLocalDate, IsLocalMonth, IsMonth, day_behind_month, day_number};
ghost use Rattle.pw_time.specs.Instants.{IsInstant};
ghost use Rattle.pw_time.specs.Summer.{civil_offset};
ghost use Rattle.pw_time.specs.Texts.{IsShortYear};

use crate::civil::CivilTime;
use crate::{END_SECOND, FIRST_SECOND, Instant, Zone};

/// The instant at which a day of local calendars begins, for the dates of the years 2000 to 2099.
///
/// It is where local clocks show midnight: a day has 23 hours where summer time begins in it, 25 where it ends, and 24
/// else. 2000-01-01 alone begins with the first instant, an hour later. (EU directive 2000/84/EC.)
pub fn day_begin(year: u16, month: u8, day: u8, zone: &Zone) -> Option<Instant>
    ensures there { IsSome result ↔ IsLocalDate year month day }
    ensures begins { IfSome result (BeginsAt (day_number year month day)) }
{
    let midnight = utc_midnight(year, month, day)?;
    Instant::of(begin_of(midnight, zone))
}

/// The first instant of a month of local calendars, and the first second behind its last, for 2000-01 to 2099-12.
///
/// 2000-01 begins with the first instant. 2099-12 ends with the last, 2099-12-31T23:59:59Z, an hour into local 2100-01,
/// which is no month.
pub fn month_span(year: u16, month: u8, zone: &Zone) -> Option<(Instant, u32)>
    ensures there { IsSome result ↔ IsLocalMonth year month }
    ensures month { IfSome result (λ span. IsMonth year month span.0 span.1) }
{
    let begin = day_begin(year, month, 1, zone)?;
    Some((begin, end_of_month(year, month, zone)))
}

// Where a month ends: the first second of the next one, or the one behind all instants.
fn end_of_month(year: u16, month: u8, zone: &Zone) -> u32
    requires { IsLocalMonth year month }
    ensures ends { BeginsAt (day_behind_month year month) result }
    ensures bound { IsBound result }
{
    if month < 12 {
        begin_of_month(year, month + 1, zone)
    } else {
        begin_of_month(year + 1, 1, zone)
    }
}

// Where a month begins; January 2100 behind all instants.
fn begin_of_month(year: u16, month: u8, zone: &Zone) -> u32
    requires { IsLocalMonth year month ⊎ ((year ≡ 2100) × (month ≡ 1)) }
    ensures begins { BeginsAt (day_number year month 1) result }
    ensures bound { IsBound result }
{
    match day_begin(year, month, 1, zone) {
        Some(begin) => begin.seconds(),
        None => END_SECOND,
    }
}

// Where the day begins that clocks in UTC begin at an instant.
fn begin_of(midnight: u32, zone: &Zone) -> u32
    requires { IsInstant midnight }
    ensures begins { (day : ℕ) → midnight ≡ day * 86_400 → BeginsAt day result }
    ensures instant { IsInstant result }
{
    from_first(midnight - ahead_at(midnight - 3600, zone))
}

// A second, or the first that is an instant where it lies before that.
fn from_first(second: u32) -> u32
    ensures { ((result ≡ second) × (first ≤ second)) ⊎ ((result ≡ first) × (second < first)) }
{
    if second < FIRST_SECOND {
        FIRST_SECOND
    } else {
        second
    }
}

// How many seconds local clocks are ahead of UTC at a second.
fn ahead_at(second: u32, zone: &Zone) -> u32
    ensures value { result ≡ civil_offset second }
    ensures bound { result ≤ 7200 }
{
    if zone.is_summer(second) { 7200 } else { 3600 }
}

// The second at which clocks in UTC show midnight of a date, if it is one of the years 2000 to 2099.
fn utc_midnight(year: u16, month: u8, day: u8) -> Option<u32>
    ensures there { IsSome result ↔ IsLocalDate year month day }
    ensures value { IfSome result (λ second. second ≡ day_number year month day * 86_400) }
    ensures bound { IfSome result IsInstant }
{
    if !is_short(year, month, day) {
        return None;
    }
    let civil = CivilTime {
        year,
        month,
        day,
        hour: 0,
        minute: 0,
        second: 0,
    };
    civil.second_of_century().ok()
}

// Whether a year is one of 2000 to 2099, and month and day have at most two digits.
fn is_short(year: u16, month: u8, day: u8) -> bool
    ensures { IsTrue result ↔ (IsShortYear year × (month < 100) × (day < 100)) }
{
    2000 <= year && year < 2100 && month < 100 && day < 100
}
