//! Dates and times of day as clocks show them, and the instants at which they do.

ghost use Rattle.std.specs.Prelude.{ℕ, ◌≡◌, ◌≢◌, ◌+◌, ◌*◌, ◌<◌, ◌↔◌, pos, IsSome, IfSome, IfOk, IfErr, OnOk, Err};
ghost use Rattle.jiff_core.specs.Calendar.{IsEpochDay, days_from_civil};
ghost use Rattle.jiff_core.specs.Date.{epoch_day};
ghost use Rattle.pw_time.specs.Civil.{HasDate, HasTime, civil_second};
ghost use Rattle.pw_time.specs.inner.Civil.{IsCivilSecond};
ghost use Rattle.pw_time.specs.Outcomes.{Exists, IsMissing, IsCivilOutcome, always, central};
ghost use Rattle.pw_time.specs.Texts.{HasDigits, IsShortYear};
ghost use Rattle.pw_time.specs.Instants.{IsInstant};

use crate::{Instant, StampFault, Zone};
use jiff::civil::Date;
use jiff_core::civil::Date as PlainDate;

// A date and a time of day, as a clock shows them: each number is as it was read, in range or not.
#[derive(Clone, Copy)]
pub(crate) struct CivilTime {
    pub(crate) year: u16,
    pub(crate) month: u8,
    pub(crate) day: u8,
    pub(crate) hour: u8,
    pub(crate) minute: u8,
    pub(crate) second: u8,
}

impl CivilTime {
    // What a clock in UTC shows at an instant.
    pub(crate) fn at(instant: Instant) -> CivilTime
        ensures digits { HasDigits result }
        ensures there { Exists result }
        ensures value { civil_second result ≡ pos instant }
    {
        let second = instant.seconds();
        let date = date_of_day(second / 86_400);
        CivilTime {
            year: date.year as u16,
            month: date.month,
            day: date.day,
            hour: (second % 86_400 / 3600) as u8,
            minute: (second % 3600 / 60) as u8,
            second: (second % 60) as u8,
        }
    }

    // The day number of the date from 1970-01-01, if the calendar has it.
    fn day_number(&self) -> Option<i32>
        requires { HasDigits self.now }
        ensures there { IsSome result ↔ HasDate self.now }
        ensures value { IfSome result (λ n. n ≡ days_from_civil (pos self.now.year) self.now.month
            self.now.day) }
        ensures bound { IfSome result IsEpochDay }
    {
        let Ok(date) = Date::new(self.year as i16, self.month as i8, self.day as i8) else {
            return None;
        };
        Some(date.to_plain().to_unix_epoch_day())
    }

    // The seconds since midnight, if a day has the time.
    fn second_of_day(&self) -> Option<u32>
        ensures there { IsSome result ↔ HasTime self.now }
        ensures value { IfSome result (λ n. n ≡ self.now.hour * 3600 + self.now.minute * 60
            + self.now.second) }
        ensures bound { IfSome result (λ n. n < 86_400) }
    {
        if self.hour < 24 && self.minute < 60 && self.second < 60 {
            let minutes = u32::from(self.hour) * 60 + u32::from(self.minute);
            Some(minutes * 60 + u32::from(self.second))
        } else {
            None
        }
    }

    // How many seconds the clock has shown since it showed 1970-01-01T00:00:00.
    fn second_shown(&self) -> Result<i64, StampFault>
        requires { HasDigits self.now }
        ensures there { OnOk result (Exists self.now) }
        ensures value { IfOk result (λ n. n ≡ civil_second self.now) }
        ensures bound { IfOk result IsCivilSecond }
        ensures fault { IfErr result (IsMissing self.now) }
    {
        let Some(days) = self.day_number() else {
            return Err(StampFault::NoSuchDate);
        };
        let Some(seconds) = self.second_of_day() else {
            return Err(StampFault::NoSuchTime);
        };
        Ok(i64::from(days) * 86_400 + i64::from(seconds))
    }

    // The instant at which a clock that is always so many seconds ahead of UTC shows this.
    pub(crate) fn at_offset(&self, ahead: u32) -> Result<Instant, StampFault>
        requires { HasDigits self.now }
        ensures { IsCivilOutcome (always ahead) self.now result }
    {
        let shown = self.second_shown()?;
        instant_at(shown - i64::from(ahead))
    }

    // The second that a clock shows in the years 2000 to 2099.
    pub(crate) fn second_of_century(&self) -> Result<u32, StampFault>
        requires digits { HasDigits self.now }
        requires year { IsShortYear self.now.year }
        ensures there { OnOk result (Exists self.now) }
        ensures value { IfOk result (λ n. pos n ≡ civil_second self.now) }
        ensures bound { IfOk result IsInstant }
        ensures fault { IfErr result (IsMissing self.now) }
    {
        Ok(self.second_shown()? as u32)
    }

    // The instant at which local clocks show this, if there is just one.
    pub(crate) fn in_zone(&self, zone: &Zone) -> Result<Instant, StampFault>
        requires digits { HasDigits self.now }
        requires year { IsShortYear self.now.year }
        ensures { IsCivilOutcome central self.now result }
    {
        let shown = self.second_of_century()?;
        let (in_summer, in_winter) = (shown - 7200, shown - 3600);
        match (zone.is_summer(in_summer), zone.is_summer(in_winter)) {
            (true, true) => instant_at(i64::from(in_summer)),
            (false, false) => instant_at(i64::from(in_winter)),
            (false, true) => Err(StampFault::Gap),
            (true, false) => Err(StampFault::Fold),
        }
    }
}

// The instant of a second, if it is one.
fn instant_at(second: i64) -> Result<Instant, StampFault>
    ensures value { IfOk result (λ t. (pos t ≡ second) × IsInstant t) }
    ensures range { IfErr result (λ fault. (fault ≡ StampFault.Range)
        × ((t : ℕ) → IsInstant t → pos t ≢ second)) }
{
    let Ok(second) = u32::try_from(second) else {
        return Err(StampFault::Range);
    };
    Instant::of(second).ok_or(StampFault::Range)
}

// The date of a day number from 1970-01-01 on.
pub(crate) fn date_of_day(day: u32) -> PlainDate
    requires { day < 100_000 }
    ensures { epoch_day result ≡ pos day }
{
    PlainDate::from_unix_epoch_day(i64::from(day)).unwrap()
}
