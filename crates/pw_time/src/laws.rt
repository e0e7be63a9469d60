//! Laws: each contract is a theorem. A body is empty, or makes the calls that its theorem is about.

ghost use Rattle.std.specs.Prelude.{◌≡◌, ◌+◌, Ok, codes};
ghost use Rattle.pw_time.specs.declared.instant.TheConstants.{END_SECOND, FIRST_SECOND, LAST_SECOND};
ghost use Rattle.pw_time.specs.DayLaws.{AreFirstAndLast, DayBeginsAtMidnight, DayBeginsOnce, DayHas23To25Hours};
ghost use Rattle.pw_time.specs.Outcomes.{IsReadoutOutcome, IsStampOutcome, IsUtcOutcome};
ghost use Rattle.pw_time.specs.Laws.{ExactlyOne, InstantHasOneText, IsTextOf, LastSundayIsLast, LocalHourIsConstantWithinAnHour, ReadoutHasOneOutcome, StampHasOneOutcome, SummerIsOfSomeYear, UtcHasOneOutcome};

use crate::{Clock, Instant, StampFault, Zone, readout_instant, stamp, utc, write_utc};

/// A stamp has one answer: its instant, or one refusal.
pub fn stamp_has_one_outcome(text: &[u8])
    ensures one { ExactlyOne (IsStampOutcome text.now) }
    ensures never_two { StampHasOneOutcome }
{
    let _ = stamp(text);
}

/// A text in UTC has one answer.
pub fn utc_has_one_outcome(text: &[u8])
    ensures one { ExactlyOne (IsUtcOutcome text.now) }
    ensures never_two { UtcHasOneOutcome }
{
    let _ = utc(text);
}

/// The date and the time of a readout have one answer by a clock.
pub fn readout_has_one_outcome(date: &[u8], time: &[u8], clock: Clock)
    ensures one { ExactlyOne (IsReadoutOutcome date.now time.now clock) }
    ensures never_two { ReadoutHasOneOutcome }
{
    let _ = readout_instant(date, time, clock, &Zone::central());
}

/// An instant has one text in UTC.
pub fn instant_has_one_text(instant: Instant)
    ensures one { ExactlyOne (IsTextOf instant) }
    ensures never_two { InstantHasOneText }
{
    let _ = write_utc(instant);
}

/// What is written for an instant is read back as that instant.
pub fn written_is_read_back(instant: Instant) -> Result<Instant, StampFault>
    ensures { result ≡ Ok instant }
{
    utc(&write_utc(instant))
}

/// The first and the last second that are instants are those of the years 2000 to 2099, and the end lies behind the last.
pub fn instants_are_of_the_century()
    ensures first { IsTextOf FIRST_SECOND (codes "2000-01-01T00:00:00Z") }
    ensures last { IsTextOf LAST_SECOND (codes "2099-12-31T23:59:59Z") }
    ensures end { END_SECOND ≡ LAST_SECOND + 1 }
{}

/// The last Sunday of a month of 31 days is a Sunday, and one of the days 25 to 31.
pub fn last_sunday_is_last()
    ensures { LastSundayIsLast }
{}

/// An instant lies in summer time exactly where it lies in that of some year from 1970 on.
pub fn summer_is_of_some_year()
    ensures { SummerIsOfSomeYear }
{}

/// Offset, local weekday and local hour don't change within an hour of UTC, since each change lies
/// at a whole hour.
pub fn local_hour_is_constant_within_an_hour()
    ensures { LocalHourIsConstantWithinAnHour }
{}

/// No local day begins at two seconds.
pub fn local_day_begins_once()
    ensures { DayBeginsOnce }
{}

/// The first local day begins with the first instant, and the day behind the last one behind the last instant.
pub fn local_days_are_of_the_century()
    ensures { AreFirstAndLast }
{}

/// Each other local day begins where local clocks show midnight.
pub fn local_day_begins_at_midnight()
    ensures { DayBeginsAtMidnight }
{}

/// So it lasts 24 hours, or 23 or 25 where clocks change in it.
pub fn local_day_has_23_to_25_hours()
    ensures { DayHas23To25Hours }
{}
