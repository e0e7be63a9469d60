//! Clocks of meters, and the clock that offices go by.

ghost use Rattle.std.specs.Prelude.{◌≡◌, ◌↔◌, ◌<◌, ◌≤◌, ℕ, length, slice_index, IsTrue, true};
ghost use Rattle.pw_time.specs.Summer.{central_changes, is_summer, local_hour, local_weekday};

use crate::Instant;
use crate::changes::CHANGES;
use crate::civil::date_of_day;
use std::marker::Model;

/// What a meter's clock tells.
#[derive(Clone, Copy, Debug, PartialEq, Eq)]
pub enum Clock {
    /// Local time with a season mark, as in a telegram's stamp.
    Marked,
    /// UTC+1 all year.
    Winter,
    /// Central European time without a mark.
    Local,
}

/// A weekday and an hour of local time.
#[derive(Clone, Copy, Debug, PartialEq, Eq)]
pub struct WeekHour {
    /// 0 is Monday, 6 Sunday.
    pub day: u8,
    /// 0 to 23.
    pub hour: u8,
}

/// Central European time, by its changes from 2000 to 2099: UTC+2 from the last Sunday of March,
/// 01:00 UTC, up to the last Sunday of October, 01:00 UTC, and UTC+1 else. (EU directive 2000/84/EC;
/// the rule `CET-1CEST,M3.5.0,M10.5.0/3`.)
#[derive(Drop)]
pub struct Zone {
    changes: [u32; 200],
}

impl Model for Zone {
    ghost use Rattle.std.specs.Prelude.{◌≡◌, ℕ, List};
    ghost use Rattle.pw_time.specs.Summer.{central_changes};

    ghost Value = { List ℕ };

    ghost view = { λ z. z.changes };

    ghost invariant = { λ z. z.changes ≡ central_changes };
}

impl Zone {
    /// The zone. Nothing is read, and no memory is taken: the changes stand in an array.
    pub fn central() -> Zone
        ensures { result ≡ central_changes }
    {
        Zone { changes: CHANGES }
    }

    // How many changes lie at or before a second.
    fn passed(&self, second: u32) -> usize
        ensures before { (k : ℕ) → k < result → slice_index central_changes k ≤ second }
        ensures behind { (k : ℕ) → result ≤ k → k < length central_changes
            → second < slice_index central_changes k }
        ensures bound { result ≤ length central_changes }
    {
        self.changes.partition_point(|change| *change <= second)
    }

    // Whether local clocks show summer time.
    pub(crate) fn is_summer(&self, second: u32) -> bool
        ensures { result ≡ is_summer second }
    {
        self.passed(second) % 2 == 1
    }
}

/// The weekday (0 is Monday) and the hour (0 to 23) that local clocks show at an instant.
pub fn week_hour(instant: Instant, zone: &Zone) -> WeekHour
    ensures day { result.day ≡ local_weekday instant }
    ensures hour { result.hour ≡ local_hour instant }
    ensures range { (result.day < 7) × (result.hour < 24) }
{
    let second = instant.seconds();
    let ahead = if zone.is_summer(second) { 7200 } else { 3600 };
    let local = second + ahead;
    WeekHour {
        day: date_of_day(local / 86_400).weekday().index(),
        hour: (local % 86_400 / 3600) as u8,
    }
}
