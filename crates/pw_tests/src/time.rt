//! The changes of local clocks, by another reading of the same rule. (Instants worked out by hand stand in `cases/`.)

ghost use Rattle.std.specs.Prelude.{◌≤◌, IfSome};

use jiff::Timestamp;
use jiff::tz::TimeZone;
use pw_time::*;
use std::test::Fail;

// By how many hours local clocks are ahead of UTC by a rule, one or two.
fn hours_ahead(rule: &TimeZone, second: u32) -> Option<u8>
    ensures { IfSome result (λ hours. hours ≤ 2) }
{
    let offset = rule.to_offset(Timestamp::from_second(i64::from(second)).ok()?);
    Some(if offset.seconds() == 7_200 { 2 } else { 1 })
}

fn local_hour(zone: &Zone, second: u32) -> Option<u8> {
    let instant = Instant::of(second)?;
    Some(week_hour(instant, zone).hour)
}

// Whether a second whose hour is 0 or 1 in UTC is in summer by a rule, where the zone tells the same local hour.
fn is_summer(rule: &TimeZone, zone: &Zone, second: u32, hour: u8) -> Option<bool>
    requires { hour ≤ 1 }
{
    let ahead = hours_ahead(rule, second)?;
    if local_hour(zone, second)? == hour + ahead {
        Some(ahead == 2)
    } else {
        None
    }
}

// How many are in summer: of 01:00 UTC of each day, when the local hour may change, and a second before it.
fn summer_seconds(rule: &TimeZone) -> Option<u32> {
    let zone = Zone::central();
    let mut summer = 0u32;
    for day in 10_957u32..47_482 {
        for (second, hour) in [(day * 86_400 + 3_599, 0u8), (day * 86_400 + 3_600, 1)] {
            if is_summer(rule, &zone, second, hour)? {
                summer = summer.saturating_add(1);
            }
        }
    }
    Some(summer)
}

/// The local hours of the zone are those of jiff's reading of the same rule.
// bears on: pw_time laws.rt last_sunday_is_last ensures
// bears on: pw_time laws.rt local_hour_is_constant_within_an_hour ensures
// bears on: pw_time laws.rt summer_is_of_some_year ensures
// bears on: pw_time zone.rt Zone::central ensures
// bears on: pw_time zone.rt week_hour hour
#[test]
fn changes_are_those_of_the_rule(rt: HostRuntime) -> Result<(), Fail> {
    let rule = TimeZone::posix("CET-1CEST,M3.5.0,M10.5.0/3")?;
    assert!(rt; summer_seconds(&rule) == Some(42_798));
    Ok(())
}
