//! The calls on local days and months.

use pw_time::{END_SECOND, FIRST_SECOND, Instant, Zone, day_begin, month_span, write_utc};
use std::io::Write;

pub(crate) fn answer<O: Write>(zone: &Zone, words: &[&str], out: &mut O) -> Option<()> {
    match words {
        ["day_begin", year, month, day] => {
            let (year, month) = (year.parse::<u16>().ok()?, month.parse::<u8>().ok()?);
            tell_begin(day_begin(year, month, day.parse::<u8>().ok()?, zone), out);
        }
        ["month_span", year, month] => {
            let (year, month) = (year.parse::<u16>().ok()?, month.parse::<u8>().ok()?);
            tell_span(month_span(year, month, zone), out);
        }
        ["days_of_hours", hours] => {
            let days = days_of_hours(hours.parse::<u16>().ok()?, zone);
            let _ = writeln!(out, "{days}");
        }
        ["months_in_turn"] => tell_months_in_turn(zone, out),
        _ => return None,
    }
    Some(())
}

fn tell_begin<O: Write>(begin: Option<Instant>, out: &mut O) {
    match begin {
        Some(begin) => tell_second(begin.seconds(), out),
        None => {
            let _ = out.write_all(b"no such day\n");
        }
    }
}

fn tell_span<O: Write>(span: Option<(Instant, u32)>, out: &mut O) {
    match span {
        Some((begin, end)) => {
            let _ = out.write_all(&write_utc(begin));
            let _ = out.write_all(b" up to ");
            tell_second(end, out);
        }
        None => {
            let _ = out.write_all(b"no such month\n");
        }
    }
}

// A second, as a text in UTC, or its number where it is no instant.
fn tell_second<O: Write>(second: u32, out: &mut O) {
    match Instant::of(second) {
        Some(instant) => {
            let _ = out.write_all(&write_utc(instant));
            let _ = out.write_all(b"\n");
        }
        None => {
            let _ = writeln!(out, "{second}");
        }
    }
}

// Days that last so many hours, counted one behind another.
#[derive(Drop)]
struct Days {
    hours: u16,
    found: u32,
    // Where the latest one begins.
    begin: u32,
}

impl Days {
    // Goes on to where the next day begins.
    fn go_on(&mut self, next: u32) {
        if next.saturating_sub(self.begin) == u32::from(self.hours) * 3600 {
            self.found = self.found.saturating_add(1);
        }
        self.begin = next;
    }

    fn go_over_month(&mut self, year: u16, month: u8, zone: &Zone) {
        for day in 1_u8..32 {
            if let Some(begin) = day_begin(year, month, day, zone) {
                self.go_on(begin.seconds());
            }
        }
    }
}

// How many days of the years 2000 to 2099 last so many hours, each until the next one begins.
fn days_of_hours(hours: u16, zone: &Zone) -> u32 {
    let mut days = Days {
        hours,
        found: 0,
        begin: FIRST_SECOND,
    };
    for year in 2000_u16..2100 {
        for month in 1_u8..13 {
            days.go_over_month(year, month, zone);
        }
    }
    days.go_on(END_SECOND);
    days.found
}

// How many months of these years begin where the one before ends, and where the last of them ends.
fn tell_months_in_turn<O: Write>(zone: &Zone, out: &mut O) {
    let (mut months, mut at) = (0_u32, FIRST_SECOND);
    for year in 2000_u16..2100 {
        for month in 1_u8..13 {
            let Some((begin, end)) = month_span(year, month, zone) else {
                continue;
            };
            if begin.seconds() == at {
                months = months.saturating_add(1);
                at = end;
            }
        }
    }
    let _ = writeln!(out, "{months} months up to {at}");
}
