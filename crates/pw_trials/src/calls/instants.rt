//! The calls on instants: what a stamp or a text in UTC means, an instant's text and its hour of the week.

use pw_time::{
    Clock, Instant, StampFault, Zone, readout_instant, stamp, utc, week_hour, write_utc,
};
use std::io::Write;

pub(crate) fn answer<O: Write>(zone: &Zone, words: &[&str], out: &mut O) -> Option<()> {
    match words {
        ["utc", text] => tell(utc(text.as_bytes()), out),
        ["stamp", text] => tell(stamp(text.as_bytes()), out),
        ["readout_instant", date, time, word] => {
            let answer = readout_instant(date.as_bytes(), time.as_bytes(), clock(word)?, zone);
            tell(answer, out);
        }
        ["instant", seconds] => {
            let is_one = Instant::of(seconds.parse::<u32>().ok()?).is_some();
            let _ = writeln!(out, "{is_one}");
        }
        ["week_hour", text] => tell_hour(utc(text.as_bytes()).ok()?, zone, out),
        ["days_read_back"] => tell_days_read_back(out),
        _ => return None,
    }
    Some(())
}

fn clock(word: &str) -> Option<Clock> {
    match word {
        "marked" => Some(Clock::Marked),
        "winter" => Some(Clock::Winter),
        "local" => Some(Clock::Local),
        _ => None,
    }
}

// Its seconds and its text, or why there is none.
fn tell<O: Write>(answer: Result<Instant, StampFault>, out: &mut O) {
    match answer {
        Ok(instant) => {
            let seconds = instant.seconds();
            let _ = write!(out, "{seconds} ");
            let _ = out.write_all(&write_utc(instant));
            let _ = out.write_all(b"\n");
        }
        Err(fault) => {
            let (number, name) = (fault.number(), fault.name());
            let _ = writeln!(out, "{number} {name}");
        }
    }
}

fn tell_hour<O: Write>(instant: Instant, zone: &Zone, out: &mut O) {
    let hour = week_hour(instant, zone);
    let (day, hour) = (hour.day, hour.hour);
    let _ = writeln!(out, "{instant} is day {day} hour {hour}");
}

// Of how many days from 2000 to 2099 noon is written and read back.
fn tell_days_read_back<O: Write>(out: &mut O) {
    let mut days = 0_u32;
    for day in 10_957_u32..47_482 {
        if is_read_back(day * 86_400 + 43_200) {
            days = days.saturating_add(1);
        }
    }
    let _ = writeln!(out, "{days}");
}

fn is_read_back(second: u32) -> bool {
    match Instant::of(second) {
        Some(instant) => utc(&write_utc(instant)) == Ok(instant),
        None => false,
    }
}
