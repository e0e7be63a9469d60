//! What another office file says otherwise, told: a line for each change.

use pw_moving::{Change, Listed};
use pw_tariff::{AccountId, BandId, MeterId, Office, PeriodId};
use pw_time::Instant;
use std::fmt;
use std::io::{self, Write};

// How a line of a list is called: an account and a meter by its text, a band by its letter.
#[derive(Clone, Copy)]
enum Name<'a> {
    Text(&'a str),
    Letter(char),
    // The office has no such line.
    Nothing,
}

impl fmt::Display for Name<'_> {
    fn fmt<W: fmt::Write>(&self, f: &mut fmt::Formatter<W>) -> fmt::Result {
        match *self {
            Name::Text(text) => f.write_str(text),
            Name::Letter(letter) => write!(f, "{letter}"),
            Name::Nothing => Ok(()),
        }
    }
}

// The line of a change, which may be adopted or not.
pub(crate) fn put_change(
    text: &mut Vec<u8>,
    old: &Office,
    new: &Office,
    last: &Option<Instant>,
    change: Change,
    may_be: bool,
) -> io::Result<()> {
    match change {
        Change::Added { list, place } => put_line(text, new, list, place, "is new"),
        Change::Gone { list, place } => put_line(text, old, list, place, "is gone"),
        Change::Renamed { list, place } => put_renamed(text, old, new, list, place, may_be),
        Change::Moved { list, from, .. } => {
            put_line(text, old, list, from, "stands at another place")
        }
        Change::Clock { meter } => {
            put_line(text, old, Listed::Meters, meter.0, "has another clock")
        }
        Change::Register { meter, register } => {
            let name = name_at(old, Listed::Meters, meter.0);
            writeln!(text, "meter {name} counts {} otherwise", register.name())
        }
        _ => {
            let behind = if may_be { None } else { *last };
            put_period_change(text, old, new, behind, change)
        }
    }
}

// The line of a change of periods; of a new one with the reading behind which it had to start, where it doesn't.
fn put_period_change(
    text: &mut Vec<u8>,
    old: &Office,
    new: &Office,
    behind: Option<Instant>,
    change: Change,
) -> io::Result<()> {
    match change {
        Change::NewPeriod { period } => put_new_period(text, new, period, behind),
        Change::PeriodGone { period } => put_period(text, old, period, "is gone"),
        Change::Start { period } => put_period(text, old, period, "begins otherwise"),
        Change::Week { period } => put_period(text, old, period, "has another week"),
        Change::Price {
            period,
            band,
            direction,
        } => {
            let letter = name_at(old, Listed::Bands, u16::from(band.0));
            let direction = direction.name();
            put_start(text, old, period)?;
            writeln!(text, " has another {direction} price of band {letter}")
        }
        _ => Ok(()),
    }
}

fn put_new_period(
    text: &mut Vec<u8>,
    office: &Office,
    period: PeriodId,
    behind: Option<Instant>,
) -> io::Result<()> {
    put_start(text, office, period)?;
    match behind {
        Some(last) => writeln!(text, " is new, but readings stand until {last}"),
        None => writeln!(text, " is new"),
    }
}

// `account A1 is called A7`; where no word says so, with the word that would; else with what becomes of kept uploads.
fn put_renamed(
    text: &mut Vec<u8>,
    old: &Office,
    new: &Office,
    list: Listed,
    place: u16,
    may_be: bool,
) -> io::Result<()> {
    let (before, now) = (name_at(old, list, place), name_at(new, list, place));
    let kind = kind_of(list);
    if !may_be {
        return writeln!(
            text,
            "{kind} {before} is called {now}: if so, --rename {before} {now}"
        );
    }
    writeln!(text, "{kind} {before} is called {now}")?;
    if is_gone(new, list, before) {
        put_refused(text, list, before, now)?;
    }
    Ok(())
}

// Whether no account, or no meter, of an office has a name: a band has none that an upload says.
fn is_gone(office: &Office, list: Listed, name: Name<'_>) -> bool {
    let Name::Text(name) = name else {
        return false;
    };
    match list {
        Listed::Accounts => office.account(name.as_bytes()).is_none(),
        Listed::Meters => office.meter(name.as_bytes()).is_none(),
        Listed::Bands => false,
    }
}

// Which kept uploads are refused once the file is adopted.
fn put_refused(
    text: &mut Vec<u8>,
    list: Listed,
    before: Name<'_>,
    now: Name<'_>,
) -> io::Result<()> {
    let fault = match list {
        Listed::Meters => "41 UnknownMeter",
        _ => "46 UnknownAccount",
    };
    writeln!(
        text,
        "once it is adopted, kept uploads that say {before} are refused ({fault}): say {now} in them"
    )
}

// What is told of the line at a place of a list: `account A1 is new`.
fn put_line(
    text: &mut Vec<u8>,
    office: &Office,
    list: Listed,
    place: u16,
    told: &str,
) -> io::Result<()> {
    let (kind, name) = (kind_of(list), name_at(office, list, place));
    writeln!(text, "{kind} {name} {told}")
}

// What is told of a period.
fn put_period(text: &mut Vec<u8>, office: &Office, period: PeriodId, told: &str) -> io::Result<()> {
    put_start(text, office, period)?;
    writeln!(text, " {told}")
}

// A period, by its start.
fn put_start(text: &mut Vec<u8>, office: &Office, period: PeriodId) -> io::Result<()> {
    if period.0 >= office.periods() {
        return write!(text, "period");
    }
    match Instant::of(office.period_start(period)) {
        Some(start) => write!(text, "period {start}"),
        None => write!(text, "period"),
    }
}

fn kind_of(list: Listed) -> &'static str {
    match list {
        Listed::Accounts => "account",
        Listed::Meters => "meter",
        Listed::Bands => "band",
    }
}

fn name_at(office: &Office, list: Listed, place: u16) -> Name<'_> {
    match list {
        Listed::Accounts if place < office.accounts() => {
            Name::Text(office.account_name(AccountId(place)))
        }
        Listed::Meters if place < office.meters() => {
            Name::Text(office.meter_name(MeterId(place)))
        }
        Listed::Bands if place < u16::from(office.bands()) => {
            Name::Letter(office.band_name(BandId(place as u8)))
        }
        _ => Name::Nothing,
    }
}
