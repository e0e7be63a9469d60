//! The calls on the terms of the office. Meters, periods and bands are told by their numbers, from 0.

use crate::calls::asked::Asked;
use crate::calls::names::{band, band_name, direction, meter_name, owner_name, period};
use crate::calls::words::{instant, register};
use pw_model::plain::OfficeTerms;
use pw_tariff::{MeterId, Office, PeriodId};
use pw_time::WeekHour;
use std::io::Write;

pub(crate) fn answer<O: Write>(asked: &Asked<'_>, words: &[&str], out: &mut O) -> Option<()> {
    let terms = OfficeTerms::new(asked.office, asked.zone);
    match words {
        ["terms"] => {
            let (accounts, meters) = (terms.accounts(), terms.meters());
            let (bands, periods) = (terms.bands(), terms.periods());
            let _ = writeln!(
                out,
                "accounts {accounts} meters {meters} bands {bands} periods {periods}"
            );
        }
        ["names"] => tell_names(asked.office, out),
        ["counts", meter, of] => {
            let meter = MeterId(meter.parse::<u16>().ok()?);
            let counts = terms.counts(meter, register(of)?);
            let _ = writeln!(out, "{counts}");
        }
        ["clock", meter] => tell_clock(asked.office, MeterId(meter.parse::<u16>().ok()?), out),
        ["band", at] => {
            let band = band_name(asked.office, terms.band(instant(at)?));
            let _ = writeln!(out, "{band}");
        }
        ["band_of_hour", rest @ ..] => tell_band_of_hour(asked.office, rest, out)?,
        ["period", at] => {
            let period = terms.period(instant(at)?).0;
            let _ = writeln!(out, "{period}");
        }
        ["period_start", number] => tell_start(asked.office, period(number)?, out),
        ["price", number, letter, word] => {
            let price = terms.price(period(number)?, band(letter)?, direction(word)?);
            let _ = writeln!(out, "{price}");
        }
        _ => return None,
    }
    Some(())
}

// The clock of a meter that is there.
fn tell_clock<O: Write>(office: &Office, meter: MeterId, out: &mut O) {
    if meter.0 < office.meters() {
        let clock = office.clock(meter);
        let _ = writeln!(out, "{clock:?}");
    }
}

// The second at which a period begins that is there.
fn tell_start<O: Write>(office: &Office, period: PeriodId, out: &mut O) {
    if period.0 < office.periods() {
        let second = office.period_start(period);
        let _ = writeln!(out, "{second}");
    }
}

// The band of an hour of the week, told by a period, a weekday (0 is Monday) and an hour.
fn tell_band_of_hour<O: Write>(office: &Office, words: &[&str], out: &mut O) -> Option<()> {
    let [number, day, hour] = words else {
        return None;
    };
    let period = period(number)?;
    let (day, hour) = (day.parse::<u8>().ok()?, hour.parse::<u8>().ok()?);
    if period.0 >= office.periods() || day >= 7 || hour >= 24 {
        return None;
    }
    let band = office.band_of_hour(period, WeekHour { day, hour });
    let letter = band_name(office, band);
    let _ = writeln!(out, "{letter}");
    Some(())
}

// The names of all accounts, meters and bands, each in its place.
fn tell_names<O: Write>(office: &Office, out: &mut O) {
    for account in office.account_ids() {
        let _ = out.write_all(owner_name(office, Some(account)).as_bytes());
        let _ = out.write_all(b" ");
    }
    for meter in office.meter_ids() {
        let _ = out.write_all(meter_name(office, meter).as_bytes());
        let _ = out.write_all(b" ");
    }
    for band in office.band_ids() {
        let letter = band_name(office, band);
        let _ = write!(out, "{letter}");
    }
    let _ = out.write_all(b"\n");
}
