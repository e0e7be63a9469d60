//! Instants as texts in UTC.

ghost use Rattle.std.specs.Prelude.{◌≡◌, Ok};
ghost use Rattle.pw_time.specs.Outcomes.{IsUtcOutcome};
ghost use Rattle.pw_time.specs.Written.{utc_text};

use crate::Instant;
use crate::civil::CivilTime;
use crate::digits::digits_of;
use std::fmt;
use std::str::from_utf8;

/// The text `YYYY-MM-DDThh:mm:ssZ` of an instant: [`utc`](crate::utc) of it is the instant.
pub fn write_utc(instant: Instant) -> [u8; 20]
    ensures read_back { IsUtcOutcome result (Ok instant) }
    ensures text { result ≡ utc_text instant }
{
    let civil = CivilTime::at(instant);
    let century = digits_of((civil.year / 100) as u8);
    let year = digits_of((civil.year % 100) as u8);
    let month = digits_of(civil.month);
    let day = digits_of(civil.day);
    let hour = digits_of(civil.hour);
    let minute = digits_of(civil.minute);
    let second = digits_of(civil.second);
    [
        century[0], century[1], year[0], year[1], b'-', month[0], month[1], b'-', day[0], day[1],
        b'T', hour[0], hour[1], b':', minute[0], minute[1], b':', second[0], second[1], b'Z',
    ]
}

/// The text that [`write_utc`] gives.
impl fmt::Display for Instant {
    ghost use Rattle.std.specs.Prelude.{Some};
    ghost use Rattle.pw_time.specs.Written.{utc_text};

    ghost output = { λ instant. Some (utc_text instant) };

    fn fmt<W: fmt::Write>(&self, f: &mut fmt::Formatter<W>) -> fmt::Result {
        match from_utf8(&write_utc(*self)) {
            Ok(text) => f.write_str(text),
            Err(_) => unreachable!(),
        }
    }
}
