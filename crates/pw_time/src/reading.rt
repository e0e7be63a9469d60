//! Instants out of texts, by the kind of the text.

ghost use Rattle.pw_time.specs.Outcomes.{IsReadoutOutcome, IsStampOutcome, IsUtcOutcome};

use crate::{Clock, Instant, StampFault, Zone, texts};

/// The instant of a stamp `YYMMDDhhmmssX`, where the season mark X is `S` for UTC+2 or `W` for
/// UTC+1. Years are 2000 to 2099.
///
/// The first refusal in this order: Form, Mark, NoSuchDate, NoSuchTime, Range.
/// (DSMR P1 Companion Standard 5.0.2, format TST.)
pub fn stamp(text: &[u8]) -> Result<Instant, StampFault>
    ensures { IsStampOutcome text.now result }
{
    let Some((civil, mark)) = texts::of_stamp(text) else {
        return Err(StampFault::Form);
    };
    match mark {
        b'S' => civil.at_offset(7200),
        b'W' => civil.at_offset(3600),
        _ => Err(StampFault::Mark),
    }
}

/// The instant of a text `YYYY-MM-DDThh:mm:ssZ`.
///
/// The first refusal in this order: Form, NoSuchDate, NoSuchTime, Range. The Gregorian calendar is
/// carried back to the year 0000, which is a leap year.
pub fn utc(text: &[u8]) -> Result<Instant, StampFault>
    ensures { IsUtcOutcome text.now result }
{
    match texts::of_utc(text) {
        Some(civil) => civil.at_offset(0),
        None => Err(StampFault::Form),
    }
}

/// The instant of a readout's date, `YYMMDD` or `YY-MM-DD`, and time, `hhmmss` or `hh:mm:ss`, by
/// the meter's clock. Years are 2000 to 2099.
///
/// The first refusal in this order: Form, Mark (for a clock that marks its stamps), NoSuchDate,
/// NoSuchTime, Gap or Fold, Range. (IEC 62056-21 with the OBIS codes 0.9.2 and 0.9.1.)
pub fn readout_instant(
    date: &[u8],
    time: &[u8],
    clock: Clock,
    zone: &Zone,
) -> Result<Instant, StampFault>
    ensures { IsReadoutOutcome date.now time.now clock result }
{
    let Some(civil) = texts::of_readout(date, time) else {
        return Err(StampFault::Form);
    };
    match clock {
        Clock::Marked => Err(StampFault::Mark),
        Clock::Winter => civil.at_offset(3600),
        Clock::Local => civil.in_zone(zone),
    }
}
