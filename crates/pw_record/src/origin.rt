//! The meter and the instant of a frame.

ghost use Rattle.std.specs.Prelude.{◌≡◌, List, IfOk, IfErr, IfSome, IfNone};
ghost use Rattle.pw_obis.specs.Line.{SetText};
ghost use Rattle.pw_record.specs.Names.{HasId, IsUnknownId};
ghost use Rattle.pw_record.specs.Origin.{HasDateAndTime, HasMeter, HasOrigin, HasStamp, RefusesDateAndTime, RefusesMeter, RefusesOrigin, RefusesStamp, kind_of};
ghost use Rattle.pw_obis.specs.declared.meaning.Meaning.TheVariants.{Identifier, Stamp};
ghost use Rattle.pw_record.specs.Told.{capitals};
ghost use Rattle.pw_record.specs.inner.Told.{AreTelling};

use crate::fault::Cause;
use crate::meanings::{Told, both_told, capital};
use pw_frame::Kind;
use pw_obis::{Block, Meaning};
use pw_tariff::{LONGEST_METER_ID, MeterId, Office};
use pw_time::{Clock, Instant, Zone, readout_instant, stamp};

/// Where the frames of a body come from.
#[derive(Clone, Copy, Debug, PartialEq, Eq)]
pub enum Source {
    /// Telegrams, each of the meter that it names.
    Telegrams,
    /// Readouts of one meter, with what its clock tells.
    Readouts(MeterId, Clock),
}

/// What a body's frames are read by: the office, the zone of clocks that tell local time, and where they come from.
#[derive(Drop)]
pub struct FrameBasis<'a> {
    pub office: &'a Office,
    pub zone: &'a Zone,
    pub source: Source,
}

/// Whose the readings of a frame are, and when they were taken.
#[derive(Clone, Copy, Debug)]
pub struct Origin {
    pub meter: MeterId,
    pub instant: Instant,
}

impl Source {
    /// The kind of its frames.
    pub fn kind(self) -> Kind
        ensures { result ≡ kind_of self }
    {
        match self {
            Source::Telegrams => Kind::Telegram,
            Source::Readouts(..) => Kind::Readout,
        }
    }
}

/// The meter and the instant of a frame's block.
pub fn block_origin(basis: &FrameBasis, block: &Block) -> Result<Origin, Cause>
    ensures ok { IfOk result (λ origin. HasOrigin basis.now.office.now basis.now.source block.now
        origin.meter.0 origin.instant) }
    ensures err { IfErr result (RefusesOrigin basis.now.office.now basis.now.source block.now) }
{
    match basis.source {
        Source::Telegrams => telegram_origin(basis.office, block),
        Source::Readouts(meter, clock) => {
            let instant = date_and_time(block, clock, basis.zone)?;
            Ok(Origin { meter, instant })
        }
    }
}

// By its identifiers and its stamps.
fn telegram_origin(office: &Office, block: &Block) -> Result<Origin, Cause>
    ensures ok { IfOk result (λ origin. HasOrigin office.now Source.Telegrams block.now
        origin.meter.0 origin.instant) }
    ensures err { IfErr result (RefusesOrigin office.now Source.Telegrams block.now) }
{
    let (identifier, stamp) = both_told(block, Meaning::Identifier, Meaning::Stamp);
    let meter = telegram_meter(office, identifier)?;
    let instant = telegram_instant(stamp)?;
    Ok(Origin { meter, instant })
}

// The meter that the identifiers of a telegram name. Its clock marks its times.
fn telegram_meter(office: &Office, told: Told) -> Result<MeterId, Cause>
    ensures ok { IfOk result (λ meter. (sets : List SetText) → AreTelling Identifier sets told.entry
        → HasMeter office.now sets meter.0) }
    ensures err { IfErr result (λ cause. (sets : List SetText)
        → AreTelling Identifier sets told.entry → RefusesMeter office.now sets cause) }
{
    let identifier = match told {
        Told::Nothing => return Err(Cause::NoMeter),
        Told::Unlike => return Err(Cause::TwiceGiven),
        Told::One(identifier) => identifier,
    };
    let Some(meter) = meter_in_capitals(office, identifier) else {
        return Err(Cause::UnknownMeter);
    };
    match office.clock(meter) {
        Clock::Marked => Ok(meter),
        _ => Err(Cause::WrongKind),
    }
}

// The meter whose id an identifier is, its letters a to f read as capitals.
fn meter_in_capitals(office: &Office, identifier: &[u8]) -> Option<MeterId>
    ensures some { IfSome result (λ meter. HasId office.now (capitals identifier.now) meter.0) }
    ensures none { IfNone result (IsUnknownId office.now (capitals identifier.now)) }
{
    // No id of an office is longer.
    let _ = office.meters();
    if identifier.len() > LONGEST_METER_ID {
        return None;
    }
    let mut id = [0; LONGEST_METER_ID];
    for (i, byte) in identifier.iter().enumerate() {
        id[i] = capital(*byte);
    }
    office.meter(&id[..identifier.len()])
}

// The instant that the stamps of a telegram tell.
fn telegram_instant(told: Told) -> Result<Instant, Cause>
    ensures ok { IfOk result (λ instant. (sets : List SetText) → AreTelling Stamp sets told.entry
        → HasStamp sets instant) }
    ensures err { IfErr result (λ cause. (sets : List SetText) → AreTelling Stamp sets told.entry
        → RefusesStamp sets cause) }
{
    let text = match told {
        Told::Nothing => return Err(Cause::NoInstant),
        Told::Unlike => return Err(Cause::TwiceGiven),
        Told::One(text) => text,
    };
    Ok(stamp(text)?)
}

// The instant that the dates and the times of a readout tell.
fn date_and_time(block: &Block, clock: Clock, zone: &Zone) -> Result<Instant, Cause>
    ensures ok { IfOk result (HasDateAndTime clock block.now) }
    ensures err { IfErr result (RefusesDateAndTime clock block.now) }
{
    let (time, date) = both_told(block, Meaning::Time, Meaning::Date);
    match date {
        Told::Nothing => Err(Cause::NoInstant),
        Told::One(date) => match time {
            Told::Nothing => Err(Cause::NoInstant),
            Told::One(time) => Ok(readout_instant(date, time, clock, zone)?),
            Told::Unlike => Err(Cause::TwiceGiven),
        },
        Told::Unlike => match time {
            Told::Nothing => Err(Cause::NoInstant),
            _ => Err(Cause::TwiceGiven),
        },
    }
}
