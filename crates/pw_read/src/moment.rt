//! The instant of a frame, by what its sets tell.

ghost use Rattle.std.specs.Prelude.{Some, None, MatchOption};
ghost use Rattle.pw_read.specs.Instant.{IsTold, IsFrameInstant};
ghost use Rattle.pw_frame.specs.declared.frame.Kind.TheVariants.{Telegram, Readout};
ghost use Rattle.pw_time.specs.declared.zone.Clock.{Clock};

use pw_frame::Kind;
use pw_obis::{Block, Meaning, first_value};
use pw_time::{Clock, Instant, StampFault, Zone, readout_instant, stamp};

// The first value of the first set of a block with a meaning.
fn first_told<'a>(block: &Block<'a>, meaning: Meaning) -> Option<&'a [u8]>
    ensures { MatchOption result
        (IsTold meaning block.now None)
        (λ value. IsTold meaning block.now (Some value.now)) }
{
    'sets: for set in block.sets() {
        let Some(code) = set.code else {
            continue;
        };
        if meaning.is_meant_by(&code) {
            return Some(first_value(&set));
        }
    }
    None
}

/// The instant of a telegram by its first stamp, or of a readout by its first date and its first time; none where they
/// aren't there.
pub fn frame_instant(
    kind: Kind,
    block: &Block,
    clock: Clock,
    zone: &Zone,
) -> Result<Option<Instant>, StampFault>
    ensures { IsFrameInstant kind clock block.now result }
{
    match kind {
        Kind::Telegram => telegram_instant(block),
        Kind::Readout => instant_of_readout(block, clock, zone),
    }
}

// By its first stamp, which has a mark of its own: the meter's clock doesn't bear on it.
fn telegram_instant(block: &Block) -> Result<Option<Instant>, StampFault>
    ensures { (clock : Clock) → IsFrameInstant Telegram clock block.now result }
{
    let Some(text) = first_told(block, Meaning::Stamp) else {
        return Ok(None);
    };
    Ok(Some(stamp(text)?))
}

// By its first date and its first time, as the meter's clock tells them.
fn instant_of_readout(
    block: &Block,
    clock: Clock,
    zone: &Zone,
) -> Result<Option<Instant>, StampFault>
    ensures { IsFrameInstant Readout clock block.now result }
{
    let Some(date) = first_told(block, Meaning::Date) else {
        return Ok(None);
    };
    let Some(time) = first_told(block, Meaning::Time) else {
        return Ok(None);
    };
    Ok(Some(readout_instant(date, time, clock, zone)?))
}
