//! Bodies of telegrams and of readouts.

ghost use Rattle.std.specs.Prelude.{◌≡◌, ◌<◌, ◌++◌, List, IfOk, IfErr, OnOk, Err, length};
ghost use Rattle.pw_frame.specs.Frame.{frame_text};
ghost use Rattle.pw_tariff.specs.Office.{office_of};
ghost use Rattle.pw_model.specs.Office.{AllOfOffice};
ghost use Rattle.pw_record.specs.Frames.{BodyGives, BodyRefused, FrameGives, ReadoutsGive, ReadoutsRefused, RefusesFrame, TelegramsGive, TelegramsRefused};
ghost use Rattle.pw_record.specs.Shown.{readings_of};
ghost use Rattle.pw_record.specs.inner.Shown.{shown_in};
ghost use Rattle.pw_record.specs.inner.Steps.{IsSourceOf};

use crate::fault::{Cause, Halt, UploadFault};
use crate::order::in_order;
use crate::origin::{FrameBasis, Origin, Source, block_origin};
use crate::shown::{Shown, all_shown, is_nothing_shown, put_readings};
use pw_frame::{Frame, Frames};
use pw_model::{Distinct, Entry};
use pw_obis::Block;
use pw_tariff::Office;
use pw_time::{Clock, Zone};
use std::alloc::Global;

/// The most frames of a body.
pub const MOST_FRAMES: u32 = 64;

/// The entries of a body of telegrams (DSMR P1 Companion Standard 5.0.2), or the first refusal.
///
/// Each telegram is of the meter that it names, by an identifier whose letters a to f are read as capitals, and its
/// entries are the readings of the registers that the office counts for the meter. `Memory` says nothing of the body:
/// memory was refused while it was read.
pub fn telegram_records(
    alloc: Global,
    office: &Office,
    zone: &Zone,
    body: &[u8],
) -> Result<Vec<Entry>, UploadFault>
    ensures entries { IfOk result (λ entries. TelegramsGive office.now body.now entries.items) }
    ensures of_office { IfOk result (λ entries. AllOfOffice (office_of office.now) entries.items) }
    ensures refused { IfErr result (λ fault. TelegramsRefused office.now body.now fault) }
{
    Ok(telegrams_in(alloc, office, zone, body)?.into_entries())
}

/// The entries of a body of readouts (IEC 62056-21) of the meter with an id, or the first refusal.
///
/// The meter's clock tells how dates and times are read. That the meter is unknown, or that its clock marks its times,
/// is told with the part 0 before anything else. `Memory` says nothing of the body:
/// memory was refused while it was read.
pub fn readout_records(
    alloc: Global,
    meter: &[u8],
    office: &Office,
    zone: &Zone,
    body: &[u8],
) -> Result<Vec<Entry>, UploadFault>
    ensures entries { IfOk result (λ entries. ReadoutsGive office.now meter.now body.now
        entries.items) }
    ensures of_office { IfOk result (λ entries. AllOfOffice (office_of office.now) entries.items) }
    ensures refused { IfErr result (λ fault. ReadoutsRefused office.now meter.now body.now fault) }
{
    Ok(readouts_in(alloc, meter, office, zone, body)?.into_entries())
}

/// The entries of a body of telegrams, in order, each once, or the first refusal.
pub fn telegrams_in(
    alloc: Global,
    office: &Office,
    zone: &Zone,
    body: &[u8],
) -> Result<Distinct, UploadFault>
    ensures entries { IfOk result (λ entries. TelegramsGive office.now body.now entries) }
    ensures of_office { IfOk result (λ entries. AllOfOffice (office_of office.now) entries) }
    ensures refused { IfErr result (λ fault. TelegramsRefused office.now body.now fault) }
{
    let telegrams = FrameBasis {
        office,
        zone,
        source: Source::Telegrams,
    };
    frame_records(alloc, &telegrams, body)
}

/// The entries of a body of readouts of the meter with an id, in order, each once, or the first refusal.
pub fn readouts_in(
    alloc: Global,
    meter: &[u8],
    office: &Office,
    zone: &Zone,
    body: &[u8],
) -> Result<Distinct, UploadFault>
    ensures entries { IfOk result (λ entries. ReadoutsGive office.now meter.now body.now entries) }
    ensures of_office { IfOk result (λ entries. AllOfOffice (office_of office.now) entries) }
    ensures refused { IfErr result (λ fault. ReadoutsRefused office.now meter.now body.now fault) }
{
    let Some(meter) = office.meter(meter) else {
        let cause = Cause::UnknownMeter;
        return Err(UploadFault { part: 0, cause });
    };
    let clock = office.clock(meter);
    if clock == Clock::Marked {
        let cause = Cause::WrongKind;
        return Err(UploadFault { part: 0, cause });
    }
    let readouts = FrameBasis {
        office,
        zone,
        source: Source::Readouts(meter, clock),
    };
    frame_records(alloc, &readouts, body)
}

// The entries of a body's frames, or the first refusal.
fn frame_records(alloc: Global, basis: &FrameBasis, body: &[u8]) -> Result<Distinct, UploadFault>
    requires { IsSourceOf basis.now.office.now basis.now.source }
    ensures entries { IfOk result (λ entries. BodyGives basis.now.office.now basis.now.source
        body.now entries) }
    ensures of_office { IfOk result (λ entries. AllOfOffice (office_of basis.now.office.now)
        entries) }
    ensures refused { IfErr result (λ fault. BodyRefused basis.now.office.now basis.now.source
        body.now fault) }
{
    let mut given = Vec::new(alloc);
    let mut frames = Frames::new(body);
    let mut part = 1;
    'frames: while let Some(next) = frames.next_frame() {
        if part > MOST_FRAMES {
            let cause = Cause::TooManyParts;
            return Err(UploadFault { part, cause });
        }
        let frame = match next {
            Ok(frame) => frame,
            Err(fault) => {
                let cause = Cause::Frame(fault);
                return Err(UploadFault { part, cause });
            }
        };
        put_frame(&mut given, basis, &frame).map_err(|halt| halt.of_part(part))?;
        part += 1;
    }
    Ok(in_order(given))
}

// Puts the readings of a frame behind the entries.
fn put_frame(given: &mut Vec<Entry>, basis: &FrameBasis, frame: &Frame) -> Result<(), Halt>
    requires { IsSourceOf basis.now.office.now basis.now.source }
    ensures ok { OnOk result ((more : List Entry)
        × FrameGives basis.now.office.now basis.now.source (frame_text frame.now) more
        × (given.new.items ≡ given.old.items ++ more)) }
    ensures err { (cause : Cause) → result ≡ Err (Halt.Refused cause)
        → RefusesFrame basis.now.office.now basis.now.source (frame_text frame.now) cause }
{
    let (origin, shown) = read_frame(basis, frame)?;
    put_readings(given, &origin, &shown)?;
    Ok(())
}

/// Whose the readings of a frame are and when they were taken, and what it shows; or why it is refused.
pub fn read_frame(basis: &FrameBasis, frame: &Frame) -> Result<(Origin, Shown), Cause>
    requires { IsSourceOf basis.now.office.now basis.now.source }
    ensures ok { IfOk result (λ read. FrameGives basis.now.office.now basis.now.source
        (frame_text frame.now) (readings_of read.0.meter.0 read.0.instant (shown_in read.1))) }
    ensures err { IfErr result (λ cause. RefusesFrame basis.now.office.now basis.now.source
        (frame_text frame.now) cause) }
{
    if frame.kind != basis.source.kind() {
        return Err(Cause::WrongKind);
    }
    let block = Block::checked(frame.block)?;
    let origin = block_origin(basis, &block)?;
    let shown = all_shown(basis.office, origin.meter, &block)?;
    if is_nothing_shown(&shown) {
        return Err(Cause::NoRegister);
    }
    Ok((origin, shown))
}
