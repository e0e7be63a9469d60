//! What is printed of a body: frame by frame, a line for each set that is read.

ghost use Rattle.std.specs.Prelude.{◌≡◌, ℕ, ◌++◌, List, IfOk, OnOk, IfErr};
ghost use Rattle.pw_frame.specs.Frame.{frame_text};
ghost use Rattle.pw_read.specs.Lines.{SetsShow};
ghost use Rattle.pw_read.specs.Text.{kind_name as name_of, heading, InstantShows, FrameShows, BodyShows, BodyFails};
ghost use Rattle.pw_read.specs.inner.Sets.{FrameHalts, SetsHalt};

use crate::fault::{Cause, Halt, ReadFault, Refusal};
use crate::moment::frame_instant;
use crate::set_line::{put_line, put_set};
use pw_frame::{Frame, Frames, Kind};
use pw_obis::Block;
use pw_time::{Clock, Instant, Zone, write_utc};
use std::alloc::{AllocError, Global};

/// The text that is printed of a body: for each frame its kind and header, and a line for each set with a code that is
/// read.
pub fn body_text(
    alloc: Global,
    clock: Clock,
    zone: &Zone,
    body: &[u8],
) -> Result<Vec<u8>, ReadFault>
    ensures text { IfOk result (λ text. BodyShows clock body.now text.items) }
    ensures fault { IfErr result (λ fault. BodyFails clock body.now fault) }
{
    let mut text = Vec::new(alloc);
    let mut frames = Frames::new(body);
    let mut part = 1;
    'frames: while let Some(next) = frames.next_frame() {
        let frame = match next {
            Ok(frame) => frame,
            Err(fault) => {
                let cause = Cause::Frame(fault);
                return Err(ReadFault::Refused(Refusal { part, cause }));
            }
        };
        match put_frame(&mut text, alloc, clock, zone, &frame) {
            Ok(()) => {}
            Err(Halt::Memory) => return Err(ReadFault::Memory),
            Err(Halt::Refused(cause)) => {
                return Err(ReadFault::Refused(Refusal { part, cause }));
            }
        }
        part += 1;
    }
    Ok(text)
}

// Writes what is printed of a frame behind the text.
fn put_frame(
    text: &mut Vec<u8>,
    alloc: Global,
    clock: Clock,
    zone: &Zone,
    frame: &Frame,
) -> Result<(), Halt>
    ensures ok { OnOk result ((shown : List ℕ) × FrameShows clock (frame_text frame.now) shown
        × (text.new.items ≡ text.old.items ++ shown)) }
    ensures err { IfErr result (FrameHalts clock (frame_text frame.now)) }
{
    let block = Block::checked(frame.block)?;
    put_heading(text, frame)?;
    put_sets(text, alloc, frame.kind, &block)?;
    let instant = frame_instant(frame.kind, &block, clock, zone)?;
    put_instant(text, instant)?;
    Ok(())
}

// Writes the line of an instant, where there is one.
fn put_instant(text: &mut Vec<u8>, instant: Option<Instant>) -> Result<(), AllocError>
    ensures { OnOk result ((line : List ℕ) × InstantShows instant line
        × (text.new.items ≡ text.old.items ++ line)) }
{
    match instant {
        None => Ok(()),
        Some(instant) => put_line(text, b"instant", &write_utc(instant)),
    }
}

// What the first line of a frame begins with; the header follows.
fn kind_name(kind: Kind) -> &'static [u8]
    ensures { result.now ≡ name_of kind }
{
    match kind {
        Kind::Telegram => b"telegram /",
        Kind::Readout => b"readout /",
    }
}

// Writes the first line of a frame behind the text.
fn put_heading(text: &mut Vec<u8>, frame: &Frame) -> Result<(), AllocError>
    ensures { OnOk result (text.new.items ≡ text.old.items ++ heading (frame_text frame.now)) }
{
    text.extend_from_slice(kind_name(frame.kind))?;
    text.extend_from_slice(frame.header)?;
    text.extend_from_slice(b"\n")
}

// Writes the lines of a block's sets behind the text.
fn put_sets(text: &mut Vec<u8>, alloc: Global, kind: Kind, block: &Block) -> Result<(), Halt>
    ensures ok { OnOk result ((lines : List ℕ) × SetsShow kind block.now lines
        × (text.new.items ≡ text.old.items ++ lines)) }
    ensures err { IfErr result (SetsHalt kind block.now) }
{
    'sets: for set in block.sets() {
        put_set(text, alloc, kind, &set)?;
    }
    Ok(())
}
