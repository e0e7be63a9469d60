//! A frame from its first byte to its last: header, block, and the check behind it.

ghost use Rattle.std.specs.Prelude.{◌≡◌, ℕ, ◌+◌, ◌^◌, ◌<◌, ◌≤◌, length, IfOk, IfErr};
ghost use Rattle.pw_frame.specs.Frame.{Framed, FrameEnding, Checks, Whole, block_start, ending_size, frame_text};
ghost use Rattle.pw_frame.specs.FirstFault.{IsFault};
ghost use Rattle.pw_frame.specs.declared.frame.Kind.TheVariants.{Telegram, Readout};

use crate::crc::crc16;
use crate::ending::{stated_check, stated_crc};
use crate::frame::{Frame, FrameFault, Kind};
use crate::head::{head, start_of_block};
use crate::parity::block_check;
use crate::search::block_end;

// The size of the telegram whose block ends at `block_end`, or what is wrong behind its block.
fn telegram_size(
    rest: &[u8],
    place: usize,
    header_end: usize,
    block_end: usize,
) -> Result<usize, FrameFault>
    requires framed { Framed rest.now Telegram header_end block_end }
    requires within { block_end < length rest.now }
    ensures size { IfOk result (λ size. (size ≡ block_end + 7) × (size ≤ length rest.now)) }
    ensures check { IfOk result (λ _. (check : ℕ) × FrameEnding Telegram rest.now block_end check
        × Checks Telegram rest.now header_end block_end check) }
    ensures fault { IfErr result (λ fault. IsFault rest.now place fault) }
{
    let Some(stated) = stated_crc(rest, block_end) else {
        return Err(FrameFault::Trailer { at: place });
    };
    let computed = crc16(&rest[..block_end + 1]);
    if stated != computed {
        return Err(FrameFault::Crc {
            at: place,
            stated,
            computed,
        });
    }
    Ok(block_end + 7)
}

// The size of the readout whose block ends at `block_end`, or what is wrong behind its block.
fn readout_size(
    rest: &[u8],
    place: usize,
    header_end: usize,
    block_end: usize,
) -> Result<usize, FrameFault>
    requires framed { Framed rest.now Readout header_end block_end }
    requires within { block_end < length rest.now }
    ensures size { IfOk result (λ size. (size ≡ block_end + 5) × (size ≤ length rest.now)) }
    ensures check { IfOk result (λ _. (check : ℕ) × FrameEnding Readout rest.now block_end check
        × Checks Readout rest.now header_end block_end check) }
    ensures fault { IfErr result (λ fault. IsFault rest.now place fault) }
{
    let Some(stated) = stated_check(rest, block_end) else {
        return Err(FrameFault::Trailer { at: place });
    };
    let computed = block_check(&rest[header_end + 3..block_end + 4]);
    if stated != computed {
        return Err(FrameFault::BlockCheck {
            at: place,
            stated,
            computed,
        });
    }
    Ok(block_end + 5)
}

// The size of the frame whose block ends at `block_end`, or what is wrong behind its block.
fn frame_size(
    kind: Kind,
    rest: &[u8],
    place: usize,
    header_end: usize,
    block_end: usize,
) -> Result<usize, FrameFault>
    requires framed { Framed rest.now kind header_end block_end }
    requires within { block_end < length rest.now }
    ensures size { IfOk result (λ size. (size ≡ block_end + ending_size kind) × (0 < size)
        × (size ≤ length rest.now)) }
    ensures check { IfOk result (λ _. (check : ℕ) × FrameEnding kind rest.now block_end check
        × Checks kind rest.now header_end block_end check) }
    ensures fault { IfErr result (λ fault. IsFault rest.now place fault) }
{
    match kind {
        Kind::Telegram => telegram_size(rest, place, header_end, block_end),
        Kind::Readout => readout_size(rest, place, header_end, block_end),
    }
}

/// The frame that `rest` begins with, and its size, or what is wrong with it. `rest` begins at `place` in the body.
pub fn first_frame<'a>(rest: &'a [u8], place: usize) -> Result<(Frame<'a>, usize), FrameFault>
    requires { place + length rest.now < 2 ^ 63 }
    ensures whole { IfOk result (λ found. Whole rest.now (frame_text found.0) found.1
        × (found.1 ≤ length rest.now)) }
    ensures some { IfOk result (λ found. 0 < found.1) }
    ensures fault { IfErr result (λ fault. IsFault rest.now place fault) }
{
    let (kind, end) = head(rest, place)?;
    let start = start_of_block(kind, end);
    let stop = block_end(rest, start, place)?;
    let size = frame_size(kind, rest, place, end, stop)?;
    let frame = Frame {
        kind,
        header: &rest[1..end],
        block: &rest[start..stop],
    };
    Ok((frame, size))
}
