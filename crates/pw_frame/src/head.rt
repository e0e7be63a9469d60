//! The begin of a frame: its header, and what tells a telegram from a readout.

ghost use Rattle.std.specs.Prelude.{◌≡◌, ◌+◌, ◌^◌, ◌<◌, ◌≤◌, length, slice_index, IfOk, IfErr, IfSome, IfNone};
ghost use Rattle.pw_frame.specs.Frame.{HeaderEnd, Opens, Head, block_start};
ghost use Rattle.pw_frame.specs.FirstFault.{IsFault};
ghost use Rattle.pw_frame.specs.declared.frame.Kind.{Kind};

use crate::bytes::{CR, LF, STX, byte_at, is_character};
use crate::frame::{FrameFault, Kind};

// The first place behind `/` that holds no character.
fn header_end(rest: &[u8]) -> usize
    requires { slice_index rest.now 0 ≡ 47 }
    ensures end { HeaderEnd rest.now result }
    ensures within { result ≤ length rest.now }
{
    let mut end = 1;
    while end < rest.len() && is_character(rest[end]) {
        end += 1;
    }
    end
}

// The kind of the frame that is opened at a place: by an empty line or by STX.
fn kind_at(rest: &[u8], at: usize) -> Option<Kind>
    requires { at < 2 ^ 63 }
    ensures some { IfSome result (λ kind. Opens kind rest.now at
        × (block_start kind at ≤ length rest.now + 2)) }
    ensures none { IfNone result ((kind : Kind) → Opens kind rest.now at → ⊥) }
{
    if byte_at(rest, at) == STX {
        Some(Kind::Readout)
    } else if byte_at(rest, at) == CR && byte_at(rest, at + 1) == LF {
        Some(Kind::Telegram)
    } else {
        None
    }
}

/// The kind of the frame, and the place behind the header's characters.
pub fn head(rest: &[u8], place: usize) -> Result<(Kind, usize), FrameFault>
    requires { place + length rest.now < 2 ^ 63 }
    ensures head { IfOk result (λ found. Head rest.now found.0 found.1) }
    ensures within { IfOk result (λ found. block_start found.0 found.1 ≤ length rest.now) }
    ensures fault { IfErr result (λ fault. IsFault rest.now place fault) }
{
    if byte_at(rest, 0) != b'/' {
        return Err(FrameFault::Header { at: place });
    }
    let end = header_end(rest);
    if byte_at(rest, end) > 127 {
        return Err(FrameFault::HighBit { at: place + end });
    }
    if end < 5 || byte_at(rest, end) != CR {
        return Err(FrameFault::Header { at: place });
    }
    if byte_at(rest, end + 1) > 127 {
        return Err(FrameFault::HighBit {
            at: place + (end + 1),
        });
    }
    if byte_at(rest, end + 1) != LF {
        return Err(FrameFault::Header { at: place });
    }
    match kind_at(rest, end + 2) {
        Some(kind) => Ok((kind, end)),
        None => Err(FrameFault::Header { at: place }),
    }
}

/// Where the block begins behind a header that ends at `end`.
pub fn start_of_block(kind: Kind, end: usize) -> usize
    requires { end < 2 ^ 63 }
    ensures { result ≡ block_start kind end }
{
    match kind {
        Kind::Telegram => end + 4,
        Kind::Readout => end + 3,
    }
}
