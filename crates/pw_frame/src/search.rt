//! Where a block ends: at the first `!` with which a line begins.

ghost use Rattle.std.specs.Prelude.{◌+◌, ◌^◌, ◌<◌, ◌≤◌, ◌↔◌, length, IfOk, IfErr, IsTrue};
ghost use Rattle.pw_frame.specs.Frame.{EndsAt, BlockEnd};
ghost use Rattle.pw_frame.specs.inner.Search.{IsBlockFault};

use crate::bytes::{CR, LF};
use crate::frame::FrameFault;

// Whether a block that begins at `start` ends before the place `i`.
fn ends_at(rest: &[u8], start: usize, i: usize) -> bool
    requires from { start ≤ i }
    requires within { i < length rest.now }
    ensures { IsTrue result ↔ EndsAt rest.now start i }
{
    rest[i] == b'!' && (i == start || (i - start >= 2 && rest[i - 2] == CR && rest[i - 1] == LF))
}

/// Where the block that begins at `start` ends: the place of its `!`.
// Not inlined: within a larger function its loop would keep its values in memory.
#[inline(never)]
pub fn block_end(rest: &[u8], start: usize, place: usize) -> Result<usize, FrameFault>
    requires from { start ≤ length rest.now }
    requires fits { place + length rest.now < 2 ^ 63 }
    ensures end { IfOk result (λ end. BlockEnd rest.now start end × (end < length rest.now)) }
    ensures fault { IfErr result (λ fault. IsBlockFault rest.now start place fault) }
{
    for i in start..rest.len() {
        if rest[i] > 127 {
            return Err(FrameFault::HighBit { at: place + i });
        }
        if ends_at(rest, start, i) {
            return Ok(i);
        }
    }
    Err(FrameFault::NoEnd { at: place })
}
