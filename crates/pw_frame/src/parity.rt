//! The check of a readout.

ghost use Rattle.pw_frame.specs.Check.{IsBlockCheck};

/// The block check of bytes (IEC 62056-21): their exclusive or, so that each bit is a parity.
// Not inlined: within a larger function its loop would keep its values in memory.
#[inline(never)]
pub fn block_check(bytes: &[u8]) -> u8
    ensures { IsBlockCheck bytes.now result }
{
    let mut check = 0;
    for byte in bytes {
        check ^= *byte;
    }
    check
}
