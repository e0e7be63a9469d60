//! A frame of a body, its kinds, and why none stands where one should.

/// What a frame is: a telegram of DSMR P1 with a CRC16, or a data readout of IEC 62056-21 with a block check.
#[derive(Clone, Copy, Debug, PartialEq, Eq)]
pub enum Kind {
    Telegram,
    Readout,
}

/// A whole frame of a body.
///
/// The header is what stands between `/` and CR LF: manufacturer and identification, four characters or more. The block
/// is what stands between the empty line (of a telegram) or STX (of a readout) and `!`: lines, each ended by CR LF.
#[derive(Clone, Copy, Debug)]
pub struct Frame<'a> {
    pub kind: Kind,
    pub header: &'a [u8],
    pub block: &'a [u8],
}

/// Why no frame stands where one should begin.
///
/// `at` is the place of the frame's first byte in the body, counted from 0, and for `HighBit` that of the byte itself.
#[derive(Clone, Copy, Debug, PartialEq, Eq)]
pub enum FrameFault {
    /// 10: no `/`, a byte that doesn't fit the header, or neither an empty line nor STX behind it.
    Header {
        at: usize,
    },
    /// 11: no `!` at the start of a line ends the block.
    NoEnd {
        at: usize,
    },
    /// 12: the telegram states another CRC16 than its bytes have.
    Crc {
        at: usize,
        stated: u16,
        computed: u16,
    },
    /// 13: what follows `!` isn't the ending of a frame of this kind, or is cut.
    Trailer {
        at: usize,
    },
    /// 14: the readout states another block check than its bytes have.
    BlockCheck {
        at: usize,
        stated: u8,
        computed: u8,
    },
    /// 15: a byte above 7F hexadecimal in the header or the block.
    HighBit {
        at: usize,
    },
}
