//! A reader that fails.

use std::io::{self, ErrorKind, Read};

/// Gives one byte a call, and so many calls; then it fails. It counts its calls.
#[derive(Drop)]
pub struct ByteByByte<'a> {
    pub bytes: &'a [u8],
    pub left: usize,
    pub calls: u32,
}

impl<'a> Read for ByteByByte<'a> {
    fn read(&mut self, buf: &mut [u8]) -> io::Result<usize> {
        self.calls = self.calls.saturating_add(1);
        if self.left == 0 {
            return Err(io::Error::from(ErrorKind::BrokenPipe));
        }
        self.left -= 1;
        let most = buf.len().min(1);
        self.bytes.read(&mut buf[..most])
    }
}

/// A reader that gives one byte a call, and fails behind so many.
pub fn byte_by_byte(bytes: &[u8], left: usize) -> ByteByByte<'_> {
    ByteByByte {
        bytes,
        left,
        calls: 0,
    }
}
