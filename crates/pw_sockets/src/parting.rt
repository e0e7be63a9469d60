//! The end of a connection: its client still gets the last reply.

use crate::limits::{LAST_READS, PARTING, left_of};
use mio::net::TcpStream;
use std::io::{ErrorKind, Read};
use std::net::Shutdown;
use std::time::{Duration, Instant};

// The most reads in one turn.
const READS: u32 = 16;

// A connection that is ended, and of which what its client still sends is read.
#[derive(Drop)]
pub(crate) struct Parting {
    stream: TcpStream,
    begun: Instant,
    /// How many reads there may still be.
    reads: u32,
}

// What reading came to.
#[derive(Clone, Copy, Debug, PartialEq, Eq)]
pub(crate) enum Rest {
    /// Its client sends no more, or too much.
    Over,
    /// There may be more at once.
    More,
    /// An event tells when there is more.
    Waits,
}

impl Parting {
    // Tells the client that nothing more comes. None where the connection is gone.
    pub(crate) fn begin(stream: TcpStream, now: Instant) -> Option<Parting> {
        if stream.shutdown(Shutdown::Write).is_err() {
            return None;
        }
        Some(Parting {
            stream,
            begun: now,
            reads: LAST_READS,
        })
    }

    // Reads what the client still sends, for one turn.
    pub(crate) fn read_off(&mut self) -> Rest {
        let mut unread = [0u8; 4_096];
        for _ in 0..READS {
            if self.reads == 0 {
                return Rest::Over;
            }
            self.reads -= 1;
            match (&self.stream).read(&mut unread) {
                Ok(0) => return Rest::Over,
                Ok(_) => {}
                Err(error) => {
                    return if error.kind() == ErrorKind::WouldBlock {
                        Rest::Waits
                    } else {
                        Rest::Over
                    };
                }
            }
        }
        Rest::More
    }

    // How long its client may still send.
    pub(crate) fn left(&self, now: Instant) -> Duration {
        left_of(Duration::from_secs(PARTING), self.begun, now)
    }
}
