//! The trail of a server: a line for each upload that was answered.

use pw_http::{Status, Trail};
use pw_time::{Instant, write_utc};
use std::io::{self, Write};
use std::time::Clock;

// Writes a line for each upload that was answered: the instant in UTC, the target of the request, the status line.
#[derive(Drop)]
pub(crate) struct Lines<C: Clock, E: Write> {
    clock: C,
    err: E,
}

impl<C: Clock, E: Write> Lines<C, E> {
    // Lines go to `err`, with the instants of a clock; `-` stands where that tells none.
    pub(crate) fn new(clock: C, err: E) -> Lines<C, E> {
        Lines { clock, err }
    }

    fn write(&mut self, target: &[u8], status: Status) -> io::Result<()> {
        match instant_of(&self.clock) {
            Some(instant) => self.err.write_all(&write_utc(instant))?,
            None => self.err.write_all(b"-")?,
        }
        self.err.write_all(b" ")?;
        self.err.write_all(target)?;
        writeln!(
            self.err,
            " HTTP/1.1 {} {}",
            status.number(),
            status.phrase()
        )
    }
}

impl<C: Clock, E: Write> Trail for Lines<C, E> {
    fn answered(&mut self, target: &[u8], status: Status) {
        let _ = self.write(target, status);
    }
}

// The instant that a clock tells, if it is one of this century.
fn instant_of<C: Clock>(clock: &C) -> Option<Instant> {
    let since = clock.since_1970().ok()?;
    let seconds = u32::try_from(since.as_secs()).ok()?;
    Instant::of(seconds)
}
