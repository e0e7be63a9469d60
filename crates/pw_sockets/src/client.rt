//! A connection that is served: what is read from its socket and written to it, and how long its client is waited for.

ghost use Rattle.std.specs.Prelude.{◌≡◌, ◌≢◌, ◌≤◌, false, length, IfOk};
ghost use Rattle.pw_sockets.specs.declared.observer.Broke.TheVariants.{Read, Write};

use crate::limits::{Course, PARTING, left_of};
use crate::observer::Broke;
use mio::net::TcpStream;
use pw_serve::Stop;
use std::io::{self, ErrorKind, Read, Write};
use std::time::{Duration, Instant};

// How long a request that isn't whole is waited for once the server ends, in milliseconds.
pub(crate) const HURRY: u64 = 100;

// A connection that is served.
#[derive(Drop)]
pub(crate) struct Client {
    stream: TcpStream,
    course: Course,
    /// When the last byte came or went, or it was accepted.
    since: Instant,
    /// It isn't waited for.
    pub(crate) held: bool,
    /// It is of no use any more.
    pub(crate) failed: bool,
}

// Why no byte was moved.
fn stop_of(error: &io::Error) -> Stop {
    match error.kind() {
        ErrorKind::WouldBlock => Stop::NotNow,
        _ => Stop::Failed,
    }
}

impl Client {
    // A connection that was accepted now.
    pub(crate) fn new(stream: TcpStream, now: Instant) -> Client
        ensures held { result.held ≡ false }
        ensures failed { result.failed ≡ false }
        ensures since { result.since ≡ now }
    {
        Client {
            stream,
            course: Course::new(now),
            since: now,
            held: false,
            failed: false,
        }
    }

    // Reads what is there; 0 is the end of what is sent.
    pub(crate) fn read(&mut self, bytes: &mut [u8], now: Instant) -> Result<usize, Stop>
        ensures { IfOk result (λ count. count ≤ length bytes.new) }
    {
        match (&self.stream).read(bytes) {
            Ok(count) => {
                if count > 0 {
                    self.course.came(now);
                    self.since = now;
                }
                Ok(count)
            }
            Err(error) => Err(self.stopped(&error)),
        }
    }

    // Writes what goes of all that is known to come of a reply.
    pub(crate) fn write(&mut self, bytes: &[u8], now: Instant) -> Result<usize, Stop>
        ensures { IfOk result (λ count. count ≤ length bytes.now) }
    {
        let most = self.course.goes_on(bytes, now);
        match (&self.stream).write(&bytes[..most]) {
            Ok(count) => {
                self.course.took(count, bytes.len());
                if count > 0 {
                    self.since = now;
                }
                Ok(count)
            }
            Err(error) => Err(self.stopped(&error)),
        }
    }

    fn stopped(&mut self, error: &io::Error) -> Stop {
        let stop = stop_of(error);
        if stop == Stop::Failed {
            self.failed = true;
        }
        stop
    }

    // How long it is still waited for, within its own limits; and where the server began to end then, within those of the
    // end: a tenth of a second for a request that isn't whole, and 2 seconds for bytes of a reply.
    pub(crate) fn left(&self, closing: Option<Instant>, now: Instant) -> Duration {
        let own = self.own_left(now);
        match closing {
            None => own,
            Some(begun) => shorter(own, self.hurry_left(begun, now)),
        }
    }

    // How long it is still waited for within its own limits.
    pub(crate) fn own_left(&self, now: Instant) -> Duration {
        self.course.left(self.since, now)
    }

    fn hurry_left(&self, begun: Instant, now: Instant) -> Duration {
        if self.course.ahead == 0 {
            return left_of(Duration::from_millis(HURRY), begun, now);
        }
        let since = if begun <= self.since {
            self.since
        } else {
            begun
        };
        left_of(Duration::from_secs(PARTING), since, now)
    }

    // What its client is waited for to do: to take what is left of a reply, or else to send.
    pub(crate) fn awaits(&self) -> Broke
        ensures write { self.now.course.ahead ≢ 0 → result ≡ Write }
        ensures read { self.now.course.ahead ≡ 0 → result ≡ Read }
    {
        if self.course.ahead > 0 {
            Broke::Write
        } else {
            Broke::Read
        }
    }

    // The socket alone, which goes on to where what its client still sends is read.
    pub(crate) fn into_stream(self) -> TcpStream {
        let Client {
            stream,
            course: _,
            since: _,
            held: _,
            failed: _,
        } = self;
        stream
    }
}

// The shorter of two spans.
pub(crate) fn shorter(one: Duration, other: Duration) -> Duration {
    if one <= other { one } else { other }
}
