//! A client's connection, whose reads and writes end in time.

use pw_sockets::{Course, LAST_READS, PARTING, left_of};
use std::cell::Cell;
use std::io::{self, ErrorKind, Read, Write};
use std::net::{Shutdown, TcpStream};
use std::time::{Clock, Duration, Instant};

// A connection that was accepted: reads and writes of `&Client` fail with `TimedOut` once a limit of time has passed.
#[derive(Drop)]
pub(crate) struct Client<'a, R: Clock> {
    clock: &'a R,
    stream: &'a TcpStream,
    course: Cell<Course>,
}

impl<'a, R: Clock> Client<'a, R> {
    // An error where the clock can't be read.
    pub(crate) fn new(clock: &'a R, stream: &'a TcpStream) -> io::Result<Client<'a, R>> {
        let course = Cell::new(Course::new(Instant::now(clock)?));
        Ok(Client {
            clock,
            stream,
            course,
        })
    }

    // Ends the connection so that the client still gets the last reply: what it goes on sending is read for 2 seconds,
    // and 4 MB of it at most.
    pub(crate) fn part(&self) {
        let Ok(begun) = Instant::now(self.clock) else {
            return;
        };
        if self.stream.shutdown(Shutdown::Write).is_err() {
            return;
        }
        let mut unread = [0u8; 4_096];
        for _ in 0..LAST_READS {
            match self.read_last(begun, &mut unread) {
                Ok(0) | Err(_) => return,
                Ok(_) => {}
            }
        }
    }

    // Reads behind the last reply, as long as the end, which began then, may take.
    fn read_last(&self, begun: Instant, unread: &mut [u8]) -> io::Result<usize> {
        let left = left_of(
            Duration::from_secs(PARTING),
            begun,
            Instant::now(self.clock)?,
        );
        self.stream.set_read_timeout(Some(in_time(left)?))?;
        (&mut &*self.stream).read(unread)
    }
}

// What is left of a limit; an error where nothing is.
fn in_time(left: Duration) -> io::Result<Duration> {
    if left.is_zero() {
        Err(io::Error::from(ErrorKind::TimedOut))
    } else {
        Ok(left)
    }
}

impl<R: Clock> Read for &Client<'_, R> {
    fn read(&mut self, buf: &mut [u8]) -> io::Result<usize> {
        let mut course = self.course.get();
        let now = Instant::now(self.clock)?;
        self.stream
            .set_read_timeout(Some(in_time(course.to_read(now))?))?;
        let count = (&mut &*self.stream).read(buf)?;
        if count > 0 {
            course.came(Instant::now(self.clock).unwrap_or(now));
            self.course.set(course);
        }
        Ok(count)
    }
}

impl<R: Clock> Write for &Client<'_, R> {
    fn write(&mut self, buf: &[u8]) -> io::Result<usize> {
        let mut course = self.course.get();
        let now = Instant::now(self.clock)?;
        let most = course.goes_on(buf, now);
        let left = in_time(course.to_write(buf.len(), now))?;
        self.stream.set_write_timeout(Some(left))?;
        let count = (&mut &*self.stream).write(&buf[..most])?;
        course.took(count, buf.len());
        self.course.set(course);
        Ok(count)
    }

    fn flush(&mut self) -> io::Result<()> {
        Ok(())
    }
}
