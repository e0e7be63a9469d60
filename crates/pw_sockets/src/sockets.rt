//! The connections of a port of this machine.

mod ended;
mod lateness;
mod waiting;

ghost use Rattle.std.specs.Prelude.{◌≡◌};

use crate::accepting::{Hindrance, hindrance_of};
use crate::admission::Door;
use crate::alarm::Alarm;
use crate::client::{Client, HURRY};
use crate::input::{INPUT, Input};
use crate::limits::PATIENCE;
use crate::observer::{Broke, Told};
use crate::parting::Parting;
use crate::queue::Queue;
use mio::net::{TcpListener, TcpStream};
use mio::{Events, Interest, Poll, Token};
use pw_serve::{Connections, Ending, Event, Stop};
use std::collections::BTreeMap;
use std::io::{self, ErrorKind, Read, Write};
use std::net::{Ipv4Addr, Shutdown, SocketAddr};
use std::time::{Duration, Instant};

// The listener's token.
const LISTENER: Token = Token(usize::MAX);

// The first number that no connection has.
const NUMBERS: u64 = u64::MAX - 1;

// The most connections whose end is waited for.
const MOST_PARTINGS: usize = 256;

// The most events of one wait: more than there are sources.
const EVENTS: usize = 1_024;

// The room for connections that are ready: more than become so in a round.
const READY: usize = 2_048;

// The most clients that are accepted in a round.
const KNOCKS: u32 = 16;

/// The connections of a port of 127.0.0.1, none of which is waited for alone.
///
/// Each has limits of its own: a minute for a request from its first byte on, for a write and for what comes behind the
/// last reply; for a reply a minute and a second more for each 65,536 bytes of it. One that is ended is read for 2 seconds
/// more, and 4 MB at most, so that its client gets the last reply; of these there are 256 at most, and the one whose end
/// began first makes room.
#[derive(Drop)]
pub struct Sockets<'a, T: Told> {
    rt: &'a HostRuntime,
    poll: Poll,
    events: Events,
    /// None once no more clients are accepted.
    listener: Option<TcpListener>,
    door: Door,
    /// How many clients may still be accepted in the round.
    knocks: u32,
    /// The client that knocked, and has no number yet.
    guest: Option<TcpStream>,
    /// What a client is told that is turned away.
    busy: &'a [u8],
    clients: BTreeMap<u64, Client>,
    partings: BTreeMap<u64, Parting>,
    queue: Queue,
    alarm: Alarm,
    /// Clients that were waited for too long are looked for.
    late: bool,
    /// How many connections are still to be accepted, where that is bounded.
    left: Option<u32>,
    input: Input,
    /// When the server began to end.
    closing: Option<Instant>,
    /// The listener, or waiting, failed.
    failed: bool,
    /// The last that the clock told.
    now: Instant,
    /// Who is told of those that broke.
    told: T,
}

impl<'a, T: Told> Sockets<'a, T> {
    /// Listens on a port of 127.0.0.1, for `count` connections, where it is stated; or until standard input ends, where
    /// that is watched. `busy` is what a client is told for whom no place is free, and `told` who is told of those that broke.
    ///
    /// An error where the port is taken, or a descriptor, memory or the clock failed.
    pub fn listen(
        rt: &'a HostRuntime,
        port: u16,
        count: Option<u32>,
        watches_input: bool,
        busy: &'a [u8],
        told: T,
    ) -> io::Result<Sockets<'a, T>> {
        let poll = Poll::new(rt)?;
        let listener = listener_at(rt, &poll, port)?;
        let input = if watches_input {
            Input::watch(&poll)
        } else {
            Input::Unwatched
        };
        let now = Instant::now(rt)?;
        Ok(Sockets {
            rt,
            poll,
            events: Events::with_capacity(rt.alloc(), EVENTS)?,
            listener: Some(listener),
            door: if count == Some(0) {
                Door::Shut
            } else {
                Door::Open
            },
            knocks: KNOCKS,
            guest: None,
            busy,
            clients: BTreeMap::new(rt.alloc()),
            partings: BTreeMap::new(rt.alloc()),
            queue: Queue::new(rt.alloc(), READY)?,
            alarm: Alarm::after(Duration::from_secs(PATIENCE), now),
            late: false,
            left: count,
            input,
            closing: None,
            failed: false,
            now,
            told,
        })
    }

    /// Whether the listener failed, or waiting did: no client was accepted behind that.
    pub fn has_failed(&self) -> bool {
        self.failed
    }

    // What the clock tells; if it fails, what it told before.
    fn tick(&mut self) -> Instant {
        if let Ok(now) = Instant::now(self.rt) {
            self.now = now;
        }
        self.now
    }

    // The server ends: what is whole is still answered.
    fn close(&mut self) {
        if self.closing.is_some() {
            return;
        }
        let now = self.tick();
        self.closing = Some(now);
        self.door = self.door.closing();
        self.alarm.hasten(Duration::from_millis(HURRY), now);
    }

    // Accepts a client, if one is there: tells whether one is.
    fn accept(&mut self) -> bool {
        if self.door == Door::Shut {
            self.listener = None;
        }
        let Some(listener) = &self.listener else {
            return false;
        };
        if self.knocks == 0 || self.door != Door::Open {
            return false;
        }
        self.knocks -= 1;
        match listener.accept() {
            Ok((stream, _)) => {
                self.guest = Some(stream);
                true
            }
            Err(error) => {
                self.hindered(&error);
                false
            }
        }
    }

    // None was accepted.
    fn hindered(&mut self, error: &io::Error) {
        if error.kind() == ErrorKind::WouldBlock {
            self.door = Door::Quiet;
        } else {
            match hindrance_of(error.raw_os_error().unwrap_or(0).unsigned_abs()) {
                Hindrance::Gone => return,
                Hindrance::Short => self.door = Door::Paused(self.tick()),
                Hindrance::Broken => {
                    self.failed = true;
                    self.door = Door::Shut;
                    self.close();
                }
            }
        }
        if self.closing.is_some() {
            self.door = self.door.closing();
        }
    }

    // The client that knocked, with events of it told by this number: both ways from now on.
    fn registered(&mut self, number: u64) -> Option<TcpStream> {
        let mut stream = self.guest.take()?;
        if number >= NUMBERS {
            return None;
        }
        let both = Interest::READABLE | Interest::WRITABLE;
        let token = Token(number as usize);
        match self.poll.registry().register(&mut stream, token, both) {
            Ok(()) => {
                let _ = stream.set_nodelay(true);
                Some(stream)
            }
            Err(_) => None,
        }
    }

    // One more was accepted of those that are counted.
    fn count_one(&mut self) {
        if let Some(left) = self.left {
            self.left = Some(left.saturating_sub(1));
            if left <= 1 {
                self.door = Door::Shut;
            }
        }
    }

    // No connection is left, and none comes.
    fn is_over(&self) -> bool {
        self.door == Door::Shut && self.clients.is_empty() && self.partings.is_empty()
    }
}

// A listener of a port, of which events tell.
fn listener_at(rt: &HostRuntime, poll: &Poll, port: u16) -> io::Result<TcpListener> {
    let mut listener = TcpListener::bind(rt, SocketAddr::from((Ipv4Addr::LOCALHOST, port)))?;
    poll.registry()
        .register(&mut listener, LISTENER, Interest::READABLE)?;
    Ok(listener)
}

impl<T: Told> Connections for Sockets<'_, T> {
    ghost use Rattle.pw_sockets.specs.Unknown.{unknown};

    ghost connection = { λ sockets number. unknown };

    ghost moves = { λ sockets. 0 };

    fn next(&mut self) -> Event {
        self.guest = None;
        if self.accept() {
            return Event::Knocked;
        }
        if self.late {
            if let Some(number) = self.expired() {
                return Event::Expired(number);
            }
        }
        if let Some(number) = self.queue.take() {
            return self.turn_of(number);
        }
        if self.is_over() {
            return Event::Closing;
        }
        self.wait()
    }

    fn admit(&mut self, number: u64) -> bool {
        let Some(stream) = self.registered(number) else {
            return false;
        };
        let now = self.tick();
        if self
            .clients
            .insert(number, Client::new(stream, now))
            .is_err()
        {
            return false;
        }
        self.alarm.hasten(Duration::from_secs(PATIENCE), now);
        self.count_one();
        true
    }

    fn turn_away(&mut self) {
        let Some(stream) = self.guest.take() else {
            return;
        };
        let mut unread = [0u8; 4_096];
        let _ = (&stream).read(&mut unread);
        let _ = (&stream).write(self.busy);
        let _ = stream.shutdown(Shutdown::Write);
    }

    fn read(&mut self, number: u64, bytes: &mut [u8]) -> Result<usize, Stop> {
        let now = self.tick();
        let Some(client) = self.clients.get_mut(&number) else {
            return Err(Stop::Failed);
        };
        let outcome = client.read(bytes, now);
        if outcome == Err(Stop::Failed) {
            self.told.broke(Broke::Read);
        }
        outcome
    }

    fn write(&mut self, number: u64, bytes: &[u8]) -> Result<usize, Stop> {
        let now = self.tick();
        let Some(client) = self.clients.get_mut(&number) else {
            return Err(Stop::Failed);
        };
        let outcome = client.write(bytes, now);
        if outcome == Err(Stop::Failed) {
            self.told.broke(Broke::Write);
        }
        outcome
    }

    fn again(&mut self, number: u64) {
        let now = self.now;
        if let Some(client) = self.clients.get_mut(&number) {
            client.held = false;
            self.alarm.hasten(Duration::from_secs(PATIENCE), now);
            self.queue.queue_up(number);
        }
    }

    fn hold(&mut self, number: u64) {
        if let Some(client) = self.clients.get_mut(&number) {
            client.held = true;
        }
    }

    fn end(&mut self, number: u64, why: Ending) {
        let Some(client) = self.clients.remove(&number) else {
            return;
        };
        if why == Ending::Broken && client.failed {
            return;
        }
        if why == Ending::Short {
            self.told.broke(Broke::Memory);
        }
        self.part(number, client.into_stream());
    }
}
