//! How long a client is waited for: the limits of time of a connection.

ghost use Rattle.std.specs.Prelude.{◌≡◌, ◌≢◌, ◌≤◌, ◌+◌, ◌-◌, Some, None, codes, min, length, option_map};
ghost use Rattle.std.specs.Io.{StartsWith};
ghost use Rattle.std.specs.Duration.{as_nanos};
ghost use Rattle.std.specs.Time.{instant_nanos};
ghost use Rattle.std.specs.declared.time.Instant.{Instant};
ghost use Rattle.pw_sockets.specs.Limits.{left_of as what_is_left, patience, reply_limit as limit_of_reply, read_left, write_left};

use std::time::{Duration, Instant};

/// How long a read, a write, a whole request, and a reply without its bytes may take, in seconds.
pub const PATIENCE: u64 = 60;

// The bytes of a reply for each of which so many it may take a second more; and the most bytes of one write.
const BYTES_A_SECOND: u64 = 65_536;

/// How long what a client still sends behind the last reply is read, in seconds.
pub const PARTING: u64 = 2;

/// How many reads of 4,096 bytes there are of it at most.
pub const LAST_READS: u32 = 1_024;

/// How far a client's conversation is, by the clock.
#[derive(Clone, Copy, Debug, PartialEq, Eq)]
pub struct Course {
    /// When the first byte behind the last reply came, if one has.
    pub request: Option<Instant>,
    /// When the reply began.
    pub reply: Instant,
    /// How many bytes of the reply were taken.
    pub taken: u64,
    /// How many bytes of its head, or of its body, are still to be taken.
    pub ahead: usize,
    /// When the write began.
    pub write: Instant,
    /// How many bytes of the write are still to be taken.
    pub untaken: usize,
}

/// What is left of a limit of time; nothing once it has passed.
pub fn left_of(limit: Duration, begun: Instant, now: Instant) -> Duration
    ensures { as_nanos result ≡ what_is_left (as_nanos limit) (instant_nanos begun)
        (instant_nanos now) }
{
    limit.saturating_sub(now.duration_since(begun))
}

// How long a reply of so many bytes may take.
fn reply_limit(bytes: u64) -> Duration
    ensures { as_nanos result ≡ limit_of_reply bytes }
{
    Duration::from_secs(PATIENCE + bytes / BYTES_A_SECOND)
}

impl Course {
    /// That of a client which was accepted.
    pub fn new(now: Instant) -> Course
        ensures request { result.request ≡ None }
        ensures untaken { result.untaken ≡ 0 }
    {
        Course {
            request: None,
            reply: now,
            taken: 0,
            ahead: 0,
            write: now,
            untaken: 0,
        }
    }

    /// How long a read may take from now on.
    pub fn to_read(&self, now: Instant) -> Duration
        ensures { as_nanos result ≡ read_left (option_map instant_nanos self.now.request)
            (instant_nanos now) }
    {
        let patience = Duration::from_secs(PATIENCE);
        match self.request {
            None => patience,
            Some(begun) => left_of(patience, begun, now),
        }
    }

    /// Bytes came.
    pub fn came(&mut self, now: Instant)
        ensures first { self.old.request ≡ None → self.new
            ≡ record self.old { request = Some now } }
        ensures later { self.old.request ≢ None → self.new ≡ self.old }
    {
        if self.request.is_none() {
            self.request = Some(now);
        }
    }

    /// What is left of a head or a body, with which a reply may begin, is to be written: how many bytes of it at once.
    pub fn goes_on(&mut self, rest: &[u8], now: Instant) -> usize
        ensures count { result ≤ length rest.now }
        ensures begins { self.old.ahead ≡ 0 → StartsWith rest.now (codes "HTTP/")
            → (self.new.reply ≡ now) × (self.new.taken ≡ 0) × (self.new.request ≡ None) }
        ensures goes_on { self.old.ahead ≢ 0 → (self.new.reply ≡ self.old.reply)
            × (self.new.taken ≡ self.old.taken) }
        ensures writes { self.old.untaken ≡ 0 → (self.new.write ≡ now)
            × (self.new.untaken ≡ min (length rest.now) 65_536) }
        ensures waits { self.old.untaken ≢ 0 → (self.new.write ≡ self.old.write)
            × (self.new.untaken ≡ self.old.untaken) }
    {
        if self.ahead == 0 && rest.starts_with(b"HTTP/") {
            self.request = None;
            self.reply = now;
            self.taken = 0;
        }
        if self.untaken == 0 {
            self.write = now;
            self.untaken = rest.len().min(BYTES_A_SECOND as usize);
        }
        self.untaken.min(rest.len())
    }

    /// How long a write may take from now on, where so many bytes are still known to come.
    pub fn to_write(&self, rest: usize, now: Instant) -> Duration
        ensures { as_nanos result ≡ write_left
            (min (self.now.taken + rest) 18_446_744_073_709_551_615)
            (instant_nanos self.now.reply) (instant_nanos self.now.write) (instant_nanos now) }
    {
        let bytes = self.taken.saturating_add(rest as u64);
        let whole = left_of(reply_limit(bytes), self.reply, now);
        let write = left_of(Duration::from_secs(PATIENCE), self.write, now);
        if whole <= write { whole } else { write }
    }

    /// So many bytes of what was left were taken.
    pub fn took(&mut self, count: usize, rest: usize)
        ensures taken { self.new.taken ≡ min (self.old.taken + count) 18_446_744_073_709_551_615 }
        ensures ahead { self.new.ahead ≡ rest - count }
        ensures untaken { self.new.untaken ≡ self.old.untaken - count }
        ensures begun { (self.new.reply ≡ self.old.reply) × (self.new.write ≡ self.old.write)
            × (self.new.request ≡ self.old.request) }
    {
        self.taken = self.taken.saturating_add(count as u64);
        self.ahead = rest.saturating_sub(count);
        self.untaken = self.untaken.saturating_sub(count);
    }

    /// How long the client may still be waited for, of whom the last byte came or went then: to take what is left of a
    /// reply, to send the rest of a request, or to send a request.
    pub fn left(&self, since: Instant, now: Instant) -> Duration
        ensures reply { self.now.ahead ≢ 0 → as_nanos result
            ≡ write_left (min (self.now.taken + self.now.ahead) 18_446_744_073_709_551_615)
            (instant_nanos self.now.reply) (instant_nanos self.now.write) (instant_nanos now) }
        ensures request { (begun : Instant) → self.now.ahead ≡ 0 → self.now.request ≡ Some begun
            → as_nanos result ≡ what_is_left patience (instant_nanos begun) (instant_nanos now) }
        ensures idle { self.now.ahead ≡ 0 → self.now.request ≡ None
            → as_nanos result ≡ what_is_left patience (instant_nanos since) (instant_nanos now) }
    {
        if self.ahead > 0 {
            return self.to_write(self.ahead, now);
        }
        match self.request {
            Some(_) => self.to_read(now),
            None => left_of(Duration::from_secs(PATIENCE), since, now),
        }
    }
}
