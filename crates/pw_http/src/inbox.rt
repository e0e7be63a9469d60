//! The bytes that were received and not yet used.

ghost use Rattle.std.specs.Prelude.{◌≡◌, ◌≤◌, ◌<◌, ◌+◌, ◌-◌, ℕ, List, [], ◌++◌, length, take, drop, IfOk, OnErr};
ghost use Rattle.std.specs.Io.KnownBytes.{Keeps, Consumes, IsAtEnd};
ghost use Rattle.pw_http.specs.inner.Received.{IsFilled};

use crate::requests::ROOM;
use std::alloc::{AllocError, Global};
use std::io::{self, Read};
use std::marker::Model;

// Moves the bytes from `n` to `filled` to the front.
fn shift(bytes: &mut [u8], filled: usize, n: usize)
    requires order { n ≤ filled }
    requires within { filled ≤ length bytes.old }
    ensures moved { take (filled - n) bytes.new ≡ drop n (take filled bytes.old) }
    ensures len { length bytes.new ≡ length bytes.old }
{
    bytes[..filled].rotate_left(n);
}

// Reads once, behind the first `filled` bytes.
fn read_behind<R: Read>(reader: &mut R, bytes: &mut [u8], filled: usize) -> io::Result<usize>
    requires { filled < length bytes.old }
    ensures count { IfOk result (λ n. filled + n ≤ length bytes.old) }
    ensures front { IfOk result (λ n. take (filled + n) bytes.new
        ≡ take filled bytes.old ++ take n (drop filled bytes.new)) }
    ensures consumed { IfOk result (λ n. Consumes (R.remaining reader.old) (R.remaining reader.new)
        (take n (drop filled bytes.new))) }
    ensures end { IfOk result (λ n. n ≡ 0 → IsAtEnd (R.remaining reader.new)) }
    ensures len { length bytes.new ≡ length bytes.old }
    ensures kept { take filled bytes.new ≡ take filled bytes.old }
    ensures keeps { OnErr result (Keeps (R.remaining reader.old) (R.remaining reader.new)) }
{
    reader.read(&mut bytes[filled..])
}

#[derive(Drop)]
pub(crate) struct Inbox {
    bytes: Vec<u8>,
    /// Where the first byte that was not yet used stands.
    start: usize,
    filled: usize,
}

impl Model for Inbox {
    ghost use Rattle.std.specs.Prelude.{◌≡◌, ◌≤◌, ℕ, List, take, drop, length};
    ghost use Rattle.pw_http.specs.declared.requests.TheConstants.{ROOM};

    ghost Value = { List ℕ };

    ghost view = { λ b. drop b.start (take b.filled b.bytes.items) };

    ghost invariant = { λ b. (b.start ≤ b.filled) × (b.filled ≤ ROOM) × (length b.bytes.items ≡ ROOM) };
}

impl Inbox {
    pub(crate) fn new(alloc: Global) -> Result<Inbox, AllocError>
        ensures { IfOk result (λ b. b ≡ []) }
    {
        let bytes = vec![in alloc; 0u8; ROOM]?;
        Ok(Inbox {
            bytes,
            start: 0,
            filled: 0,
        })
    }

    pub(crate) fn unread(&self) -> &[u8]
        ensures value { result.now ≡ self.now }
        ensures room { length self.now ≤ ROOM }
    {
        &self.bytes[self.start..self.filled]
    }

    // Takes the first `n` bytes away.
    pub(crate) fn consume(&mut self, n: usize)
        requires { n ≤ length self.old }
        ensures { self.new ≡ drop n self.old }
    {
        self.start += n;
    }

    // Reads once, behind the bytes that are there; 0 is the end of what is sent.
    pub(crate) fn fill<R: Read>(&mut self, reader: &mut R) -> io::Result<usize>
        requires { length self.old < ROOM }
        ensures filled { IfOk result (λ n. IsFilled self.old self.new (R.remaining reader.old)
            (R.remaining reader.new) n) }
        ensures err { OnErr result (self.new ≡ self.old) }
        ensures keeps { OnErr result (Keeps (R.remaining reader.old) (R.remaining reader.new)) }
    {
        shift(&mut self.bytes, self.filled, self.start);
        self.filled -= self.start;
        self.start = 0;
        let n = read_behind(reader, &mut self.bytes, self.filled)?;
        self.filled += n;
        Ok(n)
    }
}
