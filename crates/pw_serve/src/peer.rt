//! How a connection stands: the bytes that were received and not yet used, and the reply that is not yet taken.

ghost use Rattle.std.specs.Prelude.{◌≡◌, ◌≤◌, ◌+◌, true, false, [], length, drop};
ghost use Rattle.pw_serve.specs.inner.Peers.{HasTask, IsIdle, waiting};

use std::alloc::Global;

/// The most bytes of a reply that isn't large: large ones are made one at a time.
pub const LARGE: usize = 262_144;

// The most bytes that an empty box keeps.
const KEPT: usize = 16_384;

// What the loop keeps of a connection between its turns.
#[derive(Drop)]
pub(crate) struct Peer {
    /// What was received, and is of no request that was answered.
    pub(crate) inbox: Vec<u8>,
    /// The last reply.
    pub(crate) outbox: Vec<u8>,
    /// How many bytes of it were taken.
    pub(crate) sent: usize,
    /// Its client sends no more.
    pub(crate) ended: bool,
    /// It ends behind the reply.
    pub(crate) closes: bool,
    /// There is no whole request in the inbox yet.
    pub(crate) looked: bool,
    /// When it became idle, in turns of the loop.
    pub(crate) since: u64,
}

// What is to be done of a connection.
#[derive(Clone, Copy, Debug, PartialEq, Eq)]
pub(crate) enum Task {
    /// The reply isn't wholly taken yet.
    Write,
    /// It is over.
    End,
    Read,
    /// There may be a whole request.
    Answer,
}

impl Peer {
    // A connection that was just taken in: nothing was received, and no reply waits.
    pub(crate) fn new(alloc: Global, since: u64) -> Peer
        ensures inbox { result.inbox.items ≡ [] }
        ensures outbox { result.outbox.items ≡ [] }
        ensures sent { result.sent ≡ 0 }
        ensures ended { result.ended ≡ false }
        ensures closes { result.closes ≡ false }
        ensures looked { result.looked ≡ false }
    {
        Peer {
            inbox: Vec::new(alloc),
            outbox: Vec::new(alloc),
            sent: 0,
            ended: false,
            closes: false,
            looked: false,
            since,
        }
    }

    // What is to be done next.
    #[tactic(auto, using(std::proofs::lemmas::List::drop_all))]
    pub(crate) fn task(&self) -> Task
        ensures { HasTask self.now result }
    {
        if self.sent < self.outbox.len() {
            return Task::Write;
        }
        if self.closes {
            return Task::End;
        }
        if self.inbox.is_empty() {
            return if self.ended { Task::End } else { Task::Read };
        }
        if self.ended {
            return Task::Answer;
        }
        if self.looked {
            Task::Read
        } else {
            Task::Answer
        }
    }

    // Whether no byte of a request was received behind its last reply, which is taken.
    #[tactic(auto, using(std::proofs::lemmas::List::drop_all))]
    pub(crate) fn is_idle(&self) -> bool
        ensures { result ≡ true → IsIdle self.now }
    {
        !self.ended && !self.closes && self.inbox.is_empty() && self.outbox.len() <= self.sent
    }

    // Lets the reply go, which is taken.
    pub(crate) fn release(&mut self, alloc: Global)
        ensures same { self.new ≡ record self.old { outbox = self.new.outbox; sent = 0 } }
        ensures empty { self.new.outbox.items ≡ [] }
    {
        empty(alloc, &mut self.outbox);
        self.sent = 0;
    }

    // So many bytes of the reply were taken.
    pub(crate) fn took(&mut self, alloc: Global, count: usize, turns: u64)
        requires { self.old.sent + count ≤ length self.old.outbox.items }
        ensures same { self.new ≡ record self.old
            { outbox = self.new.outbox; sent = self.new.sent; since = self.new.since } }
        ensures rest { waiting self.new ≡ drop count (waiting self.old) }
    {
        self.sent += count;
        if self.sent == self.outbox.len() {
            self.release(alloc);
            self.since = turns;
        }
    }

    // Takes the first `n` bytes away.
    pub(crate) fn take_front(&mut self, alloc: Global, n: usize)
        requires { n ≤ length self.old.inbox.items }
        ensures same { self.new ≡ record self.old { inbox = self.new.inbox; looked = false } }
        ensures rest { self.new.inbox.items ≡ drop n self.old.inbox.items }
    {
        self.looked = false;
        if n == self.inbox.len() {
            empty(alloc, &mut self.inbox);
        } else {
            drop_front(&mut self.inbox, n);
        }
    }
}

// Takes all bytes away, and the memory too, if it is much.
fn empty(alloc: Global, bytes: &mut Vec<u8>)
    ensures { bytes.new.items ≡ [] }
{
    if bytes.len() > KEPT {
        *bytes = Vec::new(alloc);
    } else {
        bytes.clear();
    }
}

// Takes the first `n` bytes away.
fn drop_front(bytes: &mut Vec<u8>, n: usize)
    requires { n ≤ length bytes.old.items }
    ensures { bytes.new.items ≡ drop n bytes.old.items }
{
    let left = bytes.len() - n;
    bytes.rotate_left(n);
    bytes.truncate(left);
}
