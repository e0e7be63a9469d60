//! Who answers requests.

ghost use Rattle.std.specs.Prelude.{◌≡◌, ◌≤◌, ◌<◌, ◌+◌, List, ℕ, [], length, vec_capacity};
ghost use Rattle.pw_serve.specs.Answered.{IsAnswer};
ghost use Rattle.pw_serve.specs.Exchanges.{Asked};

use std::alloc::Global;

/// The bytes that are kept free for a reply, so that a short one takes no memory.
pub const SHORT_REPLY: usize = 512;

/// What a service says to the bytes that were received.
#[derive(Clone, Copy, Debug, PartialEq, Eq)]
pub enum Answer {
    /// No whole request yet: more bytes are needed.
    Waits,
    /// The reply may be a large one, which isn't to be made now.
    Later,
    /// So many bytes were a request, and this is the reply; whether the connection ends behind it.
    Replied(usize, bool),
    /// The bytes are no request, whatever follows; this is the reply, behind which the connection ends.
    Refused,
    /// There was no memory for the reply.
    Short,
}

/// A service: it finds the first request in the bytes that were received, and answers it.
pub trait Service {
    /// What it may answer: its state before, what is asked, the bytes of the reply, its state behind it.
    ghost answers: { Self → Asked → List ℕ → Self → Type 0 };

    /// What it may wait on: bytes in which it finds no whole request, while more may come.
    ghost waits: { List ℕ → Type 0 };

    /// How often it was asked, as far as that is counted.
    ghost calls: { Self → ℕ };

    /// The most bytes of a request.
    const LONGEST: usize;

    /// Answers the first request. `ended` says that no byte follows these, and `may_be_large` that the reply may be larger
    /// than `LARGE`. The reply is left in `outbox`.
    fn answer(
        &mut self,
        alloc: Global,
        bytes: &[u8],
        ended: bool,
        may_be_large: bool,
        outbox: &mut Vec<u8>,
    ) -> Answer
        requires some { 0 < length bytes.now }
        requires empty { outbox.old.items ≡ [] }
        requires room { SHORT_REPLY ≤ vec_capacity outbox.old }
        ensures answered { IsAnswer answers waits self.old bytes.now ended may_be_large self.new
            outbox.new.items result }
        ensures calls { calls self.new ≤ calls self.old + 1 };
}
