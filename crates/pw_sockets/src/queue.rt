//! Whose turn it is.

ghost use Rattle.std.specs.Prelude.{◌≡◌, ◌==◌, ◌≤◌, ◌<◌, ◌+◌, ◌++◌, ◌↔◌, [], ◌∷◌, true, false, IfOk, IfSome, IsSome};
ghost use Rattle.std.specs.List.{list_any};
ghost use Rattle.std.specs.VecDeque.{deque_capacity, deque_len};

use std::alloc::{AllocError, Global};
use std::collections::VecDeque;

// The connections that are ready, each once, in the order in which they became so; and how many of them have their turn
// before clients are waited for again.
#[derive(Drop)]
pub(crate) struct Queue {
    numbers: VecDeque<u64>,
    round: usize,
    ghost within: { round ≤ deque_len numbers },
}

impl Queue {
    // None, and room for so many.
    pub(crate) fn new(alloc: Global, room: usize) -> Result<Queue, AllocError>
        ensures empty { IfOk result (λ queue. queue.numbers.items ≡ []) }
        ensures room { IfOk result (λ queue. deque_capacity queue.numbers ≡ room) }
        ensures round { IfOk result (λ queue. queue.round ≡ 0) }
    {
        Ok(Queue {
            numbers: VecDeque::with_capacity(alloc, room)?,
            round: 0,
        })
    }

    // Whether a connection is among them.
    pub(crate) fn has(&self, number: u64) -> bool
        ensures { result ≡ list_any (λ other. other == number) self.now.numbers.items }
    {
        self.numbers.contains(&number)
    }

    pub(crate) fn is_empty(&self) -> bool
        ensures { result ≡ (deque_len self.now.numbers == 0) }
    {
        self.numbers.is_empty()
    }

    // Puts a connection behind the others, if it isn't among them and there is room, or memory for it.
    pub(crate) fn queue_up(&mut self, number: u64)
        ensures once { list_any (λ other. other == number) self.old.numbers.items ≡ true
            → self.new.numbers ≡ self.old.numbers }
        ensures last { list_any (λ other. other == number) self.old.numbers.items ≡ false
            → deque_len self.old.numbers < deque_capacity self.old.numbers
            → self.new.numbers.items ≡ self.old.numbers.items ++ number ∷ [] }
        ensures round { self.new.round ≡ self.old.round }
    {
        if !self.has(number) {
            let _ = self.numbers.push_back(number);
        }
    }

    // Those that are there now are to have their turn, one each.
    pub(crate) fn begin_round(&mut self)
        ensures numbers { self.new.numbers ≡ self.old.numbers }
        ensures round { self.new.round ≡ deque_len self.old.numbers }
    {
        self.round = self.numbers.len();
    }

    // The first, if it has its turn before clients are waited for again.
    pub(crate) fn take(&mut self) -> Option<u64>
        ensures some { IsSome result ↔ (0 < self.old.round) }
        ensures first { IfSome result (λ number. self.old.numbers.items
            ≡ number ∷ self.new.numbers.items) }
        ensures round { IfSome result (λ number. self.new.round + 1 ≡ self.old.round) }
    {
        if self.round == 0 {
            return None;
        }
        self.round -= 1;
        self.numbers.pop_front()
    }
}
