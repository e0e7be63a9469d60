//! Where the bytes of the connections come from and go to.

ghost use Rattle.std.specs.Prelude.{◌≤◌, ◌+◌, ℕ};
ghost use Rattle.pw_serve.specs.Connections.{AllStay, Connection, IsEnded, IsRead, IsTold, IsWrite, OthersStay};

/// What is to be looked at next. A connection is known by a number that is never used again.
#[derive(Clone, Copy, Debug, PartialEq, Eq)]
pub enum Event {
    /// Nothing came.
    Quiet,
    /// A client is there, which has no number yet.
    Knocked,
    /// The connection may have bytes, or room for bytes, or its turn.
    Ready(u64),
    /// The client of the connection was waited for too long.
    Expired(u64),
    /// No connection is left, and none comes.
    Closing,
}

/// Why no byte was moved.
#[derive(Clone, Copy, Debug, PartialEq, Eq)]
pub enum Stop {
    /// Nothing comes or goes at this moment: an event tells when to try again.
    NotNow,
    /// The connection is of no use any more.
    Failed,
}

/// Why a connection is ended.
#[derive(Clone, Copy, Debug, PartialEq, Eq)]
pub enum Ending {
    /// Its client sends no more, or a reply was the last; and each reply was taken.
    Over,
    /// It was idle, and its place was needed.
    Displaced,
    /// A read or a write failed, or its client was waited for too long.
    Broken,
    /// There is no memory, or no room, for what it asks.
    Short,
}

/// Connections, each with bytes to read and a place to write to. No call waits but `next`.
pub trait Connections {
    /// What is known of each, by its number.
    ghost connection: { Self → ℕ → Connection };

    /// How many reads and writes there were, as far as they are counted.
    ghost moves: { Self → ℕ };

    /// What comes next.
    fn next(&mut self) -> Event
        ensures told { IsTold result (connection self.old) (connection self.new) }
        ensures moves { moves self.new ≤ moves self.old };

    /// Takes in the client that knocked, under this number; tells whether it could.
    fn admit(&mut self, number: u64) -> bool
        ensures stay { AllStay (connection self.old) (connection self.new) }
        ensures moves { moves self.new ≤ moves self.old };

    /// Tells the client that knocked that there are too many, and lets it go.
    fn turn_away(&mut self)
        ensures stay { AllStay (connection self.old) (connection self.new) }
        ensures moves { moves self.new ≤ moves self.old };

    /// Reads; 0 is the end of what is sent.
    fn read(&mut self, number: u64, bytes: &mut [u8]) -> Result<usize, Stop>
        ensures one { IsRead bytes.new (connection self.old number) (connection self.new number)
            result }
        ensures others { OthersStay number (connection self.old) (connection self.new) }
        ensures moves { moves self.new ≤ moves self.old + 1 };

    /// Writes; `bytes` are all that is known to come of a reply.
    fn write(&mut self, number: u64, bytes: &[u8]) -> Result<usize, Stop>
        ensures one { IsWrite bytes.now (connection self.old number) (connection self.new number)
            result }
        ensures others { OthersStay number (connection self.old) (connection self.new) }
        ensures moves { moves self.new ≤ moves self.old + 1 };

    /// Has `Ready` be told of the connection once more, behind the others that are ready.
    fn again(&mut self, number: u64)
        ensures stay { AllStay (connection self.old) (connection self.new) }
        ensures moves { moves self.new ≤ moves self.old };

    /// Doesn't wait for the client until `again`: it waits for others.
    fn hold(&mut self, number: u64)
        ensures stay { AllStay (connection self.old) (connection self.new) }
        ensures moves { moves self.new ≤ moves self.old };

    /// Ends the connection. What was written before still reaches its client, unless it is broken.
    fn end(&mut self, number: u64, why: Ending)
        ensures one { IsEnded why (connection self.old number) (connection self.new number) }
        ensures others { OthersStay number (connection self.old) (connection self.new) }
        ensures moves { moves self.new ≤ moves self.old };
}
