//! Why no connection is accepted, and for how long none is tried then.

ghost use Rattle.pw_sockets.specs.Accepting.{Hinders};

/// How long nothing is accepted while there is no descriptor or no memory for a connection, in milliseconds.
pub const PAUSE: u64 = 100;

/// Why no connection is accepted.
#[derive(Clone, Copy, Debug, PartialEq, Eq)]
pub enum Hindrance {
    /// The connection is gone, and the next one is there to be taken.
    Gone,
    /// No descriptor, or no memory, is free.
    Short,
    /// The listener is of no use any more.
    Broken,
}

/// What an error of `accept` means, by Linux's number.
pub fn hindrance_of(number: u32) -> Hindrance
    ensures { Hinders number result }
{
    match number {
        103 => Hindrance::Gone,
        12 | 23 | 24 | 105 => Hindrance::Short,
        _ => Hindrance::Broken,
    }
}
