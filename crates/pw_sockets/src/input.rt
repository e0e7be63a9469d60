//! Standard input, at whose end the server ends.

use mio::unix::SourceFd;
use mio::{Interest, Poll, Token};
use std::io::{ErrorKind, Read};

// The token of standard input.
pub(crate) const INPUT: Token = Token(usize::MAX - 1);

// The descriptor of standard input.
const STDIN: i32 = 0;

// How standard input stands.
#[derive(Clone, Copy, Debug, PartialEq, Eq)]
pub(crate) enum Input {
    /// It isn't looked at, or has ended.
    Unwatched,
    /// An event tells when it has something.
    Watched,
    /// An event told that it has something.
    Due,
    /// No event tells of it, as of a file: it always has something.
    Plain,
}

impl Input {
    // Has events tell of it, if it has any.
    pub(crate) fn watch(poll: &Poll) -> Input {
        match poll
            .registry()
            .register(&mut SourceFd(&STDIN), INPUT, Interest::READABLE)
        {
            Ok(()) => Input::Watched,
            Err(_) => Input::Plain,
        }
    }

    // An event told of it.
    pub(crate) fn told(self) -> Input {
        match self {
            Input::Watched => Input::Due,
            Input::Unwatched | Input::Due | Input::Plain => self,
        }
    }

    // Whether it has something, and is to be read.
    pub(crate) fn is_due(self) -> bool {
        matches!(self, Input::Due | Input::Plain)
    }

    // Reads once, and tells how it stands behind that: what is read counts for nothing.
    pub(crate) fn read<R: Read>(self, poll: &Poll, source: &mut R) -> Input {
        let mut unread = [0u8; 4_096];
        match source.read(&mut unread) {
            Ok(0) => Input::Unwatched,
            Ok(_) => self.watched_again(poll),
            Err(error) => match error.kind() {
                ErrorKind::Interrupted => self,
                ErrorKind::WouldBlock => self.watched_again(poll),
                _ => Input::Unwatched,
            },
        }
    }

    // Has an event tell of what is still there.
    fn watched_again(self, poll: &Poll) -> Input {
        if self == Input::Plain {
            return Input::Plain;
        }
        match poll
            .registry()
            .reregister(&mut SourceFd(&STDIN), INPUT, Interest::READABLE)
        {
            Ok(()) => Input::Watched,
            Err(_) => Input::Plain,
        }
    }
}
