//! Why a call of the book fails.

ghost use Rattle.std.specs.Prelude.{◌≡◌, ◌<◌};
ghost use Rattle.arrayvec.specs.ArrayString.{array_string_len};
ghost use Rattle.pw_book.specs.Faults.{book_fault, book_line, book_told, full_line, post_fault, post_fault_of, post_line, post_told};
ghost use Rattle.pw_book.specs.declared.fault.BookFault.TheVariants as book;
ghost use Rattle.pw_book.specs.declared.fault.PostFault.TheVariants as post;

use pw_line::{Line, ROOM, push_number, refused};
use pw_shelf::ShelfFault;
use std::alloc::AllocError;

/// Why an upload isn't accepted.
#[derive(Clone, Copy, Debug, PartialEq, Eq)]
pub enum PostFault {
    /// 60: the records held before the call and the fresh ones together are more than the limit. It tells both numbers.
    Full { held: u32, limit: u32 },
    /// 61: the device of the store failed.
    Device,
    /// 62: memory was refused.
    Memory,
    /// 63: an upload couldn't be taken back. The store has to be opened again.
    Reopen,
}

/// Why a question isn't answered.
#[derive(Clone, Copy, Debug, PartialEq, Eq)]
pub enum BookFault {
    /// 61: the device of the store failed.
    Device,
    /// 62: memory was refused.
    Memory,
    /// 63: an upload couldn't be taken back. The store has to be opened again.
    Reopen,
}

impl PostFault {
    /// The number under which the fault is reported: 60 to 63.
    pub fn number(self) -> u8
        ensures { result ≡ (post_told self).0 }
    {
        self.told().0
    }

    /// The name under which the fault is reported: that of the variant.
    pub fn name(self) -> &'static str
        ensures { result.now ≡ (post_told self).1 }
    {
        self.told().1
    }

    // The number and the name.
    fn told(self) -> (u8, &'static str)
        ensures number { result.0 ≡ (post_told self).0 }
        ensures name { result.1.now ≡ (post_told self).1 }
    {
        match self {
            PostFault::Full { .. } => (60, "Full"),
            PostFault::Device => (61, "Device"),
            PostFault::Memory => (62, "Memory"),
            PostFault::Reopen => (63, "Reopen"),
        }
    }

    /// The fault line without its end: `refused`, the number, the name; behind a full book's the number held and the
    /// limit.
    pub fn line(self) -> Line
        ensures text { result.bytes ≡ post_line self }
        ensures fits { array_string_len result < ROOM }
    {
        match self {
            PostFault::Full { held, limit } => full_line_of(self, held, limit),
            PostFault::Device => BookFault::Device.line(),
            PostFault::Memory => BookFault::Memory.line(),
            PostFault::Reopen => BookFault::Reopen.line(),
        }
    }
}

// The line of a fault that tells how many records are held, and the limit.
fn full_line_of(fault: PostFault, held: u32, limit: u32) -> Line
    ensures text { result.bytes ≡ full_line (post_told fault).0 (post_told fault).1 held limit }
    ensures fits { array_string_len result < ROOM }
{
    let mut line = refused(fault.number(), fault.name());
    line.push_str(" held ");
    push_number(&mut line, held as u64);
    line.push_str(" limit ");
    push_number(&mut line, limit as u64);
    line
}

impl BookFault {
    /// The number under which the fault is reported: 61 to 63.
    pub fn number(self) -> u8
        ensures { result ≡ (book_told self).0 }
    {
        self.told().0
    }

    /// The name under which the fault is reported: that of the variant.
    pub fn name(self) -> &'static str
        ensures { result.now ≡ (book_told self).1 }
    {
        self.told().1
    }

    // The number and the name.
    fn told(self) -> (u8, &'static str)
        ensures number { result.0 ≡ (book_told self).0 }
        ensures name { result.1.now ≡ (book_told self).1 }
    {
        match self {
            BookFault::Device => (61, "Device"),
            BookFault::Memory => (62, "Memory"),
            BookFault::Reopen => (63, "Reopen"),
        }
    }

    /// The fault line without its end: `refused`, the number and the name.
    pub fn line(self) -> Line
        ensures text { result.bytes ≡ book_line self }
        ensures fits { array_string_len result < ROOM }
    {
        refused(self.number(), self.name())
    }
}

impl From<ShelfFault> for PostFault {
    ghost from_gives = { λ fault e. e ≡ post_fault fault };

    fn from(fault: ShelfFault) -> Self {
        match fault {
            ShelfFault::Memory => PostFault::Memory,
            ShelfFault::Device => PostFault::Device,
        }
    }
}

impl From<AllocError> for PostFault {
    ghost from_gives = { λ _ e. e ≡ post.Memory };

    fn from(_: AllocError) -> Self {
        PostFault::Memory
    }
}

impl From<BookFault> for PostFault {
    ghost from_gives = { λ fault e. e ≡ post_fault_of fault };

    fn from(fault: BookFault) -> Self {
        match fault {
            BookFault::Device => PostFault::Device,
            BookFault::Memory => PostFault::Memory,
            BookFault::Reopen => PostFault::Reopen,
        }
    }
}

impl From<ShelfFault> for BookFault {
    ghost from_gives = { λ fault e. e ≡ book_fault fault };

    fn from(fault: ShelfFault) -> Self {
        match fault {
            ShelfFault::Memory => BookFault::Memory,
            ShelfFault::Device => BookFault::Device,
        }
    }
}

impl From<AllocError> for BookFault {
    ghost from_gives = { λ _ e. e ≡ book.Memory };

    fn from(_: AllocError) -> Self {
        BookFault::Memory
    }
}
