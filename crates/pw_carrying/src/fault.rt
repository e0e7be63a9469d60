//! What stops a carrying.

ghost use Rattle.std.specs.Prelude.{◌≡◌};
ghost use Rattle.pw_book.specs.Faults.{book_fault};
ghost use Rattle.pw_carrying.specs.declared.fault.CarryFault.TheVariants.{Book, Memory, Post};

use pw_book::{BookFault, PostFault};
use pw_model::Entry;
use pw_shelf::ShelfFault;
use std::alloc::{AllocError, AllocFailed};

/// Why not all records of a book are carried into another one.
#[derive(Clone, Copy, Debug, PartialEq, Eq)]
pub enum CarryFault {
    /// The other office can't hold this record: an account or a meter that it names isn't there, or its register doesn't
    /// count there. It is the first such one, as records are listed: readings first, then assignments, then top-ups, then
    /// withdrawals, each by its fields.
    Record(Entry),
    /// The other book took no upload more.
    Post(PostFault),
    /// The book that is read didn't answer.
    Book(BookFault),
    /// 62: memory was refused.
    Memory,
}

impl From<PostFault> for CarryFault {
    ghost from_gives = { λ fault e. e ≡ Post fault };

    fn from(fault: PostFault) -> Self {
        CarryFault::Post(fault)
    }
}

impl From<BookFault> for CarryFault {
    ghost from_gives = { λ fault e. e ≡ Book fault };

    fn from(fault: BookFault) -> Self {
        CarryFault::Book(fault)
    }
}

impl From<ShelfFault> for CarryFault {
    ghost from_gives = { λ fault e. e ≡ Book (book_fault fault) };

    fn from(fault: ShelfFault) -> Self {
        CarryFault::Book(BookFault::from(fault))
    }
}

impl From<AllocError> for CarryFault {
    ghost from_gives = { λ _ e. e ≡ Memory };

    fn from(_: AllocError) -> Self {
        CarryFault::Memory
    }
}

impl<T: Drop> From<AllocFailed<T>> for CarryFault {
    ghost from_gives = { λ _ e. e ≡ Memory };

    fn from(_: AllocFailed<T>) -> Self {
        CarryFault::Memory
    }
}
