//! What was sent, and what a book holds of it.

ghost use Rattle.std.specs.Prelude.{IfOk};
ghost use Rattle.pw_book.specs.Questions.{IsQuestion};
ghost use Rattle.pw_carrying.specs.Lacking.{AreLacking};

use pw_book::{Book, BookFault, not_held};
use pw_model::Entry;
use pw_shelf::Shelf;
use std::alloc::Global;

/// The entries of an upload that a book doesn't hold, in their order, each as often as it stands there.
///
/// As with each question to a book, `Device`, `Memory` and `Reopen` (of a shut book) leave the records as they are.
pub fn lacking<S: Shelf>(
    alloc: Global,
    book: &mut Book<S>,
    entries: &[Entry],
) -> Result<Vec<Entry>, BookFault>
    ensures lacking { S.clean book.new.shelf → IfOk result
        (λ found. AreLacking (S.state book.old.shelf).content.records entries.now found.items) }
    ensures question { IsQuestion S.Shelf result book.old book.new }
{
    book.still_open()?;
    let found = not_held(&mut book.shelf, alloc, entries)?;
    Ok(found)
}
