//! Whether a book answers questions.

ghost use Rattle.std.specs.Prelude.{◌≡◌, OnOk, false};
ghost use Rattle.pw_report.specs.Reports.{IsReport};

use pw_book::{Book, BookFault};
use pw_shelf::Shelf;

// A shut book answers `Reopen` to each report, before any memory is taken for a text: so a question that takes none comes
// first.
pub(crate) fn still_open<S: Shelf>(book: &mut Book<S>) -> Result<(), BookFault>
    ensures open_yet { OnOk result (book.old.shut ≡ false) }
    ensures report { IsReport S.Shelf result book.old book.new }
{
    book.count()?;
    Ok(())
}
