//! The calls on a store in memory, and on a book over it.

ghost use Rattle.std.specs.Prelude.{◌≡◌, ◌≤◌, IsSome, None};
ghost use Rattle.pw_model.specs.Office.{most_records};
ghost use Rattle.pw_model.specs.Shelf.{no_content};

use pw_book::Book;
use pw_shelf::{CountShelf, MemoryShelf, Shelf};
use pw_tariff::Office;
use pw_time::Zone;
use std::alloc::Global;

// Whether an upload is taken back.
pub(crate) fn is_taken_back<S: Shelf>(shelf: &mut S) -> bool
    requires { IsSome (S.state shelf.old).begun }
{
    shelf.abandon().is_ok() && shelf.count() == Ok(15)
}

// A book over a store that holds nothing.
pub(crate) fn book_over<S: Shelf>(office: Office, shelf: S, limit: u32) -> Book<S>
    requires empty { (S.state shelf).content ≡ no_content }
    requires idle { (S.state shelf).begun ≡ None }
    requires least { 1 ≤ limit }
    requires most { limit ≤ most_records }
{
    Book::new(office, Zone::central(), shelf, limit)
}

// A book over a store in memory that holds nothing.
pub(crate) fn empty_book(alloc: Global, office: Office, limit: u32) -> Book<MemoryShelf>
    requires least { 1 ≤ limit }
    requires most { limit ≤ most_records }
{
    book_over(office, MemoryShelf::new(alloc), limit)
}

// One over a store in memory that counts its calls.
pub(crate) fn counting_book(
    alloc: Global,
    office: Office,
    limit: u32,
) -> Book<CountShelf<MemoryShelf>>
    requires least { 1 ≤ limit }
    requires most { limit ≤ most_records }
{
    let shelf = CountShelf::new(MemoryShelf::new(alloc));
    book_over(office, shelf, limit)
}

// Whether a book is made, tells its office, and gives its store back.
pub(crate) fn is_kept<S: Shelf + Drop>(office: Office, shelf: S) -> bool
    requires empty { (S.state shelf).content ≡ no_content }
    requires idle { (S.state shelf).begun ≡ None }
{
    let book = book_over(office, shelf, 1);
    let _ = book.zone();
    let accounts = book.office().accounts();
    let mut shelf = book.into_shelf();
    accounts == 2 && shelf.count() == Ok(0)
}

// Whether calls are counted, and one fails where it is told to.
pub(crate) fn is_counted(alloc: Global) -> bool {
    let mut counted = CountShelf::new(MemoryShelf::new(alloc));
    let mut failing = CountShelf::failing(MemoryShelf::new(alloc), 2, false);
    is_call_counted(&mut counted) && is_second_failing(&mut failing)
}

fn is_call_counted<S: Shelf>(shelf: &mut CountShelf<S>) -> bool {
    shelf.count() == Ok(0) && shelf.seen() == 1
}

fn is_second_failing<S: Shelf>(shelf: &mut CountShelf<S>) -> bool {
    shelf.count().is_ok() && shelf.count().is_err() && shelf.seen() == 2
}
