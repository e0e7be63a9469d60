//! Books that hold nothing.

ghost use Rattle.std.specs.Prelude.{◌≡◌, ◌≤◌, None, false};
ghost use Rattle.pw_model.specs.Office.{most_records};
ghost use Rattle.pw_model.specs.Shelf.{no_content};

use pw_book::Book;
use pw_shelf::{MemoryShelf, Shelf};
use pw_tariff::{Office, OfficeFault};
use pw_time::Zone;
use std::alloc::Global;

/// A book of an office over a store that holds nothing.
pub fn empty_book<S: Shelf>(office: Office, shelf: S, limit: u32) -> Book<S>
    requires empty { (S.state shelf).content ≡ no_content }
    requires idle { (S.state shelf).begun ≡ None }
    requires least { 1 ≤ limit }
    requires most { limit ≤ most_records }
    ensures office { result.office ≡ office }
    ensures shelf { result.shelf ≡ shelf }
    ensures open_yet { result.shut ≡ false }
{
    Book::new(office, Zone::central(), shelf, limit)
}

/// One of an office file, over a store in memory.
pub fn book_of(alloc: Global, office: &str, limit: u32) -> Result<Book<MemoryShelf>, OfficeFault>
    requires least { 1 ≤ limit }
    requires most { limit ≤ most_records }
{
    let office = Office::read(alloc, office.as_bytes())?;
    Ok(empty_book(office, MemoryShelf::new(alloc), limit))
}
