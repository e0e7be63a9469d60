//! New books, lent to what is asked of them: so two functions alone drop books.

use crate::books::{book_of, empty_book};
use crate::offices::SAMPLE;
use crate::sample::sample_office;
use pw_book::Book;
use pw_shelf::{CountShelf, MemoryShelf};
use std::alloc::Global;

/// Whether something holds of a new book of the sample office, over a store in memory that holds nothing.
pub fn holds_in_memory<F: FnOnce(&mut Book<MemoryShelf>) -> bool + Drop>(
    alloc: Global,
    holds: F,
) -> bool
    requires { F.IsAlwaysCallable holds }
{
    match book_of(alloc, SAMPLE, 100) {
        Ok(mut book) => holds(&mut book),
        Err(_) => false,
    }
}

/// Whether it holds of one over a store whose call fails, and from then on `abandon` where it is to.
pub fn holds_of_failing<F: FnOnce(&mut Book<CountShelf<MemoryShelf>>) -> bool + Drop>(
    alloc: Global,
    fail_at: u32,
    abandon_fails: bool,
    holds: F,
) -> bool
    requires { F.IsAlwaysCallable holds }
{
    match sample_office(alloc) {
        Ok(office) => {
            let shelf = CountShelf::failing(MemoryShelf::new(alloc), fail_at, abandon_fails);
            holds(&mut empty_book(office, shelf, 100))
        }
        Err(_) => false,
    }
}
