//! The pages of a book where a device fails. (Pages of rows worked out by hand stand in `cases/`.)

ghost use Rattle.std.specs.Prelude.{IsTrue};
ghost use Rattle.pw_report.specs.Months.{IsThere};

mod failing;

use pw_book::{Book, BookFault};
use pw_report::{Month, Page, page_text};
use pw_shelf::Shelf;
use std::alloc::Global;

// 2024-01.
const JANUARY: Month = Month {
    year: 2024,
    month: 1,
};

// Whether a month is one of 2000-01 to 2099-12.
fn is_there(month: Month) -> bool
    ensures { IsTrue result → IsThere month }
{
    2000 <= month.year && month.year < 2100 && 1 <= month.month && month.month <= 12
}

// A page of a book. One that isn't of its office is told as a page of a book that is shut.
fn page_of<S: Shelf>(alloc: Global, book: &mut Book<S>, page: Page) -> Result<Vec<u8>, BookFault> {
    let is_of_office = match page {
        Page::Statement(account) => account.0 < book.office().accounts(),
        Page::Month(_, account, month) => account.0 < book.office().accounts() && is_there(month),
        Page::MeterReadings(meter) => meter.0 < book.office().meters(),
        Page::Table(_) => true,
    };
    if !is_of_office {
        return Err(BookFault::Reopen);
    }
    page_text(book, alloc, page)
}
