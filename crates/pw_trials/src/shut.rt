//! A book that has to be opened again.

ghost use Rattle.std.specs.Prelude.{IsTrue};
ghost use Rattle.pw_report.specs.Months.{IsThere};

use crate::calls::entries::record_of;
use crate::posts::post;
use crate::shelves::book_over;
use pw_bills::{bill, days, energy_between, top_ups_between, why};
use pw_book::{Book, BookFault, PostFault};
use pw_report::{Month, MonthPage, Page, Table, page_text};
use pw_shelf::{CountShelf, MemoryShelf, Shelf};
use pw_tariff::{AccountId, BandId, Direction, MeterId, Office, PeriodId};
use pw_time::{END_SECOND, FIRST_SECOND, Instant};
use std::alloc::Global;

// The call of the store that fails: an upload of one record is begun by the third.
const FAILING: u32 = 4;

// 2024-01.
const JANUARY: Month = Month {
    year: 2024,
    month: 1,
};

const PAGES: [Page; 13] = [
    Page::Statement(AccountId(0)),
    Page::Month(MonthPage::Bill, AccountId(0), JANUARY),
    Page::Month(MonthPage::Days, AccountId(0), JANUARY),
    Page::Month(MonthPage::Why, AccountId(0), JANUARY),
    Page::MeterReadings(MeterId(0)),
    Page::Table(Table::Accounts),
    Page::Table(Table::Falls),
    Page::Table(Table::Disputes),
    Page::Table(Table::Readings),
    Page::Table(Table::Energies),
    Page::Table(Table::Assignments),
    Page::Table(Table::TopUps),
    Page::Table(Table::Withdrawals),
];

// A book whose first upload fails, and can't be taken back.
pub(crate) fn failing_book(alloc: Global, office: Office) -> Book<CountShelf<MemoryShelf>> {
    let shelf = CountShelf::failing(MemoryShelf::new(alloc), FAILING, true);
    book_over(office, shelf, 100)
}

// Whether an upload is answered that the book has to be opened again.
pub(crate) fn is_refused<S: Shelf>(alloc: Global, book: &mut Book<S>) -> bool {
    match record_of(book.office(), "topup P1 A1 5000 2000-01-01T00:00:00Z") {
        Some(entry) => post(alloc, book, &[entry]) == Err(PostFault::Reopen),
        None => false,
    }
}

// Whether a shut book answers uploads, questions and pages with this alone.
pub(crate) fn is_still_shut<S: Shelf>(alloc: Global, book: &mut Book<S>) -> bool {
    for page in PAGES {
        if fault_of(alloc, book, page) != Some(BookFault::Reopen) {
            return false;
        }
    }
    book.count() == Err(BookFault::Reopen)
        && is_refused(alloc, book)
        && are_bills_refused(alloc, book)
        && are_energies_refused(alloc, book)
}

// Whether a month is one of 2000-01 to 2099-12.
fn is_there(month: Month) -> bool
    ensures { IsTrue result → IsThere month }
{
    2000 <= month.year && month.year < 2100 && 1 <= month.month && month.month <= 12
}

// Why there is no page of the office, if there is none.
fn fault_of<S: Shelf>(alloc: Global, book: &mut Book<S>, page: Page) -> Option<BookFault> {
    let office = book.office();
    let is_of_office = match page {
        Page::Statement(account) => account.0 < office.accounts(),
        Page::Month(_, account, month) => account.0 < office.accounts() && is_there(month),
        Page::MeterReadings(meter) => meter.0 < office.meters(),
        Page::Table(_) => true,
    };
    if !is_of_office {
        return None;
    }
    page_text(book, alloc, page).err()
}

// So it answers the questions on an interval of time: those of bills, and those of energies.
fn are_bills_refused<S: Shelf>(alloc: Global, book: &mut Book<S>) -> bool {
    let (account, until) = (AccountId(0), END_SECOND);
    match Instant::of(FIRST_SECOND) {
        Some(from) if account.0 < book.office().accounts() => {
            is_reopen(bill(book, alloc, account, from, until))
                && is_reopen(why(book, alloc, account, from, until))
                && is_reopen(top_ups_between(book, alloc, account, from, until))
        }
        _ => false,
    }
}

fn are_energies_refused<S: Shelf>(alloc: Global, book: &mut Book<S>) -> bool {
    let (account, until) = (AccountId(0), END_SECOND);
    let (period, band, direction) = (PeriodId(0), BandId(0), Direction::Import);
    match Instant::of(FIRST_SECOND) {
        Some(from) => {
            is_reopen(days(book, alloc, account, &[from], until))
                && is_reopen(energy_between(
                    book, alloc, account, period, band, direction, from, until,
                ))
        }
        None => false,
    }
}

fn is_reopen<T: Drop>(answer: Result<T, BookFault>) -> bool {
    answer.err() == Some(BookFault::Reopen)
}
