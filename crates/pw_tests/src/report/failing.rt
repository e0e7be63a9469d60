//! Pages of a book whose device fails at one call.

use super::{JANUARY, page_of};
use crate::new_books::holds_of_failing;
use crate::sample::{FIRST, METER};
use pw_book::{Book, BookFault};
use pw_report::{MonthPage, Page, Table};
use pw_shelf::Shelf;
use std::alloc::Global;

// Pages that take more than two calls of an empty store.
const OF_MANY_CALLS: [Page; 10] = [
    Page::Statement(FIRST),
    Page::Month(MonthPage::Bill, FIRST, JANUARY),
    Page::Month(MonthPage::Days, FIRST, JANUARY),
    Page::Month(MonthPage::Why, FIRST, JANUARY),
    Page::MeterReadings(METER),
    Page::Table(Table::Accounts),
    Page::Table(Table::Falls),
    Page::Table(Table::Disputes),
    Page::Table(Table::Readings),
    Page::Table(Table::Energies),
];

// Pages that take one at least.
const OF_A_CALL: [Page; 3] = [
    Page::Table(Table::Assignments),
    Page::Table(Table::TopUps),
    Page::Table(Table::Withdrawals),
];

// Whether a page of a book fails by its device, and is given when it is asked for again.
fn fails_once<S: Shelf>(alloc: Global, book: &mut Book<S>, page: Page) -> bool {
    page_of(alloc, book, page).err() == Some(BookFault::Device) && is_given(alloc, book, page)
}

fn is_given<S: Shelf>(alloc: Global, book: &mut Book<S>, page: Page) -> bool {
    page_of(alloc, book, page).is_ok()
}

fn fails_at(alloc: Global, page: Page, fail_at: u32) -> bool {
    holds_of_failing(alloc, fail_at, false, |book| fails_once(alloc, book, page))
}

// Whether it is given all the same, as it takes fewer calls.
fn is_given_at(alloc: Global, page: Page, fail_at: u32) -> bool {
    holds_of_failing(alloc, fail_at, false, |book| is_given(alloc, book, page))
}

// How many calls a page takes, each of which is told where it fails.
fn calls_of(alloc: Global, page: Page) -> u32 {
    for fail_at in 1..200 {
        if !fails_at(alloc, page, fail_at) {
            return if is_given_at(alloc, page, fail_at) {
                fail_at - 1
            } else {
                0
            };
        }
    }
    0
}

// bears on: pw_report statements.rt statement report
// bears on: pw_report bills.rt bill_page report
// bears on: pw_report days.rt days_page report
// bears on: pw_report why.rt why_page report
#[test]
fn failing_device(rt: HostRuntime) {
    for page in OF_MANY_CALLS {
        assert!(rt; 2 < calls_of(rt.alloc(), page));
    }
    for page in OF_A_CALL {
        assert!(rt; 0 < calls_of(rt.alloc(), page));
    }
}
