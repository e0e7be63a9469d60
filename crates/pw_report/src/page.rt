//! The pages of a book: each statement, table, export and page of a month under one name, and the one call that makes
//! their texts.

ghost use Rattle.pw_report.specs.Pages.{IsAnswer, IsPageOf};
ghost use Rattle.pw_report.specs.Reports.{IsReport, TellsText};

use crate::accounts::accounts_table;
use crate::bills::bill_page;
use crate::days::days_page;
use crate::disputes::disputes_table;
use crate::energies::export_energy;
use crate::falls::falls_table;
use crate::months::Month;
use crate::one_meter::export_meter;
use crate::readings::export_readings;
use crate::records::{export_assignments, export_topups, export_withdrawals};
use crate::statements::statement;
use crate::why::why_page;
use pw_book::{Book, BookFault};
use pw_shelf::Shelf;
use pw_tariff::{AccountId, MeterId};
use std::alloc::Global;

/// A table of a whole book.
#[derive(Clone, Copy, Debug, PartialEq, Eq)]
pub enum Table {
    /// The accounts with their balances.
    Accounts,
    /// The falls.
    Falls,
    /// The disputes.
    Disputes,
    /// The export of readings, as CSV.
    Readings,
    /// The export of energies, as CSV.
    Energies,
    /// The export of assignments, as CSV in the form of their upload.
    Assignments,
    /// The export of top-ups, as CSV in the form of their upload.
    TopUps,
    /// The export of withdrawals, as CSV in the form of their upload.
    Withdrawals,
}

/// A page of an account for a month.
#[derive(Clone, Copy, Debug, PartialEq, Eq)]
pub enum MonthPage {
    /// The bill.
    Bill,
    /// The days of the month, as CSV.
    Days,
    /// Why the bill is what it is, as CSV.
    Why,
}

/// A page of a book.
#[derive(Clone, Copy, Debug, PartialEq, Eq)]
pub enum Page {
    /// The statement of an account.
    Statement(AccountId),
    /// A page of an account for a month of local calendars.
    Month(MonthPage, AccountId, Month),
    /// The export of the readings of a meter, as CSV.
    MeterReadings(MeterId),
    Table(Table),
}

/// The text of a page, by the records held. It asks for a page of the office: a statement or a month of one of its
/// accounts, readings of one of its meters; and for a month from 2000-01 to 2099-12.
///
/// `Device`, `Memory` and `Reopen` (of a shut book) leave the records as they are.
pub fn page_text<S: Shelf>(
    book: &mut Book<S>,
    alloc: Global,
    page: Page,
) -> Result<Vec<u8>, BookFault>
    requires { IsPageOf book.old.office page }
    ensures text { TellsText S.Shelf (IsAnswer page) result book.old book.new }
    ensures report { IsReport S.Shelf result book.old book.new }
{
    match page {
        Page::Statement(account) => statement(book, alloc, account),
        Page::Month(MonthPage::Bill, account, month) => bill_page(book, alloc, account, month),
        Page::Month(MonthPage::Days, account, month) => days_page(book, alloc, account, month),
        Page::Month(MonthPage::Why, account, month) => why_page(book, alloc, account, month),
        Page::MeterReadings(meter) => export_meter(book, alloc, meter),
        Page::Table(Table::Accounts) => accounts_table(book, alloc),
        Page::Table(Table::Falls) => falls_table(book, alloc),
        Page::Table(Table::Disputes) => disputes_table(book, alloc),
        Page::Table(Table::Readings) => export_readings(book, alloc),
        Page::Table(Table::Energies) => export_energy(book, alloc),
        Page::Table(Table::Assignments) => export_assignments(book, alloc),
        Page::Table(Table::TopUps) => export_topups(book, alloc),
        Page::Table(Table::Withdrawals) => export_withdrawals(book, alloc),
    }
}
