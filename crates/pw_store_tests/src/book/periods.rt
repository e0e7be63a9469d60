//! A book of an office whose week and prices change between two readings: over each kind of store each energy is told by
//! period, and priced as its period says, whichever reading comes first.

use super::agreeing::periods_agree;
use super::kept::book_and_store_agree;
use super::{Books, asking, imported, money, takes};
use crate::entries::{Sent, entries_of, entry_of};
use pw_book::{Book, BookFault};
use pw_obis::Register;
use pw_shelf::Shelf;
use pw_tariff::{Direction, PeriodId};
use pw_tests::offices::rising_office;
use pw_tests::sample::{FIRST, FIVE, HIGH, LOW, METER, NEW_YEAR, SEVEN};
use std::alloc::Global;
use std::process::Abort;

const OWNER: Sent = Sent::Assignment(METER, NEW_YEAR, Some(FIRST));

const PAYMENT: Sent = Sent::TopUp(b"P1", FIRST, 5_000);

const EARLY: Sent = Sent::Reading(METER, Register::I1, FIVE, 1_000_000);

const LATE: Sent = Sent::Reading(METER, Register::I1, SEVEN, 1_003_001);

const EARLY_FIRST: [Sent; 4] = [OWNER, PAYMENT, EARLY, LATE];

const LATE_FIRST: [Sent; 4] = [OWNER, PAYMENT, LATE, EARLY];

// Takes uploads of one record each.
fn takes_each<S: Shelf>(rt: &impl Abort, alloc: Global, book: &mut Book<S>, told: &[Sent]) {
    for sent in told {
        takes(rt, alloc, book, &[entry_of(rt, *sent)], (1, 0));
    }
}

// What the first account imported within a period in both bands.
fn imported_in<S: Shelf>(
    rt: &impl Abort,
    book: &mut Book<S>,
    period: PeriodId,
) -> Result<(u64, u64), BookFault> {
    let low = asking::energy_in(rt, book, period, (Some(FIRST), LOW, Direction::Import))?;
    let high = asking::energy_in(rt, book, period, (Some(FIRST), HIGH, Direction::Import))?;
    Ok((low, high))
}

// Whether the questions are answered as both readings ask: 1,500 Wh at 200,000 nano-euro and 1,501 at 250,000 are
// 675,250,000 nano-euro, which 50 euro are lessened by.
fn tells_both<S: Shelf>(rt: &impl Abort, book: &mut Book<S>) -> bool {
    imported_in(rt, book, PeriodId(0)) == Ok((1_500, 0))
        && imported_in(rt, book, PeriodId(1)) == Ok((1_501, 0))
        && imported(rt, book) == Ok((3_001, 0))
        && money(rt, book, FIRST) == Ok((5_000, 49_324_750_000))
}

// What is told in this order is answered so, as the definitions ask, and kept by period.
fn is_answered<S: Shelf + Drop>(rt: &impl Abort, alloc: Global, mut book: Book<S>, told: &[Sent]) {
    let entries = entries_of(rt, alloc, told);
    takes_each(rt, alloc, &mut book, told);
    assert!(rt; tells_both(rt, &mut book) && periods_agree(rt, alloc, &mut book, &entries));
    book_and_store_agree(rt, alloc, book, &entries, 4);
}

// bears on: pw_book book/questions.rt Book::balance balance
// bears on: pw_book book/questions.rt Book::energy energy
// bears on: pw_book book/questions.rt Book::energy_in energy
// bears on: pw_book book/questions.rt Book::energy_in memory
// bears on: pw_model laws.rt energy_is_of_periods ensures
// bears on: pw_model laws.rt one_more_reading ensures
// bears on: pw_model plain/energies.rt energy_in ensures
// bears on: pw_parts parts.rt true_parts ensures
// bears on: pw_shelf shelf.rt Shelf::total amount
// bears on: pw_shelf shelf.rt Shelf::total_put put
pub(super) fn energies_by_period<B: Books>(rt: &impl Abort, alloc: Global, books: &B) {
    let office = rising_office(alloc).expect(rt, "the office's text");
    for told in [EARLY_FIRST, LATE_FIRST] {
        let book = books.empty(rt, alloc, &office, 100).expect(rt, "a book");
        is_answered(rt, alloc, book, &told);
    }
}
