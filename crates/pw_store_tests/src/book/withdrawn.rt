//! Withdrawals, told one at a time: behind each of them the book answers what the definitions give, and its store keeps the
//! parts of all.

use super::agreeing::is_list;
use super::kept::book_and_store_agree;
use super::{Books, asking, takes};
use crate::entries::{Sent, entries_of};
use pw_book::{Book, Entry};
use pw_obis::Register;
use pw_shelf::Shelf;
use pw_tests::ends::done;
use pw_tests::offices::TWO_METERS;
use pw_tests::sample::{FIRST, FIVE, METER, NEW_YEAR, SECOND, SEVEN, SIX};
use std::alloc::Global;
use std::process::Abort;

const HALF_PAST_FIVE: u32 = FIVE + 1_800;

// A pair of readings of an owner, and three values between the two: one is withdrawn before it comes, one behind, and then
// the last of them too. Behind these an owner from half past five on, withdrawn behind, and a payment, withdrawn before it
// comes: its reference is free.
const TOLD: [Sent; 14] = [
    Sent::ReadingWithdrawn(METER, Register::I1, SIX, 1_001_500),
    Sent::Assignment(METER, NEW_YEAR, Some(FIRST)),
    Sent::Reading(METER, Register::I1, FIVE, 1_000_000),
    Sent::Reading(METER, Register::I1, SEVEN, 1_003_001),
    Sent::Reading(METER, Register::I1, SIX, 1_001_000),
    Sent::Reading(METER, Register::I1, SIX, 1_001_500),
    Sent::Reading(METER, Register::I1, SIX, 1_001_200),
    Sent::ReadingWithdrawn(METER, Register::I1, SIX, 1_001_200),
    Sent::ReadingWithdrawn(METER, Register::I1, SIX, 1_001_000),
    Sent::Assignment(METER, HALF_PAST_FIVE, Some(SECOND)),
    Sent::AssignmentWithdrawn(METER, HALF_PAST_FIVE, Some(SECOND)),
    Sent::TopUpWithdrawn(b"P1", FIRST, 5_000),
    Sent::TopUp(b"P1", FIRST, 5_000),
    Sent::TopUp(b"P1", SECOND, 700),
];

// The withdrawals among these, in the order of what they name.
const WITHDRAWALS: [Sent; 5] = [
    Sent::ReadingWithdrawn(METER, Register::I1, SIX, 1_001_000),
    Sent::ReadingWithdrawn(METER, Register::I1, SIX, 1_001_200),
    Sent::ReadingWithdrawn(METER, Register::I1, SIX, 1_001_500),
    Sent::AssignmentWithdrawn(METER, HALF_PAST_FIVE, Some(SECOND)),
    Sent::TopUpWithdrawn(b"P1", FIRST, 5_000),
];

// Whether a book lists the withdrawals behind an upload of all that is told.
fn lists_withdrawals<S: Shelf>(
    rt: &impl Abort,
    alloc: Global,
    book: &mut Book<S>,
    told: &[Entry],
) -> bool {
    takes(rt, alloc, book, told, (told.len().min(100) as u32, 0));
    let withdrawals = entries_of(rt, alloc, &WITHDRAWALS);
    is_list(asking::withdrawals(alloc, book), &withdrawals)
}

// Takes an upload of each record, and then the same again.
fn takes_each_twice<S: Shelf>(rt: &impl Abort, alloc: Global, book: &mut Book<S>, told: &[Entry]) {
    for entry in told {
        takes(rt, alloc, book, &[*entry], (1, 0));
        takes(rt, alloc, book, &[*entry], (0, 1));
    }
}

fn agrees_behind<S: Shelf + Drop>(
    rt: &impl Abort,
    alloc: Global,
    mut book: Book<S>,
    told: &[Entry],
) {
    takes_each_twice(rt, alloc, &mut book, told);
    book_and_store_agree(rt, alloc, book, told, told.len().min(100) as u32);
}

// bears on: pw_book book.rt Book::post posted
// bears on: pw_book book/questions.rt Book::disputes disputes
// bears on: pw_book book/questions.rt Book::readings readings
// bears on: pw_book book/questions.rt Book::withdrawals withdrawals
// bears on: pw_model laws.rt one_more_bearing ensures
// bears on: pw_model laws.rt one_more_payment ensures
// bears on: pw_shelf shelf.rt Shelf::add added
// bears on: pw_shelf shelf.rt Shelf::contents_at rows
// bears on: pw_shelf shelf.rt Shelf::withdrawals rows
pub(super) fn withdrawn_records<B: Books>(rt: &impl Abort, alloc: Global, books: &B) {
    let told = entries_of(rt, alloc, &TOLD);
    for number in 0..told.len() + 1 {
        let book = books.empty(rt, alloc, TWO_METERS, 100).expect(rt, "a book");
        agrees_behind(rt, alloc, book, told.split_at(number).0);
    }
    let mut book = books.empty(rt, alloc, TWO_METERS, 100).expect(rt, "a book");
    assert!(rt; lists_withdrawals(rt, alloc, &mut book, &told));
    done(book);
}
