//! Rows worked out by hand, over a store in memory that counts its calls: what the first account imported behind each
//! upload, which comes twice, and what is told behind the last one. A book that has room for just these records is full
//! then, and it and its store agree with the definitions.

mod steps;

use super::kept::book_and_store_agree;
use super::uploads::is_full;
use super::{Books, Counting, imported, lengths, money, takes};
use crate::entries::{Sent, add, entries_of, entry_of};
use pw_book::{Book, Entry};
use pw_shelf::Shelf;
use pw_tests::offices::TWO_METERS;
use pw_tests::sample::{FIRST, SECOND};
use std::alloc::Global;
use std::process::Abort;
use steps::{
    EXPORTED, FALL, FALL_DISPUTED, FALL_SETTLED, LATE_READINGS, LISTS, OWNER_BEHIND,
    OWNER_PAYMENT_READINGS, OWNER_READINGS_PAYMENT, PAID_LESS_FIRST, PAID_MORE_FIRST, PAID_ONCE,
    PASSED, PASSED_BACK, PASSED_TO_NOBODY, PASSED_TO_SECOND, PAYMENT_OWNER_READINGS,
    PAYMENT_READINGS_OWNER, READINGS_OWNER_PAYMENT, READINGS_PAYMENT_OWNER, Step, THREE_PAID,
};

// Uploads, how many records are held behind them, for both accounts what was topped up, in cents, with the balance, in
// nano-euro, and how many falls, disputes and readings of the first register there are.
#[derive(Clone, Copy)]
struct Row(
    &'static [Step],
    u32,
    (u64, i128),
    (u64, i128),
    (usize, usize, usize),
);

// A Wh of the low band costs 200,000 nano-euro, one of the high band 300,000, and one exported gives 50,000.
const ROWS: [Row; 22] = [
    Row(&[], 0, (0, 0), (0, 0), (0, 0, 0)),
    Row(LATE_READINGS, 6, (0, -750_300_000), (0, 0), (0, 1, 5)),
    Row(OWNER_BEHIND, 4, (5_000, 49_249_700_000), (0, 0), (0, 0, 2)),
    Row(EXPORTED, 3, (0, 150_050_000), (0, 0), (0, 0, 0)),
    Row(FALL, 4, (0, -21_000_000_000), (0, 0), (1, 0, 3)),
    Row(FALL_DISPUTED, 5, (0, -5_000_000_000), (0, 0), (0, 1, 4)),
    Row(FALL_SETTLED, 8, (0, -4_666_700_000), (0, 0), (0, 2, 5)),
    Row(LISTS, 16, (0, 0), (0, 0), (3, 5, 4)),
    Row(
        OWNER_READINGS_PAYMENT,
        4,
        (5_000, 49_249_700_000),
        (0, 0),
        (0, 0, 2),
    ),
    Row(
        OWNER_PAYMENT_READINGS,
        4,
        (5_000, 49_249_700_000),
        (0, 0),
        (0, 0, 2),
    ),
    Row(
        READINGS_OWNER_PAYMENT,
        4,
        (5_000, 49_249_700_000),
        (0, 0),
        (0, 0, 2),
    ),
    Row(
        READINGS_PAYMENT_OWNER,
        4,
        (5_000, 49_249_700_000),
        (0, 0),
        (0, 0, 2),
    ),
    Row(
        PAYMENT_OWNER_READINGS,
        4,
        (5_000, 49_249_700_000),
        (0, 0),
        (0, 0, 2),
    ),
    Row(
        PAYMENT_READINGS_OWNER,
        4,
        (5_000, 49_249_700_000),
        (0, 0),
        (0, 0, 2),
    ),
    Row(
        PASSED_TO_SECOND,
        5,
        (5_000, 49_850_000_000),
        (0, -600_300_000),
        (0, 0, 2),
    ),
    Row(
        PASSED_TO_NOBODY,
        5,
        (5_000, 49_850_000_000),
        (0, 0),
        (0, 0, 2),
    ),
    Row(PASSED, 5, (0, -500_000_000), (0, -300_300_000), (0, 0, 3)),
    Row(PASSED_BACK, 6, (0, -800_300_000), (0, 0), (0, 1, 3)),
    Row(PAID_ONCE, 1, (2_000, 20_000_000_000), (0, 0), (0, 0, 0)),
    Row(PAID_LESS_FIRST, 2, (0, 0), (0, 0), (0, 1, 0)),
    Row(PAID_MORE_FIRST, 2, (0, 0), (0, 0), (0, 1, 0)),
    Row(THREE_PAID, 3, (6, 60_000_000), (0, 0), (0, 0, 0)),
];

fn add_all(rt: &impl Abort, entries: &mut Vec<Entry>, upload: &[Sent]) {
    for sent in upload {
        add(rt, entries, entry_of(rt, *sent));
    }
}

// The entries of all uploads, one upload behind another.
fn told_by(rt: &impl Abort, alloc: Global, steps: &[Step]) -> Vec<Entry> {
    let mut entries = Vec::new(alloc);
    for Step(upload, _, _) in steps {
        add_all(rt, &mut entries, *upload);
    }
    entries
}

// Takes an upload, and then the same again.
fn takes_twice<S: Shelf>(
    rt: &impl Abort,
    alloc: Global,
    book: &mut Book<S>,
    upload: &[Sent],
    (fresh, repeated): (u32, u32),
) {
    let entries = entries_of(rt, alloc, upload);
    takes(rt, alloc, book, &entries, (fresh, repeated));
    takes(
        rt,
        alloc,
        book,
        &entries,
        (0, fresh.saturating_add(repeated)),
    );
}

// Takes an upload of nothing, and then each upload twice, behind which the first account imported what is told.
fn takes_each<S: Shelf>(rt: &impl Abort, alloc: Global, book: &mut Book<S>, steps: &[Step]) {
    takes(rt, alloc, book, &[], (0, 0));
    for Step(upload, counts, both) in steps {
        takes_twice(rt, alloc, book, *upload, *counts);
        assert!(rt; imported(rt, book) == Ok(*both));
    }
}

// Whether the questions are answered as a row tells.
fn tells<S: Shelf>(rt: &impl Abort, alloc: Global, book: &mut Book<S>, row: &Row) -> bool {
    let Row(_, _, first, second, lists) = row;
    money(rt, book, FIRST) == Ok(*first)
        && money(rt, book, SECOND) == Ok(*second)
        && lengths(rt, alloc, book) == Ok(*lists)
}

// Takes the uploads of a row, behind which a book that has room for just what they give is full.
fn takes_row<S: Shelf>(rt: &impl Abort, alloc: Global, book: &mut Book<S>, row: &Row) {
    let Row(steps, held, _, _, _) = row;
    takes_each(rt, alloc, book, *steps);
    assert!(rt; tells(rt, alloc, book, row));
    if *held > 0 {
        is_full(rt, alloc, book, *held);
    }
}

// A row over an empty book.
fn row_holds<S: Shelf + Drop>(rt: &impl Abort, alloc: Global, mut book: Book<S>, row: &Row) {
    let Row(steps, held, _, _, _) = row;
    takes_row(rt, alloc, &mut book, row);
    book_and_store_agree(rt, alloc, book, &told_by(rt, alloc, *steps), *held);
}

// bears on: pw_book book.rt Book few
// bears on: pw_book book.rt Book of_office
// bears on: pw_book book.rt Book truth
// bears on: pw_book book.rt Book::new open_yet
// bears on: pw_book book.rt Book::post book
// bears on: pw_book book.rt Book::post memory
// bears on: pw_book book.rt Book::post posted
// bears on: pw_book book/questions.rt Book::balance balance
// bears on: pw_book book/questions.rt Book::count count
// bears on: pw_book book/questions.rt Book::disputes disputes
// bears on: pw_book book/questions.rt Book::energy energy
// bears on: pw_book book/questions.rt Book::falls falls
// bears on: pw_book book/questions.rt Book::readings readings
// bears on: pw_book book/questions.rt Book::topped_up topped_up
// bears on: pw_book laws.rt order_of_uploads_counts_nothing ensures
// bears on: pw_book laws.rt records_are_those_after_runs ensures
// bears on: pw_book laws.rt records_are_those_after_uploads ensures
// bears on: pw_model laws.rt one_more_assignment ensures
// bears on: pw_model laws.rt one_more_payment ensures
// bears on: pw_model laws.rt one_more_reading ensures
// bears on: pw_model laws.rt other_start_window ensures
// bears on: pw_parts parts.rt true_parts ensures
#[test]
fn worked_rows_with_calls_counted(rt: HostRuntime) {
    let alloc = rt.alloc();
    for row in ROWS {
        let Row(_, held, _, _, _) = row;
        let book = Counting
            .empty(&rt, alloc, TWO_METERS, held.max(1))
            .expect(&rt, "a book");
        row_holds(&rt, alloc, book, &row);
    }
}
