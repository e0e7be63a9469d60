//! Questions to a book whose device fails, to one that is shut, and what questions cost.

use super::counted::upload;
use super::{Books, Counting, Fails, asking, imported, takes};
use pw_book::{Book, BookFault};
use pw_obis::Register;
use pw_shelf::{CountShelf, Shelf};
use pw_tariff::{Direction, PeriodId};
use pw_tests::ends::done;
use pw_tests::offices::{TWO_METERS, rising_office};
use pw_tests::sample::{FIRST, LOW, METER, PERIOD};
use std::alloc::Global;
use std::process::Abort;

// What a book is asked.
#[derive(Clone, Copy)]
enum Question {
    // both energies that the first account imported
    Imported,
    // the first of them, and that within a period
    ImportedLow,
    ImportedLowIn(PeriodId),
    ToppedUp,
    Balance,
    Count,
    Listed(List),
}

// What it is asked for a list of.
#[derive(Clone, Copy)]
enum List {
    Readings,
    Falls,
    Disputes,
    Withdrawals,
}

const QUESTIONS: [Question; 9] = [
    Question::Imported,
    Question::ImportedLowIn(PERIOD),
    Question::ToppedUp,
    Question::Balance,
    Question::Listed(List::Readings),
    Question::Listed(List::Falls),
    Question::Listed(List::Disputes),
    Question::Listed(List::Withdrawals),
    Question::Count,
];

// Why a list isn't told, if it isn't.
fn fault_of_list<S: Shelf>(
    rt: &impl Abort,
    alloc: Global,
    book: &mut Book<S>,
    list: List,
) -> Option<BookFault> {
    match list {
        List::Readings => asking::readings(rt, alloc, book, METER, Register::I1).err(),
        List::Falls => asking::falls(alloc, book).err(),
        List::Disputes => asking::disputes(alloc, book).err(),
        List::Withdrawals => asking::withdrawals(alloc, book).err(),
    }
}

// Why a question isn't answered, if it isn't.
fn fault_of<S: Shelf>(
    rt: &impl Abort,
    alloc: Global,
    book: &mut Book<S>,
    question: Question,
) -> Option<BookFault> {
    match question {
        Question::Imported => imported(rt, book).err(),
        Question::ImportedLow => {
            asking::energy(rt, book, (Some(FIRST), LOW, Direction::Import)).err()
        }
        Question::ImportedLowIn(period) => {
            asking::energy_in(rt, book, period, (Some(FIRST), LOW, Direction::Import)).err()
        }
        Question::ToppedUp => asking::topped_up(rt, book, FIRST).err(),
        Question::Balance => asking::balance(rt, book, FIRST).err(),
        Question::Count => asking::count(book).err(),
        Question::Listed(list) => fault_of_list(rt, alloc, book, list),
    }
}

// No question is answered but with the words that the book has to be opened again.
pub(super) fn none_is_answered<S: Shelf>(rt: &impl Abort, alloc: Global, book: &mut Book<S>) {
    for question in QUESTIONS {
        let fault = fault_of(rt, alloc, book, question);
        assert!(rt; fault == Some(BookFault::Reopen));
    }
}

// A question to a device that fails at its first call, and again.
fn fails_once<S: Shelf>(rt: &impl Abort, alloc: Global, book: &mut Book<S>, question: Question) {
    let fault = fault_of(rt, alloc, book, question);
    assert!(rt; fault == Some(BookFault::Device));
    assert!(rt; fault_of(rt, alloc, book, question).is_none());
}

// Each question to such a device.
// bears on: pw_book book/questions.rt Book::readings question
// bears on: pw_book book/questions.rt Book::withdrawals question
// bears on: pw_book fault.rt BookFault from_gives
pub(super) fn failing_device<B: Books>(rt: &impl Abort, alloc: Global, books: &B) {
    let first = Fails {
        at: 1,
        of_abandon: false,
    };
    for question in QUESTIONS {
        let mut book = books.failing(rt, alloc, first).expect(rt, "a book");
        fails_once(rt, alloc, &mut book, question);
        done(book);
    }
}

// The calls and rows that an upload and these questions behind it take.
fn seen_behind<S: Shelf + Drop>(
    rt: &impl Abort,
    alloc: Global,
    mut book: Book<CountShelf<S>>,
    questions: &[Question],
) -> u64 {
    takes(rt, alloc, &mut book, &upload(rt), (4, 0));
    for question in questions {
        assert!(rt; fault_of(rt, alloc, &mut book, *question).is_none());
    }
    book.into_shelf().seen()
}

// The same of an office over a store in memory.
fn seen_in_memory(rt: &impl Abort, alloc: Global, office: &str, questions: &[Question]) -> u64 {
    let book = Counting.empty(rt, alloc, office, 100).expect(rt, "a book");
    seen_behind(rt, alloc, book, questions)
}

// Each question takes some, and so many at most.
fn are_cheap(rt: &impl Abort, alloc: Global, office: &str, rows: &[(Question, u64)]) {
    let before = seen_in_memory(rt, alloc, office, &[]);
    for (question, most) in rows {
        let behind = seen_in_memory(rt, alloc, office, &[*question]);
        assert!(rt; before < behind && behind.saturating_sub(before) <= *most);
    }
}

// An energy, where there is one period, and what was topped up, takes at most 2; a balance over two bands at most 10.
// bears on: pw_book book/questions.rt Book::balance cost
// bears on: pw_book book/questions.rt Book::energy cost
// bears on: pw_book book/questions.rt Book::energy_in cost
// bears on: pw_book book/questions.rt Book::topped_up cost
#[test]
fn costs(rt: HostRuntime) {
    let rows = [
        (Question::Imported, 4),
        (Question::ImportedLowIn(PERIOD), 2),
        (Question::ToppedUp, 2),
        (Question::Balance, 10),
    ];
    are_cheap(&rt, rt.alloc(), TWO_METERS, &rows);
}

// Of two periods an energy takes at most 4, that of one at most 2, and a balance over two bands at most 18.
// bears on: pw_book book/questions.rt Book::balance cost
// bears on: pw_book book/questions.rt Book::energy cost
// bears on: pw_book book/questions.rt Book::energy_in cost
#[test]
fn costs_of_two_periods(rt: HostRuntime) {
    let rows = [
        (Question::ImportedLow, 4),
        (Question::ImportedLowIn(PeriodId(1)), 2),
        (Question::Balance, 18),
    ];
    let office = rising_office(rt.alloc()).expect(&rt, "the office's text");
    are_cheap(&rt, rt.alloc(), &office, &rows);
}
