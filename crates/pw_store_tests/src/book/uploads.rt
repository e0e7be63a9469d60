//! Records of all kinds, told one at a time: behind each of them the book answers what the definitions give, its store keeps
//! the parts of all, and a book that has room for no more refuses the next.

use super::kept::book_and_store_agree;
use super::{Books, OTHER, post, takes};
use crate::entries::{Sent, add, entry_of, top_up};
use pw_book::{Book, Entry, PostFault};
use pw_obis::Register;
use pw_shelf::Shelf;
use pw_tests::offices::TWO_METERS;
use pw_tests::sample::{FIRST, FIVE, METER, NEW_YEAR, SECOND, SEVEN, SIX};
use std::alloc::Global;
use std::process::Abort;

// What is told, and how many of it are fresh and repeated.
#[derive(Clone, Copy)]
struct Step(Sent, (u32, u32));

const FRESH: (u32, u32) = (1, 0);

const REPEATED: (u32, u32) = (0, 1);

const HALF_PAST_FIVE: u32 = FIVE + 1_800;

const HALF_PAST_SIX: u32 = SIX + 1_800;

// Of the first meter a late reading, which then is disputed, and owners of whom two dispute each other; of the other one
// exported energy, with a fall that a dispute settles and one that stays; and payments of which two dispute each other.
const STEPS: [Step; 22] = [
    Step(Sent::Assignment(METER, NEW_YEAR, Some(FIRST)), FRESH),
    Step(Sent::Reading(METER, Register::I1, SEVEN, 1_003_001), FRESH),
    Step(Sent::TopUp(b"P1", FIRST, 5_000), FRESH),
    Step(Sent::Reading(METER, Register::I1, FIVE, 1_000_000), FRESH),
    Step(Sent::Reading(METER, Register::I1, SIX, 1_001_000), FRESH),
    Step(Sent::Assignment(METER, HALF_PAST_SIX, Some(SECOND)), FRESH),
    Step(Sent::Assignment(METER, HALF_PAST_SIX, None), FRESH),
    Step(Sent::Reading(METER, Register::I1, SIX, 1_001_500), FRESH),
    Step(Sent::Reading(METER, Register::I1, SIX, 1_001_000), REPEATED),
    Step(Sent::Reading(METER, Register::I1, SIX, 1_001_200), FRESH),
    Step(Sent::Assignment(METER, HALF_PAST_FIVE, None), FRESH),
    Step(Sent::Reading(OTHER, Register::E1, FIVE, 100_000), FRESH),
    Step(Sent::Reading(OTHER, Register::E1, SIX, 50_000), FRESH),
    Step(Sent::Reading(OTHER, Register::E1, SEVEN, 120_000), FRESH),
    Step(Sent::Assignment(OTHER, NEW_YEAR, Some(SECOND)), FRESH),
    Step(Sent::Reading(OTHER, Register::E1, SIX, 60_000), FRESH),
    Step(
        Sent::Reading(OTHER, Register::E1, HALF_PAST_FIVE, 110_000),
        FRESH,
    ),
    Step(Sent::Reading(OTHER, Register::E2, SIX, 6), FRESH),
    Step(Sent::Reading(OTHER, Register::E2, SEVEN, 5), FRESH),
    Step(Sent::TopUp(b"P2", SECOND, 150), FRESH),
    Step(Sent::TopUp(b"P1", FIRST, 3_000), FRESH),
    Step(Sent::TopUp(b"P1", FIRST, 5_000), REPEATED),
];

fn entries_of(rt: &impl Abort, alloc: Global, steps: &[Step]) -> Vec<Entry> {
    let mut entries = Vec::new(alloc);
    for Step(sent, _) in steps {
        add(rt, &mut entries, entry_of(rt, *sent));
    }
    entries
}

// How many records are held behind these steps.
fn held_behind(steps: &[Step]) -> u32 {
    let mut held = 0u32;
    for Step(_, (fresh, _)) in steps {
        held = held.saturating_add(*fresh);
    }
    held
}

// Takes an upload of nothing, and then one of each step, which tells it twice.
fn takes_each<S: Shelf>(rt: &impl Abort, alloc: Global, book: &mut Book<S>, steps: &[Step]) {
    takes(rt, alloc, book, &[], (0, 0));
    for Step(sent, counts) in steps {
        takes(rt, alloc, book, &[entry_of(rt, *sent); 2], *counts);
    }
}

// A book that holds as many records as it may refuses another.
pub(super) fn is_full<S: Shelf>(rt: &impl Abort, alloc: Global, book: &mut Book<S>, held: u32) {
    let full = PostFault::Full { held, limit: held };
    assert!(rt; post(rt, alloc, book, &[top_up(rt, b"P3", FIRST, 1)]) == Err(full));
}

// Takes all steps, behind which a book that has room for just what they give is full.
fn takes_all<S: Shelf>(
    rt: &impl Abort,
    alloc: Global,
    book: &mut Book<S>,
    steps: &[Step],
    held: u32,
) {
    takes_each(rt, alloc, book, steps);
    if held > 0 {
        is_full(rt, alloc, book, held);
    }
}

// Behind these steps an empty book, with room for just what they give, agrees, and so does its store.
fn agrees_behind<S: Shelf + Drop>(
    rt: &impl Abort,
    alloc: Global,
    mut book: Book<S>,
    steps: &[Step],
    held: u32,
) {
    takes_all(rt, alloc, &mut book, steps, held);
    book_and_store_agree(rt, alloc, book, &entries_of(rt, alloc, steps), held);
}

// bears on: pw_book book.rt Book of_office
// bears on: pw_book book.rt Book truth
// bears on: pw_book book.rt Book::new open_yet
// bears on: pw_book book.rt Book::post posted
// bears on: pw_book book/questions.rt Book::count count
// bears on: pw_book book/questions.rt Book::count memory
// bears on: pw_book book/questions.rt Book::energy question
// bears on: pw_model laws.rt count_is_length ensures
// bears on: pw_model laws.rt empty_content_is_true ensures
// bears on: pw_model laws.rt one_more_assignment ensures
// bears on: pw_model laws.rt one_more_payment ensures
// bears on: pw_model laws.rt one_more_reading ensures
// bears on: pw_model laws.rt one_more_record ensures
// bears on: pw_model laws.rt other_start_window ensures
// bears on: pw_model laws.rt true_contents_are_alike ensures
// bears on: pw_parts parts.rt true_parts ensures
// bears on: pw_shelf memory.rt MemoryShelf::new content
// bears on: pw_shelf memory.rt MemoryShelf::new left
// bears on: pw_shelf shelf.rt Shelf::total amount
// bears on: pw_shelf shelf.rt Shelf::total_put put
pub(super) fn agrees_behind_each<B: Books>(rt: &impl Abort, alloc: Global, books: &B) {
    for number in 0..STEPS.len() + 1 {
        let (steps, _) = STEPS.split_at(number);
        let held = held_behind(steps);
        let book = books
            .empty(rt, alloc, TWO_METERS, held.max(1))
            .expect(rt, "a book");
        agrees_behind(rt, alloc, book, steps, held);
    }
}
