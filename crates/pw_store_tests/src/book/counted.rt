//! The book over a store that counts its calls and rows, and over one whose device fails.

use super::agreeing::all_agree;
use super::questions::none_is_answered;
use super::{Books, Fails, InMemory, asking, imported, lengths, money, post, takes};
use crate::entries::{Sent, add, assigned, entry_of, reading, top_up};
use pw_book::{Book, PostFault};
use pw_model::Entry;
use pw_obis::Register;
use pw_shelf::{CountShelf, Shelf};
use pw_tests::ends::done;
use pw_tests::sample::{FIRST, FIVE, METER, NEW_YEAR, SECOND, SEVEN};
use std::alloc::Global;
use std::process::Abort;

// Ten days behind the new year, 2024-01-11T05:00:00Z: an hour of one band, and no change of it near.
const MIDDLE: u32 = FIVE + 777_600;

// An owner, and readings five minutes apart from an instant on.
fn rising(rt: &impl Abort, alloc: Global, from: u32, number: u32) -> Vec<Entry> {
    let mut entries = Vec::new(alloc);
    add(rt, &mut entries, assigned(rt, NEW_YEAR, Some(FIRST)));
    let mut second = from;
    let mut watt_hours = 1_000u64;
    for _ in 0..number {
        add(rt, &mut entries, reading(rt, second, watt_hours));
        second = second.saturating_add(300);
        watt_hours = watt_hours.saturating_add(100);
    }
    entries
}

// An upload of records that aren't held.
fn takes_fresh<S: Shelf>(rt: &impl Abort, alloc: Global, book: &mut Book<S>, upload: &[Entry]) {
    assert!(rt; upload.len() <= 2_000);
    takes(rt, alloc, book, upload, (upload.len() as u32, 0));
}

fn take_all<S: Shelf>(rt: &impl Abort, alloc: Global, book: &mut Book<S>, uploads: &[&[Entry]]) {
    for upload in uploads {
        takes_fresh(rt, alloc, book, upload);
    }
}

fn seen_in<S: Shelf + Drop>(
    rt: &impl Abort,
    alloc: Global,
    mut book: Book<CountShelf<S>>,
    uploads: &[&[Entry]],
) -> u64 {
    take_all(rt, alloc, &mut book, uploads);
    book.into_shelf().seen()
}

// The calls and rows that these uploads to a store in memory take, one behind another, each of records that aren't held.
pub(super) fn seen_by(rt: &impl Abort, alloc: Global, uploads: &[&[Entry]]) -> u64 {
    let book = InMemory
        .failing(rt, alloc, Fails::NEVER)
        .expect(rt, "a book");
    seen_in(rt, alloc, book, uploads)
}

// The calls and rows that one more record takes over those held.
fn cost_of(rt: &impl Abort, alloc: Global, held: &[Entry], fresh: Entry) -> u64 {
    let before = seen_by(rt, alloc, &[held]);
    let behind = seen_by(rt, alloc, &[held, &[fresh]]);
    behind.saturating_sub(before)
}

// The cost of a reading in the middle of so many.
fn reading_cost(rt: &impl Abort, alloc: Global, number: u32) -> u64 {
    let half = number / 2;
    let from = MIDDLE.saturating_sub(half.saturating_mul(300));
    let watt_hours = u64::from(half).saturating_mul(100).saturating_add(1_050);
    let fresh = reading(rt, MIDDLE + 150, watt_hours);
    let held = rising(rt, alloc, from, number);
    cost_of(rt, alloc, &held, fresh)
}

// The cost of an assignment with so many readings behind the next one.
fn assignment_cost(rt: &impl Abort, alloc: Global, number: u32) -> u64 {
    let next = assigned(rt, MIDDLE + 1_700, Some(FIRST));
    let fresh = assigned(rt, MIDDLE + 400, Some(SECOND));
    let mut held = rising(rt, alloc, MIDDLE, number.saturating_add(6));
    add(rt, &mut held, next);
    cost_of(rt, alloc, &held, fresh)
}

// The cost of a reading behind the last of one band, counted by hand: `count`, `holds`, `begin`, `add`, `contents_at` with
// its row, the start with its row, the point before with its row, none behind, `point_put`, a total with its row,
// `total_put` and `commit`.
// bears on: pw_book book.rt Book::post cost
// bears on: pw_book book.rt Book::post_distinct cost
#[test]
fn calls_and_rows_of_a_reading(rt: HostRuntime) {
    let fresh = reading(&rt, MIDDLE + 900, 1_300);
    let held = rising(&rt, rt.alloc(), MIDDLE, 3);
    assert!(rt; cost_of(&rt, rt.alloc(), &held, fresh) == 16);
}

// bears on: pw_book book.rt Book::post cost
#[test]
fn same_count_among_few_and_many(rt: HostRuntime) {
    let few = reading_cost(&rt, rt.alloc(), 10);
    assert!(rt; 0 < few && reading_cost(&rt, rt.alloc(), 1_000) == few);
    let few = assignment_cost(&rt, rt.alloc(), 10);
    assert!(rt; 0 < few && assignment_cost(&rt, rt.alloc(), 1_000) == few);
}

fn payment(rt: &impl Abort, alloc: Global, place: u32) -> Entry {
    let reference = format!(in alloc; "P{place}").expect(rt, "a reference");
    top_up(rt, reference.as_bytes(), FIRST, 1)
}

// So many payments.
fn payments(rt: &impl Abort, alloc: Global, number: u32) -> Vec<Entry> {
    let mut entries = Vec::new(alloc);
    for place in 0..number {
        add(rt, &mut entries, payment(rt, alloc, place));
    }
    entries
}

// A top-up among those held takes at most 24 calls and rows.
fn topup_cost(rt: &impl Abort, alloc: Global, held: &[Entry]) {
    let cost = cost_of(rt, alloc, held, top_up(rt, b"P", FIRST, 1));
    assert!(rt; 0 < cost && cost <= 24);
}

// So does an empty upload.
fn empty_cost(rt: &impl Abort, alloc: Global, held: &[Entry]) {
    let before = seen_by(rt, alloc, &[held]);
    let behind = seen_by(rt, alloc, &[held, &[]]);
    assert!(rt; before < behind && behind <= before.saturating_add(24));
}

// bears on: pw_book book.rt Book::post cost
#[test]
fn payments_among_1000(rt: HostRuntime) {
    let held = payments(&rt, rt.alloc(), 1_000);
    topup_cost(&rt, rt.alloc(), &held);
    empty_cost(&rt, rt.alloc(), &held);
}

// So many owners, two at each instant, of whom none counts.
fn disputed(rt: &impl Abort, alloc: Global, number: u32) -> Vec<Entry> {
    let mut entries = Vec::new(alloc);
    for place in 0..number {
        let second = NEW_YEAR.saturating_add((place / 2).saturating_mul(60));
        let owner = if place % 2 == 0 { FIRST } else { SECOND };
        add(rt, &mut entries, assigned(rt, second, Some(owner)));
    }
    entries
}

// With no counting start and no point, two bands and two accounts, an assignment takes at most 56 + 4 + 12 * 6.
// bears on: pw_book book.rt Book::post cost
#[test]
fn assignment_among_1000_disputed(rt: HostRuntime) {
    let fresh = assigned(&rt, MIDDLE, None);
    let held = disputed(&rt, rt.alloc(), 1_000);
    let cost = cost_of(&rt, rt.alloc(), &held, fresh);
    assert!(rt; 0 < cost && cost <= 132);
}

// A withdrawal of a reading takes no more than a reading may, with one counting start: 24 + 4 * 2 + 6 * 6.
// bears on: pw_book book.rt Book::post cost
// bears on: pw_model laws.rt one_more_bearing ensures
#[test]
fn withdrawal_of_a_reading(rt: HostRuntime) {
    let held = rising(&rt, rt.alloc(), MIDDLE, 10);
    let fresh = entry_of(
        &rt,
        Sent::ReadingWithdrawn(METER, Register::I1, MIDDLE, 1_000),
    );
    let cost = cost_of(&rt, rt.alloc(), &held, fresh);
    assert!(rt; 0 < cost && cost <= 68);
}

// The upload that fails: an owner, two readings and a payment.
pub(super) fn upload(rt: &impl Abort) -> [Entry; 4] {
    [
        assigned(rt, NEW_YEAR, Some(FIRST)),
        reading(rt, FIVE, 1_000_000),
        reading(rt, SEVEN, 1_003_001),
        top_up(rt, b"P1", FIRST, 5_000),
    ]
}

// A book that has to be opened again answers nothing else.
fn is_shut<S: Shelf>(rt: &impl Abort, alloc: Global, book: &mut Book<S>) {
    let again = post(rt, alloc, book, &upload(rt));
    assert!(rt; again == Err(PostFault::Reopen));
    none_is_answered(rt, alloc, book);
}

// Whether the questions are answered as this upload asks.
fn tells_upload<S: Shelf>(rt: &impl Abort, alloc: Global, book: &mut Book<S>) -> bool {
    imported(rt, book) == Ok((1_500, 1_501))
        && money(rt, book, FIRST) == Ok((5_000, 49_249_700_000))
        && lengths(rt, alloc, book) == Ok((0, 0, 2))
        && asking::count(book) == Ok(4)
}

// An upload that was taken back left nothing, and is taken the next time.
fn is_as_before<S: Shelf>(rt: &impl Abort, alloc: Global, book: &mut Book<S>) {
    assert!(rt; all_agree(rt, alloc, book, &[], 0));
    takes(rt, alloc, book, &upload(rt), (4, 0));
    assert!(rt; tells_upload(rt, alloc, book));
}

// Takes one upload over a device that fails at a call, and again where nothing was begun: what it was first answered.
fn taken_failing<S: Shelf>(
    rt: &impl Abort,
    alloc: Global,
    book: &mut Book<S>,
) -> Option<PostFault> {
    let told = post(rt, alloc, book, &upload(rt));
    match told {
        Ok(counts) => assert!(rt; counts == (4, 0)),
        Err(PostFault::Reopen) => is_shut(rt, alloc, book),
        Err(_) => is_as_before(rt, alloc, book),
    }
    told.err()
}

fn told_failing<B: Books>(
    rt: &impl Abort,
    alloc: Global,
    books: &B,
    fail_at: u32,
    abandon_fails: bool,
) -> Option<PostFault> {
    let fails = Fails {
        at: fail_at,
        of_abandon: abandon_fails,
    };
    let mut book = books.failing(rt, alloc, fails).expect(rt, "a book");
    let told = taken_failing(rt, alloc, &mut book);
    done(book);
    told
}

// Takes one upload over a device that fails at the first call, at the second, and so on, until it is taken: at which
// call no more, and whether a book had to be opened again, from which call on each has to be.
fn taken_at_last<B: Books>(
    rt: &impl Abort,
    alloc: Global,
    books: &B,
    abandon_fails: bool,
) -> (u32, bool) {
    let mut begun = false;
    for fail_at in 1..200 {
        let Some(fault) = told_failing(rt, alloc, books, fail_at, abandon_fails) else {
            return (fail_at, begun);
        };
        begun = begun || fault == PostFault::Reopen;
        let expected = if begun {
            PostFault::Reopen
        } else {
            PostFault::Device
        };
        assert!(rt; fault == expected);
    }
    panic!(rt; "an upload takes fewer calls")
}

// bears on: pw_book book.rt Book::post failures
// bears on: pw_book book.rt Book::post posted
// bears on: pw_book book.rt Book::post reopen
// bears on: pw_book book.rt Book::post_distinct reopen
// bears on: pw_shelf shelf.rt Shelf::begin unbegun
// bears on: pw_shelf shelf.rt Shelf::commit begun
pub(super) fn failing_device<B: Books>(rt: &impl Abort, alloc: Global, books: &B) {
    let (fail_at, begun) = taken_at_last(rt, alloc, books, false);
    assert!(rt; fail_at > 20 && !begun);
}

// bears on: pw_book book.rt Book idle
// bears on: pw_book book.rt Book::post reopen
// bears on: pw_book book.rt Book::post shut
// bears on: pw_book book.rt Book::post_distinct shut
// bears on: pw_book book.rt Book::post untouched
// bears on: pw_book book.rt Book::post_distinct untouched
// bears on: pw_book book/questions.rt Book::balance question
// bears on: pw_book book/questions.rt Book::count question
// bears on: pw_book book/questions.rt Book::disputes question
// bears on: pw_book book/questions.rt Book::energy question
// bears on: pw_book book/questions.rt Book::energy_in question
// bears on: pw_book book/questions.rt Book::falls question
// bears on: pw_book book/questions.rt Book::topped_up question
pub(super) fn failing_device_and_abandon<B: Books>(rt: &impl Abort, alloc: Global, books: &B) {
    let (_, begun) = taken_at_last(rt, alloc, books, true);
    assert!(rt; begun);
}
