//! A book that holds more than its limit, the making of a book and its end, and the numbers, names and lines of its faults.

ghost use Rattle.std.specs.Prelude.{◌≡◌, ◌≤◌, None, IfOk, false};
ghost use Rattle.pw_model.specs.Office.{most_records};
ghost use Rattle.pw_model.specs.Shelf.{no_content};

use super::agreeing::all_agree;
use super::counted::seen_by;
use super::{book_of, counting_shelf, post};
use crate::entries::top_up;
use pw_book::{Book, BookFault, Entry, PostFault};
use pw_shelf::{MemoryShelf, Shelf};
use pw_tariff::{Office, OfficeFault};
use pw_tests::offices::TWO_METERS;
use pw_tests::sample::FIRST;
use pw_time::Zone;
use std::alloc::Global;
use std::process::Abort;

// An upload is refused, since with two records held a book for one has no room for it.
fn is_full<S: Shelf>(rt: &impl Abort, alloc: Global, book: &mut Book<S>, entries: &[Entry]) {
    let full = PostFault::Full { held: 2, limit: 1 };
    assert!(rt; post(rt, alloc, book, entries) == Err(full));
}

// A book over the store that another book of the office filled, with another limit.
fn with_limit<S: Shelf>(book: Book<S>, office: Office, limit: u32) -> Book<S>
    requires least { 1 ≤ limit }
    requires most { limit ≤ most_records }
    requires open { book.shut ≡ false }
    requires same { office ≡ book.office }
{
    let shelf = book.into_shelf();
    Book::new(office, Zone::central(), shelf, limit)
}

// A book that holds two records over a limit of one.
fn over_limit<S: Shelf + Drop>(rt: &impl Abort, alloc: Global, mut book: Book<S>, office: Office)
    requires { office ≡ book.office }
{
    let two = [top_up(rt, b"P1", FIRST, 1), top_up(rt, b"P2", FIRST, 1)];
    let told = post(rt, alloc, &mut book, &two).expect(rt, "an upload that is taken");
    assert!(rt; told == (2, 0));
    stays_over_limit(rt, alloc, &mut with_limit(book, office, 1), &two);
}

fn stays_over_limit<S: Shelf>(rt: &impl Abort, alloc: Global, book: &mut Book<S>, two: &[Entry]) {
    is_full(rt, alloc, book, &[]);
    is_full(rt, alloc, book, two);
    assert!(rt; all_agree(rt, alloc, book, two, 2));
}

// The office twice.
fn offices(alloc: Global) -> Result<(Office, Office), OfficeFault>
    ensures { IfOk result (λ both. both.0 ≡ both.1) }
{
    let office = Office::read(alloc, TWO_METERS.as_bytes())?;
    let again = Office::read(alloc, TWO_METERS.as_bytes())?;
    Ok((office, again))
}

// Such a book over an empty store.
fn over_limit_in<S: Shelf + Drop>(
    rt: &impl Abort,
    alloc: Global,
    shelf: S,
) -> Result<(), OfficeFault>
    requires empty { (S.state shelf).content ≡ no_content }
    requires idle { (S.state shelf).begun ≡ None }
{
    let (office, again) = offices(alloc)?;
    over_limit(rt, alloc, book_of(rt, office, shelf, 2), again);
    Ok(())
}

// bears on: pw_book book.rt Book limited
// bears on: pw_book book.rt Book::new limit
#[test]
fn over_its_limit(rt: HostRuntime) {
    let alloc = rt.alloc();
    assert!(rt; over_limit_in(&rt, alloc, MemoryShelf::new(alloc)).is_ok());
    assert!(rt; over_limit_in(&rt, alloc, counting_shelf(alloc)).is_ok());
}

// Neither the making of a book nor its end asks anything of the store.
// bears on: pw_book book.rt Book::into_shelf ensures
// bears on: pw_book book.rt Book::new shelf
#[test]
fn store_left_alone(rt: HostRuntime) {
    assert!(rt; seen_by(&rt, rt.alloc(), &[]) == 0);
}

fn post_faults_told(rt: &impl Abort) {
    let full = PostFault::Full { held: 3, limit: 3 };
    for (fault, number, name) in [
        (full, 60, "Full"),
        (PostFault::Device, 61, "Device"),
        (PostFault::Memory, 62, "Memory"),
        (PostFault::Reopen, 63, "Reopen"),
    ] {
        assert!(rt; fault.number() == number && fault.name() == name);
    }
}

fn book_faults_told(rt: &impl Abort) {
    for (fault, number, name) in [
        (BookFault::Device, 61, "Device"),
        (BookFault::Memory, 62, "Memory"),
        (BookFault::Reopen, 63, "Reopen"),
    ] {
        assert!(rt; fault.number() == number && fault.name() == name);
    }
}

// bears on: pw_book fault.rt BookFault::name ensures
// bears on: pw_book fault.rt BookFault::number ensures
// bears on: pw_book fault.rt PostFault::name ensures
// bears on: pw_book fault.rt PostFault::number ensures
#[test]
fn numbers_and_names(rt: HostRuntime) {
    post_faults_told(&rt);
    book_faults_told(&rt);
}

// bears on: pw_book fault.rt BookFault::line text
#[test]
fn lines_of_questions(rt: HostRuntime) {
    for (fault, line) in [
        (BookFault::Device, "refused 61 Device"),
        (BookFault::Memory, "refused 62 Memory"),
        (BookFault::Reopen, "refused 63 Reopen"),
    ] {
        assert!(rt; fault.line().as_str() == line);
    }
}
