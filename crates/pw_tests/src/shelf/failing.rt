//! A store that fails at a call: alone, inside another that counts its calls, and beneath a book that takes an upload.

ghost use Rattle.std.specs.Prelude.{◌≡◌, None};

use super::{PAYMENT, lists};
use crate::entries::{at, entry_of};
use crate::new_books::holds_of_failing;
use crate::sample::{FIVE, METER, are_of_office};
use pw_book::{Book, PostFault};
use pw_model::Entry;
use pw_obis::Register;
use pw_shelf::{CountShelf, MemoryShelf, Shelf, ShelfFault};
use std::alloc::Global;
use std::process::Abort;

// Whether the second call fails, and the third where it is to.
fn fails_at_second<S: Shelf + Drop>(rt: &impl Abort, inner: S, abandons: bool) -> bool
    requires { (S.state inner).begun ≡ None }
{
    let mut shelf = CountShelf::failing(inner, 2, !abandons);
    shelf.begin().is_ok()
        && shelf.point_del(METER, Register::I1, at(rt, FIVE)) == Err(ShelfFault::Device)
        && shelf.abandon().is_ok() == abandons
        && shelf.seen() == 3
}

// bears on: pw_shelf count.rt CountShelf::failing plan
// bears on: pw_shelf count.rt CountShelf::failing state
// bears on: pw_shelf shelf.rt Shelf::abandon begun
// bears on: pw_shelf shelf.rt Shelf::abandon tally
#[test]
fn fails_where_it_is_told_to(rt: HostRuntime) {
    for abandons in [true, false] {
        assert!(rt; fails_at_second(&rt, MemoryShelf::new(rt.alloc()), abandons));
    }
}

// Whether the first call fails, and the second lists nothing.
fn fails_once<S: Shelf>(alloc: Global, shelf: &mut S) -> bool {
    let refused = shelf.readings_of(alloc, METER, Register::I1).err();
    refused == Some(ShelfFault::Device) && lists(shelf.readings_of(alloc, METER, Register::I1), &[])
}

// Whether a store that counts the calls of another does so, where the other fails.
fn fails_inside<S: Shelf + Drop>(alloc: Global, inner: S) -> bool {
    fails_once(alloc, &mut CountShelf::new(inner))
}

// bears on: pw_shelf shelf.rt Shelf::readings_of asked
#[test]
fn failure_of_the_store_inside(rt: HostRuntime) {
    let failing = CountShelf::failing(MemoryShelf::new(rt.alloc()), 1, false);
    assert!(rt; fails_inside(rt.alloc(), failing));
}

// Why a book doesn't take an upload of one entry of its office.
fn refused_by<S: Shelf>(alloc: Global, book: &mut Book<S>, entry: Entry) -> Option<PostFault> {
    let entries = [entry];
    if !are_of_office(book.office(), book.zone(), &entries) {
        return None;
    }
    book.post(alloc, &entries).err()
}

// Whether an upload is refused so, and nothing is held where it was given up.
fn is_refused_by<S: Shelf>(
    alloc: Global,
    book: &mut Book<S>,
    entry: Entry,
    fault: Option<PostFault>,
) -> bool {
    refused_by(alloc, book, entry) == fault
        && (fault != Some(PostFault::Device) || book.count() == Ok(0))
}

// The call that fails, whether `abandon` fails behind it, and the upload's fault.
const FAILING: [(u32, bool, Option<PostFault>); 5] = [
    (3, true, Some(PostFault::Device)),
    (4, true, Some(PostFault::Reopen)),
    (4, false, Some(PostFault::Device)),
    (9, false, Some(PostFault::Device)),
    (10, false, None),
];

// The calls are `count`, `holds`, `begin`, `contents_at`, `add`, `contents_at`, `total`, `total_put` and `commit`.
// bears on: pw_book book.rt Book::post failures
// bears on: pw_book book.rt Book::post posted
// bears on: pw_book book.rt Book::post reopen
#[test]
fn posting_with_a_call_that_fails(rt: HostRuntime) {
    let alloc = rt.alloc();
    let payment = entry_of(&rt, PAYMENT);
    for (fail_at, abandon_fails, fault) in FAILING {
        assert!(rt;
            holds_of_failing(
                alloc,
                fail_at,
                abandon_fails,
                |book| is_refused_by(alloc, book, payment, fault)
            )
        );
    }
}
