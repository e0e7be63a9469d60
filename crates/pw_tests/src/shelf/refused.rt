//! Where memory is refused, a store holds what it held before.

ghost use Rattle.std.specs.Prelude.{◌≡◌, ◌<◌, None, IsErrOf, IsSome, IsTrue, OnErr, OnOk, length};
ghost use Rattle.pw_shelf.specs.declared.fault.ShelfFault.TheVariants.{Device};

use super::{EARLY, List, OWNER, PAYMENT, contents_are, is_count, listed};
use crate::entries::{Sent, entry_of};
use crate::sample::{FIRST, METER};
use pw_model::Entry;
use pw_obis::Register;
use pw_shelf::{Contents, MemoryShelf, Shelf, ShelfFault};
use std::alloc::Global;
use std::process::Abort;

// Whether so many records are held, and not this one.
fn is_as_before<S: Shelf>(shelf: &mut S, entry: &Entry, before: u32) -> bool
    ensures { (S.state shelf.new).begun ≡ (S.state shelf.old).begun }
{
    is_count(shelf, before)
        && shelf.holds(entry) == Ok(false)
        && contents_are(shelf, entry, Contents::Nothing)
}

// Whether a new record is added, or the content is as before where memory was refused.
fn added_or_refused<S: Shelf>(shelf: &mut S, entry: &Entry) -> bool
    requires { (S.state shelf.old).begun ≡ None }
    ensures { IsTrue result → (S.state shelf.new).begun ≡ None }
{
    match shelf.count() {
        Ok(before) => before < 10 && added_to(shelf, entry, before),
        Err(_) => false,
    }
}

fn added_to<S: Shelf>(shelf: &mut S, entry: &Entry, before: u32) -> bool
    requires idle { (S.state shelf.old).begun ≡ None }
    requires few { before < 10 }
    requires held { S.clean shelf.old → length (S.state shelf.old).content.records ≡ before }
    ensures { IsTrue result → (S.state shelf.new).begun ≡ None }
{
    match add_alone(shelf, entry) {
        Ok(()) => is_count(shelf, before + 1),
        Err(ShelfFault::Memory) => is_as_before(shelf, entry, before),
        Err(ShelfFault::Device) => false,
    }
}

// Adds a record in an upload of its own, which is given up where a call fails.
fn add_alone<S: Shelf>(shelf: &mut S, entry: &Entry) -> Result<(), ShelfFault>
    requires idle { (S.state shelf.old).begun ≡ None }
    requires few { S.clean shelf.old → length (S.state shelf.old).content.records < 10 }
    ensures { (IsErrOf result Device → ⊥) → (S.state shelf.new).begun ≡ None }
{
    shelf.begin()?;
    match add_and_commit(shelf, entry) {
        Ok(()) => Ok(()),
        Err(fault) => match shelf.abandon() {
            Ok(()) => Err(fault),
            Err(_) => Err(ShelfFault::Device),
        },
    }
}

fn add_and_commit<S: Shelf>(shelf: &mut S, entry: &Entry) -> Result<(), ShelfFault>
    requires begun { IsSome (S.state shelf.old).begun }
    requires few { S.clean shelf.old → length (S.state shelf.old).content.records < 10 }
    ensures ended { OnOk result ((S.state shelf.new).begun ≡ None) }
    ensures begun { OnErr result ((S.state shelf.new).begun ≡ (S.state shelf.old).begun) }
{
    if !shelf.holds(entry)? {
        shelf.add(entry)?;
    }
    shelf.commit()
}

// Whether at most one record is listed, or memory was refused.
fn is_one_or_refused(found: Result<Vec<Entry>, ShelfFault>) -> bool {
    match found {
        Ok(found) => found.len() <= 1,
        Err(fault) => fault == ShelfFault::Memory,
    }
}

// Whether each list has at most one record, and as many records are held behind them.
fn lists_change_nothing<S: Shelf>(alloc: Global, shelf: &mut S) -> bool {
    let before = shelf.count();
    let lists = [
        List::TopUps,
        List::Withdrawals,
        List::Readings(Register::I1),
        List::Assignments(METER),
    ];
    for list in lists {
        if !is_one_or_refused(listed(alloc, shelf, list)) {
            return false;
        }
    }
    before.is_ok() && shelf.count() == before
}

fn nothing_changed<S: Shelf + Drop>(rt: &impl Abort, alloc: Global, mut shelf: S) -> bool
    requires { (S.state shelf).begun ≡ None }
{
    added_or_refused(&mut shelf, &entry_of(rt, EARLY))
        && added_or_refused(&mut shelf, &entry_of(rt, OWNER))
        && added_or_refused(&mut shelf, &entry_of(rt, PAYMENT))
        && added_or_refused(
            &mut shelf,
            &entry_of(rt, Sent::TopUpWithdrawn(b"P2", FIRST, 2_000)),
        )
        && lists_change_nothing(alloc, &mut shelf)
}

// bears on: pw_shelf shelf.rt Shelf::abandon back
#[test]
fn refused_memory_changes_nothing(rt: HostRuntime) {
    assert!(rt; nothing_changed(&rt, rt.alloc(), MemoryShelf::new(rt.alloc())));
}
