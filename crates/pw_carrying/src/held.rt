//! What a book holds beside what was sent.

ghost use Rattle.std.specs.Prelude.{◌≡◌, ◌↔◌, ◌+◌, ◌*◌, ◌<◌, IfOk, IsNone, IsTrue, OnOk};
ghost use Rattle.std.specs.List.Sorted.{IsSorted};
ghost use Rattle.pw_tariff.specs.Office.{office_of};
ghost use Rattle.pw_model.specs.Counting.{Member};
ghost use Rattle.pw_shelf.specs.Calls.{failures_told};
ghost use Rattle.pw_shelf.specs.Orders.{record_order};
ghost use Rattle.pw_book.specs.Asking.{IsOnlyAsked};
ghost use Rattle.pw_book.specs.Questions.{IsQuestion};
ghost use Rattle.pw_carrying.specs.Unsent.{AreUnsent};
ghost use Rattle.pw_carrying.specs.inner.Stages.{IsListOf, list_place};
ghost use Rattle.pw_carrying.specs.inner.Unsent.{AddsUnsent};

use crate::lists::{HeldList, list_at, list_count, records_in};
use pw_book::{Book, BookFault};
use pw_model::Entry;
use pw_shelf::{Shelf, ShelfFault};
use pw_tariff::Office;
use std::alloc::Global;

/// The records that a book holds and that stand in none of the entries that were sent: readings first, then assignments, then
/// top-ups, then withdrawals, each by its fields. It asks for sorted entries; one may stand there several times.
///
/// As with each question to a book, `Device`, `Memory` and `Reopen` (of a shut book) leave the records as they are.
pub fn unsent<S: Shelf>(
    alloc: Global,
    book: &mut Book<S>,
    sent: &[Entry],
) -> Result<Vec<Entry>, BookFault>
    requires { IsSorted record_order sent.now }
    ensures unsent { S.clean book.new.shelf → IfOk result
        (λ found. AreUnsent (S.state book.old.shelf).content.records sent.now found.items) }
    ensures question { IsQuestion S.Shelf result book.old book.new }
{
    book.still_open()?;
    let mut found = Vec::new(alloc);
    add_held(alloc, &mut book.shelf, &book.office, sent, &mut found)?;
    Ok(found)
}

// Adds the records of all lists that weren't sent.
fn add_held<S: Shelf>(
    alloc: Global,
    shelf: &mut S,
    office: &Office,
    sent: &[Entry],
    found: &mut Vec<Entry>,
) -> Result<(), ShelfFault>
    requires idle { IsNone (S.state shelf.old).begun }
    requires sorted { IsSorted record_order sent.now }
    ensures adds { S.clean shelf.new → OnOk result
        (AddsUnsent (office_of office.now) (S.state shelf.old).content.records sent.now 0
        (7 * (office_of office.now).meters + 2) found.old.items found.new.items) }
    ensures asked { IsOnlyAsked S.Shelf (failures_told result) shelf.old shelf.new }
{
    for place in 0..list_count(office) {
        let list = list_at(office, place);
        add_list(alloc, shelf, office, list, sent, found)?;
    }
    Ok(())
}

// Adds the records of a list that weren't sent.
fn add_list<S: Shelf>(
    alloc: Global,
    shelf: &mut S,
    office: &Office,
    list: HeldList,
    sent: &[Entry],
    found: &mut Vec<Entry>,
) -> Result<(), ShelfFault>
    requires idle { IsNone (S.state shelf.old).begun }
    requires list { IsListOf (office_of office.now).meters list }
    requires sorted { IsSorted record_order sent.now }
    ensures adds { S.clean shelf.new → OnOk result
        (AddsUnsent (office_of office.now) (S.state shelf.old).content.records sent.now
        (list_place (office_of office.now).meters list)
        (list_place (office_of office.now).meters list + 1) found.old.items found.new.items) }
    ensures asked { IsOnlyAsked S.Shelf (failures_told result) shelf.old shelf.new }
{
    let records = records_in(alloc, shelf, office, list)?;
    for entry in &records {
        if !was_sent(sent, entry) {
            found.push(*entry)?;
        }
    }
    Ok(())
}

// Whether a record is one of those that were sent.
fn was_sent(sent: &[Entry], entry: &Entry) -> bool
    requires { IsSorted record_order sent.now }
    ensures { IsTrue result ↔ Member entry.now sent.now }
{
    match sent.binary_search(entry) {
        Ok(_) => true,
        Err(_) => false,
    }
}
