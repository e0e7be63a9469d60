//! The shelf's reading calls outside an upload. Each says here what it says where none is begun.

ghost use Rattle.std.specs.Prelude.{◌≡◌, ◌+◌, ◌≤◌, IfOk, IsNone, length};
ghost use Rattle.pw_model.specs.Counting.{contents_at};
ghost use Rattle.pw_model.specs.Payments.{stands_in};
ghost use Rattle.pw_model.specs.Same.{same_entry};
ghost use Rattle.pw_shelf.specs.Rows.{ListsAssignments, ListsReadings, ListsTopUps, ListsWithdrawals};
ghost use Rattle.pw_shelf.specs.Calls.{failures_told};
ghost use Rattle.pw_shelf.specs.Seconds.{ListsSecondsWithin};
ghost use Rattle.pw_book.specs.Asking.{IsOnlyAsked};

use pw_model::{Contents, Entry, Key, TotalKey};
use pw_obis::{Register, WattHours};
use pw_shelf::{Shelf, ShelfFault};
use pw_tariff::MeterId;
use pw_time::{FIRST_SECOND, Instant, LAST_SECOND};
use std::alloc::Global;

// How many records are held.
pub(crate) fn count_held<S: Shelf>(shelf: &mut S) -> Result<u32, ShelfFault>
    requires { IsNone (S.state shelf.old).begun }
    ensures number { S.clean shelf.new → IfOk result
        (λ held. held ≡ length (S.state shelf.old).content.records) }
    ensures tally { (S.state shelf.new).tally ≡ (S.state shelf.old).tally + 1 }
    ensures asked { IsOnlyAsked S.Shelf (failures_told result) shelf.old shelf.new }
{
    shelf.count()
}

// The readings that are held of a register.
pub(crate) fn readings_held<S: Shelf>(
    shelf: &mut S,
    alloc: Global,
    meter: MeterId,
    register: Register,
) -> Result<Vec<Entry>, ShelfFault>
    requires { IsNone (S.state shelf.old).begun }
    ensures rows { S.clean shelf.new → IfOk result
        (λ found. ListsReadings (S.state shelf.old).content.records meter register found.items) }
    ensures asked { IsOnlyAsked S.Shelf (failures_told result) shelf.old shelf.new }
{
    shelf.readings_of(alloc, meter, register)
}

// The points of a register.
pub(crate) fn points_held<S: Shelf>(
    shelf: &mut S,
    alloc: Global,
    meter: MeterId,
    register: Register,
) -> Result<Vec<(Instant, WattHours)>, ShelfFault>
    requires { IsNone (S.state shelf.old).begun }
    ensures rows { S.clean shelf.new → IfOk result
        (λ points. ListsSecondsWithin FIRST_SECOND LAST_SECOND
        ((S.state shelf.old).content.point meter.0 register) points.items) }
    ensures asked { IsOnlyAsked S.Shelf (failures_told result) shelf.old shelf.new }
{
    let from = Instant::of(FIRST_SECOND).unwrap();
    let to = Instant::of(LAST_SECOND).unwrap();
    shelf.points_between(alloc, meter, register, from, to)
}

// Whether an entry is held.
pub(crate) fn is_held<S: Shelf>(shelf: &mut S, entry: &Entry) -> Result<bool, ShelfFault>
    requires { IsNone (S.state shelf.old).begun }
    ensures held { S.clean shelf.new → IfOk result
        (λ held. held ≡ stands_in same_entry entry.now (S.state shelf.old).content.records) }
    ensures tally { (S.state shelf.new).tally ≡ (S.state shelf.old).tally + 1 }
    ensures asked { IsOnlyAsked S.Shelf (failures_told result) shelf.old shelf.new }
{
    shelf.holds(entry)
}

// What the records held that stand say of a key.
pub(crate) fn contents_held<S: Shelf>(shelf: &mut S, key: &Key) -> Result<Contents, ShelfFault>
    requires { IsNone (S.state shelf.old).begun }
    ensures told { S.clean shelf.new → IfOk result
        (λ contents. contents ≡ contents_at (S.state shelf.old).content.records key.now) }
    ensures asked { IsOnlyAsked S.Shelf (failures_told result) shelf.old shelf.new }
{
    shelf.contents_at(key)
}

// The assignments that are held of a meter.
pub(crate) fn assignments_held<S: Shelf>(
    shelf: &mut S,
    alloc: Global,
    meter: MeterId,
) -> Result<Vec<Entry>, ShelfFault>
    requires { IsNone (S.state shelf.old).begun }
    ensures rows { S.clean shelf.new → IfOk result
        (λ found. ListsAssignments (S.state shelf.old).content.records meter found.items) }
    ensures asked { IsOnlyAsked S.Shelf (failures_told result) shelf.old shelf.new }
{
    shelf.assignments_of(alloc, meter)
}

// The top-ups that are held.
pub(crate) fn topups_held<S: Shelf>(shelf: &mut S, alloc: Global) -> Result<Vec<Entry>, ShelfFault>
    requires { IsNone (S.state shelf.old).begun }
    ensures rows { S.clean shelf.new → IfOk result
        (λ found. ListsTopUps (S.state shelf.old).content.records found.items) }
    ensures asked { IsOnlyAsked S.Shelf (failures_told result) shelf.old shelf.new }
{
    shelf.topups(alloc)
}

// The withdrawals that are held.
pub(crate) fn withdrawals_held<S: Shelf>(
    shelf: &mut S,
    alloc: Global,
) -> Result<Vec<Entry>, ShelfFault>
    requires { IsNone (S.state shelf.old).begun }
    ensures rows { S.clean shelf.new → IfOk result
        (λ found. ListsWithdrawals (S.state shelf.old).content.records found.items) }
    ensures asked { IsOnlyAsked S.Shelf (failures_told result) shelf.old shelf.new }
{
    shelf.withdrawals(alloc)
}

// The total that is kept at a key: 0 where none is.
pub(crate) fn total_held<S: Shelf>(shelf: &mut S, key: &TotalKey) -> Result<u64, ShelfFault>
    requires { IsNone (S.state shelf.old).begun }
    ensures total { S.clean shelf.new → IfOk result
        (λ amount. amount ≡ (S.state shelf.old).content.total key.now) }
    ensures tally { (S.state shelf.new).tally ≤ (S.state shelf.old).tally + 2 }
    ensures asked { IsOnlyAsked S.Shelf (failures_told result) shelf.old shelf.new }
{
    shelf.total(key)
}
