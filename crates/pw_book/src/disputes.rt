//! The disputes among records.

ghost use Rattle.std.specs.Prelude.{◌≡◌, ◌+◌, ◌*◌, ◌^◌, ◌<◌, ◌≤◌, ℕ, IfOk, OnOk, IsNone, length};
ghost use Rattle.pw_model.specs.declared.records.Key.{Key as AKey};
ghost use Rattle.pw_model.specs.Counting.{standing_among as standing_of};
ghost use Rattle.pw_model.specs.Lists.{AreDisputes, IsInOrder, Lists, dispute_order};
ghost use Rattle.pw_model.specs.Office.{most_records};
ghost use Rattle.pw_model.specs.Same.{entry_order};
ghost use Rattle.pw_shelf.specs.Calls.{failures_told};
ghost use Rattle.pw_tariff.specs.Office.{register_place};
ghost use Rattle.pw_book.specs.Asking.{IsOnlyAsked};
ghost use Rattle.pw_book.specs.inner.Places.{AreWithin, DisputesBefore};
ghost use Rattle.pw_book.specs.inner.Groups.{AreBehind, AreOfSharedKeys, IsDisputeAmong, IsDisputeOf, records_with};
ghost use Rattle.pw_book.specs.inner.Steps.{HoldsOffice};

use crate::shelf_calls::{assignments_held, readings_held, topups_held};
use crate::withdrawn::standing_among;
use pw_model::{Dispute, Entry};
use pw_obis::Register;
use pw_parts::same_key_behind;
use pw_shelf::{Shelf, ShelfFault};
use pw_tariff::{MeterId, Office};
use std::alloc::{AllocError, Global};

// The disputes of all keys, of the records held. (The key of a withdrawal is in none: it has one content alone.)
pub(crate) fn disputes_held<S: Shelf>(
    shelf: &mut S,
    alloc: Global,
    office: &Office,
) -> Result<Vec<Dispute>, ShelfFault>
    requires idle { IsNone (S.state shelf.old).begun }
    requires few { S.clean shelf.old → length (S.state shelf.old).content.records ≤ most_records }
    requires of_office { HoldsOffice S.Shelf office.now shelf.old }
    ensures disputes { S.clean shelf.new → IfOk result
        (λ disputes. AreDisputes (S.state shelf.old).content.records disputes.items) }
    ensures asked { IsOnlyAsked S.Shelf (failures_told result) shelf.old shelf.new }
{
    let mut disputes = Vec::new(alloc);
    add_readings(shelf, alloc, office.meters(), &mut disputes)?;
    add_assignments(shelf, alloc, office.meters(), &mut disputes)?;
    add_topups(shelf, alloc, &mut disputes)?;
    Ok(disputes)
}

// Adds the disputed readings of all meters.
fn add_readings<S: Shelf>(
    shelf: &mut S,
    alloc: Global,
    count: u16,
    disputes: &mut Vec<Dispute>,
) -> Result<(), ShelfFault>
    requires { IsNone (S.state shelf.old).begun }
    ensures disputes { S.clean shelf.new → (meters : ℕ)
        → AreWithin meters (S.state shelf.old).content.records → count ≡ meters
        → DisputesBefore meters (S.state shelf.old).content.records (0) disputes.old.items
        → OnOk result (DisputesBefore meters (S.state shelf.old).content.records (6 * meters)
        disputes.new.items) }
    ensures asked { IsOnlyAsked S.Shelf (failures_told result) shelf.old shelf.new }
{
    for meter in 0..count {
        add_meter(shelf, alloc, MeterId(meter), disputes)?;
    }
    Ok(())
}

// Adds the disputed assignments of all meters.
fn add_assignments<S: Shelf>(
    shelf: &mut S,
    alloc: Global,
    count: u16,
    disputes: &mut Vec<Dispute>,
) -> Result<(), ShelfFault>
    requires { IsNone (S.state shelf.old).begun }
    ensures disputes { S.clean shelf.new → (meters : ℕ)
        → AreWithin meters (S.state shelf.old).content.records → count ≡ meters
        → DisputesBefore meters (S.state shelf.old).content.records (6 * meters)
        disputes.old.items → OnOk result
        (DisputesBefore meters (S.state shelf.old).content.records (7 * meters)
        disputes.new.items) }
    ensures asked { IsOnlyAsked S.Shelf (failures_told result) shelf.old shelf.new }
{
    for meter in 0..count {
        add_assignments_of(shelf, alloc, MeterId(meter), disputes)?;
    }
    Ok(())
}

// Adds the disputed readings of a meter behind those of the meters before it.
fn add_meter<S: Shelf>(
    shelf: &mut S,
    alloc: Global,
    meter: MeterId,
    disputes: &mut Vec<Dispute>,
) -> Result<(), ShelfFault>
    requires { IsNone (S.state shelf.old).begun }
    ensures disputes { S.clean shelf.new → (meters : ℕ)
        → AreWithin meters (S.state shelf.old).content.records → meter.0 < meters
        → DisputesBefore meters (S.state shelf.old).content.records (6 * meter.0)
        disputes.old.items → OnOk result
        (DisputesBefore meters (S.state shelf.old).content.records (6 * meter.0 + 6)
        disputes.new.items) }
    ensures asked { IsOnlyAsked S.Shelf (failures_told result) shelf.old shelf.new }
{
    for register in &Register::ALL {
        add_readings_of(shelf, alloc, meter, *register, disputes)?;
    }
    Ok(())
}

// Adds the disputed readings of a register behind those of the registers before it.
fn add_readings_of<S: Shelf>(
    shelf: &mut S,
    alloc: Global,
    meter: MeterId,
    register: Register,
    disputes: &mut Vec<Dispute>,
) -> Result<(), ShelfFault>
    requires { IsNone (S.state shelf.old).begun }
    ensures disputes { S.clean shelf.new → (meters : ℕ)
        → AreWithin meters (S.state shelf.old).content.records → meter.0 < meters
        → DisputesBefore meters (S.state shelf.old).content.records
        (6 * meter.0 + register_place register) disputes.old.items
        → OnOk result (DisputesBefore meters (S.state shelf.old).content.records
        (6 * meter.0 + register_place register + 1) disputes.new.items) }
    ensures asked { IsOnlyAsked S.Shelf (failures_told result) shelf.old shelf.new }
{
    let readings = readings_held(shelf, alloc, meter, register)?;
    add_disputes_among(shelf, alloc, &readings, disputes)?;
    Ok(())
}

// Adds the disputed assignments of a meter behind those of the meters before it.
fn add_assignments_of<S: Shelf>(
    shelf: &mut S,
    alloc: Global,
    meter: MeterId,
    disputes: &mut Vec<Dispute>,
) -> Result<(), ShelfFault>
    requires { IsNone (S.state shelf.old).begun }
    ensures disputes { S.clean shelf.new → (meters : ℕ)
        → AreWithin meters (S.state shelf.old).content.records → meter.0 < meters
        → DisputesBefore meters (S.state shelf.old).content.records (6 * meters + meter.0)
        disputes.old.items → OnOk result
        (DisputesBefore meters (S.state shelf.old).content.records (6 * meters + (meter.0 + 1))
        disputes.new.items) }
    ensures asked { IsOnlyAsked S.Shelf (failures_told result) shelf.old shelf.new }
{
    let assignments = assignments_held(shelf, alloc, meter)?;
    add_disputes_among(shelf, alloc, &assignments, disputes)?;
    Ok(())
}

// Adds the disputed top-ups.
fn add_topups<S: Shelf>(
    shelf: &mut S,
    alloc: Global,
    disputes: &mut Vec<Dispute>,
) -> Result<(), ShelfFault>
    requires { IsNone (S.state shelf.old).begun }
    ensures disputes { S.clean shelf.new → (meters : ℕ)
        → AreWithin meters (S.state shelf.old).content.records
        → DisputesBefore meters (S.state shelf.old).content.records (7 * meters)
        disputes.old.items → OnOk result
        (DisputesBefore meters (S.state shelf.old).content.records (7 * meters + 1)
        disputes.new.items) }
    ensures asked { IsOnlyAsked S.Shelf (failures_told result) shelf.old shelf.new }
{
    let topups = topups_held(shelf, alloc)?;
    add_disputes_among(shelf, alloc, &topups, disputes)?;
    Ok(())
}

// Adds the disputes among those of some records held that stand.
fn add_disputes_among<S: Shelf>(
    shelf: &mut S,
    alloc: Global,
    held: &[Entry],
    disputes: &mut Vec<Dispute>,
) -> Result<(), ShelfFault>
    requires { IsNone (S.state shelf.old).begun }
    ensures disputes { S.clean shelf.new → IsInOrder entry_order held.now
        → ((k : AKey) → records_with k held.now < 2 ^ 32)
        → OnOk result (AreBehind (standing_of (S.state shelf.old).content.records held.now)
        disputes.old.items disputes.new.items) }
    ensures asked { IsOnlyAsked S.Shelf (failures_told result) shelf.old shelf.new }
{
    let shared = of_shared_keys(alloc, held)?;
    let standing = standing_among(shelf, alloc, &shared)?;
    let more = disputes_of(alloc, &standing)?;
    disputes.extend_from_slice(&more)?;
    Ok(())
}

// Those of some records whose key another has: only of these is it asked whether they stand.
fn of_shared_keys(alloc: Global, records: &[Entry]) -> Result<Vec<Entry>, AllocError>
    ensures { IsInOrder entry_order records.now
        → IfOk result (λ shared. AreOfSharedKeys records.now shared.items) }
{
    let mut shared = Vec::new(alloc);
    let mut rest = records;
    while let Some((first, others)) = rest.split_first() {
        let behind = same_key_behind(first, others);
        if behind > 0 {
            shared.extend_from_slice(&[*first])?;
            shared.extend_from_slice(&others[..behind])?;
        }
        rest = &others[behind..];
    }
    Ok(shared)
}

// The keys that two or more of some records have, and how many.
pub(crate) fn disputes_of(alloc: Global, records: &[Entry]) -> Result<Vec<Dispute>, AllocError>
    ensures { IsInOrder entry_order records.now → ((k : AKey) → records_with k records.now < 2 ^ 32)
        → IfOk result (λ disputes.
        Lists dispute_order (IsDisputeAmong records.now) disputes.items) }
{
    let mut disputes = Vec::new(alloc);
    let mut rest = records;
    while let Some((first, others)) = rest.split_first() {
        let same = same_key_behind(first, others);
        if same > 0 {
            disputes.push(dispute(first, same))?;
        }
        rest = &others[same..];
    }
    Ok(disputes)
}

// What a record and some behind it dispute. (Only a store that isn't clean lists so many that their number isn't a u32:
// then it is capped.)
fn dispute(first: &Entry, behind: usize) -> Dispute
    ensures { IsDisputeOf first.now behind result }
{
    let contents = u32::try_from(behind).unwrap_or(u32::MAX).saturating_add(1);
    Dispute {
        key: first.key,
        contents,
    }
}
