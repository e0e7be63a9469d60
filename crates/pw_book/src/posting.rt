//! An upload's way to a shelf: weighed first, then written.

ghost use Rattle.std.specs.Prelude.{◌≡◌, ◌+◌, ◌<◌, ◌≤◌, ◌^◌, IfOk, IsErrOf, IsNone, MatchResult, Some, length};
ghost use Rattle.pw_model.specs.declared.records.Entry.{Entry as AnEntry};
ghost use Rattle.pw_model.specs.Counting.{Member};
ghost use Rattle.pw_model.specs.Office.{AllOfOffice, most_records};
ghost use Rattle.pw_tariff.specs.Office.{IsSound, office_of};
ghost use Rattle.pw_book.specs.Cost.{IsCheap};
ghost use Rattle.pw_shelf.specs.Calls.{failures_told};
ghost use Rattle.pw_book.specs.Asking.{IsOnlyAsked};
ghost use Rattle.pw_book.specs.Posting.{FailuresPosted, IsPosted, LeavesPosted, fresh_of};
ghost use Rattle.pw_book.specs.inner.Steps.{HasTrueContent, HoldsOffice};
ghost use Rattle.pw_book.specs.declared.fault.PostFault.TheVariants.{Full, Reopen};

use crate::basis::Basis;
use crate::book::Accepted;
use crate::fault::PostFault;
use crate::shelf_calls::{count_held, is_held};
use crate::upload::upload;
use pw_model::{Distinct, Entry};
use pw_shelf::{Shelf, ShelfFault};
use std::alloc::Global;

// Adds the entries to a shelf in an upload of their own, unless there is no room.
pub(crate) fn post_to<S: Shelf>(
    shelf: &mut S,
    basis: &Basis,
    limit: u32,
    entries: &Distinct,
) -> Result<Accepted, PostFault>
    requires idle { IsNone (S.state shelf.old).begun }
    requires most { limit ≤ most_records }
    requires sound { IsSound basis.now.office.now }
    requires of_office { AllOfOffice (office_of basis.now.office.now) entries.now }
    requires truth { HasTrueContent S.Shelf basis.now.office.now shelf.old }
    requires held { HoldsOffice S.Shelf basis.now.office.now shelf.old }
    ensures posted { S.clean shelf.new → IsPosted (office_of basis.now.office.now) limit entries.now
        (S.state shelf.old).content (S.state shelf.new).content result }
    ensures left { S.clean shelf.new → LeavesPosted (office_of basis.now.office.now) limit
        entries.now (S.state shelf.old).content (S.state shelf.new).content (S.left shelf.old)
        (S.left shelf.new) result }
    ensures cost { S.clean shelf.new → IsCheap (office_of basis.now.office.now) entries.now
        (S.state shelf.old).content (S.state shelf.old).tally (S.state shelf.new).tally }
    ensures idle { (IsErrOf result Reopen → ⊥) → IsNone (S.state shelf.new).begun }
    ensures undone { (IsErrOf result Reopen → ⊥)
        → (S.state shelf.new).failed_abandons ≡ (S.state shelf.old).failed_abandons }
    ensures reopen { IsErrOf result Reopen → (S.state shelf.new).failed_abandons
        ≡ (S.state shelf.old).failed_abandons + 1 }
    ensures begun { S.clean shelf.new → IsErrOf result Reopen
        → (S.state shelf.new).begun ≡ Some (S.state shelf.old).content }
    ensures failures { FailuresPosted result (S.state shelf.old).failures
        (S.state shelf.new).failures }
    ensures cleanness { S.clean shelf.new → S.clean shelf.old }
    ensures store { S.same_store shelf.old shelf.new }
{
    let distinct = entries.entries();
    let (held, fresh) = weigh(shelf, basis.alloc, distinct)?;
    let repeated = distinct.len() - fresh.len();
    let accepted = admitted(held, fresh.len(), repeated, limit)?;
    upload(shelf, basis, &fresh)?;
    Ok(accepted)
}

// What is answered where so many records are held, and so many of an upload's distinct entries are fresh and repeated.
fn admitted(held: u32, fresh: usize, repeated: usize, limit: u32) -> Result<Accepted, PostFault>
    ensures { MatchResult result (λ a. (held + fresh ≤ limit) × (a.fresh ≡ fresh)
        × (repeated < 2 ^ 32 → a.repeated ≡ repeated))
        (λ e. (limit < held + fresh) × (e ≡ Full held limit)) }
{
    if held > limit || fresh > (limit - held) as usize {
        return Err(PostFault::Full { held, limit });
    }
    Ok(Accepted {
        fresh: fresh as u32,
        repeated: repeated.min(u32::MAX as usize) as u32,
    })
}

// How many records are held, and those of an upload's distinct entries that aren't.
fn weigh<S: Shelf>(
    shelf: &mut S,
    alloc: Global,
    distinct: &[Entry],
) -> Result<(u32, Vec<Entry>), ShelfFault>
    requires idle { IsNone (S.state shelf.old).begun }
    ensures held { S.clean shelf.new → IfOk result
        (λ w. w.0 ≡ length (S.state shelf.old).content.records) }
    ensures fresh { S.clean shelf.new → IfOk result
        (λ w. w.1.items ≡ fresh_of (S.state shelf.old).content.records distinct.now) }
    ensures few { IfOk result (λ w. length w.1.items ≤ length distinct.now) }
    ensures part { IfOk result (λ w. (e : AnEntry) → Member e w.1.items → Member e distinct.now) }
    ensures tally { (S.state shelf.new).tally
        ≤ (S.state shelf.old).tally + 1 + length distinct.now }
    ensures asked { IsOnlyAsked S.Shelf (failures_told result) shelf.old shelf.new }
{
    let held = count_held(shelf)?;
    let fresh = not_held(shelf, alloc, distinct)?;
    Ok((held, fresh))
}

/// Those of some entries that a store doesn't hold, in their order, each as often as it stands there.
///
/// It asks for a store with no upload begun, asks it once for each entry, and leaves its records as they are.
pub fn not_held<S: Shelf>(
    shelf: &mut S,
    alloc: Global,
    entries: &[Entry],
) -> Result<Vec<Entry>, ShelfFault>
    requires idle { IsNone (S.state shelf.old).begun }
    ensures fresh { S.clean shelf.new → IfOk result
        (λ fresh. fresh.items ≡ fresh_of (S.state shelf.old).content.records entries.now) }
    ensures few { IfOk result (λ fresh. length fresh.items ≤ length entries.now) }
    ensures part { IfOk result (λ fresh. (e : AnEntry) → Member e fresh.items
        → Member e entries.now) }
    ensures tally { (S.state shelf.new).tally ≤ (S.state shelf.old).tally + length entries.now }
    ensures asked { IsOnlyAsked S.Shelf (failures_told result) shelf.old shelf.new }
{
    let mut fresh = Vec::new(alloc);
    for entry in entries {
        if !is_held(shelf, entry)? {
            fresh.push(*entry)?;
        }
    }
    Ok(fresh)
}
