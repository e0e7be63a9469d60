//! One upload to a shelf, written and committed, or taken back.

ghost use Rattle.std.specs.Prelude.{◌≡◌, ◌+◌, ◌<◌, ◌^◌, [], ◌∷◌, None, Some, OnOk, OnErr, IsErrOf, IsNone, IsSome, length};
ghost use Rattle.pw_model.specs.Bearing.{bears_on};
ghost use Rattle.pw_model.specs.Counting.{Member};
ghost use Rattle.pw_model.specs.Kinds.{IsReading};
ghost use Rattle.pw_model.specs.Office.{AllOfOffice, IsOfOffice, most_records};
ghost use Rattle.pw_shelf.specs.Calls.{failures_told};
ghost use Rattle.pw_shelf.specs.State.{CountsFailures};
ghost use Rattle.pw_tariff.specs.Office.{IsSound, office_of};
ghost use Rattle.pw_book.specs.Posting.{LeavesOnlyContent};
ghost use Rattle.pw_book.specs.inner.Added.{ChangesOneKey, IsPut, TakesAtMost};
ghost use Rattle.pw_book.specs.inner.Failures.{FailuresUploaded};
ghost use Rattle.pw_book.specs.inner.Gathered.{GathersAtMost, IsGatheredBelow, IsTrueBut, due};
ghost use Rattle.pw_parts.specs.Changes.{gathered};
ghost use Rattle.pw_book.specs.declared.fault.BookFault.TheVariants.{Reopen};
ghost use Rattle.pw_book.specs.inner.Steps.{HoldsAll, KeepsKnown, LeavesWhole, MayAdd, StillKeepsKnown, TakesUpload, UploadGoesOn};

use crate::basis::Basis;
use crate::effect::add_told;
use crate::fault::BookFault;
use crate::gathered::{Gathered, nothing_gathered};
use crate::moving::move_energies;
use crate::settling::settle;
use pw_model::{Entry, Key};
use pw_shelf::{Shelf, ShelfFault};

// Adds entries that aren't held in an upload of their own, and keeps points, starts and totals true.
pub(crate) fn upload<S: Shelf>(
    shelf: &mut S,
    basis: &Basis,
    entries: &[Entry],
) -> Result<(), BookFault>
    requires idle { IsNone (S.state shelf.old).begun }
    requires sound { IsSound basis.now.office.now }
    requires of_office { AllOfOffice (office_of basis.now.office.now) entries.now }
    requires ready { MayAdd S.Shelf basis.now.office.now entries.now shelf.old }
    ensures posted { HoldsAll S.Shelf basis.now.office.now entries.now result shelf.old shelf.new }
    ensures back { S.clean shelf.new → OnErr result
        ((IsErrOf result Reopen → ⊥) → (S.state shelf.new).content ≡ (S.state shelf.old).content) }
    ensures idle { (IsErrOf result Reopen → ⊥) → IsNone (S.state shelf.new).begun }
    ensures undone { (IsErrOf result Reopen → ⊥)
        → (S.state shelf.new).failed_abandons ≡ (S.state shelf.old).failed_abandons }
    ensures reopen { IsErrOf result Reopen → (S.state shelf.new).failed_abandons
        ≡ (S.state shelf.old).failed_abandons + 1 }
    ensures begun { IsErrOf result Reopen → (S.state shelf.new).begun
        ≡ Some (S.state shelf.old).content }
    ensures failures { FailuresUploaded result (S.state shelf.old).failures
        (S.state shelf.new).failures }
    ensures kept { LeavesOnlyContent S.Shelf result shelf.new }
    ensures left { LeavesWhole S.Shelf basis.now.office.now entries.now result shelf.old shelf.new }
    ensures tally { TakesUpload S.Shelf basis.now.office.now entries.now 3 shelf.old shelf.new }
    ensures cleanness { S.clean shelf.new → S.clean shelf.old }
    ensures store { S.same_store shelf.old shelf.new }
{
    if let Err(fault) = shelf.begin() {
        return Err(BookFault::from(fault));
    }
    match write(shelf, basis, entries) {
        Ok(()) => Ok(()),
        Err(fault) => match shelf.abandon() {
            Ok(()) => Err(BookFault::from(fault)),
            Err(_) => Err(BookFault::Reopen),
        },
    }
}

// Adds entries that aren't held to the upload that is begun, writes the totals that follow, each once, and commits.
fn write<S: Shelf>(shelf: &mut S, basis: &Basis, entries: &[Entry]) -> Result<(), ShelfFault>
    requires begun { IsSome (S.state shelf.old).begun }
    requires sound { IsSound basis.now.office.now }
    requires of_office { AllOfOffice (office_of basis.now.office.now) entries.now }
    requires ready { MayAdd S.Shelf basis.now.office.now entries.now shelf.old }
    ensures posted { HoldsAll S.Shelf basis.now.office.now entries.now result shelf.old shelf.new }
    ensures ended { OnOk result ((S.state shelf.new).begun ≡ None) }
    ensures begun { OnErr result ((S.state shelf.new).begun ≡ (S.state shelf.old).begun) }
    ensures counts { CountsFailures (failures_told result) (S.state shelf.old) (S.state shelf.new) }
    ensures kept { LeavesOnlyContent S.Shelf result shelf.new }
    ensures left { LeavesWhole S.Shelf basis.now.office.now entries.now result shelf.old shelf.new }
    ensures tally { TakesUpload S.Shelf basis.now.office.now entries.now 1 shelf.old shelf.new }
    ensures cleanness { S.clean shelf.new → S.clean shelf.old }
    ensures store { S.same_store shelf.old shelf.new }
{
    let mut so_far = nothing_gathered(basis.alloc);
    for entry in entries {
        put(shelf, basis, entry, &mut so_far)?;
    }
    move_energies(shelf, basis.office, &so_far.changes)?;
    shelf.commit()
}

// Adds an entry that isn't held to the upload that is begun, with all that follows; what energies lose and gain by a
// reading is gathered, to be written before the upload is committed.
fn put<S: Shelf>(
    shelf: &mut S,
    basis: &Basis,
    entry: &Entry,
    so_far: &mut Gathered,
) -> Result<(), ShelfFault>
    requires begun { IsSome (S.state shelf.old).begun }
    requires sound { IsSound basis.now.office.now }
    requires of_office { IsOfOffice (office_of basis.now.office.now) entry.now }
    requires fresh { S.clean shelf.old → Member entry.now (S.state shelf.old).content.records → ⊥ }
    requires room { S.clean shelf.old → length (S.state shelf.old).content.records < most_records }
    requires few { IsGatheredBelow (2 ^ 120) so_far.old.changes }
    requires known { KeepsKnown S.Shelf so_far.old.known shelf.old }
    ensures put { S.clean shelf.new → IsTrueBut (office_of basis.now.office.now)
        so_far.old.changes.rows (S.state shelf.old).content.records (S.state shelf.old).content
        → AllOfOffice (office_of basis.now.office.now) (S.state shelf.old).content.records
        → OnOk result (IsPut (office_of basis.now.office.now) so_far.new.changes.rows
        (entry.now ∷ []) (S.state shelf.old).content (S.state shelf.new).content) }
    ensures few { OnOk result (GathersAtMost (2 ^ 39) so_far.old.changes so_far.new.changes) }
    ensures start { S.clean shelf.new → IsReading (bears_on entry.now)
        → OnOk result ((S.state shelf.new).content.start ≡ (S.state shelf.old).content.start) }
    ensures alone { S.clean shelf.new → OnOk result
        (ChangesOneKey (bears_on entry.now) (S.state shelf.old).content
        (S.state shelf.new).content) }
    ensures tally { S.clean shelf.new → TakesAtMost 7 (office_of basis.now.office.now)
        (S.state shelf.old).content (bears_on entry.now)
        ((S.state shelf.old).tally
        + due (office_of basis.now.office.now) so_far.old.changes.rows.entries)
        ((S.state shelf.new).tally
        + due (office_of basis.now.office.now) so_far.new.changes.rows.entries) }
    ensures known { StillKeepsKnown S.Shelf result so_far.new.known shelf.new }
    ensures kept { UploadGoesOn S.Shelf result shelf.old shelf.new }
{
    let key = bears_on(entry);
    let told = add_told(shelf, basis.alloc, entry, &key)?;
    settle(shelf, basis, &key, &told.before, &told.behind, so_far)
}

// The key at which an entry may change what counts: of a withdrawal that of the record that it names, else its own.
pub(crate) fn bears_on(entry: &Entry) -> Key
    ensures { result ≡ bears_on entry.now }
{
    match &entry.key {
        Key::Withdrawal { named } => named.entry().key,
        key => *key,
    }
}
