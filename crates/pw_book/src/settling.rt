//! Points, starts and totals that follow where what is told at a key has changed.

ghost use Rattle.std.specs.Prelude.{◌≡◌, ◌+◌, ◌<◌, ◌≤◌, ◌^◌, List, OnOk, IsSome, true, length};
ghost use Rattle.pw_model.specs.declared.records.Entry.{Entry as AnEntry};
ghost use Rattle.pw_model.specs.declared.records.Key.TheVariants as key;
ghost use Rattle.pw_model.specs.Counting.{owner_of, wh_of};
ghost use Rattle.pw_tariff.specs.Office.{IsSound, office_of};
ghost use Rattle.pw_parts.specs.Changes.{gathered};
ghost use Rattle.pw_book.specs.inner.Added.{ChangesOneKey, IsJustChanged, IsKeyOf, IsPaid, IsTrueAgain, IsTrueOf, TakesAtMost, paid_of};
ghost use Rattle.pw_book.specs.inner.Gathered.{GathersAtMost, IsGatheredBelow, IsTrueAgainBut, IsTrueBut, due};
ghost use Rattle.pw_model.specs.Kinds.{IsReading};
ghost use Rattle.pw_book.specs.inner.Steps.{KeepsKnown, StillKeepsKnown, TakesStarts, UploadGoesOn};
ghost use Rattle.pw_book.specs.inner.Settling.{CountsAtMeter};

use crate::basis::Basis;
use crate::gathered::{Gathered, nothing_gathered};
use crate::moving::{change_total, move_energies};
use crate::reading_change::{ReadingAt, begin_to_count, cease_to_count};
use crate::start_change::change_start;
use pw_model::{Content, Contents, Key, TotalKey};
use pw_obis::WattHours;
use pw_shelf::{Shelf, ShelfFault};
use pw_tariff::{AccountId, MeterId, Owner};
use pw_time::Instant;

// What the reading shows that counts.
fn counting_wh(contents: &Contents) -> Option<WattHours>
    ensures { result ≡ wh_of contents.now }
{
    match contents {
        Contents::One(Content::Reading { wh }) => Some(*wh),
        _ => None,
    }
}

// Whose the meter is by the assignment that counts.
fn counting_owner(contents: &Contents) -> Option<Owner>
    ensures { result ≡ owner_of contents.now }
{
    match contents {
        Contents::One(Content::Assignment { owner }) => Some(*owner),
        _ => None,
    }
}

// The account and the cents of the top-up that counts.
fn counting_payment(contents: &Contents) -> Option<(AccountId, u32)>
    ensures { result ≡ paid_of contents.now }
{
    match contents {
        Contents::One(Content::TopUp { account, cents, .. }) => Some((*account, *cents)),
        _ => None,
    }
}

// Keeps the point that follows where a reading begins or ceases to count, and gathers what the energies lose and gain.
fn reading_changed<S: Shelf>(
    shelf: &mut S,
    basis: &Basis,
    reading: &ReadingAt,
    before: &Contents,
    behind: &Contents,
    so_far: &mut Gathered,
) -> Result<(), ShelfFault>
    requires begun { IsSome (S.state shelf.old).begun }
    requires sound { IsSound basis.now.office.now }
    requires meter { reading.now.meter.0 < length basis.now.office.now.meters }
    requires counts { CountsAtMeter basis.now.office.now reading.now }
    requires few { IsGatheredBelow (2 ^ 120) so_far.old.changes }
    requires known { KeepsKnown S.Shelf so_far.old.known shelf.old }
    ensures settled { S.clean shelf.new → (s : List AnEntry)
        → IsJustChanged (office_of basis.now.office.now) s
        (key.Reading reading.now.meter reading.now.register reading.now.instant) before.now
        behind.now (S.state shelf.old).content.records
        → IsTrueBut (office_of basis.now.office.now) so_far.old.changes.rows s
        (S.state shelf.old).content
        → OnOk result (IsTrueAgainBut (office_of basis.now.office.now) so_far.new.changes.rows
        (S.state shelf.old).content (S.state shelf.new).content) }
    ensures few { OnOk result (GathersAtMost (2 ^ 39) so_far.old.changes so_far.new.changes) }
    ensures start { S.clean shelf.new → OnOk result
        ((S.state shelf.new).content.start ≡ (S.state shelf.old).content.start) }
    ensures alone { S.clean shelf.new → OnOk result
        (ChangesOneKey (key.Reading reading.now.meter reading.now.register reading.now.instant)
        (S.state shelf.old).content (S.state shelf.new).content) }
    ensures tally { TakesStarts S.Shelf 6 reading.now.meter.0 shelf.old shelf.new }
    ensures known { StillKeepsKnown S.Shelf result so_far.new.known shelf.new }
    ensures kept { UploadGoesOn S.Shelf result shelf.old shelf.new }
{
    match (counting_wh(before), counting_wh(behind)) {
        (None, Some(wh)) => begin_to_count(shelf, basis, reading, wh, so_far),
        (Some(wh), None) => cease_to_count(shelf, basis, reading, wh, so_far),
        (None, None) | (Some(_), Some(_)) => Ok(()),
    }
}

// Keeps the start and the energies that follow where an assignment begins or ceases to count.
fn assignment_changed<S: Shelf>(
    shelf: &mut S,
    basis: &Basis,
    meter: MeterId,
    start: Instant,
    before: &Contents,
    behind: &Contents,
) -> Result<(), ShelfFault>
    requires begun { IsSome (S.state shelf.old).begun }
    requires sound { IsSound basis.now.office.now }
    requires meter { meter.0 < length basis.now.office.now.meters }
    ensures settled { S.clean shelf.new → (s : List AnEntry)
        → IsJustChanged (office_of basis.now.office.now) s (key.Assignment meter start) before.now
        behind.now (S.state shelf.old).content.records
        → IsTrueOf (office_of basis.now.office.now) s (S.state shelf.old).content
        → OnOk result (IsTrueAgain (office_of basis.now.office.now) (S.state shelf.old).content
        (S.state shelf.new).content) }
    ensures alone { S.clean shelf.new → OnOk result
        (ChangesOneKey (key.Assignment meter start) (S.state shelf.old).content
        (S.state shelf.new).content) }
    ensures tally { S.clean shelf.new → TakesAtMost 0 (office_of basis.now.office.now)
        (S.state shelf.old).content (key.Assignment meter start) (S.state shelf.old).tally
        (S.state shelf.new).tally }
    ensures kept { UploadGoesOn S.Shelf result shelf.old shelf.new }
{
    match (counting_owner(before), counting_owner(behind)) {
        (None, Some(owner)) => { change_start(shelf, basis, meter, start, Some(owner)) }
        (Some(_), None) => change_start(shelf, basis, meter, start, None),
        (None, None) | (Some(_), Some(_)) => Ok(()),
    }
}

// Keeps the total that follows where a top-up begins or ceases to count.
fn top_up_changed<S: Shelf>(
    shelf: &mut S,
    before: &Contents,
    behind: &Contents,
) -> Result<(), ShelfFault>
    requires begun { IsSome (S.state shelf.old).begun }
    ensures moved { S.clean shelf.new → OnOk result
        (IsPaid (paid_of before.now) (paid_of behind.now) (S.state shelf.old).content
        (S.state shelf.new).content) }
    ensures tally { (S.state shelf.new).tally ≤ (S.state shelf.old).tally + 3 }
    ensures kept { UploadGoesOn S.Shelf result shelf.old shelf.new }
{
    match (counting_payment(before), counting_payment(behind)) {
        (None, Some((account, cents))) => {
            let key = TotalKey::TopUps { account };
            change_total(shelf, &key, u128::from(cents), 0)
        }
        (Some((account, cents)), None) => {
            let key = TotalKey::TopUps { account };
            change_total(shelf, &key, 0, u128::from(cents))
        }
        (None, None) | (Some(_), Some(_)) => Ok(()),
    }
}

// Keeps points, starts and totals true, with what is gathered, where the records held have changed, by what was told at
// a key before and what is told there behind: elsewhere the same counts. What energies lose and gain by a reading is
// gathered; before an assignment all that is gathered is written, since it shares out anew what they have.
pub(crate) fn settle<S: Shelf>(
    shelf: &mut S,
    basis: &Basis,
    key: &Key,
    before: &Contents,
    behind: &Contents,
    so_far: &mut Gathered,
) -> Result<(), ShelfFault>
    requires begun { IsSome (S.state shelf.old).begun }
    requires sound { IsSound basis.now.office.now }
    requires of_office { IsKeyOf (office_of basis.now.office.now) key.now }
    requires few { IsGatheredBelow (2 ^ 120) so_far.old.changes }
    requires known { KeepsKnown S.Shelf so_far.old.known shelf.old }
    ensures settled { S.clean shelf.new → (s : List AnEntry)
        → IsJustChanged (office_of basis.now.office.now) s key.now before.now behind.now
        (S.state shelf.old).content.records
        → IsTrueBut (office_of basis.now.office.now) so_far.old.changes.rows s
        (S.state shelf.old).content
        → OnOk result (IsTrueAgainBut (office_of basis.now.office.now) so_far.new.changes.rows
        (S.state shelf.old).content (S.state shelf.new).content) }
    ensures few { OnOk result (GathersAtMost (2 ^ 39) so_far.old.changes so_far.new.changes) }
    ensures start { S.clean shelf.new → IsReading key.now
        → OnOk result ((S.state shelf.new).content.start ≡ (S.state shelf.old).content.start) }
    ensures alone { S.clean shelf.new → OnOk result
        (ChangesOneKey key.now (S.state shelf.old).content (S.state shelf.new).content) }
    ensures tally { S.clean shelf.new → TakesAtMost 0 (office_of basis.now.office.now)
        (S.state shelf.old).content key.now
        ((S.state shelf.old).tally
        + due (office_of basis.now.office.now) so_far.old.changes.rows.entries)
        ((S.state shelf.new).tally
        + due (office_of basis.now.office.now) so_far.new.changes.rows.entries) }
    ensures known { StillKeepsKnown S.Shelf result so_far.new.known shelf.new }
    ensures kept { UploadGoesOn S.Shelf result shelf.old shelf.new }
{
    match key {
        Key::Reading {
            meter,
            register,
            instant,
        } => {
            let reading = ReadingAt {
                meter: *meter,
                register: *register,
                instant: *instant,
            };
            reading_changed(shelf, basis, &reading, before, behind, so_far)
        }
        Key::Assignment { meter, start } => {
            move_energies(shelf, basis.office, &so_far.changes)?;
            *so_far = nothing_gathered(basis.alloc);
            assignment_changed(shelf, basis, *meter, *start, before, behind)
        }
        Key::TopUp { .. } => top_up_changed(shelf, before, behind),
        // What is told at a withdrawal's own key counts towards no point, start or total.
        Key::Withdrawal { .. } => Ok(()),
    }
}
