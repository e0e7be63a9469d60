//! An entry that is added, and what is told at the key that it bears on, before and behind.

ghost use Rattle.std.specs.Prelude.{◌≡◌, ◌+◌, ◌<◌, ◌≤◌, IfOk, IsSome, List, length};
ghost use Rattle.pw_model.specs.declared.records.Entry.{Entry as AnEntry};
ghost use Rattle.pw_model.specs.declared.records.Key.TheVariants as key;
ghost use Rattle.pw_model.specs.Bearing.{bears_on};
ghost use Rattle.pw_model.specs.Counting.{IsInserted, Member, contents_at, point as point_told};
ghost use Rattle.pw_model.specs.Office.{AllOfOffice, most_records};
ghost use Rattle.pw_tariff.specs.Office.{OfficeRules};
ghost use Rattle.pw_book.specs.inner.Inferred.{told_by_point};
ghost use Rattle.pw_book.specs.inner.Steps.{AddsRecord, KeepsContent, UploadGoesOn};

use pw_model::{Content, Contents, Entry, Key, is_same_content};
use pw_obis::Register;
use pw_shelf::{Shelf, ShelfFault};
use pw_tariff::MeterId;
use pw_time::Instant;
use std::alloc::Global;

// What is told at a key before an entry was added, and behind.
#[derive(Clone, Copy)]
pub(crate) struct Told {
    pub(crate) before: Contents,
    pub(crate) behind: Contents,
}

// Adds an entry that isn't held, and tells what is told at the key that it bears on, before and behind.
pub(crate) fn add_told<S: Shelf>(
    shelf: &mut S,
    alloc: Global,
    entry: &Entry,
    key: &Key,
) -> Result<Told, ShelfFault>
    requires begun { IsSome (S.state shelf.old).begun }
    requires bears { key.now ≡ bears_on entry.now }
    requires fresh { S.clean shelf.old → Member entry.now (S.state shelf.old).content.records → ⊥ }
    requires room { S.clean shelf.old → length (S.state shelf.old).content.records < most_records }
    ensures added { AddsRecord S.Shelf result entry.now shelf.old shelf.new }
    ensures before { S.clean shelf.new → (office : OfficeRules)
        → AllOfOffice office (S.state shelf.old).content.records
        → (S.state shelf.old).content.point
        ≡ point_told (contents_at (S.state shelf.old).content.records)
        → IfOk result (λ told. told.before
        ≡ contents_at (S.state shelf.old).content.records (bears_on entry.now)) }
    ensures behind { S.clean shelf.new → IfOk result
        (λ told. told.behind ≡ contents_at (S.state shelf.new).content.records
        (bears_on entry.now)) }
    ensures tally { S.clean shelf.new → (S.state shelf.new).tally ≤ (S.state shelf.old).tally + 7 }
    ensures kept { UploadGoesOn S.Shelf result shelf.old shelf.new }
{
    match &entry.key {
        Key::Reading {
            meter,
            register,
            instant,
        } => add_reading(shelf, alloc, *meter, *register, *instant, entry),
        _ => add_other(shelf, entry, key),
    }
}

// Adds an entry of any kind: what is told is asked twice.
fn add_other<S: Shelf>(shelf: &mut S, entry: &Entry, key: &Key) -> Result<Told, ShelfFault>
    requires begun { IsSome (S.state shelf.old).begun }
    requires fresh { S.clean shelf.old → Member entry.now (S.state shelf.old).content.records → ⊥ }
    requires room { S.clean shelf.old → length (S.state shelf.old).content.records < most_records }
    ensures added { AddsRecord S.Shelf result entry.now shelf.old shelf.new }
    ensures before { S.clean shelf.new → IfOk result
        (λ told. told.before ≡ contents_at (S.state shelf.old).content.records key.now) }
    ensures behind { S.clean shelf.new → IfOk result
        (λ told. told.behind ≡ contents_at (S.state shelf.new).content.records key.now) }
    ensures tally { (S.state shelf.new).tally ≤ (S.state shelf.old).tally + 7 }
    ensures kept { UploadGoesOn S.Shelf result shelf.old shelf.new }
{
    let before = shelf.contents_at(key)?;
    shelf.add(entry)?;
    let behind = shelf.contents_at(key)?;
    Ok(Told { before, behind })
}

// Adds a reading: what is told at its key is asked behind it alone, since what was told before follows.
fn add_reading<S: Shelf>(
    shelf: &mut S,
    alloc: Global,
    meter: MeterId,
    register: Register,
    instant: Instant,
    entry: &Entry,
) -> Result<Told, ShelfFault>
    requires begun { IsSome (S.state shelf.old).begun }
    requires key { entry.now.key ≡ key.Reading meter register instant }
    requires fresh { S.clean shelf.old → Member entry.now (S.state shelf.old).content.records → ⊥ }
    requires room { S.clean shelf.old → length (S.state shelf.old).content.records < most_records }
    ensures added { AddsRecord S.Shelf result entry.now shelf.old shelf.new }
    ensures before { S.clean shelf.new → (office : OfficeRules)
        → AllOfOffice office (S.state shelf.old).content.records
        → (S.state shelf.old).content.point
        ≡ point_told (contents_at (S.state shelf.old).content.records)
        → IfOk result (λ told. told.before
        ≡ contents_at (S.state shelf.old).content.records entry.now.key) }
    ensures behind { S.clean shelf.new → IfOk result
        (λ told. told.behind ≡ contents_at (S.state shelf.new).content.records entry.now.key) }
    ensures tally { S.clean shelf.new → (S.state shelf.new).tally ≤ (S.state shelf.old).tally + 7 }
    ensures kept { UploadGoesOn S.Shelf result shelf.old shelf.new }
{
    shelf.add(entry)?;
    let behind = shelf.contents_at(&entry.key)?;
    let before = told_before(shelf, alloc, meter, register, instant, entry, &behind)?;
    Ok(Told { before, behind })
}

// What was told at the key of a reading before it was added, from what is told there behind: nothing, where it stands
// alone; the same, where it doesn't stand, as it is withdrawn already; and where several stand, what counted, which the
// point that is still kept there tells.
fn told_before<S: Shelf>(
    shelf: &mut S,
    alloc: Global,
    meter: MeterId,
    register: Register,
    instant: Instant,
    entry: &Entry,
    behind: &Contents,
) -> Result<Contents, ShelfFault>
    requires key { entry.now.key ≡ key.Reading meter register instant }
    ensures before { S.clean shelf.new → (office : OfficeRules) (s : List AnEntry)
        → IsInserted entry.now s (S.state shelf.old).content.records → (Member entry.now s → ⊥)
        → AllOfOffice office s → (S.state shelf.old).content.point ≡ point_told (contents_at s)
        → behind.now ≡ contents_at (S.state shelf.old).content.records entry.now.key
        → IfOk result (λ before. before ≡ contents_at s entry.now.key) }
    ensures same { KeepsContent S.Shelf result shelf.old shelf.new }
    ensures tally { S.clean shelf.new → (S.state shelf.new).tally ≤ (S.state shelf.old).tally + 2 }
    ensures kept { UploadGoesOn S.Shelf result shelf.old shelf.new }
{
    match behind {
        Contents::Several => told_at_point(shelf, alloc, meter, register, instant),
        Contents::One(content) => {
            if is_same_content(content, &entry.content) {
                Ok(Contents::Nothing)
            } else {
                Ok(*behind)
            }
        }
        Contents::Nothing => Ok(Contents::Nothing),
    }
}

// What the point at an instant tells: the reading that counts there, or that several stand.
fn told_at_point<S: Shelf>(
    shelf: &mut S,
    alloc: Global,
    meter: MeterId,
    register: Register,
    instant: Instant,
) -> Result<Contents, ShelfFault>
    ensures told { S.clean shelf.new → IfOk result
        (λ told. told ≡ told_by_point
        ((S.state shelf.old).content.point meter.0 register instant)) }
    ensures same { KeepsContent S.Shelf result shelf.old shelf.new }
    ensures tally { S.clean shelf.new → (S.state shelf.new).tally ≤ (S.state shelf.old).tally + 2 }
    ensures kept { UploadGoesOn S.Shelf result shelf.old shelf.new }
{
    let points = shelf.points_between(alloc, meter, register, instant, instant)?;
    match points.first() {
        Some(point) => Ok(Contents::One(Content::Reading { wh: point.1 })),
        None => Ok(Contents::Several),
    }
}
