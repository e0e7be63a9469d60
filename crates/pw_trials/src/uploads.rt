//! Uploads into a store in memory: one that is kept with no memory, and one that is given up while one request is refused.

ghost use Rattle.std.specs.Prelude.{◌≡◌, IsSome, IsTrue, None};
ghost use Rattle.pw_shelf.specs.Memory.{state_of};

use crate::tell;
use pw_model::{Content, Entry, Key, Reference, TotalKey};
use pw_obis::{Register, WattHours};
use pw_shelf::laws::memory_abandons;
use pw_shelf::{MemoryShelf, Shelf, ShelfFault};
use pw_tariff::{AccountId, MeterId, Owner};
use pw_time::{FIRST_SECOND, Instant, LAST_SECOND};
use std::alloc::Global;
use std::io::Write;

// The rows of each part that are held before: as many as a node of a map has room for, so that one more asks for memory.
const HELD: u8 = 15;

// The rows that an upload adds: more than there is room to note, so that one more asks for memory.
const ADDED: u8 = 5;

// The rows that it changes and takes away.
const CHANGED: u8 = 3;

const TAKEN: u8 = 5;

// The most records that a store holds.
const MOST: u32 = 10_000_000;

const METER: MeterId = MeterId(0);

// What a store holds beside totals.
#[derive(Drop)]
struct Listed {
    topups: Vec<Entry>,
    points: Vec<(Instant, WattHours)>,
    starts: Vec<(Instant, Owner)>,
}

// What can't be made is told as a device's failure, which the trial refuses.
fn second(number: u8) -> Result<Instant, ShelfFault> {
    Instant::of(FIRST_SECOND + u32::from(number)).ok_or(ShelfFault::Device)
}

fn point(number: u8) -> Result<(Instant, WattHours), ShelfFault> {
    Ok((second(number)?, watt_hours(number)?))
}

fn watt_hours(number: u8) -> Result<WattHours, ShelfFault> {
    WattHours::of(u64::from(number)).ok_or(ShelfFault::Device)
}

fn total_key(number: u8) -> TotalKey {
    TotalKey::TopUps {
        account: AccountId(u16::from(number)),
    }
}

fn payment(number: u8) -> Option<Entry> {
    let reference = Reference::of(&[b'A'.saturating_add(number)])?;
    let instant = second(number).ok()?;
    Some(Entry {
        key: Key::TopUp { reference },
        content: Content::TopUp {
            account: AccountId(u16::from(number)),
            cents: 1,
            instant,
        },
    })
}

fn add<S: Shelf>(shelf: &mut S, number: u8) -> Result<(), ShelfFault>
    requires { IsSome (S.state shelf.old).begun }
    ensures { (S.state shelf.new).begun ≡ (S.state shelf.old).begun }
{
    let Some(entry) = payment(number) else {
        return Err(ShelfFault::Device);
    };
    if shelf.holds(&entry)? || MOST <= shelf.count()? {
        return Err(ShelfFault::Device);
    }
    shelf.add(&entry)
}

// Puts a record, and a row of each part: a point, a start and a total.
fn put_each_part<S: Shelf>(shelf: &mut S, number: u8) -> Result<(), ShelfFault>
    requires { IsSome (S.state shelf.old).begun }
    ensures { (S.state shelf.new).begun ≡ (S.state shelf.old).begun }
{
    let (instant, wh) = point(number)?;
    add(shelf, number)?;
    shelf.point_put(METER, Register::I1, instant, wh)?;
    shelf.start_put(METER, instant, Some(AccountId(1)))?;
    shelf.total_put(&total_key(number), 7)
}

// Adds some rows of each part, changes one and takes one away.
fn change<S: Shelf>(shelf: &mut S) -> Result<(), ShelfFault>
    requires { IsSome (S.state shelf.old).begun }
    ensures { (S.state shelf.new).begun ≡ (S.state shelf.old).begun }
{
    for number in HELD..HELD + ADDED {
        put_each_part(shelf, number)?;
    }
    let (changed, taken) = (second(CHANGED)?, second(TAKEN)?);
    shelf.point_put(METER, Register::I1, changed, watt_hours(HELD)?)?;
    shelf.start_put(METER, changed, None)?;
    shelf.total_put(&total_key(CHANGED), 0)?;
    shelf.point_del(METER, Register::I1, taken)?;
    shelf.start_del(METER, taken)
}

// Whether a store takes some rows, each in an upload of its own.
fn is_filled<S: Shelf>(shelf: &mut S) -> bool
    requires { (S.state shelf.old).begun ≡ None }
    ensures { IsTrue result → (S.state shelf.new).begun ≡ None }
{
    for number in 0..HELD {
        if !is_put_alone(shelf, number) {
            return false;
        }
    }
    true
}

fn is_put_alone<S: Shelf>(shelf: &mut S, number: u8) -> bool
    requires { (S.state shelf.old).begun ≡ None }
    ensures { IsTrue result → (S.state shelf.new).begun ≡ None }
{
    shelf.begin().is_ok() && put_each_part(shelf, number).is_ok() && shelf.commit().is_ok()
}

// Whether a store takes some rows, and the changes of an upload that is begun then.
pub(crate) fn is_changed<S: Shelf>(shelf: &mut S) -> bool
    requires { (S.state shelf.old).begun ≡ None }
    ensures { IsTrue result → IsSome (S.state shelf.new).begun }
{
    is_filled(shelf) && is_begun(shelf)
}

// Whether an upload is begun with all changes.
fn is_begun<S: Shelf>(shelf: &mut S) -> bool
    requires { (S.state shelf.old).begun ≡ None }
    ensures { IsTrue result → IsSome (S.state shelf.new).begun }
{
    shelf.begin().is_ok() && change(shelf).is_ok()
}

// Whether an upload is kept, and another one begun and given up.
pub(crate) fn is_kept<S: Shelf>(shelf: &mut S) -> bool
    requires { IsSome (S.state shelf.old).begun }
{
    shelf.commit().is_ok()
        && shelf.begin().is_ok()
        && shelf.abandon().is_ok()
        && is_changed_then(shelf)
}

// Whether the records that were added are held, the total is as it was changed, and the point that was taken away is
// passed over.
fn is_changed_then<S: Shelf>(shelf: &mut S) -> bool {
    shelf.count() == Ok(20)
        && shelf.total(&total_key(CHANGED)) == Ok(0)
        && is_passed_over(shelf) == Ok(true)
}

fn is_passed_over<S: Shelf>(shelf: &mut S) -> Result<bool, ShelfFault> {
    let (fourth, sixth) = (point(TAKEN - 1)?, point(TAKEN + 1)?);
    let before = shelf.point_before(METER, Register::I1, sixth.0)?;
    let behind = shelf.point_after(METER, Register::I1, fourth.0)?;
    Ok(before == Some(fourth) && behind == Some(sixth))
}

fn told<S: Shelf>(alloc: Global, shelf: &mut S) -> Result<Listed, ShelfFault>
    ensures { (S.state shelf.new).begun ≡ (S.state shelf.old).begun }
{
    let topups = shelf.topups(alloc)?;
    let starts = shelf.starts_of(alloc, METER)?;
    let points = points(alloc, shelf)?;
    Ok(Listed {
        topups,
        points,
        starts,
    })
}

fn points<S: Shelf>(alloc: Global, shelf: &mut S) -> Result<Vec<(Instant, WattHours)>, ShelfFault>
    ensures { (S.state shelf.new).begun ≡ (S.state shelf.old).begun }
{
    let (Some(first), Some(last)) = (Instant::of(FIRST_SECOND), Instant::of(LAST_SECOND)) else {
        return Err(ShelfFault::Device);
    };
    shelf.points_between(alloc, METER, Register::I1, first, last)
}

fn is_same(a: &Listed, b: &Listed) -> bool {
    a.topups == b.topups && a.points == b.points && a.starts == b.starts
}

// Makes an upload and gives it up; whether it failed for want of memory, or not at all.
fn is_given_up(shelf: &mut MemoryShelf) -> bool
    requires { (state_of shelf.old).begun ≡ None }
    ensures { (state_of shelf.new).begun ≡ None }
{
    if shelf.begin().is_err() {
        return false;
    }
    let changed = change(shelf);
    memory_abandons(shelf).is_ok() && changed != Err(ShelfFault::Device)
}

// Whether a store holds what it held before when an upload was given up one of whose requests may have been refused, and
// the next upload is kept.
pub(crate) fn is_taken_back<O: Write>(alloc: Global, out: &mut O) -> bool {
    let mut shelf = MemoryShelf::new(alloc);
    is_filled(&mut shelf) && is_filled_taken_back(alloc, out, &mut shelf)
}

fn is_filled_taken_back<O: Write>(alloc: Global, out: &mut O, shelf: &mut MemoryShelf) -> bool
    requires { (state_of shelf.old).begun ≡ None }
{
    match told(alloc, shelf) {
        Ok(before) => is_given_up_between(out, shelf) && is_as_before(alloc, shelf, &before),
        Err(_) => false,
    }
}

// Tells between which lines a request may be refused.
fn is_given_up_between<O: Write>(out: &mut O, shelf: &mut MemoryShelf) -> bool
    requires { (state_of shelf.old).begun ≡ None }
    ensures { (state_of shelf.new).begun ≡ None }
{
    tell(out, b"one may be refused\n");
    let is_given_up = is_given_up(shelf);
    tell(out, b"all is given\n");
    is_given_up
}

// Whether a store holds what it held before, and the next upload is kept.
fn is_as_before<S: Shelf>(alloc: Global, shelf: &mut S, before: &Listed) -> bool
    requires { (S.state shelf.old).begun ≡ None }
{
    match told(alloc, shelf) {
        Ok(now) => is_whole(before)
            && is_same(before, &now)
            && are_totals_as_before(shelf)
            && is_begun(shelf)
            && is_kept(shelf),
        Err(_) => false,
    }
}

fn is_whole(listed: &Listed) -> bool {
    listed.points.len() == 15 && listed.starts.len() == 15
}

// Whether the total that was added isn't there, and the one that was changed is as it was.
fn are_totals_as_before<S: Shelf>(shelf: &mut S) -> bool
    ensures { (S.state shelf.new).begun ≡ (S.state shelf.old).begun }
{
    shelf.total(&total_key(HELD)) == Ok(0) && shelf.total(&total_key(CHANGED)) == Ok(7)
}
