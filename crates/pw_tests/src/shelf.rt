//! Each call over the trait's bound with ample memory, and what stays where memory is refused, or a call fails. What a
//! store is told and asked stands in tables of stages: here is what a stage is, and whether a store passes it.

ghost use Rattle.std.specs.Prelude.{◌≡◌, None, IsSome, IsTrue};

mod counts;
mod failing;
mod parts;
mod records;
mod refused;

use crate::entries::{Sent, at, entries_of, entry_of, wh};
use crate::sample::{FIRST, FIVE, METER, SECOND, SIX};
use pw_model::Entry;
use pw_obis::{Register, WattHours};
use pw_shelf::{Contents, MemoryShelf, Shelf, ShelfFault, TotalKey};
use pw_tariff::{AccountId, MeterId, Owner};
use pw_time::Instant;
use std::alloc::Global;
use std::process::Abort;

const OTHER: MeterId = MeterId(1);

const TOPUPS: TotalKey = TotalKey::TopUps {
    account: AccountId(0),
};

// A list of records: of a register of the first meter, of a meter, of all payments, or of all withdrawals.
#[derive(Clone, Copy)]
enum List {
    Readings(Register),
    Assignments(MeterId),
    TopUps,
    Withdrawals,
}

// A second and watt-hours.
type Point = (u32, u64);

// What is told of the first meter's points, of starts, and of the total: the latest point before a second, the earliest
// behind one, those from one second to another, a meter's starts, and cents.
#[derive(Clone, Copy)]
enum Part {
    Before(u32, Option<Point>),
    Behind(u32, Option<Point>),
    Between(u32, u32, &'static [Point]),
    Starts(MeterId, &'static [(u32, Owner)]),
    Total(u64),
}

// What is told of records: whether one is held, whether none has its key, it alone or several, how many there are, and
// lists of them; and of the parts.
#[derive(Clone, Copy)]
enum Answer {
    Held(Sent, bool),
    Nothing(Sent),
    Alone(Sent),
    Several(Sent),
    Count(u32),
    Listed(List, &'static [Sent]),
    Of(Part),
}

// A change of the first meter's points or starts, or of the total.
#[derive(Clone, Copy)]
enum Change {
    Point(Register, u32, u64),
    NoPoint(u32),
    Start(u32, Owner),
    NoStart(u32),
    Total(u32),
}

// What stands in an upload: a record that is new, a change, or questions.
#[derive(Clone, Copy)]
enum Call {
    Added(Sent),
    Changed(Change),
    Told(&'static [Answer]),
}

// An upload that is kept, one that is given up, or questions between uploads.
#[derive(Clone, Copy)]
enum Stage {
    Uploaded(&'static [Call]),
    GivenUp(&'static [Call]),
    Told(&'static [Answer]),
}

// Whether an upload is begun. (What is told of calls here is what the next one asks: proofs of chains cost less so.)
fn begins<S: Shelf>(shelf: &mut S) -> bool
    requires { (S.state shelf.old).begun ≡ None }
    ensures { IsTrue result → IsSome (S.state shelf.new).begun }
{
    shelf.begin().is_ok()
}

// Whether it is kept.
fn commits<S: Shelf>(shelf: &mut S) -> bool
    requires { IsSome (S.state shelf.old).begun }
    ensures { IsTrue result → (S.state shelf.new).begun ≡ None }
{
    shelf.commit().is_ok()
}

// Whether it is given up.
fn abandons<S: Shelf>(shelf: &mut S) -> bool
    requires { IsSome (S.state shelf.old).begun }
    ensures { IsTrue result → (S.state shelf.new).begun ≡ None }
{
    shelf.abandon().is_ok()
}

// Adds a record to the upload, and answers whether it was new and there was room.
fn put<S: Shelf>(shelf: &mut S, entry: &Entry) -> bool
    requires { IsSome (S.state shelf.old).begun }
    ensures { (S.state shelf.new).begun ≡ (S.state shelf.old).begun }
{
    if shelf.holds(entry) != Ok(false) {
        return false;
    }
    match shelf.count() {
        Ok(count) => count < 10_000_000 && shelf.add(entry).is_ok(),
        Err(_) => false,
    }
}

fn apply<S: Shelf>(rt: &impl Abort, shelf: &mut S, change: Change) -> Result<(), ShelfFault>
    requires { IsSome (S.state shelf.old).begun }
    ensures { (S.state shelf.new).begun ≡ (S.state shelf.old).begun }
{
    match change {
        Change::Point(register, second, watt_hours) => {
            shelf.point_put(METER, register, at(rt, second), wh(rt, watt_hours))
        }
        Change::NoPoint(second) => shelf.point_del(METER, Register::I1, at(rt, second)),
        Change::Start(second, owner) => shelf.start_put(METER, at(rt, second), owner),
        Change::NoStart(second) => shelf.start_del(METER, at(rt, second)),
        Change::Total(cents) => shelf.total_put(&TOPUPS, u64::from(cents)),
    }
}

// Whether the call listed just these.
fn lists<T: PartialEq + Drop>(found: Result<Vec<T>, ShelfFault>, wanted: &[T]) -> bool {
    match found {
        Ok(found) => found.as_slice() == wanted,
        Err(_) => false,
    }
}

fn point_of(rt: &impl Abort, (second, watt_hours): Point) -> (Instant, WattHours) {
    (at(rt, second), wh(rt, watt_hours))
}

// Whether a call found this point, or none.
fn finds(
    rt: &impl Abort,
    found: Result<Option<(Instant, WattHours)>, ShelfFault>,
    wanted: Option<Point>,
) -> bool {
    match wanted {
        Some(point) => found == Ok(Some(point_of(rt, point))),
        None => found == Ok(None),
    }
}

fn points_of(rt: &impl Abort, alloc: Global, points: &[Point]) -> Vec<(Instant, WattHours)> {
    let mut list = Vec::new(alloc);
    for point in points {
        list.push(point_of(rt, *point)).expect(rt, "memory");
    }
    list
}

fn starts_of(rt: &impl Abort, alloc: Global, starts: &[(u32, Owner)]) -> Vec<(Instant, Owner)> {
    let mut list = Vec::new(alloc);
    for (second, owner) in starts {
        list.push((at(rt, *second), *owner)).expect(rt, "memory");
    }
    list
}

fn listed<S: Shelf>(alloc: Global, shelf: &mut S, list: List) -> Result<Vec<Entry>, ShelfFault>
    ensures { (S.state shelf.new).begun ≡ (S.state shelf.old).begun }
{
    match list {
        List::Readings(register) => shelf.readings_of(alloc, METER, register),
        List::Assignments(meter) => shelf.assignments_of(alloc, meter),
        List::TopUps => shelf.topups(alloc),
        List::Withdrawals => shelf.withdrawals(alloc),
    }
}

// Whether this is told of a part.
fn is_part<S: Shelf>(rt: &impl Abort, alloc: Global, shelf: &mut S, part: Part) -> bool
    ensures { (S.state shelf.new).begun ≡ (S.state shelf.old).begun }
{
    match part {
        Part::Before(second, wanted) => {
            finds(
                rt,
                shelf.point_before(METER, Register::I1, at(rt, second)),
                wanted,
            )
        }
        Part::Behind(second, wanted) => {
            finds(
                rt,
                shelf.point_after(METER, Register::I1, at(rt, second)),
                wanted,
            )
        }
        Part::Between(from, to, wanted) => {
            let found = shelf.points_between(alloc, METER, Register::I1, at(rt, from), at(rt, to));
            lists(found, &points_of(rt, alloc, wanted))
        }
        Part::Starts(meter, wanted) => {
            lists(shelf.starts_of(alloc, meter), &starts_of(rt, alloc, wanted))
        }
        Part::Total(cents) => shelf.total(&TOPUPS) == Ok(cents),
    }
}

fn is_count<S: Shelf>(shelf: &mut S, wanted: u32) -> bool
    ensures { (S.state shelf.new).begun ≡ (S.state shelf.old).begun }
{
    shelf.count() == Ok(wanted)
}

// Whether the key of a record has these contents.
fn contents_are<S: Shelf>(shelf: &mut S, entry: &Entry, wanted: Contents) -> bool
    ensures { (S.state shelf.new).begun ≡ (S.state shelf.old).begun }
{
    shelf.contents_at(&entry.key) == Ok(wanted)
}

// Whether a question is answered so.
fn is_told<S: Shelf>(rt: &impl Abort, alloc: Global, shelf: &mut S, answer: Answer) -> bool
    ensures { (S.state shelf.new).begun ≡ (S.state shelf.old).begun }
{
    match answer {
        Answer::Held(sent, is_held) => shelf.holds(&entry_of(rt, sent)) == Ok(is_held),
        Answer::Nothing(sent) => contents_are(shelf, &entry_of(rt, sent), Contents::Nothing),
        Answer::Alone(sent) => {
            let entry = entry_of(rt, sent);
            contents_are(shelf, &entry, Contents::One(entry.content))
        }
        Answer::Several(sent) => contents_are(shelf, &entry_of(rt, sent), Contents::Several),
        Answer::Count(wanted) => is_count(shelf, wanted),
        Answer::Listed(list, wanted) => {
            lists(listed(alloc, shelf, list), &entries_of(rt, alloc, wanted))
        }
        Answer::Of(part) => is_part(rt, alloc, shelf, part),
    }
}

fn are_told<S: Shelf>(rt: &impl Abort, alloc: Global, shelf: &mut S, answers: &[Answer]) -> bool
    ensures { (S.state shelf.new).begun ≡ (S.state shelf.old).begun }
{
    for answer in answers {
        if !is_told(rt, alloc, shelf, *answer) {
            return false;
        }
    }
    true
}

// Whether a call in the upload that is begun does what it should.
fn is_done<S: Shelf>(rt: &impl Abort, alloc: Global, shelf: &mut S, call: Call) -> bool
    requires { IsSome (S.state shelf.old).begun }
    ensures { (S.state shelf.new).begun ≡ (S.state shelf.old).begun }
{
    match call {
        Call::Added(sent) => put(shelf, &entry_of(rt, sent)),
        Call::Changed(change) => apply(rt, shelf, change).is_ok(),
        Call::Told(answers) => are_told(rt, alloc, shelf, answers),
    }
}

fn are_done<S: Shelf>(rt: &impl Abort, alloc: Global, shelf: &mut S, calls: &[Call]) -> bool
    requires { IsSome (S.state shelf.old).begun }
    ensures { (S.state shelf.new).begun ≡ (S.state shelf.old).begun }
{
    for call in calls {
        if !is_done(rt, alloc, shelf, *call) {
            return false;
        }
    }
    true
}

fn is_passed<S: Shelf>(rt: &impl Abort, alloc: Global, shelf: &mut S, stage: Stage) -> bool
    requires { (S.state shelf.old).begun ≡ None }
    ensures { IsTrue result → (S.state shelf.new).begun ≡ None }
{
    match stage {
        Stage::Uploaded(calls) => {
            begins(shelf) && are_done(rt, alloc, shelf, calls) && commits(shelf)
        }
        Stage::GivenUp(calls) => {
            begins(shelf) && are_done(rt, alloc, shelf, calls) && abandons(shelf)
        }
        Stage::Told(answers) => are_told(rt, alloc, shelf, answers),
    }
}

// Whether a store passes all stages.
fn passes<S: Shelf>(rt: &impl Abort, alloc: Global, shelf: &mut S, stages: &[Stage]) -> bool
    requires { (S.state shelf.old).begun ≡ None }
    ensures { IsTrue result → (S.state shelf.new).begun ≡ None }
{
    for stage in stages {
        if !is_passed(rt, alloc, shelf, *stage) {
            return false;
        }
    }
    true
}

// Whether a new store in memory passes them.
fn passes_in_memory(rt: &impl Abort, alloc: Global, stages: &[Stage]) -> bool {
    passes(rt, alloc, &mut MemoryShelf::new(alloc), stages)
}

// Two readings of the first register, an owner and a payment.
const EARLY: Sent = Sent::Reading(METER, Register::I1, FIVE, 1_000_000);

const LATE: Sent = Sent::Reading(METER, Register::I1, SIX, 1_001_000);

const OWNER: Sent = Sent::Assignment(METER, FIVE, Some(SECOND));

const PAYMENT: Sent = Sent::TopUp(b"P1", FIRST, 2_000);

// Another content at the key of the first.
const BESIDE: Sent = Sent::Reading(METER, Register::I1, FIVE, 1_000_500);

// The withdrawals of a reading and of an assignment, neither of which is held, in their order.
const NO_READING: Sent = Sent::ReadingWithdrawn(METER, Register::I1, SIX, 1_000_000);

const NO_OWNER: Sent = Sent::AssignmentWithdrawn(METER, FIVE, None);

// Two points of a register, two starts of a meter and a total.
const KEPT: Stage = Stage::Uploaded(&[
    Call::Changed(Change::Point(Register::I1, FIVE, 7)),
    Call::Changed(Change::Point(Register::I1, SIX, 9)),
    Call::Changed(Change::Point(Register::I1, FIVE, 8)),
    Call::Changed(Change::Point(Register::I2, FIVE, 1)),
    Call::Changed(Change::Start(FIVE, Some(SECOND))),
    Call::Changed(Change::Start(SIX, None)),
    Call::Changed(Change::Total(2_000)),
]);

const BOTH_POINTS: &[Answer] = &[
    Answer::Of(Part::Before(FIVE, None)),
    Answer::Of(Part::Behind(FIVE, Some((SIX, 9)))),
    Answer::Of(Part::Before(SIX, Some((FIVE, 8)))),
    Answer::Of(Part::Behind(SIX, None)),
    Answer::Of(Part::Between(FIVE, SIX, &[(FIVE, 8), (SIX, 9)])),
    Answer::Of(Part::Between(SIX, FIVE, &[])),
];

// Both starts, and the total.
const BOTH_STARTS: &[Answer] = &[
    Answer::Of(Part::Starts(METER, &[(FIVE, Some(SECOND)), (SIX, None)])),
    Answer::Of(Part::Starts(OTHER, &[])),
    Answer::Of(Part::Total(2_000)),
];
