//! Records are added, and each question about them is answered; withdrawals are listed in their order.

ghost use Rattle.std.specs.Prelude.{◌≡◌, None, OnOk};

use super::{
    Answer, BESIDE, Call, EARLY, LATE, List, NO_OWNER, NO_READING, OTHER, OWNER, PAYMENT, Stage,
    passes, passes_in_memory,
};
use crate::entries::Sent;
use crate::sample::{FIRST, FIVE, METER, SIX};
use pw_obis::Register;
use pw_shelf::laws::memory_abandons;
use pw_shelf::{MemoryShelf, Shelf, ShelfFault};
use std::alloc::Global;
use std::process::Abort;

// A second payment, which is listed behind the first.
const PAYMENT_BEHIND: Sent = Sent::TopUp(b"P10", FIRST, 5_000);

const OTHER_REGISTER: Sent = Sent::Reading(METER, Register::I2, FIVE, 7);

const EXPORTED: Sent = Sent::Reading(METER, Register::E1, FIVE, 1);

const NEVER: Sent = Sent::Assignment(METER, SIX, Some(FIRST));

// Six records in three uploads, and a second content of a key, which is seen within an upload, and gone behind it.
const RECORDS: [Stage; 4] = [
    Stage::Uploaded(&[Call::Added(PAYMENT_BEHIND), Call::Added(LATE)]),
    Stage::Uploaded(&[Call::Added(OWNER), Call::Added(EARLY)]),
    Stage::Uploaded(&[Call::Added(PAYMENT), Call::Added(OTHER_REGISTER)]),
    Stage::GivenUp(&[Call::Added(BESIDE), Call::Told(&[Answer::Several(BESIDE)])]),
];

// A record that is new in an upload of its own, and isn't in the next, which adds nothing; and each question, answered
// by the six records and this one.
const SEVENTH: [Stage; 3] = [
    Stage::Uploaded(&[Call::Added(EXPORTED)]),
    Stage::Uploaded(&[Call::Told(&[Answer::Held(EXPORTED, true)])]),
    Stage::Told(&[
        Answer::Held(EARLY, true),
        Answer::Alone(EARLY),
        Answer::Held(NEVER, false),
        Answer::Nothing(NEVER),
        Answer::Listed(List::Readings(Register::I1), &[EARLY, LATE]),
        Answer::Listed(List::Assignments(METER), &[OWNER]),
        Answer::Listed(List::TopUps, &[PAYMENT, PAYMENT_BEHIND]),
        Answer::Listed(List::Readings(Register::E0), &[]),
        Answer::Listed(List::Assignments(OTHER), &[]),
        Answer::Count(7),
    ]),
];

// An upload of nothing, which is given up.
fn begun_and_given_up(shelf: &mut MemoryShelf) -> Result<(), ShelfFault>
    requires { (⟦<MemoryShelf as Shelf>⟧.state shelf.old).begun ≡ None }
    ensures { OnOk result ((⟦<MemoryShelf as Shelf>⟧.state shelf.new).begun ≡ None) }
{
    shelf.begin()?;
    memory_abandons(shelf)
}

fn calls_answered(rt: &impl Abort, alloc: Global, mut shelf: MemoryShelf) -> bool
    requires { (⟦<MemoryShelf as Shelf>⟧.state shelf).begun ≡ None }
{
    passes(rt, alloc, &mut shelf, &RECORDS)
        && begun_and_given_up(&mut shelf).is_ok()
        && passes(rt, alloc, &mut shelf, &SEVENTH)
}

// bears on: pw_shelf laws.rt memory_abandons ended
// bears on: pw_shelf laws.rt memory_abandons succeeds
// bears on: pw_shelf laws.rt records_are_each_once ensures
// bears on: pw_shelf memory.rt MemoryShelf::new begun
// bears on: pw_shelf shelf.rt Shelf once
// bears on: pw_shelf shelf.rt Shelf::abandon back
// bears on: pw_shelf shelf.rt Shelf::abandon ended
// bears on: pw_shelf shelf.rt Shelf::abandon memory
// bears on: pw_shelf shelf.rt Shelf::add added
// bears on: pw_shelf shelf.rt Shelf::add memory
// bears on: pw_shelf shelf.rt Shelf::add written
// bears on: pw_shelf shelf.rt Shelf::assignments_of memory
// bears on: pw_shelf shelf.rt Shelf::assignments_of rows
// bears on: pw_shelf shelf.rt Shelf::begin begun
// bears on: pw_shelf shelf.rt Shelf::begin memory
// bears on: pw_shelf shelf.rt Shelf::begin same
// bears on: pw_shelf shelf.rt Shelf::commit ended
// bears on: pw_shelf shelf.rt Shelf::commit memory
// bears on: pw_shelf shelf.rt Shelf::commit stays
// bears on: pw_shelf shelf.rt Shelf::contents_at memory
// bears on: pw_shelf shelf.rt Shelf::contents_at rows
// bears on: pw_shelf shelf.rt Shelf::count asked
// bears on: pw_shelf shelf.rt Shelf::count memory
// bears on: pw_shelf shelf.rt Shelf::count number
// bears on: pw_shelf shelf.rt Shelf::holds held
// bears on: pw_shelf shelf.rt Shelf::holds memory
// bears on: pw_shelf shelf.rt Shelf::readings_of memory
// bears on: pw_shelf shelf.rt Shelf::readings_of rows
// bears on: pw_shelf shelf.rt Shelf::topups memory
// bears on: pw_shelf shelf.rt Shelf::topups rows
#[test]
fn each_call(rt: HostRuntime) {
    assert!(rt; calls_answered(&rt, rt.alloc(), MemoryShelf::new(rt.alloc())));
}

// The withdrawal of a payment that isn't held, which is listed behind those of readings and of assignments.
const NO_PAYMENT: Sent = Sent::TopUpWithdrawn(b"P1", FIRST, 2_000);

const OTHER_PAYMENT: Sent = Sent::TopUp(b"P2", FIRST, 5_000);

// Withdrawals are listed in their order, which isn't the one in which they come; and a payment isn't among them.
const WITHDRAWALS: [Stage; 3] = [
    Stage::Uploaded(&[Call::Added(NO_PAYMENT), Call::Added(OTHER_PAYMENT)]),
    Stage::Uploaded(&[Call::Added(NO_OWNER), Call::Added(NO_READING)]),
    Stage::Told(&[
        Answer::Listed(List::Withdrawals, &[NO_READING, NO_OWNER, NO_PAYMENT]),
        Answer::Listed(List::TopUps, &[OTHER_PAYMENT]),
    ]),
];

// bears on: pw_shelf shelf.rt Shelf::withdrawals memory
// bears on: pw_shelf shelf.rt Shelf::withdrawals rows
#[test]
fn withdrawals_in_their_order(rt: HostRuntime) {
    assert!(rt; passes_in_memory(&rt, rt.alloc(), &WITHDRAWALS));
}
