//! The records of a register, of a meter and of all top-ups, among records in their order.

ghost use Rattle.std.specs.Prelude.{◌≡◌, true, false};
ghost use Rattle.pw_model.specs.Kinds.{IsAssignment, IsAssignmentOf, IsReading, IsReadingOf, IsTopUp, ListsHeld};
ghost use Rattle.pw_model.specs.Lists.{IsInOrder};
ghost use Rattle.pw_model.specs.Same.{entry_order};
ghost use Rattle.pw_parts.specs.inner.Places.{is_at, is_before, place_of as place_told};

use crate::place::Place;
use pw_model::{Entry, Key};
use pw_obis::Register;
use pw_tariff::MeterId;

// The meter that stands first, and so the place where the assignments begin.
const FIRST_METER: MeterId = MeterId(0);

// The readings among records in order.
pub(crate) fn readings_among(records: &[Entry]) -> &[Entry]
    requires { IsInOrder entry_order records.now }
    ensures { ListsHeld IsReading records.now result.now }
{
    let (readings, _) = parted(records, Place::Assignments(FIRST_METER));
    readings
}

// The readings of a register among them.
pub(crate) fn readings_of(records: &[Entry], meter: MeterId, register: Register) -> &[Entry]
    requires { IsInOrder entry_order records.now }
    ensures { ListsHeld (IsReadingOf meter register) records.now result.now }
{
    at_place(records, Place::Readings(meter, register))
}

// The assignments among them.
pub(crate) fn assignments_among(records: &[Entry]) -> &[Entry]
    requires { IsInOrder entry_order records.now }
    ensures { ListsHeld IsAssignment records.now result.now }
{
    let (_, rest) = parted(records, Place::Assignments(FIRST_METER));
    let (assignments, _) = parted(rest, Place::TopUps);
    assignments
}

// The assignments of a meter among them.
pub(crate) fn assignments_of(records: &[Entry], meter: MeterId) -> &[Entry]
    requires { IsInOrder entry_order records.now }
    ensures { ListsHeld (IsAssignmentOf meter) records.now result.now }
{
    at_place(records, Place::Assignments(meter))
}

// The top-ups among them.
pub(crate) fn top_ups_among(records: &[Entry]) -> &[Entry]
    requires { IsInOrder entry_order records.now }
    ensures { ListsHeld IsTopUp records.now result.now }
{
    at_place(records, Place::TopUps)
}

// The records at a place, among records in order.
fn at_place(records: &[Entry], place: Place) -> &[Entry]
    requires { IsInOrder entry_order records.now }
    ensures { ListsHeld (λ k. is_at place k ≡ true) records.now result.now }
{
    let (_, rest) = parted(records, place);
    let count = rest.partition_point(|entry| stands_at(&entry.key, place));
    let (found, _) = rest.split_at(count);
    found
}

// The records before a place, and those from there on.
fn parted(records: &[Entry], place: Place) -> (&[Entry], &[Entry])
    requires { IsInOrder entry_order records.now }
    ensures before { ListsHeld (λ k. is_before place k ≡ true) records.now result.0.now }
    ensures behind { ListsHeld (λ k. is_before place k ≡ false) records.now result.1.now }
{
    let count = records.partition_point(|entry| stands_before(&entry.key, place));
    records.split_at(count)
}

// Whether the record of a key stands before a place.
fn stands_before(key: &Key, place: Place) -> bool
    ensures { result ≡ is_before place key.now }
{
    place_of(key).cmp(&place).is_lt()
}

// Whether the record of a key stands at a place.
fn stands_at(key: &Key, place: Place) -> bool
    ensures { result ≡ is_at place key.now }
{
    place_of(key).cmp(&place).is_eq()
}

// Where the record of a key stands.
fn place_of(key: &Key) -> Place
    ensures { result ≡ place_told key.now }
{
    match key {
        Key::Reading {
            meter,
            register,
            ..
        } => Place::Readings(*meter, *register),
        Key::Assignment { meter, .. } => Place::Assignments(*meter),
        Key::TopUp { .. } => Place::TopUps,
        Key::Withdrawal { .. } => Place::Withdrawals,
    }
}
