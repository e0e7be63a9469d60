//! What is found among the records of a store in memory.

ghost use Rattle.std.specs.Prelude.{◌≡◌, IfOk, IfErr, IsTrue, ◌↔◌};
ghost use Rattle.pw_model.specs.Counting.{contents_at as held_at, is_withdrawn as is_withdrawn_by};
ghost use Rattle.pw_model.specs.Kinds.{IsAssignmentOf, IsReadingOf, ListsHeld};
ghost use Rattle.pw_model.specs.Payments.{keys, stands_in};
ghost use Rattle.pw_model.specs.Same.{same_key};
ghost use Rattle.pw_shelf.specs.inner.Kinds.{IsOfKind, lowest, lowest_key};
ghost use Rattle.pw_shelf.specs.declared.fault.ShelfFault.TheVariants.{Memory};

use crate::fault::ShelfFault;
use crate::held::Held;
use pw_model::{Content, Contents, Entry, Key, Named, Reference, is_same_key};
use pw_obis::{Register, WattHours};
use pw_tariff::MeterId;
use pw_time::{FIRST_SECOND, Instant};
use std::alloc::Global;

impl Held {
    // What the records that stand say of a key.
    pub(crate) fn contents_at(&self, key: &Key) -> Contents
        ensures { result ≡ held_at self.now.records.keys key.now }
    {
        let mut contents = Contents::Nothing;
        for entry in self.records.range(lowest_at(*key)..) {
            if !is_same_key(&entry.key, key) {
                return contents;
            }
            if !self.is_withdrawn(entry) {
                match contents {
                    Contents::Nothing => contents = Contents::One(entry.content),
                    _ => return Contents::Several,
                }
            }
        }
        contents
    }

    // Whether one of the records withdraws this one.
    fn is_withdrawn(&self, entry: &Entry) -> bool
        ensures { result ≡ is_withdrawn_by self.now.records.keys entry.now }
    {
        match Named::of(entry) {
            Some(named) => self.has_key(&Key::Withdrawal { named }),
            None => false,
        }
    }

    // Whether one of the records has a key.
    fn has_key(&self, key: &Key) -> bool
        ensures { result ≡ stands_in same_key key.now (keys self.now.records.keys) }
    {
        match self.records.range(lowest_at(*key)..).next() {
            Some(first) => is_same_key(&first.key, key),
            None => false,
        }
    }

    // All records of a kind, sorted.
    pub(crate) fn all_of(&self, alloc: Global, kind: Kind) -> Result<Vec<Entry>, ShelfFault>
        ensures rows { IfOk result (λ found. ListsHeld (IsOfKind kind) self.now.records.keys
            found.items) }
        ensures memory { IfErr result (λ e. e ≡ Memory) }
    {
        let mut found = Vec::new(alloc);
        for entry in self.records.range(lowest_of(kind)..) {
            if !is_of_kind(&entry.key, kind) {
                return Ok(found);
            }
            found.push(*entry)?;
        }
        Ok(found)
    }
}

// Which records a list has.
#[derive(Clone, Copy)]
pub(crate) enum Kind {
    // The readings of a register.
    Readings(MeterId, Register),
    // The assignments of a meter.
    Assignments(MeterId),
    // The top-ups.
    TopUps,
    // The withdrawals.
    Withdrawals,
}

// Whether the record of a key is one of a kind.
fn is_of_kind(key: &Key, kind: Kind) -> bool
    ensures { IsTrue result ↔ IsOfKind kind key.now }
{
    match kind {
        Kind::Readings(meter, register) => is_reading_of(key, meter, register),
        Kind::Assignments(meter) => is_assignment_of(key, meter),
        Kind::TopUps => matches!(key, Key::TopUp { .. }),
        Kind::Withdrawals => matches!(key, Key::Withdrawal { .. }),
    }
}

// Whether the record of a key is a reading of this register.
fn is_reading_of(key: &Key, meter: MeterId, register: Register) -> bool
    ensures { IsTrue result ↔ IsReadingOf meter register key.now }
{
    match key {
        Key::Reading {
            meter: other,
            register: found,
            instant: _,
        } => *other == meter && *found == register,
        _ => false,
    }
}

// Whether the record of a key is an assignment of this meter.
fn is_assignment_of(key: &Key, meter: MeterId) -> bool
    ensures { IsTrue result ↔ IsAssignmentOf meter key.now }
{
    match key {
        Key::Assignment {
            meter: other,
            start: _,
        } => *other == meter,
        _ => false,
    }
}

// No record of the kind stands before this one.
fn lowest_of(kind: Kind) -> Entry
    ensures { result ≡ lowest (lowest_key kind) }
{
    let Some(first) = Instant::of(FIRST_SECOND) else {
        unreachable!();
    };
    let Some(reference) = Reference::of(b"-") else {
        unreachable!();
    };
    let key = match kind {
        Kind::Readings(meter, register) => Key::Reading {
            meter,
            register,
            instant: first,
        },
        Kind::Assignments(meter) => Key::Assignment {
            meter,
            start: first,
        },
        Kind::TopUps => Key::TopUp { reference },
        Kind::Withdrawals => Key::Withdrawal {
            named: Named::Reading {
                meter: MeterId(0),
                register: Register::I0,
                instant: first,
                wh: no_energy(),
            },
        },
    };
    lowest_at(key)
}

// No record with the key stands before this one.
fn lowest_at(key: Key) -> Entry
    ensures { result ≡ lowest key }
{
    Entry {
        key,
        content: Content::Reading { wh: no_energy() },
    }
}

// 0 Wh: no register shows less.
fn no_energy() -> WattHours
    ensures { result ≡ 0 }
{
    let Some(wh) = WattHours::of(0) else {
        unreachable!();
    };
    wh
}
