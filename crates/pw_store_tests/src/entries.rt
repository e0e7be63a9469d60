//! Entries of the sample offices, from what is written for each. (What ends the process has no place in a library.)

use pw_model::Entry;
use pw_obis::{Register, WattHours};
use pw_tariff::{AccountId, Owner};
pub use pw_tests::sample::Sent;
use pw_tests::sample::{self, METER};
use pw_time::Instant;
use std::alloc::Global;
use std::process::Abort;

pub fn at(rt: &impl Abort, second: u32) -> Instant {
    Instant::of(second).expect(rt, "an instant")
}

pub fn wh(rt: &impl Abort, watt_hours: u64) -> WattHours {
    WattHours::of(watt_hours).expect(rt, "watt-hours")
}

/// A reading of the first register of the first meter.
pub fn reading(rt: &impl Abort, second: u32, watt_hours: u64) -> Entry {
    entry_of(rt, Sent::Reading(METER, Register::I1, second, watt_hours))
}

/// An assignment of the first meter.
pub fn assigned(rt: &impl Abort, second: u32, owner: Owner) -> Entry {
    entry_of(rt, Sent::Assignment(METER, second, owner))
}

pub fn top_up(rt: &impl Abort, reference: &[u8], account: AccountId, cents: u32) -> Entry {
    sample::top_up(reference, account, cents).expect(rt, "a top-up")
}

pub fn entry_of(rt: &impl Abort, sent: Sent) -> Entry {
    sample::entry_of(sent).expect(rt, "an entry")
}

pub fn entries_of(rt: &impl Abort, alloc: Global, sent: &[Sent]) -> Vec<Entry> {
    let mut entries = Vec::new(alloc);
    for one in sent {
        add(rt, &mut entries, entry_of(rt, *one));
    }
    entries
}

/// Adds an entry to a list.
pub fn add(rt: &impl Abort, entries: &mut Vec<Entry>, entry: Entry) {
    entries.extend_from_slice(&[entry]).expect(rt, "memory");
}
