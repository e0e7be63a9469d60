//! Entries of the sample offices, from what is written for each. (What ends the process has no place in a library.)

use crate::sample;
pub use crate::sample::Sent;
use pw_model::Entry;
use pw_obis::WattHours;
use pw_time::Instant;
use std::alloc::Global;
use std::process::Abort;

pub fn at(rt: &impl Abort, second: u32) -> Instant {
    Instant::of(second).expect(rt, "an instant")
}

pub fn wh(rt: &impl Abort, watt_hours: u64) -> WattHours {
    WattHours::of(watt_hours).expect(rt, "watt-hours")
}

pub fn entry_of(rt: &impl Abort, sent: Sent) -> Entry {
    sample::entry_of(sent).expect(rt, "an entry")
}

pub fn entries_of(rt: &impl Abort, alloc: Global, sent: &[Sent]) -> Vec<Entry> {
    let mut entries = Vec::new(alloc);
    for one in sent {
        entries.push(entry_of(rt, *one)).expect(rt, "memory");
    }
    entries
}
