//! The falls of a list of records.

ghost use Rattle.std.specs.Prelude.{◌≡◌, ℕ, ◌+◌, ◌<◌, ◌≤◌, IfOk, IfSome, IfNone, length};
ghost use Rattle.pw_time.specs.declared.instant.TheConstants.{END_SECOND as the_end};
ghost use Rattle.pw_model.specs.Counting.{contents_at as held_at, reading_key};
ghost use Rattle.pw_model.specs.Lists.{AreFalls, IsFall, IsInOrder};
ghost use Rattle.pw_model.specs.Same.{entry_order};
ghost use Rattle.pw_model.specs.inner.Search.{AllStand, IsAt, IsEarliestAmong, high_reading};
ghost use Rattle.pw_model.specs.declared.records.Entry.{Entry};
ghost use Rattle.pw_model.specs.declared.records.Fall.{Fall};

use super::alone::stands_alone;
use super::search::instant_of;
use super::standing::standing;
use crate::records::{Content, Entry, Fall, Key};
use pw_obis::{Register, WattHours};
use pw_tariff::MeterId;
use pw_time::Instant;
use std::alloc::{AllocError, Global};

/// The falls, by meter, register and instant.
pub fn falls(alloc: Global, entries: &[Entry]) -> Result<Vec<Fall>, AllocError>
    ensures { IfOk result (λ falls. AreFalls entries.now falls.items) }
{
    let in_order = standing(alloc, entries)?;
    falls_among(alloc, &in_order)
}

// The falls of some records in order, which all stand.
fn falls_among(alloc: Global, in_order: &[Entry]) -> Result<Vec<Fall>, AllocError>
    requires rising { IsInOrder entry_order in_order.now }
    requires standing { AllStand in_order.now }
    ensures { IfOk result (λ falls. AreFalls in_order.now falls.items) }
{
    let mut falls = Vec::new(alloc);
    for index in 0..in_order.len() {
        if let Some(fall) = fall_from(in_order, index) {
            falls.push(fall)?;
        }
    }
    Ok(falls)
}

// The fall whose earlier reading is the record at this place.
fn fall_from(in_order: &[Entry], index: usize) -> Option<Fall>
    requires rising { IsInOrder entry_order in_order.now }
    requires standing { AllStand in_order.now }
    requires within { index < length in_order.now }
    ensures some { IfSome result (λ f. IsFall (held_at in_order.now) f
        × IsAt in_order.now index (high_reading f)) }
    ensures none { IfNone result ((f : Fall) → IsFall (held_at in_order.now) f
        → IsAt in_order.now index (high_reading f) → ⊥) }
{
    let entry = &in_order[index];
    let Key::Reading {
        meter,
        register,
        instant,
    } = &entry.key
    else {
        return None;
    };
    let Content::Reading { wh } = &entry.content else {
        return None;
    };
    if !stands_alone(in_order, index) {
        return None;
    }
    let next = next_point(in_order, index, *meter, *register, *instant)?;
    if next.1.get() >= wh.get() {
        return None;
    }
    Some(Fall {
        meter: *meter,
        register: *register,
        from: *instant,
        high: *wh,
        to: next.0,
        low: next.1,
    })
}

// The next counting reading of a register behind the reading at this place.
fn next_point(
    in_order: &[Entry],
    index: usize,
    meter: MeterId,
    register: Register,
    instant: Instant,
) -> Option<(Instant, WattHours)>
    requires rising { IsInOrder entry_order in_order.now }
    requires standing { AllStand in_order.now }
    requires within { index < length in_order.now }
    requires reading { (e : Entry) → IsAt in_order.now index e
        → e.key ≡ reading_key meter.0 register instant }
    ensures { (y : ℕ) → the_end ≤ y → IsEarliestAmong (held_at in_order.now) meter.0 register
        (instant + 1) y in_order.now result }
{
    for place in index + 1..in_order.len() {
        let entry = &in_order[place];
        let instant = instant_of(&entry.key, meter, register)?;
        let Content::Reading { wh } = &entry.content else {
            continue;
        };
        if stands_alone(in_order, place) {
            let _second = instant.seconds();
            return Some((instant, *wh));
        }
    }
    None
}
