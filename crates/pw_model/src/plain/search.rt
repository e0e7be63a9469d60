//! What counts at a key, and the owner of a meter at a second.

ghost use Rattle.std.specs.Prelude.{◌≡◌, ℕ, IfSome, IfNone};
ghost use Rattle.pw_model.specs.Counting.{contents_at as held_at, is_withdrawn as is_withdrawn_by, joined as one_more, owner_of, reading_key, withdraws as withdraws_by};
ghost use Rattle.pw_model.specs.Energy.{owner_at as owner_of_second};
ghost use Rattle.pw_model.specs.inner.Search.{IsLatestAmong, IsStartIn, later_of};

use crate::compare::{is_same_content, is_same_entry, is_same_key};
use crate::records::{Content, Contents, Entry, Key};
use pw_obis::Register;
use pw_tariff::{MeterId, Owner};
use pw_time::Instant;

/// What the records that stand say of a key: whether none has it, one, or several.
pub fn contents_at(entries: &[Entry], key: &Key) -> Contents
    ensures { result ≡ held_at entries.now key.now }
{
    let mut contents = Contents::Nothing;
    for entry in entries {
        if is_same_key(&entry.key, key) && !is_withdrawn(entries, entry) {
            contents = with_one_more(entry.content, contents);
        }
    }
    contents
}

// What the records say of a key where one more of them stands, with this content.
fn with_one_more(content: Content, behind: Contents) -> Contents
    ensures { result ≡ one_more content behind }
{
    match behind {
        Contents::Nothing => Contents::One(content),
        Contents::One(other) => {
            if is_same_content(&content, &other) {
                Contents::One(other)
            } else {
                Contents::Several
            }
        }
        Contents::Several => Contents::Several,
    }
}

// Whether one of the records withdraws this one.
fn is_withdrawn(entries: &[Entry], entry: &Entry) -> bool
    ensures { result ≡ is_withdrawn_by entries.now entry.now }
{
    for other in entries {
        if withdraws(&other.key, entry) {
            return true;
        }
    }
    false
}

// Whether a key is that of a withdrawal that names a record.
fn withdraws(key: &Key, entry: &Entry) -> bool
    ensures { result ≡ withdraws_by entry.now key.now }
{
    match key {
        Key::Withdrawal { named } => is_same_entry(&named.entry(), entry),
        _ => false,
    }
}

/// The owner of a meter at a second: that of the latest counting assignment from then or before.
pub fn owner_at(entries: &[Entry], meter: MeterId, second: u32) -> Owner
    ensures { result ≡ owner_of_second (held_at entries.now) meter.0 second }
{
    let mut until = second;
    while let Some(start) = latest_start(entries, meter, until) {
        let contents = contents_at(entries, &Key::Assignment { meter, start });
        if let Some(owner) = owner_in(&contents) {
            return owner;
        }
        until = start.seconds() - 1;
    }
    None
}

// Whose a meter is by what counts at the key of an assignment, if one counts there.
fn owner_in(contents: &Contents) -> Option<Owner>
    ensures { result ≡ owner_of contents.now }
{
    let Contents::One(content) = contents else {
        return None;
    };
    match content {
        Content::Assignment { owner } => Some(*owner),
        _ => None,
    }
}

// The latest second up to this one from which a record assigns the meter, whether it counts or not.
fn latest_start(entries: &[Entry], meter: MeterId, until: u32) -> Option<Instant>
    ensures { IsLatestAmong meter.0 until entries.now result }
{
    let mut latest = None;
    for entry in entries {
        latest = later(latest, start_in(entry, meter, until));
    }
    latest
}

// The second from which a record assigns the meter, where that isn't behind this one.
fn start_in(entry: &Entry, meter: MeterId, until: u32) -> Option<Instant>
    ensures { IsStartIn meter.0 until entry.now result }
{
    let Key::Assignment {
        meter: other,
        start,
    } = entry.key
    else {
        return None;
    };
    if other.0 != meter.0 || start.seconds() > until {
        return None;
    }
    Some(start)
}

// The later of two instants, or the one that is there.
fn later(found: Option<Instant>, here: Option<Instant>) -> Option<Instant>
    ensures { result ≡ later_of found here }
{
    let Some(a) = found else {
        return here;
    };
    let Some(b) = here else {
        return Some(a);
    };
    if a.seconds() <= b.seconds() {
        Some(b)
    } else {
        Some(a)
    }
}

// The instant of a key, where it is a reading's of this register.
pub(crate) fn instant_of(key: &Key, meter: MeterId, register: Register) -> Option<Instant>
    ensures some { IfSome result (λ t. key.now ≡ reading_key meter.0 register t) }
    ensures none { IfNone result ((t : ℕ) → key.now ≡ reading_key meter.0 register t → ⊥) }
{
    match *key {
        Key::Reading {
            meter: other,
            register: which,
            instant,
        } => {
            if other == meter && which == register {
                Some(instant)
            } else {
                None
            }
        }
        _ => None,
    }
}
