//! Which changes of an office file may be adopted over the same records.

ghost use Rattle.std.specs.Prelude.{◌≡◌, ◌<◌, ◌↔◌, IsTrue, length, slice_get};
ghost use Rattle.std.specs.List.{list_any};
ghost use Rattle.pw_moving.specs.Adopting.{Adopts, IsBehind, IsMet, IsSaid, IsSpelt, MayBeAdopted, spells};
ghost use Rattle.pw_moving.specs.Changes.{AreChanges, Differs};
ghost use Rattle.pw_moving.specs.Names.{names_in};

use crate::change::{Change, Listed, Respelling};
use crate::comparing::band_letter;
use pw_tariff::{AccountId, MeterId, Office};
use pw_time::Instant;

/// Whether a change of an office file may be adopted: an account or a meter behind the others, a name that the words
/// spell otherwise, or a period that starts behind the latest reading that isn't withdrawn. No other may.
pub fn may_be_adopted(
    words: &[Respelling<'_>],
    last: Option<Instant>,
    old: &Office,
    new: &Office,
    change: Change,
) -> bool
    requires { Differs (record { old = old.now; new = new.now }) change }
    ensures { IsTrue result ↔ MayBeAdopted words.now last (record { old = old.now; new = new.now })
        change }
{
    match change {
        Change::Added { list, .. } => list != Listed::Bands,
        Change::Renamed { list, place } => is_spelt(words, old, new, list, place),
        Change::NewPeriod { period } => is_behind(last, new.period_start(period)),
        _ => false,
    }
}

/// Whether a new office file adopts the records of the old one, told by all its changes: each of them may be adopted.
pub fn adopts(
    words: &[Respelling<'_>],
    last: Option<Instant>,
    old: &Office,
    new: &Office,
    changes: &[Change],
) -> bool
    requires { AreChanges (record { old = old.now; new = new.now }) changes.now }
    ensures { IsTrue result ↔ Adopts words.now last (record { old = old.now; new = new.now }) }
{
    let last = &last;
    for change in changes {
        if !may_be_adopted(words, *last, old, new, *change) {
            return false;
        }
    }
    true
}

/// Whether a word, told by all changes of a new office file, is met: at some place of a list the old file has the name that
/// the word calls old, and the new file, at the same place, another name, the one that it calls new.
pub fn is_met(word: &Respelling<'_>, old: &Office, new: &Office, changes: &[Change]) -> bool
    requires { AreChanges (record { old = old.now; new = new.now }) changes.now }
    ensures { IsTrue result ↔ IsMet (record { old = old.now; new = new.now }) word.now }
{
    for change in changes {
        if is_said(word, old, new, *change) {
            return true;
        }
    }
    false
}

// Whether a change is what a word says.
fn is_said(word: &Respelling<'_>, old: &Office, new: &Office, change: Change) -> bool
    requires { Differs (record { old = old.now; new = new.now }) change }
    ensures { IsTrue result ↔ IsSaid word.now (record { old = old.now; new = new.now }) change }
{
    match change {
        Change::Renamed { list, place } => is_spelt(&[*word], old, new, list, place),
        _ => false,
    }
}

// Whether a second is behind the last one, if there is one.
fn is_behind(last: Option<Instant>, second: u32) -> bool
    ensures { IsTrue result ↔ IsBehind last second }
{
    match last {
        Some(last) => last.seconds() < second,
        None => true,
    }
}

// Whether the words name what stands at a place of both files, the old name with the new one.
fn is_spelt(words: &[Respelling<'_>], old: &Office, new: &Office, list: Listed, place: u16) -> bool
    requires old { place < length (names_in list old.now) }
    requires new { place < length (names_in list new.now) }
    ensures { IsTrue result ↔ IsSpelt words.now (slice_get (names_in list old.now) place)
        (slice_get (names_in list new.now) place) }
{
    match list {
        Listed::Accounts => {
            let account = AccountId(place);
            let (before, now) = (old.account_name(account), new.account_name(account));
            are_spelt(words, before.as_bytes(), now.as_bytes())
        }
        Listed::Meters => {
            let meter = MeterId(place);
            let (before, now) = (old.meter_name(meter), new.meter_name(meter));
            are_spelt(words, before.as_bytes(), now.as_bytes())
        }
        Listed::Bands => {
            let (before, now) = (band_letter(old, place), band_letter(new, place));
            are_spelt(words, &[before], &[now])
        }
    }
}

// Whether one of the words names the old name with the new one.
fn are_spelt(words: &[Respelling<'_>], old: &[u8], new: &[u8]) -> bool
    ensures { result ≡ list_any (spells old.now new.now) words.now }
{
    words.iter().any(|word| spells(old, new, word))
}

fn spells(old: &[u8], new: &[u8], word: &Respelling<'_>) -> bool
    ensures { result ≡ spells old.now new.now word.now }
{
    word.old == old && word.new == new
}
