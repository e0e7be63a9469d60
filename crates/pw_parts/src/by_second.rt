//! What records tell by the second.

ghost use Rattle.std.specs.Prelude.{◌≡◌, IfOk};
ghost use Rattle.std.specs.List.{filter_map};
ghost use Rattle.pw_parts.specs.Shown.{shown};
ghost use Rattle.pw_parts.specs.inner.Counted.{given};

use pw_model::{Content, Entry, Key};
use pw_obis::WattHours;
use pw_tariff::Owner;
use pw_time::Instant;
use std::alloc::{AllocError, Global};

/// When and what the readings among records show.
pub fn readings_shown(
    alloc: Global,
    records: &[Entry],
) -> Result<Vec<(Instant, WattHours)>, AllocError>
    ensures { IfOk result (λ told. told.items ≡ filter_map shown records.now) }
{
    let mut told = Vec::new(alloc);
    for entry in records {
        if let Some(reading) = reading_shown(entry) {
            told.push(reading)?;
        }
    }
    Ok(told)
}

// When and what a record shows, where it is a reading.
fn reading_shown(entry: &Entry) -> Option<(Instant, WattHours)>
    ensures { result ≡ shown entry.now }
{
    let Key::Reading { instant, .. } = &entry.key else {
        return None;
    };
    let Content::Reading { wh } = &entry.content else {
        return None;
    };
    Some((*instant, *wh))
}

// From when on the assignments among records give their meter to whom.
pub(crate) fn starts_given(
    alloc: Global,
    records: &[Entry],
) -> Result<Vec<(Instant, Owner)>, AllocError>
    ensures { IfOk result (λ told. told.items ≡ filter_map given records.now) }
{
    let mut told = Vec::new(alloc);
    for entry in records {
        if let Some(start) = start_given(entry) {
            told.push(start)?;
        }
    }
    Ok(told)
}

// From when on and whom a record gives its meter to, where it is an assignment.
fn start_given(entry: &Entry) -> Option<(Instant, Owner)>
    ensures { result ≡ given entry.now }
{
    let Key::Assignment { start, .. } = &entry.key else {
        return None;
    };
    let Content::Assignment { owner } = &entry.content else {
        return None;
    };
    Some((*start, *owner))
}
