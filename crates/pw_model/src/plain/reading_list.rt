//! The readings of a register that a list of records holds.

ghost use Rattle.std.specs.Prelude.{◌≡◌, ℕ, IfOk, IfSome, IfNone};
ghost use Rattle.pw_model.specs.Lists.{AreReadings, IsInOrder, reading_entry};
ghost use Rattle.pw_model.specs.Same.{entry_order};
ghost use Rattle.pw_model.specs.inner.Search.{AllStand, RowsOf};

use super::alone::counts_among;
use super::search::instant_of;
use super::standing::{is_withdrawn, standing};
use crate::in_order::Distinct;
use crate::records::{Content, Entry, ReadingRow};
use pw_obis::Register;
use pw_tariff::MeterId;
use std::alloc::{AllocError, Global};

/// The readings of a register, by instant and then by Wh, each with whether it counts and whether it is withdrawn.
pub fn readings(
    alloc: Global,
    entries: &[Entry],
    meter: MeterId,
    register: Register,
) -> Result<Vec<ReadingRow>, AllocError>
    ensures { IfOk result (λ rows. AreReadings entries.now meter.0 register rows.items) }
{
    let in_order = Distinct::of(alloc, entries)?;
    let standing = standing(alloc, entries)?;
    rows_among(alloc, in_order.entries(), &standing, meter, register)
}

// The rows of some records in order, each marked where it counts among those that stand, and where one of the records
// withdraws it.
fn rows_among(
    alloc: Global,
    in_order: &[Entry],
    standing: &[Entry],
    meter: MeterId,
    register: Register,
) -> Result<Vec<ReadingRow>, AllocError>
    requires rising { IsInOrder entry_order in_order.now }
    requires standing_rise { IsInOrder entry_order standing.now }
    requires standing { AllStand standing.now }
    ensures { IfOk result (λ rows. RowsOf standing.now in_order.now meter.0 register in_order.now
        rows.items) }
{
    let mut rows = Vec::new(alloc);
    for entry in in_order {
        let counted = counts_among(standing, entry);
        let withdrawn = is_withdrawn(in_order, entry);
        if let Some(row) = row_of(entry, meter, register, counted, withdrawn) {
            rows.push(row)?;
        }
    }
    Ok(rows)
}

// The row of a record, where it is a reading of the register.
fn row_of(
    entry: &Entry,
    meter: MeterId,
    register: Register,
    counted: bool,
    withdrawn: bool,
) -> Option<ReadingRow>
    ensures some { IfSome result (λ row. (entry.now
        ≡ reading_entry meter.0 register row.instant row.wh) × (row.counted ≡ counted)
        × (row.withdrawn ≡ withdrawn)) }
    ensures none { IfNone result ((t w : ℕ) → entry.now ≡ reading_entry meter.0 register t w → ⊥) }
{
    let instant = instant_of(&entry.key, meter, register)?;
    let Content::Reading { wh } = &entry.content else {
        return None;
    };
    Some(ReadingRow {
        instant,
        wh: *wh,
        counted,
        withdrawn,
    })
}
