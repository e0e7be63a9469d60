//! Records from the rows that a query shows.

ghost use Rattle.std.specs.Prelude.{◌≡◌, ◌↔◌, [], ◌∷◌, Err, IfNone, IfOk, IfSome, IsTrue, map, option_map};
ghost use Rattle.std.specs.declared.cmp.Ordering.TheVariants.{Less};
ghost use Rattle.sqlite.specs.Order.{Row};
ghost use Rattle.pw_tariff.specs.Office.{OfficeRules};
ghost use Rattle.pw_model.specs.Counting.{named_entry};
ghost use Rattle.pw_model.specs.Office.{IsOffice};
ghost use Rattle.pw_model.specs.Same.{entry_order};
ghost use Rattle.pw_schema.specs.Judging.{AreInOrder, IsRecord};
ghost use Rattle.pw_schema.specs.Rows.{ReadsRows, ShowsContent, ShowsNoContent, Tells, contents_of, told, told_content, withdrawal};
ghost use Rattle.pw_schema.specs.inner.Told.{ReadsEntry};

use crate::cells::{
    account_at, instant_at, meter_at, number_at, owner_at, reference_at, register_at, wh_at,
};
use crate::kind::RecordKind;
use pw_model::{Content, Contents, Entry, Key, Named, compare_entries};
use sqlite::Row;
use std::alloc::{AllocError, AllocFailed, Global};
use std::cmp::Ordering;

/// Why rows aren't read as records.
#[derive(Clone, Copy, Debug, PartialEq, Eq)]
pub enum ReadFault {
    /// Memory was refused.
    Memory,
    /// A row is no record, or stands where it may not.
    Wrong,
}

impl From<AllocError> for ReadFault {
    ghost use Rattle.std.specs.Prelude.{◌≡◌};
    ghost use Rattle.pw_schema.specs.declared.reading.ReadFault.TheVariants.{Memory};

    ghost from_gives = { λ _ e. e ≡ Memory };

    fn from(_: AllocError) -> Self {
        ReadFault::Memory
    }
}

impl<T: Drop> From<AllocFailed<T>> for ReadFault {
    ghost use Rattle.std.specs.Prelude.{◌≡◌};
    ghost use Rattle.pw_schema.specs.declared.reading.ReadFault.TheVariants.{Memory};

    ghost from_gives = { λ _ e. e ≡ Memory };

    fn from(_: AllocFailed<T>) -> Self {
        ReadFault::Memory
    }
}

// How a withdrawal would name the reading that a row tells.
fn reading_in(row: &Row) -> Option<Named>
    ensures held { ReadsEntry RecordKind.Readings row.now (option_map named_entry result) }
    ensures withdrawn { ReadsEntry RecordKind.WithdrawnReadings row.now
        (option_map withdrawal result) }
{
    let meter = meter_at(row, 0)?;
    let register = register_at(row, 1)?;
    let instant = instant_at(row, 2)?;
    let wh = wh_at(row, 3)?;
    Some(Named::Reading {
        meter,
        register,
        instant,
        wh,
    })
}

// So it does of an assignment.
fn assignment_in(row: &Row) -> Option<Named>
    ensures held { ReadsEntry RecordKind.Assignments row.now (option_map named_entry result) }
    ensures withdrawn { ReadsEntry RecordKind.WithdrawnAssignments row.now
        (option_map withdrawal result) }
{
    let meter = meter_at(row, 0)?;
    let start = instant_at(row, 1)?;
    let owner = owner_at(row, 2)?;
    Some(Named::Assignment {
        meter,
        start,
        owner,
    })
}

// The top-up that a row tells, if it tells one.
fn topup_in(row: &Row) -> Option<Named>
    ensures held { ReadsEntry RecordKind.TopUps row.now (option_map named_entry result) }
    ensures withdrawn { ReadsEntry RecordKind.WithdrawnTopUps row.now
        (option_map withdrawal result) }
{
    let reference = reference_at(row, 0)?;
    let account = account_at(row, 1)?;
    let cents = number_at(row, 2)?;
    let instant = instant_at(row, 3)?;
    Some(Named::TopUp {
        reference,
        account,
        cents,
        instant,
    })
}

// The withdrawal that names a record.
fn withdrawal(named: Named) -> Entry
    ensures { result ≡ withdrawal named }
{
    Entry {
        key: Key::Withdrawal { named },
        content: Content::Withdrawal,
    }
}

/// The record of a kind that a row tells. Where it answers none, the row is no record of any office.
pub fn entry_of(kind: RecordKind, row: &Row) -> Option<Entry>
    ensures told { IfSome result (λ entry. entry ≡ told kind row.now) }
    ensures kinds { IfSome result (λ entry. Tells kind row.now) }
    ensures none { IfNone result ((office : OfficeRules) → IsOffice office
        → IsRecord office kind row.now → ⊥) }
{
    match kind {
        RecordKind::Readings => Some(reading_in(row)?.entry()),
        RecordKind::Assignments => Some(assignment_in(row)?.entry()),
        RecordKind::TopUps => Some(topup_in(row)?.entry()),
        RecordKind::WithdrawnReadings => Some(withdrawal(reading_in(row)?)),
        RecordKind::WithdrawnAssignments => Some(withdrawal(assignment_in(row)?)),
        RecordKind::WithdrawnTopUps => Some(withdrawal(topup_in(row)?)),
    }
}

// Whether the entry stands behind the last one.
fn is_behind(last: &Option<Entry>, entry: &Entry) -> bool
    ensures { IsTrue result ↔ IfSome last.now (λ l. entry_order l entry.now ≡ Less) }
{
    match last {
        Some(last) => matches!(compare_entries(last, entry), Ordering::Less),
        None => true,
    }
}

/// The records that the rows tell, if each tells one and stands behind the one before. Rows that are records of an
/// office, in the order of records, aren't wrong.
pub fn read_rows(alloc: Global, kind: RecordKind, rows: &[Row]) -> Result<Vec<Entry>, ReadFault>
    ensures found { IfOk result (λ found. ReadsRows kind rows.now found.items) }
    ensures wrong { result ≡ Err ReadFault.Wrong → (office : OfficeRules) → IsOffice office
        → AreInOrder office kind rows.now → ⊥ }
{
    let mut found = Vec::new(alloc);
    let mut last = None;
    for row in rows {
        let Some(entry) = entry_of(kind, row) else {
            return Err(ReadFault::Wrong);
        };
        if !is_behind(&last, &entry) {
            return Err(ReadFault::Wrong);
        }
        found.push(entry)?;
        last = Some(entry);
    }
    Ok(found)
}

/// What rows that show the contents at a key tell of it: two rows suffice for several. Where it answers none there is one
/// row, and it shows no content.
pub fn contents_in(kind: RecordKind, rows: &[Row]) -> Option<Contents>
    ensures some { IfSome result (λ found. found ≡ contents_of (map (told_content kind) rows.now)) }
    ensures shows { IfSome result (λ found. (row : Row) → rows.now ≡ row ∷ []
        → ShowsContent kind row) }
    ensures none { IfNone result (ShowsNoContent kind rows.now) }
{
    match rows {
        [] => Some(Contents::Nothing),
        [row] => {
            let content = content_of(kind, row)?;
            Some(Contents::One(content))
        }
        _ => Some(Contents::Several),
    }
}

fn content_of(kind: RecordKind, row: &Row) -> Option<Content>
    ensures some { IfSome result (λ found. found ≡ told_content kind row.now) }
    ensures shows { IfSome result (λ found. ShowsContent kind row.now) }
    ensures none { IfNone result (ShowsContent kind row.now → ⊥) }
{
    match kind {
        RecordKind::Readings => {
            let wh = wh_at(row, 0)?;
            Some(Content::Reading { wh })
        }
        RecordKind::Assignments => {
            let owner = owner_at(row, 0)?;
            Some(Content::Assignment { owner })
        }
        RecordKind::TopUps => {
            let account = account_at(row, 0)?;
            let cents = number_at(row, 1)?;
            let instant = instant_at(row, 2)?;
            Some(Content::TopUp {
                account,
                cents,
                instant,
            })
        }
        _ => Some(Content::Withdrawal),
    }
}
