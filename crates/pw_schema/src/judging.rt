//! Whether rows are of an office.

ghost use Rattle.std.specs.Prelude.{◌≡◌, ◌↔◌, IfNone, IfSome, IsTrue};
ghost use Rattle.pw_tariff.specs.Office.{office_of};
ghost use Rattle.pw_schema.specs.Judging.{IsRecord, IsTotal, IsTotalOf};
ghost use Rattle.pw_schema.specs.Rows.{told, told_amount, told_key};

use crate::kind::{RecordKind, TotalKind};
use crate::reading::entry_of;
use crate::total_rows::total_of;
use pw_model::{Entry, TotalKey, has_owner, is_of_office};
use pw_tariff::Office;
use sqlite::Row;

// Whether the total's key names what the office has.
fn has_key(office: &Office, key: &TotalKey) -> bool
    ensures { IsTrue result ↔ IsTotalOf (office_of office.now) key.now }
{
    match key {
        TotalKey::Energy {
            owner,
            period,
            band,
            ..
        } => has_owner(office, owner) && period.0 < office.periods() && band.0 < office.bands(),
        TotalKey::TopUps { account } => account.0 < office.accounts(),
    }
}

/// The record of the office that a row is, if it is one.
pub fn record_in(office: &Office, kind: RecordKind, row: &Row) -> Option<Entry>
    ensures some { IfSome result (λ entry. (entry ≡ told kind row.now)
        × IsRecord (office_of office.now) kind row.now) }
    ensures none { IfNone result (IsRecord (office_of office.now) kind row.now → ⊥) }
{
    let _accounts = office.accounts();
    let entry = entry_of(kind, row)?;
    if is_of_office(office, &entry) {
        Some(entry)
    } else {
        None
    }
}

/// The total of the office that a row is, with its key, if it is one.
pub fn total_in(office: &Office, kind: TotalKind, row: &Row) -> Option<(TotalKey, u64)>
    ensures told { IfSome result (λ total. (total.0 ≡ told_key kind row.now)
        × (total.1 ≡ told_amount kind row.now)) }
    ensures some { IfSome result (λ total. IsTotal (office_of office.now) kind row.now) }
    ensures none { IfNone result (IsTotal (office_of office.now) kind row.now → ⊥) }
{
    let _accounts = office.accounts();
    let total = total_of(kind, row)?;
    if has_key(office, &total.0) {
        Some(total)
    } else {
        None
    }
}
