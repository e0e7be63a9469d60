//! Totals from the rows that a query shows.

ghost use Rattle.std.specs.Prelude.{◌≡◌, IfNone, IfSome};
ghost use Rattle.pw_tariff.specs.Office.{OfficeRules};
ghost use Rattle.pw_model.specs.Office.{IsOffice};
ghost use Rattle.pw_schema.specs.Judging.{IsTotal};
ghost use Rattle.pw_schema.specs.Rows.{TellsTotal, told_amount, told_key};
ghost use Rattle.pw_schema.specs.inner.Told.{ReadsTotal};

use crate::cells::{account_at, amount_at, band_at, direction_at, owner_at, period_at};
use crate::kind::TotalKind;
use pw_model::TotalKey;
use sqlite::Row;

fn energy_of(row: &Row) -> Option<(TotalKey, u64)>
    ensures { ReadsTotal TotalKind.Energies row.now result }
{
    let owner = owner_at(row, 0)?;
    let period = period_at(row, 1)?;
    let band = band_at(row, 2)?;
    let direction = direction_at(row, 3)?;
    let amount = amount_at(row, 4)?;
    Some((
        TotalKey::Energy {
            owner,
            period,
            band,
            direction,
        },
        amount,
    ))
}

fn payments_of(row: &Row) -> Option<(TotalKey, u64)>
    ensures { ReadsTotal TotalKind.Payments row.now result }
{
    let account = account_at(row, 0)?;
    let amount = amount_at(row, 1)?;
    Some((TotalKey::TopUps { account }, amount))
}

/// The total of a kind that a row tells, with its key. Where it answers none, the row is no total of any office.
pub fn total_of(kind: TotalKind, row: &Row) -> Option<(TotalKey, u64)>
    ensures told { IfSome result (λ total. (total.0 ≡ told_key kind row.now)
        × (total.1 ≡ told_amount kind row.now)) }
    ensures kinds { IfSome result (λ total. TellsTotal kind row.now) }
    ensures none { IfNone result ((office : OfficeRules) → IsOffice office
        → IsTotal office kind row.now → ⊥) }
{
    match kind {
        TotalKind::Energies => energy_of(row),
        TotalKind::Payments => payments_of(row),
    }
}
