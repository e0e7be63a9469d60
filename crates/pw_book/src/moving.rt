//! Totals changed within an upload.

ghost use Rattle.std.specs.Prelude.{◌≡◌, ℕ, ◌+◌, ◌<◌, ◌≤◌, ◌^◌, ◌↔◌, IsTrue, OnOk, IsSome, length};
ghost use Rattle.pw_model.specs.Office.{HasOwner};
ghost use Rattle.pw_tariff.specs.Office.{office_of, periods_in};
ghost use Rattle.pw_parts.specs.declared.changes.Side.TheVariants.{Gains, Loses};
ghost use Rattle.pw_book.specs.inner.Gathered.{IsGatheredBelow, due};
ghost use Rattle.pw_book.specs.inner.Moves.{MovesTotals, OfOwners, most_total};
ghost use Rattle.pw_parts.specs.Changes.{gathered};
ghost use Rattle.pw_book.specs.inner.Steps.{UploadGoesOn};

use pw_model::{MOST_RECORDS, TotalKey, has_owner};
use pw_obis::LARGEST_WATT_HOURS;
use pw_parts::Changes;
use pw_shelf::{Shelf, ShelfFault};
use pw_tariff::{BandId, Office, Owner, PeriodId};

// The greatest amount of a total: that of 10,000,000 records of the largest reading.
const MOST_TOTAL: u64 = MOST_RECORDS as u64 * LARGEST_WATT_HOURS;

// A total that gains and loses such amounts, where the outcome is an amount of a total. (Only over a store that isn't
// clean it can be another: then it is capped.)
fn settled(total: u64, more: u128, less: u128) -> u64
    requires { more < 2 ^ 127 }
    ensures settled { (n : ℕ) → total + more ≡ n + less → n ≤ most_total → result ≡ n }
    ensures bound { result ≤ most_total }
{
    let amount = (u128::from(total) + more).saturating_sub(less);
    amount.min(u128::from(MOST_TOTAL)) as u64
}

// Changes one total: it gains and loses such amounts.
pub(crate) fn change_total<S: Shelf>(
    shelf: &mut S,
    key: &TotalKey,
    more: u128,
    less: u128,
) -> Result<(), ShelfFault>
    requires begun { IsSome (S.state shelf.old).begun }
    requires fits { more < 2 ^ 127 }
    ensures moved { S.clean shelf.new → OnOk result
        (MovesTotals (λ k. k ≡ key.now) (λ _. more) (λ _. less) (S.state shelf.old).content
        (S.state shelf.new).content) }
    ensures tally { (S.state shelf.new).tally ≤ (S.state shelf.old).tally + 3 }
    ensures kept { UploadGoesOn S.Shelf result shelf.old shelf.new }
{
    if more == less {
        return Ok(());
    }
    let total = shelf.total(key)?;
    shelf.total_put(key, settled(total, more, less))
}

// Whether an office has this owner, this period and this band.
fn has_class(office: &Office, owner: Owner, period: PeriodId, band: BandId) -> bool
    ensures { IsTrue result ↔ (HasOwner (office_of office.now) owner
        × (period.0 < periods_in office.now) × (band.0 < length office.now.bands)) }
{
    has_owner(office, &owner) && period.0 < office.periods() && band.0 < office.bands()
}

// Whether a total is an energy of the office.
fn is_energy_of(office: &Office, key: &TotalKey) -> bool
    ensures { IsTrue result ↔ OfOwners (periods_in office.now) (length office.now.bands)
        (length office.now.accounts) key.now }
{
    match key {
        TotalKey::Energy {
            owner,
            period,
            band,
            ..
        } => has_class(office, *owner, *period, *band),
        TotalKey::TopUps { .. } => false,
    }
}

// Writes what is gathered: each energy loses what is gathered on the one side, and gains what is gathered on the other.
// (A store alone that isn't clean names what the office doesn't have; such energies stay as they are.)
pub(crate) fn move_energies<S: Shelf>(
    shelf: &mut S,
    office: &Office,
    changes: &Changes,
) -> Result<(), ShelfFault>
    requires begun { IsSome (S.state shelf.old).begun }
    requires few { IsGatheredBelow (2 ^ 127) changes.now }
    ensures moved { S.clean shelf.new → OnOk result
        (MovesTotals (OfOwners (periods_in office.now) (length office.now.bands)
        (length office.now.accounts)) (gathered Gains changes.now.rows)
        (gathered Loses changes.now.rows) (S.state shelf.old).content (S.state shelf.new).content) }
    ensures tally { (S.state shelf.new).tally
        ≤ (S.state shelf.old).tally + due (office_of office.now) changes.now.rows.entries }
    ensures kept { UploadGoesOn S.Shelf result shelf.old shelf.new }
{
    if changes.rows.is_empty() {
        return Ok(());
    }
    for (key, change) in &changes.rows {
        if is_energy_of(office, key) {
            change_total(shelf, key, change.more, change.less)?;
        }
    }
    Ok(())
}
