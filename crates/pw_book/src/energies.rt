//! Energies, of the totals that a shelf keeps.

ghost use Rattle.std.specs.Prelude.{◌≡◌, ◌+◌, ◌*◌, ◌^◌, ◌<◌, ◌≤◌, IfOk, IsNone, length};
ghost use Rattle.pw_model.specs.Energy.{energy as energy_of, energy_in_period};
ghost use Rattle.pw_model.specs.Office.{most_records};
ghost use Rattle.pw_shelf.specs.Calls.{failures_told};
ghost use Rattle.pw_tariff.specs.Office.{office_of, periods_in};
ghost use Rattle.pw_book.specs.Asking.{IsOnlyAsked};
ghost use Rattle.pw_book.specs.inner.Steps.{HasTrueContent, HoldsOffice};

use crate::shelf_calls::total_held;
use pw_model::TotalKey;
use pw_shelf::{Shelf, ShelfFault};
use pw_tariff::{BandId, Direction, Office, Owner, PeriodId};

// The energy of an owner in a band, of the direction, in Wh: those of all periods together.
pub(crate) fn energy_held<S: Shelf>(
    shelf: &mut S,
    office: &Office,
    owner: Owner,
    band: BandId,
    direction: Direction,
) -> Result<u64, ShelfFault>
    requires idle { IsNone (S.state shelf.old).begun }
    requires few { S.clean shelf.old → length (S.state shelf.old).content.records ≤ most_records }
    requires of_office { HoldsOffice S.Shelf office.now shelf.old }
    requires truth { HasTrueContent S.Shelf office.now shelf.old }
    ensures energy { S.clean shelf.new → IfOk result
        (λ wh. wh ≡ energy_of (office_of office.now) (S.state shelf.old).content.records owner
        band.0 direction) }
    ensures tally { (S.state shelf.new).tally
        ≤ (S.state shelf.old).tally + 2 * periods_in office.now }
    ensures asked { IsOnlyAsked S.Shelf (failures_told result) shelf.old shelf.new }
{
    let mut sum: u128 = 0;
    for period in 0..office.periods() {
        let wh = energy_in_held(shelf, office, owner, PeriodId(period), band, direction)?;
        sum += u128::from(wh);
    }
    Ok(capped(sum))
}

// The energy of an owner in a band within a period, of the direction, in Wh.
pub(crate) fn energy_in_held<S: Shelf>(
    shelf: &mut S,
    office: &Office,
    owner: Owner,
    period: PeriodId,
    band: BandId,
    direction: Direction,
) -> Result<u64, ShelfFault>
    requires idle { IsNone (S.state shelf.old).begun }
    requires truth { HasTrueContent S.Shelf office.now shelf.old }
    ensures energy { S.clean shelf.new → IfOk result
        (λ wh. wh ≡ energy_in_period (office_of office.now) (S.state shelf.old).content.records
        owner period.0 band.0 direction) }
    ensures tally { (S.state shelf.new).tally ≤ (S.state shelf.old).tally + 2 }
    ensures asked { IsOnlyAsked S.Shelf (failures_told result) shelf.old shelf.new }
{
    let key = TotalKey::Energy {
        owner,
        period,
        band,
        direction,
    };
    let wh = total_held(shelf, &key)?;
    Ok(wh)
}

// A sum of energies, where it fits. (Only over a store that isn't clean it can be larger: then it is capped.)
fn capped(sum: u128) -> u64
    ensures { sum < 2 ^ 64 → result ≡ sum }
{
    sum.min(u128::from(u64::MAX)) as u64
}
