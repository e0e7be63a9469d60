//! An account's balance, of the totals that a shelf keeps.

ghost use Rattle.std.specs.Prelude.{◌≡◌, ◌+◌, ◌*◌, ◌<◌, ◌≤◌, ◌^◌, Some, IfOk, IsNone, length};
ghost use Rattle.pw_model.specs.Counting.{contents_at as held_at};
ghost use Rattle.pw_model.specs.Energy.{cost as cost_of};
ghost use Rattle.pw_model.specs.Office.{most_records};
ghost use Rattle.pw_model.specs.Payments.{balance as balance_of};
ghost use Rattle.pw_model.specs.inner.Tariff.{period_cost};
ghost use Rattle.pw_shelf.specs.Calls.{failures_told};
ghost use Rattle.pw_tariff.specs.Office.{office_of, periods_in};
ghost use Rattle.pw_book.specs.Asking.{IsOnlyAsked};
ghost use Rattle.pw_book.specs.inner.Steps.{HasTrueContent, HoldsOffice};

use crate::energies::energy_in_held;
use crate::shelf_calls::total_held;
use pw_model::{NANO_IN_CENT, TotalKey, left_over, price_of};
use pw_shelf::{Shelf, ShelfFault};
use pw_tariff::{AccountId, BandId, Direction, Office, PeriodId};

// The balance of an account, in nano-euro: what was topped up, less what its imported energy costs, plus what its exported
// energy does.
pub(crate) fn balance_held<S: Shelf>(
    shelf: &mut S,
    office: &Office,
    account: AccountId,
) -> Result<i128, ShelfFault>
    requires idle { IsNone (S.state shelf.old).begun }
    requires few { S.clean shelf.old → length (S.state shelf.old).content.records ≤ most_records }
    requires of_office { HoldsOffice S.Shelf office.now shelf.old }
    requires truth { HasTrueContent S.Shelf office.now shelf.old }
    ensures balance { S.clean shelf.new → IfOk result
        (λ nano. nano ≡ balance_of (office_of office.now) (S.state shelf.old).content.records
        account.0) }
    ensures tally { (S.state shelf.new).tally
        ≤ (S.state shelf.old).tally + 2
        * (2 * (periods_in office.now * length office.now.bands) + 1) }
    ensures asked { IsOnlyAsked S.Shelf (failures_told result) shelf.old shelf.new }
{
    let imported = cost_held(shelf, office, account, Direction::Import)?;
    let exported = cost_held(shelf, office, account, Direction::Export)?;
    let cents = total_held(shelf, &TotalKey::TopUps { account })?;
    let paid = NANO_IN_CENT * u128::from(cents);
    Ok(left_over(paid, imported, exported))
}

// What an account's energy of a direction costs, in nano-euro.
fn cost_held<S: Shelf>(
    shelf: &mut S,
    office: &Office,
    account: AccountId,
    direction: Direction,
) -> Result<u128, ShelfFault>
    requires idle { IsNone (S.state shelf.old).begun }
    requires truth { HasTrueContent S.Shelf office.now shelf.old }
    ensures cost { S.clean shelf.new → IfOk result
        (λ nano. nano ≡ cost_of (office_of office.now)
        (held_at (S.state shelf.old).content.records) (Some account) direction) }
    ensures bound { IfOk result (λ nano. nano < 2 ^ 120) }
    ensures tally { (S.state shelf.new).tally
        ≤ (S.state shelf.old).tally + 2 * (periods_in office.now * length office.now.bands) }
    ensures asked { IsOnlyAsked S.Shelf (failures_told result) shelf.old shelf.new }
{
    let mut nano: u128 = 0;
    for period in 0..office.periods() {
        let part = cost_in_period(shelf, office, account, PeriodId(period), direction)?;
        nano += part;
    }
    Ok(nano)
}

// What it costs within one period, in nano-euro.
fn cost_in_period<S: Shelf>(
    shelf: &mut S,
    office: &Office,
    account: AccountId,
    period: PeriodId,
    direction: Direction,
) -> Result<u128, ShelfFault>
    requires idle { IsNone (S.state shelf.old).begun }
    requires period { period.0 < periods_in office.now }
    requires truth { HasTrueContent S.Shelf office.now shelf.old }
    ensures cost { S.clean shelf.new → IfOk result
        (λ nano. nano ≡ period_cost (office_of office.now)
        (held_at (S.state shelf.old).content.records) (Some account) period.0 direction) }
    ensures bound { IfOk result (λ nano. nano < 2 ^ 104) }
    ensures tally { (S.state shelf.new).tally
        ≤ (S.state shelf.old).tally + 2 * length office.now.bands }
    ensures asked { IsOnlyAsked S.Shelf (failures_told result) shelf.old shelf.new }
{
    let mut nano: u128 = 0;
    for band in 0..office.bands() {
        let band = BandId(band);
        let wh = energy_in_held(shelf, office, Some(account), period, band, direction)?;
        nano += price_of(wh, office.price(period, band, direction));
    }
    Ok(nano)
}
