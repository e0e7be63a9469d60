//! The balance of an account.

ghost use Rattle.std.specs.Prelude.{◌≡◌, ◌<◌, ◌≤◌, IfOk, Some, length};
ghost use Rattle.pw_tariff.specs.Office.{office_of};
ghost use Rattle.pw_model.specs.Counting.{contents_at as held_at};
ghost use Rattle.pw_model.specs.Energy.{cost as cost_of};
ghost use Rattle.pw_model.specs.Office.{AllOfOffice, IsOffice, most_records};
ghost use Rattle.pw_model.specs.Payments.{balance as balance_of};
ghost use Rattle.pw_model.specs.inner.Tariff.{period_cost};

use super::energies::energy_in;
use super::payments::topped_up;
use super::terms::OfficeTerms;
use crate::amounts::{left_over, price_of};
use crate::limits::NANO_IN_CENT;
use crate::records::Entry;
use pw_tariff::{AccountId, BandId, Direction, PeriodId};
use std::alloc::{AllocError, Global};

/// The balance of an account, in nano-euro: what was topped up, less what it took, and what it gave.
pub fn balance(
    alloc: Global,
    terms: &OfficeTerms<'_>,
    entries: &[Entry],
    account: AccountId,
) -> Result<i128, AllocError>
    requires office { IsOffice (office_of terms.now) }
    requires entries { AllOfOffice (office_of terms.now) entries.now }
    requires few { length entries.now ≤ most_records }
    ensures { IfOk result (λ nano. nano ≡ balance_of (office_of terms.now) entries.now account.0) }
{
    let imported = cost(alloc, terms, entries, account, Direction::Import)?;
    let exported = cost(alloc, terms, entries, account, Direction::Export)?;
    let paid = NANO_IN_CENT * topped_up(entries, account);
    Ok(left_over(paid, imported, exported))
}

// What an account's energy costs, in nano-euro: that of each period at its prices.
fn cost(
    alloc: Global,
    terms: &OfficeTerms<'_>,
    entries: &[Entry],
    account: AccountId,
    direction: Direction,
) -> Result<u128, AllocError>
    requires office { IsOffice (office_of terms.now) }
    requires entries { AllOfOffice (office_of terms.now) entries.now }
    requires few { length entries.now ≤ most_records }
    ensures cost { IfOk result (λ nano. nano
        ≡ cost_of (office_of terms.now) (held_at entries.now) (Some account) direction) }
    ensures bound { IfOk result (λ nano. nano ≤ 127999999998720000000000000000) }
{
    let mut nano = 0;
    for period in 0..terms.periods() {
        let part = cost_in(alloc, terms, entries, account, PeriodId(period), direction)?;
        nano += part;
    }
    Ok(nano)
}

// What an account's energy of a period costs, in nano-euro.
fn cost_in(
    alloc: Global,
    terms: &OfficeTerms<'_>,
    entries: &[Entry],
    account: AccountId,
    period: PeriodId,
    direction: Direction,
) -> Result<u128, AllocError>
    requires office { IsOffice (office_of terms.now) }
    requires entries { AllOfOffice (office_of terms.now) entries.now }
    requires few { length entries.now ≤ most_records }
    requires period { period.0 < (office_of terms.now).periods }
    ensures cost { IfOk result (λ nano. nano
        ≡ period_cost (office_of terms.now) (held_at entries.now) (Some account) period.0
        direction) }
    ensures bound { IfOk result (λ nano. nano ≤ 7999999999920000000000000000) }
{
    let mut nano = 0;
    for band in 0..terms.bands() {
        let band = BandId(band);
        let wh = energy_in(
            alloc,
            terms,
            entries,
            Some(account),
            period,
            band,
            direction,
        )?;
        nano += price_of(wh, terms.price(period, band, direction));
    }
    Ok(nano)
}
