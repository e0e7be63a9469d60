//! What a bill tells, and how it is settled.

ghost use Rattle.std.specs.Prelude.{◌≡◌, ◌*◌, ◌-◌, ◌^◌, ◌<◌, ◌≤◌, ◌≤ℤ◌, pos, neg_ℤ, min, List, length};
ghost use Rattle.std.specs.List.{sum_by};
ghost use Rattle.pw_time.specs.declared.instant.TheConstants.{END_SECOND};
ghost use Rattle.pw_tariff.specs.declared.ids.AccountId.{AccountId as AnAccount};
ghost use Rattle.pw_tariff.specs.Office.{IsSound, office_of, periods_in};
ghost use Rattle.pw_model.specs.declared.records.Entry.{Entry as AnEntry};
ghost use Rattle.pw_model.specs.Office.{AllOfOffice, most_records};
ghost use Rattle.pw_model.specs.Payments.{balance as balance_of};
ghost use Rattle.pw_bills.specs.Billed.{TellsBill, energy_billed};
ghost use Rattle.pw_bills.specs.Payments.{AreTopUpRows};
ghost use Rattle.pw_bills.specs.inner.Settling.{TellsFlows, cost_told, period_told, unsettled};
ghost use Rattle.pw_bills.specs.inner.TopUpRows.{cents_within};

use crate::energies::Energies;
use crate::payments::TopUpRow;
use pw_model::{NANO_IN_CENT, price_of};
use pw_tariff::{BandId, Direction, Office, PeriodId};
use pw_time::{END_SECOND, Instant};

/// The bill of an account for an interval of time: what it had where the interval begins, what was
/// topped up and what flowed in it, and what it has where the interval ends.
#[derive(Drop)]
pub struct Bill {
    /// The balance where the interval begins, in nano-euro.
    pub begin: i128,
    /// What was topped up in the interval, in cents.
    pub topped_up: u64,
    /// The balance where the interval ends, in nano-euro.
    pub end: i128,
    // those of the interval, and those behind it
    energies: Energies,
}

impl Bill {
    /// The energy of the interval in a period, a band and a direction, in Wh.
    pub fn wh(&self, period: PeriodId, band: BandId, direction: Direction) -> u64
        ensures { result ≡ energy_billed self.now period band direction }
    {
        self.energies.wh(0, period, band, direction)
    }
}

// The bill, from the balance of all time, and from what was topped up and flowed from the
// interval's begin on.
pub(crate) fn bill_from(
    office: &Office,
    balance: i128,
    rows: &[TopUpRow],
    energies: Energies,
    from: Instant,
    until: u32,
) -> Bill
    requires later { from < until }
    requires ended { until ≤ END_SECOND }
    ensures { (s : List AnEntry) (a : AnAccount) → AllOfOffice (office_of office.now) s
        → length s ≤ most_records → balance ≡ balance_of (office_of office.now) s a.0
        → AreTopUpRows s a from END_SECOND rows.now
        → TellsFlows (office_of office.now) s a from until energies
        → TellsBill (office_of office.now) s a from until result }
{
    let end = before(
        near(balance),
        cents_of(rows, until, END_SECOND),
        cost_behind(office, &energies, until, Direction::Import),
        cost_behind(office, &energies, until, Direction::Export),
    );
    let cents = cents_of(rows, from.seconds(), until);
    let begin = before(
        end,
        cents,
        cost_of(office, &energies, 0, Direction::Import),
        cost_of(office, &energies, 0, Direction::Export),
    );
    Bill {
        begin,
        topped_up: capped(cents),
        end,
        energies,
    }
}

// A balance no further from 0 than balances are. (Only over a store that isn't clean it can be
// further: then it is capped.)
fn near(balance: i128) -> i128
    ensures least { neg_ℤ (pos (2 ^ 120)) ≤ℤ result }
    ensures most { result ≤ℤ pos (2 ^ 120) }
    ensures same { neg_ℤ (pos (2 ^ 120)) ≤ℤ balance → balance ≤ℤ pos (2 ^ 120) → result ≡ balance }
{
    balance.clamp(-(1 << 120), 1 << 120)
}

// An amount in nano-euro before so many cents were topped up, and before what was imported and
// exported was settled.
fn before(nano: i128, cents: u128, imported: u128, exported: u128) -> i128
    requires least { neg_ℤ (pos (2 ^ 124)) ≤ℤ nano }
    requires most { nano ≤ℤ pos (2 ^ 124) }
    requires cents { cents < 2 ^ 96 }
    requires imported { imported < 2 ^ 120 }
    requires exported { exported < 2 ^ 120 }
    ensures { result ≡ unsettled nano cents imported exported }
{
    nano - (NANO_IN_CENT * cents) as i128 + imported as i128 - exported as i128
}

// A sum of cents, where a word holds it. (Only over a store that isn't clean it can be more.)
fn capped(cents: u128) -> u64
    ensures { result ≡ min cents (2 ^ 64 - 1) }
{
    cents.min(u128::from(u64::MAX)) as u64
}

// What rows of top-ups add up to whose instant is a second or later, and before another, in cents.
fn cents_of(rows: &[TopUpRow], from: u32, until: u32) -> u128
    ensures cents { result ≡ sum_by (cents_within from until) rows.now }
    ensures bound { result < 2 ^ 96 }
{
    let mut cents: u128 = 0;
    for row in rows {
        cents += cents_in(row, from, until);
    }
    cents
}

// The cents of a row, if its instant is a second or later, and before another.
fn cents_in(row: &TopUpRow, from: u32, until: u32) -> u128
    ensures cents { result ≡ cents_within from until row.now }
    ensures bound { result < 2 ^ 32 }
{
    let second = row.instant.seconds();
    if from <= second && second < until {
        u128::from(row.cents)
    } else {
        0
    }
}

// What the energy of a direction behind an interval costs, in nano-euro: nothing flows where no
// instant is behind it.
fn cost_behind(office: &Office, energies: &Energies, until: u32, direction: Direction) -> u128
    ensures some { until < END_SECOND → result
        ≡ cost_told (office_of office.now) energies.now 1 direction }
    ensures none { END_SECOND ≤ until → result ≡ 0 }
    ensures bound { result < 2 ^ 120 }
{
    if until < END_SECOND {
        cost_of(office, energies, 1, direction)
    } else {
        0
    }
}

// What the energy of a direction in a stretch of time costs, in nano-euro.
fn cost_of(office: &Office, energies: &Energies, stretch: u16, direction: Direction) -> u128
    ensures cost { result ≡ cost_told (office_of office.now) energies.now stretch direction }
    ensures bound { result < 2 ^ 120 }
    ensures office { IsSound office.now }
{
    let mut nano: u128 = 0;
    for period in 0..office.periods() {
        nano += cost_in_period(office, energies, stretch, PeriodId(period), direction);
    }
    nano
}

// What it costs within one period, in nano-euro.
fn cost_in_period(
    office: &Office,
    energies: &Energies,
    stretch: u16,
    period: PeriodId,
    direction: Direction,
) -> u128
    requires { period.0 < periods_in office.now }
    ensures cost { result ≡ period_told (office_of office.now) energies.now stretch period.0
        direction }
    ensures bound { result < 2 ^ 104 }
{
    let mut nano: u128 = 0;
    for band in 0..office.bands() {
        let band = BandId(band);
        let wh = energies.wh(stretch, period, band, direction);
        nano += price_of(wh, office.price(period, band, direction));
    }
    nano
}
