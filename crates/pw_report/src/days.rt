//! The days of an account's month, as CSV.

ghost use Rattle.std.specs.Prelude.{◌≡◌, ◌<◌, ◌≤◌, IfErr, IfOk, length};
ghost use Rattle.pw_book.specs.declared.fault.BookFault.TheVariants.{Memory};
ghost use Rattle.pw_report.specs.DaysAndWhy.{day_line, day_lines, day_nano as nano_of_day, day_wh as wh_of_day, days_text as text_of_days};
ghost use Rattle.pw_report.specs.Months.{IsThere};
ghost use Rattle.pw_report.specs.Pages.{IsDaysText};
ghost use Rattle.pw_report.specs.Reports.{IsReport, TellsText};
ghost use Rattle.pw_report.specs.inner.Rows.{AddsLines};
ghost use Rattle.pw_report.specs.inner.Told.{day_energies};

use crate::months::{Month, begins_of, date_text, span_of};
use crate::names::band_letter;
use crate::readiness::still_open;
use crate::rows::Rows;
use itoa::Buffer;
use pw_bills::{Energies, days};
use pw_book::{Book, BookFault};
use pw_model::price_of;
use pw_shelf::Shelf;
use pw_tariff::{AccountId, BandId, Direction, Office, PeriodId};
use std::alloc::Global;

// The days that are told: their energies, by number from 0, and whose month they are of.
#[derive(Drop)]
struct MonthDays<'a> {
    office: &'a Office,
    month: Month,
    energies: &'a Energies,
}

/// The days of an account's month, by the records held, as CSV: by day, band and direction, in Wh and in nano-euro, each
/// energy at the price of its period. It asks for a month from 2000-01 to 2099-12.
///
/// `Device`, `Memory` and `Reopen` (of a shut book) leave the records as they are.
pub fn days_page<S: Shelf>(
    book: &mut Book<S>,
    alloc: Global,
    account: AccountId,
    month: Month,
) -> Result<Vec<u8>, BookFault>
    requires { IsThere month }
    ensures text { TellsText S.Shelf (λ office records. IsDaysText office records account month)
        result book.old book.new }
    ensures report { IsReport S.Shelf result book.old book.new }
{
    still_open(book)?;
    let (_, end) = span_of(month, book.zone());
    let begins = begins_of(alloc, month, book.zone())?;
    let energies = days(book, alloc, account, &begins, end)?;
    let told = MonthDays {
        office: book.office(),
        month,
        energies: &energies,
    };
    days_text(alloc, &told, begins.len() as u8)
}

// The rows of the first days of a month, so many, below the header.
fn days_text(alloc: Global, told: &MonthDays, count: u8) -> Result<Vec<u8>, BookFault>
    requires there { IsThere told.now.month }
    requires count { count ≤ 31 }
    ensures text { IfOk result (λ text. text.items
        ≡ text_of_days told.now.office.now told.now.month (day_energies told.now.energies.now)
        count) }
    ensures fault { IfErr result (λ fault. fault ≡ Memory) }
{
    let mut rows = Rows::new(alloc);
    rows.put_header(&[b"day", b"band", b"direction", b"wh", b"nano"])?;
    for day in 0..count {
        put_day(&mut rows, told, day)?;
    }
    rows.finish()
}

// A day, band by band.
fn put_day(rows: &mut Rows, told: &MonthDays, day: u8) -> Result<(), BookFault>
    requires there { IsThere told.now.month }
    requires day { day < 31 }
    ensures text { AddsLines result (day_lines told.now.office.now told.now.month
        (day_energies told.now.energies.now) day) rows.old rows.new }
    ensures fault { IfErr result (λ fault. fault ≡ Memory) }
{
    for band in 0..told.office.bands() {
        let band = BandId(band);
        put_direction(rows, told, day, band, Direction::Import)?;
        put_direction(rows, told, day, band, Direction::Export)?;
    }
    Ok(())
}

// A row: the energy of a day in a band and a direction, and what it costs.
fn put_direction(
    rows: &mut Rows,
    told: &MonthDays,
    day: u8,
    band: BandId,
    direction: Direction,
) -> Result<(), BookFault>
    requires there { IsThere told.now.month }
    requires day { day < 31 }
    requires band { band.0 < length told.now.office.now.bands }
    ensures text { AddsLines result (day_line told.now.office.now told.now.month
        (day_energies told.now.energies.now) day band.0 direction) rows.old rows.new }
    ensures fault { IfErr result (λ fault. fault ≡ Memory) }
{
    let wh = day_wh(told, day, band, direction);
    let nano = day_nano(told, day, band, direction);
    rows.put_field(&date_text(told.month, day + 1))?;
    rows.put_field(&[band_letter(told.office, band)])?;
    rows.put_field(direction.name().as_bytes())?;
    rows.put_field(Buffer::new().format(wh).as_bytes())?;
    rows.put_field(Buffer::new().format(nano).as_bytes())?;
    rows.end()
}

// The energy of a day in a band and a direction, of all periods together, in Wh.
#[tactic(auto, unfolding(pw_flow::specs::Time::sum_over))]
fn day_wh(told: &MonthDays, day: u8, band: BandId, direction: Direction) -> u128
    ensures { result ≡ wh_of_day told.now.office.now (day_energies told.now.energies.now) day band.0
        direction }
{
    let mut wh: u128 = 0;
    for period in 0..told.office.periods() {
        wh += u128::from(energy_in(told, day, PeriodId(period), band, direction));
    }
    wh
}

// What that costs, in nano-euro: in each period at its price.
#[tactic(auto, unfolding(pw_flow::specs::Time::sum_over))]
fn day_nano(told: &MonthDays, day: u8, band: BandId, direction: Direction) -> u128
    requires { band.0 < length told.now.office.now.bands }
    ensures { result ≡ nano_of_day told.now.office.now (day_energies told.now.energies.now) day
        band.0 direction }
{
    let mut nano: u128 = 0;
    for period in 0..told.office.periods() {
        let period = PeriodId(period);
        let wh = energy_in(told, day, period, band, direction);
        nano += price_of(wh, told.office.price(period, band, direction));
    }
    nano
}

// The energy of a day in a period, a band and a direction, in Wh.
fn energy_in(told: &MonthDays, day: u8, period: PeriodId, band: BandId, direction: Direction) -> u64
    ensures { result ≡ day_energies told.now.energies.now day period.0 band.0 direction }
{
    told.energies.wh(u16::from(day), period, band, direction)
}
