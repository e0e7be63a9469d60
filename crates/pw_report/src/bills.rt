//! The bill of an account for a month.

ghost use Rattle.std.specs.Prelude.{◌≡◌, ◌++◌, ◌<◌, ◌≤◌, ◌^◌, ◌≤ℤ◌, codes, decimal, length, neg_ℤ, pos, IfOk, OnOk};
ghost use Rattle.std.specs.List.{flat_map};
ghost use Rattle.pw_tariff.specs.Office.{office_of, periods_in};
ghost use Rattle.pw_model.specs.Energy.{over_bands};
ghost use Rattle.pw_report.specs.Amounts.{cents_below};
ghost use Rattle.pw_report.specs.Bills.{amount_line, bill_text as text_of_bill, cost_text as text_of_cost, named_line, period_lines, periods_text, read_line, reading_text, rounding_line, used_header, used_in};
ghost use Rattle.pw_report.specs.Layout.{listed_below, right};
ghost use Rattle.pw_report.specs.Months.{IsThere};
ghost use Rattle.pw_report.specs.Names.{period_name};
ghost use Rattle.pw_report.specs.Pages.{IsBillText};
ghost use Rattle.pw_report.specs.Reports.{IsReport, TellsText};
ghost use Rattle.pw_report.specs.inner.Told.{AreAmounts, bill_of_sheet};

use crate::months::{Month, last_before, month_text, span_of};
use crate::names::{account_name, band_letter, meter_name, start_of};
use crate::put::{instant_text, put_cents, put_euro, put_left, put_number, put_right};
use itoa::Buffer;
use pw_bills::{Bill, LastReading, bill, read_up_to};
use pw_book::{Book, BookFault};
use pw_model::{NANO_IN_CENT, price_of};
use pw_obis::WattHours;
use pw_shelf::Shelf;
use pw_tariff::{AccountId, BandId, Direction, Office, PeriodId};
use pw_time::Instant;
use std::alloc::{AllocError, Global};

// What the page of a bill tells, with the first and the last period that have seconds of the month.
#[derive(Drop)]
struct Sheet<'a> {
    alloc: Global,
    office: &'a Office,
    account: AccountId,
    month: Month,
    first: PeriodId,
    last: PeriodId,
    bill: &'a Bill,
    read: &'a [LastReading],
    records: u32,
}

// The amounts of a bill, in whole cents.
#[derive(Clone, Copy)]
struct Amounts {
    begin: i128,
    topped_up: i128,
    imported: i128,
    exported: i128,
    end: i128,
    rounding: i128,
}

/// The bill of an account for a month, by the records held: the balances where it begins and where it ends, what was topped
/// up, used and paid in it, in each period and band, how far its meters are read, and how many records there are. It asks
/// for an account of the office, and for a month from 2000-01 to 2099-12.
///
/// `Device`, `Memory` and `Reopen` (of a shut book) leave the records as they are.
pub fn bill_page<S: Shelf>(
    book: &mut Book<S>,
    alloc: Global,
    account: AccountId,
    month: Month,
) -> Result<Vec<u8>, BookFault>
    requires account { account.0 < length book.old.office.accounts }
    requires there { IsThere month }
    ensures text { TellsText S.Shelf (λ office records. IsBillText office records account month)
        result book.old book.new }
    ensures report { IsReport S.Shelf result book.old book.new }
{
    let (from, until) = span_of(month, book.zone());
    let last = last_before(from, until);
    let figures = bill(book, alloc, account, from, until)?;
    let read = read_up_to(book, alloc, account, from, until)?;
    let records = book.count()?;
    let office = book.office();
    let sheet = Sheet {
        alloc,
        office,
        account,
        month,
        first: office.period(from),
        last: office.period(last),
        bill: &figures,
        read: &read,
        records,
    };
    let text = bill_text(&sheet)?;
    Ok(text)
}

// The lines of a bill.
fn bill_text(sheet: &Sheet) -> Result<Vec<u8>, AllocError>
    requires there { IsThere sheet.now.month }
    requires last { sheet.now.last.0 < periods_in sheet.now.office.now }
    ensures { IfOk result (λ text. text.items
        ≡ text_of_bill sheet.now.office.now sheet.now.account.0 sheet.now.month sheet.now.first.0
        sheet.now.last.0 (bill_of_sheet sheet.now) sheet.now.read.now sheet.now.records) }
{
    let amounts = amounts_of(sheet);
    let mut text = Vec::new(sheet.alloc);
    put_line(
        &mut text,
        b"account",
        account_name(sheet.office, sheet.account),
    )?;
    put_line(&mut text, b"month", &month_text(sheet.month))?;
    put_amount(&mut text, b"begin", amounts.begin)?;
    put_amount(&mut text, b"topped up", amounts.topped_up)?;
    put_periods(&mut text, sheet)?;
    put_amount(&mut text, b"import", amounts.imported)?;
    put_amount(&mut text, b"export", amounts.exported)?;
    put_rounding(&mut text, amounts.rounding)?;
    put_amount(&mut text, b"end", amounts.end)?;
    put_read(&mut text, sheet.office, sheet.read)?;
    put_line(
        &mut text,
        b"records",
        Buffer::new().format(sheet.records).as_bytes(),
    )?;
    Ok(text)
}

// A name and a text, in a line.
fn put_line(text: &mut Vec<u8>, name: &[u8], told: &[u8]) -> Result<(), AllocError>
    ensures { OnOk result (text.new.items ≡ text.old.items ++ named_line name.now told.now) }
{
    text.extend_from_slice(name)?;
    text.extend_from_slice(b" ")?;
    text.extend_from_slice(told)?;
    text.extend_from_slice(b"\n")
}

// A name and an amount of whole cents, in a line.
fn put_amount(text: &mut Vec<u8>, name: &[u8], cents: i128) -> Result<(), AllocError>
    ensures { OnOk result (text.new.items ≡ text.old.items ++ amount_line name.now cents) }
{
    text.extend_from_slice(name)?;
    text.extend_from_slice(b" EUR ")?;
    put_cents(text, cents)?;
    text.extend_from_slice(b"\n")
}

// The line of the cents that are added, where there are any.
fn put_rounding(text: &mut Vec<u8>, cents: i128) -> Result<(), AllocError>
    ensures { OnOk result (text.new.items ≡ text.old.items ++ rounding_line cents) }
{
    if cents == 0 {
        return Ok(());
    }
    put_amount(text, b"rounding", cents)
}

// The amounts of a bill in whole cents, each rounded down by itself, and what is added for that.
fn amounts_of(sheet: &Sheet) -> Amounts
    ensures { AreAmounts (bill_of_sheet sheet.now) result }
{
    let begin = in_cents(sheet.bill.begin);
    let topped_up = i128::from(sheet.bill.topped_up);
    let imported = (whole_cost(sheet, Direction::Import) / NANO_IN_CENT) as i128;
    let exported = (whole_cost(sheet, Direction::Export) / NANO_IN_CENT) as i128;
    let end = in_cents(sheet.bill.end);
    Amounts {
        begin,
        topped_up,
        imported,
        exported,
        end,
        rounding: end - (begin + topped_up - imported + exported),
    }
}

// The greatest whole cents that aren't above an amount of nano-euro.
fn in_cents(nano: i128) -> i128
    ensures cents { result ≡ cents_below nano }
    ensures low { neg_ℤ (pos (2 ^ 105)) ≤ℤ result }
    ensures high { result ≤ℤ pos (2 ^ 105) }
{
    nano.div_euclid(NANO_IN_CENT as i128)
}

// What all energy of a direction costs, in nano-euro.
#[tactic(auto, unfolding(pw_flow::specs::Time::sum_over))]
fn whole_cost(sheet: &Sheet, direction: Direction) -> u128
    ensures cost { result ≡ (bill_of_sheet sheet.now).whole_cost direction }
    ensures bound { result < 2 ^ 112 }
{
    let mut nano: u128 = 0;
    for period in 0..sheet.office.periods() {
        nano += cost_in(sheet, PeriodId(period), direction);
    }
    nano
}

// What the energy of a period and a direction costs, in nano-euro.
#[tactic(auto, unfolding(pw_flow::specs::Time::sum_over))]
fn cost_in(sheet: &Sheet, period: PeriodId, direction: Direction) -> u128
    requires { period.0 < periods_in sheet.now.office.now }
    ensures cost { result ≡ over_bands (office_of sheet.now.office.now)
        (λ b. (bill_of_sheet sheet.now).cost period.0 b direction) }
    ensures bound { result ≤ 2 ^ 104 }
{
    let mut nano: u128 = 0;
    for band in 0..sheet.office.bands() {
        nano += class_cost(sheet, period, BandId(band), direction);
    }
    nano
}

// What the energy of a period, a band and a direction costs, in nano-euro.
fn class_cost(sheet: &Sheet, period: PeriodId, band: BandId, direction: Direction) -> u128
    requires period { period.0 < periods_in sheet.now.office.now }
    requires band { band.0 < length sheet.now.office.now.bands }
    ensures cost { result ≡ (bill_of_sheet sheet.now).cost period.0 band.0 direction }
    ensures bound { result < 2 ^ 96 }
{
    let wh = sheet.bill.wh(period, band, direction);
    price_of(wh, sheet.office.price(period, band, direction))
}

// Each period that has seconds of the month, and what was used in it.
#[tactic(auto, unfolding(crate::specs::Bills::periods_text))]
fn put_periods(text: &mut Vec<u8>, sheet: &Sheet) -> Result<(), AllocError>
    requires { sheet.now.last.0 < periods_in sheet.now.office.now }
    ensures { OnOk result (text.new.items
        ≡ text.old.items ++ periods_text sheet.now.office.now (bill_of_sheet sheet.now)
        sheet.now.first.0 sheet.now.last.0) }
{
    prove!(sheet.last.0 < sheet.office.periods());
    let (first, last) = (sheet.first.0, sheet.last.0);
    for number in 0..(last + 1).saturating_sub(first) {
        put_period(text, sheet, PeriodId(first + number))?;
    }
    Ok(())
}

fn put_period(text: &mut Vec<u8>, sheet: &Sheet, period: PeriodId) -> Result<(), AllocError>
    requires { period.0 < periods_in sheet.now.office.now }
    ensures { OnOk result (text.new.items
        ≡ text.old.items ++ period_lines sheet.now.office.now (bill_of_sheet sheet.now) period.0) }
{
    put_start(text, sheet.office, period)?;
    put_header(text)?;
    put_bands(text, sheet, period)
}

// The line of a period, by its start.
fn put_start(text: &mut Vec<u8>, office: &Office, period: PeriodId) -> Result<(), AllocError>
    requires { period.0 < periods_in office.now }
    ensures { OnOk result (text.new.items
        ≡ text.old.items ++ named_line (codes "period") (period_name office.now period.0)) }
{
    put_line(text, b"period", &instant_text(start_of(office, period)))
}

fn put_header(text: &mut Vec<u8>) -> Result<(), AllocError>
    ensures { OnOk result (text.new.items ≡ text.old.items ++ used_header) }
{
    put_left(text, 4, b"band")?;
    put_right(text, 16, b"import Wh")?;
    put_right(text, 16, b"import EUR")?;
    put_right(text, 16, b"export Wh")?;
    put_right(text, 16, b"export EUR")?;
    text.extend_from_slice(b"\n")
}

// What was used in a period, band by band.
fn put_bands(text: &mut Vec<u8>, sheet: &Sheet, period: PeriodId) -> Result<(), AllocError>
    requires { period.0 < periods_in sheet.now.office.now }
    ensures { OnOk result (text.new.items
        ≡ text.old.items ++ listed_below (length sheet.now.office.now.bands)
        (used_in sheet.now.office.now (bill_of_sheet sheet.now) period.0)) }
{
    for band in 0..sheet.office.bands() {
        put_band(text, sheet, period, BandId(band))?;
    }
    Ok(())
}

// What was used in a period and a band.
fn put_band(
    text: &mut Vec<u8>,
    sheet: &Sheet,
    period: PeriodId,
    band: BandId,
) -> Result<(), AllocError>
    requires period { period.0 < periods_in sheet.now.office.now }
    requires band { band.0 < length sheet.now.office.now.bands }
    ensures { OnOk result (text.new.items
        ≡ text.old.items ++ used_in sheet.now.office.now (bill_of_sheet sheet.now) period.0
        band.0) }
{
    put_left(text, 4, &[band_letter(sheet.office, band)])?;
    put_used(text, sheet, period, band, Direction::Import)?;
    put_used(text, sheet, period, band, Direction::Export)?;
    text.extend_from_slice(b"\n")
}

// The energy of a period, a band and a direction, and what it costs.
fn put_used(
    text: &mut Vec<u8>,
    sheet: &Sheet,
    period: PeriodId,
    band: BandId,
    direction: Direction,
) -> Result<(), AllocError>
    requires period { period.0 < periods_in sheet.now.office.now }
    requires band { band.0 < length sheet.now.office.now.bands }
    ensures { OnOk result (text.new.items
        ≡ text.old.items ++ (right 16
        (decimal ((bill_of_sheet sheet.now).energy period.0 band.0 direction))
        ++ right 16 (text_of_cost ((bill_of_sheet sheet.now).cost period.0 band.0 direction)))) }
{
    let wh = sheet.bill.wh(period, band, direction);
    let cost = cost_text(sheet.alloc, class_cost(sheet, period, band, direction))?;
    put_right(text, 16, Buffer::new().format(wh).as_bytes())?;
    put_right(text, 16, &cost)
}

// What energy costs, in nano-euro, as whole cents.
fn cost_text(alloc: Global, nano: u128) -> Result<Vec<u8>, AllocError>
    ensures { IfOk result (λ text. text.items ≡ text_of_cost nano) }
{
    let mut text = Vec::new(alloc);
    put_euro(&mut text, nano / NANO_IN_CENT)?;
    Ok(text)
}

// How far each register is read.
fn put_read(text: &mut Vec<u8>, office: &Office, read: &[LastReading]) -> Result<(), AllocError>
    ensures { OnOk result (text.new.items
        ≡ text.old.items ++ flat_map (read_line office.now) read.now) }
{
    for row in read {
        put_last(text, office, row)?;
    }
    Ok(())
}

fn put_last(text: &mut Vec<u8>, office: &Office, row: &LastReading) -> Result<(), AllocError>
    ensures { OnOk result (text.new.items ≡ text.old.items ++ read_line office.now row.now) }
{
    text.extend_from_slice(b"read up to ")?;
    text.extend_from_slice(meter_name(office, row.meter))?;
    text.extend_from_slice(b" ")?;
    text.extend_from_slice(row.register.name().as_bytes())?;
    text.extend_from_slice(b" ")?;
    put_reading(text, row.last)?;
    text.extend_from_slice(b"\n")
}

// The instant and the Wh of a reading, if there is one.
fn put_reading(text: &mut Vec<u8>, reading: Option<(Instant, WattHours)>) -> Result<(), AllocError>
    ensures { OnOk result (text.new.items ≡ text.old.items ++ reading_text reading) }
{
    match reading {
        Some((instant, wh)) => {
            text.extend_from_slice(&instant_text(instant))?;
            text.extend_from_slice(b" ")?;
            put_number(text, wh.get())
        }
        None => text.extend_from_slice(b"never"),
    }
}
