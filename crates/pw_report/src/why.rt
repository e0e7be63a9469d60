//! Why the bill of an account for a month is what it is, as CSV.

ghost use Rattle.std.specs.Prelude.{◌≡◌, ◌*◌, ◌∷◌, [], IfErr, IfOk, decimal, map};
ghost use Rattle.pw_book.specs.declared.fault.BookFault.TheVariants.{Memory};
ghost use Rattle.pw_bills.specs.Why.{row_told};
ghost use Rattle.pw_report.specs.DaysAndWhy.{why_text as text_of_why};
ghost use Rattle.pw_report.specs.Layout.{instant_text as text_of_instant};
ghost use Rattle.pw_report.specs.Months.{IsThere};
ghost use Rattle.pw_report.specs.Names.{band_name, period_name};
ghost use Rattle.pw_report.specs.Pages.{IsWhyText};
ghost use Rattle.pw_report.specs.Reports.{IsReport, TellsText};
ghost use Rattle.pw_report.specs.inner.Rows.{AddsFields};
ghost use Rattle.pw_report.specs.inner.Told.{payer_line, piece_line};
ghost use Rattle.pw_tariff.specs.Office.{office_of, price_at};

use crate::months::{Month, span_of};
use crate::names::{account_name, band_letter, meter_name, start_of};
use crate::put::instant_text;
use crate::records::put_topup;
use crate::rows::{Rows, Tells, tell_each};
use itoa::Buffer;
use pw_bills::{TopUpRow, WhyPiece, top_ups_between, why};
use pw_book::{Book, BookFault};
use pw_model::{direction_of, price_of};
use pw_shelf::Shelf;
use pw_tariff::{AccountId, BandId, Direction, Office, PeriodId, Piece, Span};
use std::alloc::Global;

// The account whose top-ups are told, and its office.
#[derive(Drop)]
struct Payer<'a> {
    office: &'a Office,
    account: AccountId,
}

/// Why the bill of an account for a month is what it is, by the records held, as CSV: each piece of two readings that gave
/// it energy, in Wh and in nano-euro, by meter, register and time; then each top-up of the month, by its reference. It asks
/// for a month from 2000-01 to 2099-12.
///
/// `Device`, `Memory` and `Reopen` (of a shut book) leave the records as they are.
pub fn why_page<S: Shelf>(
    book: &mut Book<S>,
    alloc: Global,
    account: AccountId,
    month: Month,
) -> Result<Vec<u8>, BookFault>
    requires { IsThere month }
    ensures text { TellsText S.Shelf (λ office records. IsWhyText office records account month)
        result book.old book.new }
    ensures report { IsReport S.Shelf result book.old book.new }
{
    let (from, until) = span_of(month, book.zone());
    let pieces = why(book, alloc, account, from, until)?;
    let payments = top_ups_between(book, alloc, account, from, until)?;
    why_text(alloc, book.office(), account, &pieces, &payments)
}

fn why_text(
    alloc: Global,
    office: &Office,
    account: AccountId,
    pieces: &[WhyPiece],
    payments: &[TopUpRow],
) -> Result<Vec<u8>, BookFault>
    ensures text { IfOk result (λ text. text.items
        ≡ text_of_why office.now account (map (row_told (office_of office.now)) pieces.now)
        payments.now) }
    ensures fault { IfErr result (λ fault. fault ≡ Memory) }
{
    let mut rows = Rows::new(alloc);
    rows.put_header(&[
        b"kind",
        b"meter",
        b"register",
        b"from",
        b"low",
        b"to",
        b"high",
        b"begin",
        b"end",
        b"period",
        b"band",
        b"wh",
        b"nano",
    ])?;
    tell_each(&mut rows, office, pieces)?;
    tell_each(&mut rows, &Payer { office, account }, payments)?;
    rows.finish()
}

// A row: whose register it is, its two readings, and the piece of them.
impl Tells<WhyPiece> for Office {
    ghost line = { piece_line };

    fn tell(&self, rows: &mut Rows, piece: &WhyPiece) -> Result<(), BookFault> {
        let direction = direction_of(piece.register);
        rows.put_field(direction.name().as_bytes())?;
        rows.put_field(meter_name(self, piece.meter))?;
        rows.put_field(piece.register.name().as_bytes())?;
        put_span(rows, &piece.span)?;
        put_given(rows, self, direction, &piece.piece)?;
        rows.end()
    }
}

// The two readings of a pair: when each was taken, and what it shows.
fn put_span(rows: &mut Rows, span: &Span) -> Result<(), BookFault>
    ensures text { AddsFields result (text_of_instant span.now.from ∷ decimal span.now.low ∷
        text_of_instant span.now.to ∷ decimal span.now.high ∷ []) rows.old rows.new }
    ensures fault { IfErr result (λ fault. fault ≡ Memory) }
{
    rows.put_field(&instant_text(span.from))?;
    rows.put_field(Buffer::new().format(span.low.get()).as_bytes())?;
    rows.put_field(&instant_text(span.to))?;
    rows.put_field(Buffer::new().format(span.high.get()).as_bytes())
}

// The piece of them, and what it gives: Wh, and nano-euro at the price of its period and band.
fn put_given(
    rows: &mut Rows,
    office: &Office,
    direction: Direction,
    piece: &Piece,
) -> Result<(), BookFault>
    ensures text { AddsFields result (text_of_instant piece.now.begin ∷ text_of_instant
        piece.now.until ∷ period_name office.now piece.now.period.0 ∷ band_name office.now
        piece.now.band.0 ∷ decimal piece.now.wh ∷ decimal
        (price_at office.now piece.now.period.0 piece.now.band.0 direction * piece.now.wh) ∷ [])
        rows.old rows.new }
    ensures fault { IfErr result (λ fault. fault ≡ Memory) }
{
    let price = price_in(office, piece.period, piece.band, direction);
    rows.put_field(&instant_text(piece.begin))?;
    rows.put_field(&instant_text(piece.until))?;
    put_period(rows, office, piece.period)?;
    put_band(rows, office, piece.band)?;
    rows.put_field(Buffer::new().format(piece.wh).as_bytes())?;
    rows.put_field(Buffer::new().format(price_of(piece.wh, price)).as_bytes())
}

// The name of a period, its start; nothing where the office has no such.
fn put_period(rows: &mut Rows, office: &Office, period: PeriodId) -> Result<(), BookFault>
    ensures text { AddsFields result (period_name office.now period.0 ∷ []) rows.old rows.new }
    ensures fault { IfErr result (λ fault. fault ≡ Memory) }
{
    if period.0 < office.periods() {
        rows.put_field(&instant_text(start_of(office, period)))
    } else {
        rows.put_field(b"")
    }
}

// The letter of a band; nothing where the office has no such.
fn put_band(rows: &mut Rows, office: &Office, band: BandId) -> Result<(), BookFault>
    ensures text { AddsFields result (band_name office.now band.0 ∷ []) rows.old rows.new }
    ensures fault { IfErr result (λ fault. fault ≡ Memory) }
{
    if band.0 < office.bands() {
        rows.put_field(&[band_letter(office, band)])
    } else {
        rows.put_field(b"")
    }
}

// The price of a period, a band and a direction, in nano-euro per Wh; 0 where the office has no such.
fn price_in(office: &Office, period: PeriodId, band: BandId, direction: Direction) -> u32
    ensures { result ≡ price_at office.now period.0 band.0 direction }
{
    if period.0 < office.periods() && band.0 < office.bands() {
        office.price(period, band, direction)
    } else {
        0
    }
}

// A row: a top-up of the account, as a row of withdrawals names it.
impl Tells<TopUpRow> for Payer<'_> {
    ghost line = { payer_line };

    fn tell(&self, rows: &mut Rows, payment: &TopUpRow) -> Result<(), BookFault> {
        rows.put_field(b"topup")?;
        put_topup(
            rows,
            &payment.reference,
            account_name(self.office, self.account),
            payment.cents,
            payment.instant,
        )?;
        rows.end()
    }
}
