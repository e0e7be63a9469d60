//! The exports of assignments, of top-ups and of withdrawals, in the form of their uploads.

ghost use Rattle.std.specs.Prelude.{◌≡◌, ◌∷◌, ◌++◌, ℕ, List, [], IfErr, IfOk, OnOk, decimal, map};
ghost use Rattle.std.specs.List.{flat_map};
ghost use Rattle.pw_book.specs.declared.fault.BookFault.TheVariants.{Memory};
ghost use Rattle.pw_record.specs.declared.row.RowKind.TheVariants.{Assignment, TopUp, Withdrawal};
ghost use Rattle.pw_obis.specs.Registers.{register_name};
ghost use Rattle.pw_report.specs.Exports.{assignment_fields, csv_line, given_name, record_fields, record_line, withdrawal_fields};
ghost use Rattle.pw_report.specs.Layout.{instant_text as text_of_instant};
ghost use Rattle.pw_report.specs.Pages.{IsRecordsText};
ghost use Rattle.pw_report.specs.Reports.{IsReport, TellsText};
ghost use Rattle.pw_report.specs.inner.Rows.{AddsFields, HasText};

use crate::names::{account_name, meter_name};
use crate::put::instant_text;
use crate::rows::{Rows, Tells, tell_each};
use itoa::Buffer;
use pw_book::{Book, BookFault};
use pw_model::{Content, Entry, Key, Named, Reference};
use pw_obis::{Register, WattHours};
use pw_shelf::Shelf;
use pw_tariff::{MeterId, Office, Owner};
use pw_time::Instant;
use std::alloc::Global;

/// All assignments held, as CSV under the header of their upload and in its form, so that they can be uploaded to another
/// book. Disputed ones stand there too. By meter, start and owner (nobody first).
///
/// `Device`, `Memory` and `Reopen` (of a shut book) leave the records as they are.
pub fn export_assignments<S: Shelf>(book: &mut Book<S>, alloc: Global) -> Result<Vec<u8>, BookFault>
    ensures text { TellsText S.Shelf (IsRecordsText Assignment) result book.old book.new }
    ensures report { IsReport S.Shelf result book.old book.new }
{
    let assignments = book.assignments(alloc)?;
    records_text(
        alloc,
        book.office(),
        &[b"meter", b"start", b"account"],
        &assignments,
    )
}

/// All top-ups held, as CSV under the header of their upload and in its form, so that they can be uploaded to another book.
/// Disputed ones stand there too. By reference, account, cents and instant.
///
/// `Device`, `Memory` and `Reopen` (of a shut book) leave the records as they are.
pub fn export_topups<S: Shelf>(book: &mut Book<S>, alloc: Global) -> Result<Vec<u8>, BookFault>
    ensures text { TellsText S.Shelf (IsRecordsText TopUp) result book.old book.new }
    ensures report { IsReport S.Shelf result book.old book.new }
{
    let topups = book.topups(alloc)?;
    records_text(
        alloc,
        book.office(),
        &[b"reference", b"account", b"cents", b"instant"],
        &topups,
    )
}

/// All withdrawals held, as CSV under the header of their upload and in its form, so that they can be uploaded to another
/// book: those of readings first, then those of assignments, then those of top-ups; each by the fields of the record that it
/// names, which may be held or not.
///
/// `Device`, `Memory` and `Reopen` (of a shut book) leave the records as they are.
pub fn export_withdrawals<S: Shelf>(book: &mut Book<S>, alloc: Global) -> Result<Vec<u8>, BookFault>
    ensures text { TellsText S.Shelf (IsRecordsText Withdrawal) result book.old book.new }
    ensures report { IsReport S.Shelf result book.old book.new }
{
    let withdrawals = book.withdrawals(alloc)?;
    records_text(
        alloc,
        book.office(),
        &[b"kind", b"first", b"second", b"third", b"fourth"],
        &withdrawals,
    )
}

// Records below a header.
fn records_text(
    alloc: Global,
    office: &Office,
    header: &[&[u8]],
    records: &[Entry],
) -> Result<Vec<u8>, BookFault>
    ensures text { IfOk result (λ text. text.items
        ≡ csv_line (map (λ name. name.now) header.now)
        ++ flat_map (record_line office.now) records.now) }
    ensures fault { IfErr result (λ fault. fault ≡ Memory) }
{
    let mut rows = Rows::new(alloc);
    rows.put_header(header)?;
    tell_each(&mut rows, office, records)?;
    rows.finish()
}

impl Tells<Entry> for Office {
    ghost line = { record_line };

    fn tell(&self, rows: &mut Rows, entry: &Entry) -> Result<(), BookFault> {
        put_fields(rows, self, entry)?;
        rows.end()
    }
}

fn put_fields(rows: &mut Rows, office: &Office, entry: &Entry) -> Result<(), BookFault>
    ensures text { (before : List ℕ) → HasText rows.old before []
        → OnOk result (HasText rows.new before
        (record_fields office.now entry.now.key entry.now.content)) }
    ensures fault { IfErr result (λ fault. fault ≡ Memory) }
{
    match (&entry.key, &entry.content) {
        (Key::Assignment { meter, start }, Content::Assignment { owner }) => {
            put_assignment(rows, office, *meter, *start, *owner)
        }
        (
            Key::TopUp { reference },
            Content::TopUp {
                account,
                cents,
                instant,
            },
        ) => put_topup(
            rows,
            reference,
            account_name(office, *account),
            *cents,
            *instant,
        ),
        (Key::Withdrawal { named }, Content::Withdrawal) => put_withdrawal(rows, office, named),
        _ => Ok(()),
    }
}

fn put_withdrawal(rows: &mut Rows, office: &Office, named: &Named) -> Result<(), BookFault>
    ensures text { (before : List ℕ) → HasText rows.old before []
        → OnOk result (HasText rows.new before (withdrawal_fields office.now named.now)) }
    ensures fault { IfErr result (λ fault. fault ≡ Memory) }
{
    match named {
        Named::Reading {
            meter,
            register,
            instant,
            wh,
        } => {
            rows.put_field(b"reading")?;
            put_reading(rows, meter_name(office, *meter), *register, *instant, *wh)
        }
        Named::Assignment {
            meter,
            start,
            owner,
        } => {
            rows.put_field(b"assignment")?;
            put_assignment(rows, office, *meter, *start, *owner)
        }
        Named::TopUp {
            reference,
            account,
            cents,
            instant,
        } => {
            rows.put_field(b"topup")?;
            put_topup(
                rows,
                reference,
                account_name(office, *account),
                *cents,
                *instant,
            )
        }
    }
}

fn put_reading(
    rows: &mut Rows,
    meter: &[u8],
    register: Register,
    instant: Instant,
    wh: WattHours,
) -> Result<(), BookFault>
    ensures text { AddsFields result (meter.now ∷ register_name register ∷ text_of_instant instant ∷
        decimal wh ∷ []) rows.old rows.new }
    ensures fault { IfErr result (λ fault. fault ≡ Memory) }
{
    rows.put_field(meter)?;
    rows.put_field(register.name().as_bytes())?;
    rows.put_field(&instant_text(instant))?;
    rows.put_field(Buffer::new().format(wh.get()).as_bytes())
}

fn put_assignment(
    rows: &mut Rows,
    office: &Office,
    meter: MeterId,
    start: Instant,
    owner: Owner,
) -> Result<(), BookFault>
    ensures text { AddsFields result (assignment_fields office.now meter start owner) rows.old
        rows.new }
    ensures fault { IfErr result (λ fault. fault ≡ Memory) }
{
    rows.put_field(meter_name(office, meter))?;
    rows.put_field(&instant_text(start))?;
    rows.put_field(given_name(office, owner))
}

// Writes the fields of a top-up.
pub(crate) fn put_topup(
    rows: &mut Rows,
    reference: &Reference,
    account: &[u8],
    cents: u32,
    instant: Instant,
) -> Result<(), BookFault>
    ensures text { AddsFields result (reference.now ∷ account.now ∷ decimal cents ∷ text_of_instant
        instant ∷ []) rows.old rows.new }
    ensures fault { IfErr result (λ fault. fault ≡ Memory) }
{
    rows.put_field(reference.bytes())?;
    rows.put_field(account)?;
    rows.put_field(Buffer::new().format(cents).as_bytes())?;
    rows.put_field(&instant_text(instant))
}

// The name of an account, nothing for nobody.
fn given_name(office: &Office, owner: Owner) -> &[u8]
    ensures { result.now ≡ given_name office.now owner }
{
    match owner {
        Some(account) => account_name(office, account),
        None => b"",
    }
}
