//! Bodies of rows.

ghost use Rattle.std.specs.Prelude.{◌≡◌, ◌↔◌, ◌≤◌, IsTrue, IfOk, IfErr, OnOk, Err};
ghost use Rattle.csv.specs.Records.{fields_of};
ghost use Rattle.pw_tariff.specs.Office.{office_of};
ghost use Rattle.pw_model.specs.Office.{AllOfOffice};
ghost use Rattle.pw_record.specs.Row.{header_of};
ghost use Rattle.pw_record.specs.Rows.{AssignmentsGive, AssignmentsRefused, RefusesRecord, RowsGive, RowsRefused, TopUpsGive, TopUpsRefused, WithdrawalsGive, WithdrawalsRefused};
ghost use Rattle.pw_record.specs.inner.Steps.{TakesRecord};

use crate::fault::{Cause, Halt, MEMORY_FAULT, UploadFault};
use crate::order::{append, in_order};
use crate::row::{RowKind, is_header, row_entry};
use csv::{ByteRecord, ReaderBuilder};
use pw_model::{Distinct, Entry};
use pw_tariff::Office;
use pw_time::Zone;
use std::alloc::Global;

/// The most rows of a body, without its header.
pub const MOST_ROWS: u32 = 1_000;

/// The entries of a body of assignment rows, `meter,start,account` below this header, or the first refusal.
///
/// Rows are CSV (RFC 4180): fields between commas, quoted or not; blank lines are no rows, and a byte order mark at the
/// body's start is taken off. An empty account means nobody. `Memory` says nothing of the body:
/// memory was refused while it was read.
pub fn assignment_records(
    alloc: Global,
    office: &Office,
    body: &[u8],
) -> Result<Vec<Entry>, UploadFault>
    ensures entries { IfOk result (λ entries. AssignmentsGive office.now body.now entries.items) }
    ensures of_office { IfOk result (λ entries. AllOfOffice (office_of office.now) entries.items) }
    ensures refused { IfErr result (λ fault. AssignmentsRefused office.now body.now fault) }
{
    Ok(rows_in(alloc, office, RowKind::Assignment, body)?.into_entries())
}

/// The entries of a body of top-up rows, `reference,account,cents,instant` below this header, or the first refusal.
///
/// The form is that of [`assignment_records`]. `Memory` says nothing of the body:
/// memory was refused while it was read.
pub fn topup_records(alloc: Global, office: &Office, body: &[u8]) -> Result<Vec<Entry>, UploadFault>
    ensures entries { IfOk result (λ entries. TopUpsGive office.now body.now entries.items) }
    ensures of_office { IfOk result (λ entries. AllOfOffice (office_of office.now) entries.items) }
    ensures refused { IfErr result (λ fault. TopUpsRefused office.now body.now fault) }
{
    Ok(rows_in(alloc, office, RowKind::TopUp, body)?.into_entries())
}

/// The entries of a body of rows that withdraw records, `kind,first,second,third,fourth` below this header, or the
/// first refusal.
///
/// A row has the kind of the record that it withdraws, and then its fields: `reading` with meter, register, instant and
/// watt-hours; `assignment` and `topup` with the fields of their own rows. The record need not be held. The form is
/// that of [`assignment_records`]. Instants are in UTC, so that nothing is read by the zone. `Memory` says nothing of
/// the body: memory was refused while it was read.
pub fn withdrawal_records(
    alloc: Global,
    office: &Office,
    _zone: &Zone,
    body: &[u8],
) -> Result<Vec<Entry>, UploadFault>
    ensures entries { IfOk result (λ entries. WithdrawalsGive office.now body.now entries.items) }
    ensures of_office { IfOk result (λ entries. AllOfOffice (office_of office.now) entries.items) }
    ensures refused { IfErr result (λ fault. WithdrawalsRefused office.now body.now fault) }
{
    Ok(rows_in(alloc, office, RowKind::Withdrawal, body)?.into_entries())
}

/// The entries of a body of rows of a kind below its header, in order, each once, or the first refusal.
pub fn rows_in(
    alloc: Global,
    office: &Office,
    kind: RowKind,
    body: &[u8],
) -> Result<Distinct, UploadFault>
    ensures entries { IfOk result (λ entries. RowsGive office.now kind body.now entries) }
    ensures of_office { IfOk result (λ entries. AllOfOffice (office_of office.now) entries) }
    ensures refused { IfErr result (λ fault. RowsRefused office.now kind body.now fault) }
{
    let reader = ReaderBuilder::new()
        .has_headers(false)
        .flexible(true)
        .from_reader(alloc, body);
    let mut given = Vec::new(alloc);
    let mut part = 0;
    for row in reader.into_byte_records() {
        let Ok(row) = row else {
            return Err(MEMORY_FAULT);
        };
        put_record(&mut given, office, kind, part, &row).map_err(|halt| halt.of_part(part))?;
        part += 1;
    }
    if part == 0 {
        let cause = Cause::Header;
        return Err(UploadFault { part, cause });
    }
    Ok(in_order(given))
}

// Puts the entry of a record behind those before it. The record with the number 0 is the header.
fn put_record(
    given: &mut Vec<Entry>,
    office: &Office,
    kind: RowKind,
    part: u32,
    row: &ByteRecord,
) -> Result<(), Halt>
    ensures ok { OnOk result (TakesRecord office.now kind part (fields_of row.now) given.old.items
        given.new.items) }
    ensures err { (cause : Cause) → result ≡ Err (Halt.Refused cause)
        → RefusesRecord office.now kind part (fields_of row.now) cause }
{
    if part == 0 {
        return if is_header(kind, row) {
            Ok(())
        } else {
            Err(Halt::Refused(Cause::Header))
        };
    }
    if part > MOST_ROWS {
        return Err(Halt::Refused(Cause::TooManyParts));
    }
    let entry = match row_entry(office, kind, row) {
        Ok(entry) => entry,
        Err(cause) => return Err(Halt::Refused(cause)),
    };
    append(given, entry.key, entry.content)?;
    Ok(())
}
