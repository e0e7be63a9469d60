//! One row of assignments, of top-ups or of withdrawals.

ghost use Rattle.std.specs.Prelude.{◌≡◌, ◌≢◌, ◌<◌, ◌≤◌, ◌↔◌, ◌∷◌, [], drop, length, IsTrue, IfOk, IfErr, MatchOption, IfSome, IfNone};
ghost use Rattle.csv.specs.Records.{fields_of};
ghost use Rattle.pw_tariff.specs.Words.{register_named as register_of};
ghost use Rattle.pw_model.specs.Counting.{named_entry};
ghost use Rattle.pw_record.specs.Names.{HasRegister, IsOwner, IsUnknownOwner, IsUnknownRegister};
ghost use Rattle.pw_record.specs.Row.{GivesAssignment, GivesEntry, GivesNamed, GivesReading, GivesTopUp, GivesWithdrawal, HasNoKind, RefusesAssignment, RefusesNamed, RefusesReading, RefusesRow, RefusesTopUp, RefusesWithdrawal, header_of, kind_name};

use crate::cents::cents;
use crate::fault::Cause;
use crate::watt_hours::watt_hours;
use csv::ByteRecord;
use pw_model::{Content, Entry, Key, Named, Reference};
use pw_obis::{Register, ValueFault};
use pw_tariff::{MeterId, Office, Owner};
use pw_time::utc;

/// What the rows of a body are.
#[derive(Clone, Copy, Debug, PartialEq, Eq)]
pub enum RowKind {
    Assignment,
    TopUp,
    Withdrawal,
}

/// The kind of a record that a row can withdraw.
#[derive(Clone, Copy, Debug, PartialEq, Eq)]
pub enum NamedKind {
    Reading,
    Assignment,
    TopUp,
}

/// Whether a record is the header of rows of a kind.
pub fn is_header(kind: RowKind, row: &ByteRecord) -> bool
    ensures { IsTrue result ↔ (fields_of row.now ≡ header_of kind) }
{
    match kind {
        RowKind::Assignment => {
            let Some((meter, start, account)) = three(row, 0) else {
                return false;
            };
            meter == b"meter".as_slice()
                && start == b"start".as_slice()
                && account == b"account".as_slice()
        }
        RowKind::TopUp => is_four(row, 0, b"reference", b"account", b"cents", b"instant"),
        RowKind::Withdrawal => is_withdrawals_header(row),
    }
}

// A header of withdrawals has one name more: that of the kind, and then four that fit each kind of record.
fn is_withdrawals_header(row: &ByteRecord) -> bool
    ensures { IsTrue result ↔ (fields_of row.now ≡ header_of RowKind.Withdrawal) }
{
    if !begins_with(row, b"kind".as_slice()) {
        return false;
    }
    is_four(row, 1, b"first", b"second", b"third", b"fourth")
}

// Whether a row's fields from the one at `at` on are these four.
fn is_four(
    row: &ByteRecord,
    at: usize,
    first: &[u8],
    second: &[u8],
    third: &[u8],
    fourth: &[u8],
) -> bool
    requires { at ≤ 1 }
    ensures { IsTrue result ↔ (drop at (fields_of row.now)
        ≡ first.now ∷ second.now ∷ third.now ∷ fourth.now ∷ []) }
{
    let Some(fields) = four(row, at) else {
        return false;
    };
    fields.0 == first && fields.1 == second && fields.2 == third && fields.3 == fourth
}

/// What a row records, its fields read in the order of its kind; or the first of them that is wrong.
pub fn row_entry(office: &Office, kind: RowKind, row: &ByteRecord) -> Result<Entry, Cause>
    ensures ok { IfOk result (λ entry. GivesEntry office.now kind (fields_of row.now) entry) }
    ensures err { IfErr result (λ cause. RefusesRow office.now kind (fields_of row.now) cause) }
{
    let named = match kind {
        RowKind::Assignment => assignment(office, row, 0),
        RowKind::TopUp => top_up(office, row, 0),
        RowKind::Withdrawal => return withdrawal(office, row),
    };
    Ok(named?.entry())
}

// The withdrawal of the record that a row names.
fn withdrawal(office: &Office, row: &ByteRecord) -> Result<Entry, Cause>
    ensures ok { IfOk result (λ entry. GivesWithdrawal office.now (fields_of row.now) entry) }
    ensures err { IfErr result (λ cause. RefusesWithdrawal office.now (fields_of row.now) cause) }
{
    let Some(kind) = named_kind(row) else {
        return Err(Cause::Kind);
    };
    let named = named_record(office, kind, row)?;
    Ok(Entry {
        key: Key::Withdrawal { named },
        content: Content::Withdrawal,
    })
}

// The kind of the record that a row withdraws: its first field has the kind's name.
fn named_kind(row: &ByteRecord) -> Option<NamedKind>
    ensures some { IfSome result (λ kind. fields_of row.now
        ≡ kind_name kind ∷ drop 1 (fields_of row.now)) }
    ensures none { IfNone result (HasNoKind (fields_of row.now)) }
{
    if begins_with(row, b"reading".as_slice()) {
        return Some(NamedKind::Reading);
    }
    if begins_with(row, b"assignment".as_slice()) {
        return Some(NamedKind::Assignment);
    }
    if begins_with(row, b"topup".as_slice()) {
        return Some(NamedKind::TopUp);
    }
    None
}

// Whether the first field of a row is this.
#[tactic(auto, using(crate::proofs::Fields::none_there))]
fn begins_with(row: &ByteRecord, first: &[u8]) -> bool
    ensures { IsTrue result ↔ (fields_of row.now ≡ first.now ∷ drop 1 (fields_of row.now)) }
{
    let Some(field) = row.get(0) else {
        return false;
    };
    field == first
}

// The record that the fields behind the kind name.
fn named_record(office: &Office, kind: NamedKind, row: &ByteRecord) -> Result<Named, Cause>
    ensures ok { IfOk result (λ named. GivesNamed office.now kind (drop 1 (fields_of row.now))
        (named_entry named)) }
    ensures err { IfErr result (λ cause. RefusesNamed office.now kind (drop 1 (fields_of row.now))
        cause) }
{
    match kind {
        NamedKind::Reading => reading(office, row, 1),
        NamedKind::Assignment => assignment(office, row, 1),
        NamedKind::TopUp => top_up(office, row, 1),
    }
}

// The reading that a row's fields name, from the one at `first` on: meter, register, instant, watt-hours.
fn reading(office: &Office, row: &ByteRecord, first: usize) -> Result<Named, Cause>
    requires { first ≤ 1 }
    ensures ok { IfOk result (λ named. GivesReading office.now (drop first (fields_of row.now))
        (named_entry named)) }
    ensures err { IfErr result (λ cause. RefusesReading office.now (drop first (fields_of row.now))
        cause) }
{
    let Some((id, name, when, amount)) = four(row, first) else {
        return Err(Cause::CsvForm);
    };
    let Some(meter) = office.meter(id) else {
        return Err(Cause::UnknownMeter);
    };
    let Some(register) = counting_register(office, meter, name) else {
        return Err(Cause::RegisterName);
    };
    let instant = utc(when)?;
    let Some(wh) = watt_hours(amount) else {
        return Err(Cause::Value(ValueFault::Digits));
    };
    Ok(Named::Reading {
        meter,
        register,
        instant,
        wh,
    })
}

// The register that a text names, where it counts for a meter.
fn counting_register(office: &Office, meter: MeterId, name: &[u8]) -> Option<Register>
    requires { meter.0 < length office.now.meters }
    ensures some { IfSome result (λ register. HasRegister office.now meter.0 name.now register) }
    ensures none { IfNone result (IsUnknownRegister office.now meter.0 name.now) }
{
    let register = register_named(name)?;
    if !office.counts(meter, register) {
        return None;
    }
    Some(register)
}

// The register with a name.
fn register_named(name: &[u8]) -> Option<Register>
    ensures { result ≡ register_of name.now }
{
    Register::ALL
        .iter()
        .copied()
        .find(|register| name == register.name().as_bytes())
}

// The assignment that a row's fields name, from the one at `first` on: meter, start, account.
fn assignment(office: &Office, row: &ByteRecord, first: usize) -> Result<Named, Cause>
    requires { first ≤ 1 }
    ensures ok { IfOk result (λ named. GivesAssignment office.now (drop first (fields_of row.now))
        (named_entry named)) }
    ensures err { IfErr result (λ cause. RefusesAssignment office.now
        (drop first (fields_of row.now)) cause) }
{
    let Some((id, start, account)) = three(row, first) else {
        return Err(Cause::CsvForm);
    };
    let Some(meter) = office.meter(id) else {
        return Err(Cause::UnknownMeter);
    };
    let start = utc(start)?;
    let Some(owner) = owner(office, account) else {
        return Err(Cause::UnknownAccount);
    };
    Ok(Named::Assignment {
        meter,
        start,
        owner,
    })
}

// The owner that a text names: nobody where it is empty.
fn owner(office: &Office, name: &[u8]) -> Option<Owner>
    ensures some { IfSome result (λ owner. IsOwner office.now name.now owner) }
    ensures none { IfNone result (IsUnknownOwner office.now name.now) }
{
    if name.is_empty() {
        return Some(None);
    }
    let account = office.account(name)?;
    Some(Some(account))
}

// The top-up that a row's fields name, from the one at `first` on: reference, account, cents, instant.
fn top_up(office: &Office, row: &ByteRecord, first: usize) -> Result<Named, Cause>
    requires { first ≤ 1 }
    ensures ok { IfOk result (λ named. GivesTopUp office.now (drop first (fields_of row.now))
        (named_entry named)) }
    ensures err { IfErr result (λ cause. RefusesTopUp office.now (drop first (fields_of row.now))
        cause) }
{
    let Some((reference, name, amount, when)) = four(row, first) else {
        return Err(Cause::CsvForm);
    };
    let Some(reference) = Reference::of(reference) else {
        return Err(Cause::Reference);
    };
    let Some(account) = office.account(name) else {
        return Err(Cause::UnknownAccount);
    };
    let Some(cents) = cents(amount) else {
        return Err(Cause::Cents);
    };
    let instant = utc(when)?;
    Ok(Named::TopUp {
        reference,
        account,
        cents,
        instant,
    })
}

// A row's fields from the one at `first` on, where they are three.
#[tactic(auto, using(crate::proofs::Fields::three_fields, crate::proofs::Fields::not_so_many, crate::proofs::Fields::field_there))]
fn three(row: &ByteRecord, first: usize) -> Option<(&[u8], &[u8], &[u8])>
    requires { first ≤ 1 }
    ensures { MatchOption result (length (drop first (fields_of row.now)) ≢ 3)
        (λ f. drop first (fields_of row.now) ≡ f.0.now ∷ f.1.now ∷ f.2.now ∷ []) }
{
    if row.len() != first + 3 {
        return None;
    }
    Some((row.get(first)?, row.get(first + 1)?, row.get(first + 2)?))
}

// A row's fields from the one at `first` on, where they are four.
#[tactic(auto, using(crate::proofs::Fields::four_fields, crate::proofs::Fields::not_so_many, crate::proofs::Fields::field_there))]
fn four(row: &ByteRecord, first: usize) -> Option<(&[u8], &[u8], &[u8], &[u8])>
    requires { first ≤ 1 }
    ensures { MatchOption result (length (drop first (fields_of row.now)) ≢ 4)
        (λ f. drop first (fields_of row.now) ≡ f.0.now ∷ f.1.now ∷ f.2.now ∷ f.3.now ∷ []) }
{
    if row.len() != first + 4 {
        return None;
    }
    Some((
        row.get(first)?,
        row.get(first + 1)?,
        row.get(first + 2)?,
        row.get(first + 3)?,
    ))
}
