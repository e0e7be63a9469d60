//! Questions about records, each over statements that are run once the connection is known to be open.

ghost use Rattle.std.specs.Prelude.{◌≡◌, ◌↔◌, ◌++◌, IfOk, IsTrue};
ghost use Rattle.sqlite.specs.Held.{state};
ghost use Rattle.sqlite.specs.State.{HasCleanDisk};
ghost use Rattle.pw_model.specs.Counting.{Member, contents_at};
ghost use Rattle.pw_shelf.specs.Rows.{ListsAssignments, ListsHeld, ListsReadings, ListsWithdrawals};
ghost use Rattle.pw_schema.specs.inner.Calls.{Asks, HasOurTables};
ghost use Rattle.pw_schema.specs.Rows.{ReadsRows};
ghost use Rattle.pw_store.specs.inner.Connections.{HoldsStore};
ghost use Rattle.pw_store.specs.inner.Lists.{IsKeptAs, ListsThese};
ghost use Rattle.pw_store.specs.Content.{records_of};
ghost use Rattle.pw_store.specs.Frontier.{IsFrontier};
ghost use Rattle.pw_store.specs.Kept.{IsAwake, NowIsStore};

use crate::fault::AskFault;
use crate::frontier::{Frontier, excludes, is_of};
use crate::keys::{RecordKey, contents_of_record, contents_of_withdrawal};
use crate::listings::record_rows;
use crate::liveness::wake;
use crate::meters::{assignment_rows, later_rows, reading_rows};
use crate::records::{form_of, has_named};
use pw_model::{Contents, Entry, Key};
use pw_obis::Register;
use pw_schema::{RecordKind, read_rows};
use pw_tariff::MeterId;
use sqlite::{Alter, Connection, Error, Row};
use std::alloc::Global;

// Whether a record is held, once the connection is known to be open.
fn has_entry<S: Alter>(
    conn: &mut Connection<S>,
    doubtful: bool,
    entry: &Entry,
) -> Result<bool, Error>
    requires awake { IsAwake (state S.Store conn.old) doubtful }
    requires store { NowIsStore (state S.Store conn.old) }
    ensures found { HasCleanDisk (state S.Store conn.new)
        → IfOk result (λ held. IsTrue held
        ↔ Member entry.now (records_of (state S.Store conn.old).now.trees)) }
    ensures asks { Asks result (state S.Store conn.old) (state S.Store conn.new) }
{
    wake(conn, doubtful)?;
    match form_of(entry) {
        Some((form, named)) => has_named(conn, form, &named),
        None => Ok(false),
    }
}

// What is known of the register of a record: what was, if it was of that register, and else what is asked.
fn frontier_for<S: Alter>(
    conn: &mut Connection<S>,
    doubtful: bool,
    entry: &Entry,
    known: Option<Frontier>,
) -> Result<Option<Frontier>, Error>
    requires awake { IsAwake (state S.Store conn.old) doubtful }
    requires store { NowIsStore (state S.Store conn.old) }
    ensures known { HasCleanDisk (state S.Store conn.new)
        → IsFrontier known (records_of (state S.Store conn.old).now.trees)
        → IfOk result (λ now. IsFrontier now (records_of (state S.Store conn.old).now.trees)) }
    ensures asks { Asks result (state S.Store conn.old) (state S.Store conn.new) }
{
    wake(conn, doubtful)?;
    let Key::Reading {
        meter,
        register,
        instant,
    } = entry.key
    else {
        return Ok(known);
    };
    if is_of(&known, meter, register) {
        return Ok(known);
    }
    let rows = later_rows(conn, meter, register, instant)?;
    let from = if rows.is_empty() { Some(instant) } else { None };
    Ok(Some(Frontier {
        meter,
        register,
        from,
    }))
}

// Whether a record is held, and what is known of its register then.
pub(crate) fn holds<S: Alter>(
    conn: &mut Connection<S>,
    doubtful: bool,
    entry: &Entry,
    known: Option<Frontier>,
) -> Result<(bool, Option<Frontier>), AskFault>
    requires awake { IsAwake (state S.Store conn.old) doubtful }
    requires store { NowIsStore (state S.Store conn.old) }
    requires known { HasCleanDisk (state S.Store conn.old)
        → IsFrontier known (records_of (state S.Store conn.old).now.trees) }
    ensures found { HasCleanDisk (state S.Store conn.new)
        → IfOk result (λ told. IsTrue told.0
        ↔ Member entry.now (records_of (state S.Store conn.old).now.trees)) }
    ensures known { HasCleanDisk (state S.Store conn.new)
        → IfOk result (λ told. IsFrontier told.1
        (records_of (state S.Store conn.old).now.trees)) }
    ensures asks { Asks result (state S.Store conn.old) (state S.Store conn.new) }
{
    let known = frontier_for(conn, doubtful, entry, known)?;
    if excludes(&known, entry) {
        return Ok((false, known));
    }
    let held = has_entry(conn, false, entry)?;
    Ok((held, known))
}

// What the records held say of a key.
pub(crate) fn contents<S: Alter>(
    conn: &mut Connection<S>,
    doubtful: bool,
    key: &Key,
) -> Result<Contents, AskFault>
    requires awake { IsAwake (state S.Store conn.old) doubtful }
    requires store { NowIsStore (state S.Store conn.old) }
    ensures told { HasCleanDisk (state S.Store conn.new)
        → IfOk result (λ found. found
        ≡ contents_at (records_of (state S.Store conn.old).now.trees) key.now) }
    ensures asks { Asks result (state S.Store conn.old) (state S.Store conn.new) }
{
    wake(conn, doubtful)?;
    let asked = match key {
        Key::Reading {
            meter,
            register,
            instant,
        } => contents_of_record(conn, &RecordKey::Reading(*meter, *register, *instant)),
        Key::Assignment { meter, start } => {
            contents_of_record(conn, &RecordKey::Assignment(*meter, *start))
        }
        Key::TopUp { reference } => contents_of_record(conn, &RecordKey::TopUp(*reference)),
        Key::Withdrawal { named } => contents_of_withdrawal(conn, named),
    };
    match asked? {
        Some(found) => Ok(found),
        None => Err(AskFault::Unreadable),
    }
}

// The records that rows show.
fn read(alloc: Global, kind: RecordKind, rows: &[Row]) -> Result<Vec<Entry>, AskFault>
    ensures { IfOk result (λ found. ReadsRows kind rows.now found.items) }
{
    Ok(read_rows(alloc, kind, rows)?)
}

// Which records are listed.
#[derive(Clone, Copy)]
pub(crate) enum Listed {
    Readings(MeterId, Register),
    Assignments(MeterId),
    TopUps,
    Withdrawals,
}

// All of these that are held, sorted.
pub(crate) fn list_records<S: Alter>(
    conn: &mut Connection<S>,
    doubtful: bool,
    alloc: Global,
    which: Listed,
) -> Result<Vec<Entry>, AskFault>
    requires awake { IsAwake (state S.Store conn.old) doubtful }
    requires store { NowIsStore (state S.Store conn.old) }
    ensures rows { HasCleanDisk (state S.Store conn.new)
        → IfOk result (λ found. ListsThese which (records_of (state S.Store conn.old).now.trees)
        found.items) }
    ensures asks { Asks result (state S.Store conn.old) (state S.Store conn.new) }
{
    wake(conn, doubtful)?;
    match which {
        Listed::Readings(meter, register) => readings_kept(conn, alloc, meter, register),
        Listed::Assignments(meter) => assignments_kept(conn, alloc, meter),
        Listed::TopUps => records_kept(conn, alloc, RecordKind::TopUps),
        Listed::Withdrawals => withdrawals_kept(conn, alloc),
    }
}

// The readings of a register, sorted.
fn readings_kept<S: Alter>(
    conn: &mut Connection<S>,
    alloc: Global,
    meter: MeterId,
    register: Register,
) -> Result<Vec<Entry>, AskFault>
    requires store { HoldsStore (state S.Store conn.old) }
    ensures rows { HasCleanDisk (state S.Store conn.new)
        → IfOk result (λ found. ListsReadings (records_of (state S.Store conn.old).now.trees)
        meter register found.items) }
    ensures asks { Asks result (state S.Store conn.old) (state S.Store conn.new) }
{
    let rows = reading_rows(conn, meter, register)?;
    read(alloc, RecordKind::Readings, rows.as_slice())
}

// The assignments of a meter, sorted.
fn assignments_kept<S: Alter>(
    conn: &mut Connection<S>,
    alloc: Global,
    meter: MeterId,
) -> Result<Vec<Entry>, AskFault>
    requires store { HoldsStore (state S.Store conn.old) }
    ensures rows { HasCleanDisk (state S.Store conn.new)
        → IfOk result (λ found. ListsAssignments (records_of (state S.Store conn.old).now.trees)
        meter found.items) }
    ensures asks { Asks result (state S.Store conn.old) (state S.Store conn.new) }
{
    let rows = assignment_rows(conn, meter)?;
    read(alloc, RecordKind::Assignments, rows.as_slice())
}

// The records that are kept as a kind, sorted.
fn records_kept<S: Alter>(
    conn: &mut Connection<S>,
    alloc: Global,
    kind: RecordKind,
) -> Result<Vec<Entry>, AskFault>
    requires ours { HasOurTables (state S.Store conn.old) }
    ensures rows { HasCleanDisk (state S.Store conn.new)
        → IfOk result (λ found. ListsHeld (IsKeptAs kind)
        (records_of (state S.Store conn.old).now.trees) found.items) }
    ensures asks { Asks result (state S.Store conn.old) (state S.Store conn.new) }
{
    let rows = record_rows(conn, kind)?;
    read(alloc, kind, rows.as_slice())
}

// The withdrawals of readings, then those of assignments, then those of top-ups: so their keys are in order.
fn withdrawals_kept<S: Alter>(
    conn: &mut Connection<S>,
    alloc: Global,
) -> Result<Vec<Entry>, AskFault>
    requires ours { HasOurTables (state S.Store conn.old) }
    ensures rows { HasCleanDisk (state S.Store conn.new)
        → IfOk result (λ found. ListsWithdrawals (records_of (state S.Store conn.old).now.trees)
        found.items) }
    ensures asks { Asks result (state S.Store conn.old) (state S.Store conn.new) }
{
    let readings = records_kept(conn, alloc, RecordKind::WithdrawnReadings)?;
    let assignments = records_kept(conn, alloc, RecordKind::WithdrawnAssignments)?;
    let topups = records_kept(conn, alloc, RecordKind::WithdrawnTopUps)?;
    in_a_row(readings, &assignments, &topups)
}

// Three lists behind one another.
fn in_a_row(first: Vec<Entry>, second: &[Entry], third: &[Entry]) -> Result<Vec<Entry>, AskFault>
    ensures { IfOk result (λ all. all.items ≡ first.items ++ (second.now ++ third.now)) }
{
    let mut all = first;
    if all.extend_from_slice(second).is_err() || all.extend_from_slice(third).is_err() {
        return Err(AskFault::Memory);
    }
    Ok(all)
}
