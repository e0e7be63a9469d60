//! Making a connection ready to be a store, or finding why it can't be one.

ghost use Rattle.std.specs.Prelude.{◌≡◌, IfErr, IsTrue, OnErr, OnOk};
ghost use Rattle.sqlite.specs.Held.{state};
ghost use Rattle.sqlite.specs.State.{HasCleanDisk, Survives};
ghost use Rattle.pw_tariff.specs.Office.{office_of};
ghost use Rattle.pw_schema.specs.Calls.{CommitStays, CommitStaysOnErr, IsWithinVersion, LeavesVersion, Looks};
ghost use Rattle.pw_schema.specs.Conflicts.{AreWithoutConflict};
ghost use Rattle.pw_schema.specs.Fresh.{IsIdleAt};
ghost use Rattle.pw_schema.specs.Raised.{IsRaised};
ghost use Rattle.pw_schema.specs.Judging.{KeepsOffice, KeepsVersion};
ghost use Rattle.pw_schema.specs.Tables.{BeginsAsOurs, IsEarlier, no_schema};
ghost use Rattle.pw_schema.specs.inner.Calls.{BeginsWithOurTables, HasOurTables, KeepsLasting};
ghost use Rattle.pw_store.specs.Left.{IsFilled, MayBeMade, MayBeUpgraded};
ghost use Rattle.pw_store.specs.Opening.{BegunRefuses, KeepsText, Refuses};
ghost use Rattle.pw_store.specs.inner.Connections.{CountsRecords, HasTablesOf, LeavesSound, TellsRefusedRows};
ghost use Rattle.pw_store.specs.inner.Opened.{IsOpened, IsReady, IsSettled};

use crate::fault::OpenFault;
use crate::filling::fill;
use crate::judging::{check_office, check_rows, check_sums, judge_records};
use crate::liveness::wake;
use crate::office::office_rows;
use crate::watch::Watch;
use pw_schema::{
    StoreVersion, begin, begins_as_ours, commit, create, has_no_conflict, is_nothing, keeps_office,
    raise_to_third, roll_back,
};
use pw_tariff::Office;
use sqlite::{Alter, Connection, Error, ErrorCode};
use std::alloc::Global;

// Rolls back what the connection is inside of, and sees that it is open.
pub(crate) fn roll_back_and_wake<S: Alter>(conn: &mut Connection<S>) -> Result<(), Error>
    ensures settled { HasCleanDisk (state S.Store conn.new)
        → OnOk result (IsSettled (state S.Store conn.old) (state S.Store conn.new)) }
    ensures kept { CommitStays (state S.Store conn.old) (state S.Store conn.new) }
    ensures crash { Survives (state S.Store conn.old) (state S.Store conn.new) (λ _. ⊥) }
{
    if !conn.is_autocommit() {
        roll_back(conn)?;
    }
    wake(conn, true)
}

// Sees that the row of `office` and the texts which the engine has kept are such as an opening with this text takes.
pub(crate) fn see_office<S: Alter>(conn: &mut Connection<S>, text: &[u8]) -> Result<(), Error>
    requires { HasOurTables (state S.Store conn.old) }
    ensures kept_text { HasCleanDisk (state S.Store conn.new)
        → OnOk result (KeepsText (KeepsOffice text.now) (state S.Store conn.old).now.trees) }
    ensures plain { HasCleanDisk (state S.Store conn.new)
        → OnOk result (AreWithoutConflict (state S.Store conn.old).now.trees) }
    ensures looks { Looks result (state S.Store conn.old) (state S.Store conn.new) }
{
    let rows = office_rows(conn)?;
    if !keeps_office(rows.as_slice(), StoreVersion::Third, text) {
        return Err(Error::SqliteFailure(ErrorCode::DatabaseCorrupt));
    }
    if has_no_conflict(conn)? {
        Ok(())
    } else {
        Err(Error::SqliteFailure(ErrorCode::DatabaseCorrupt))
    }
}

// Makes a store of an earlier version one of version 3 within a transaction, but for its totals of energy, whatever rows it
// has.
fn raise<S: Alter>(conn: &mut Connection<S>, version: StoreVersion) -> Result<(), Error>
    requires old_tables { HasTablesOf version (state S.Store conn.old) }
    ensures within { LeavesVersion StoreVersion.Third result (state S.Store conn.new) }
    ensures raised { HasCleanDisk (state S.Store conn.new)
        → OnOk result (IsRaised version (state S.Store conn.old).now.trees
        (state S.Store conn.new).now.trees) }
    ensures kept { CommitStays (state S.Store conn.old) (state S.Store conn.new) }
    ensures crash { Survives (state S.Store conn.old) (state S.Store conn.new) (λ _. ⊥) }
{
    begin(conn)?;
    raise_to_third(conn, version)?;
    Ok(())
}

// The rows of our tables but for totals of energy, judged, and these put, as the records give them: how many records there
// are.
fn fill_and_check<S: Alter, W: Watch>(
    alloc: Global,
    conn: &mut Connection<S>,
    office: &Office,
    watch: &mut W,
) -> Result<u32, OpenFault>
    requires { IsWithinVersion StoreVersion.Third (state S.Store conn.old) }
    ensures within { LeavesVersion StoreVersion.Third result (state S.Store conn.new) }
    ensures lasting { KeepsLasting result (state S.Store conn.old) (state S.Store conn.new) }
    ensures filled { HasCleanDisk (state S.Store conn.new)
        → OnOk result (IsFilled (office_of office.now) (state S.Store conn.new).now.trees) }
    ensures sound { LeavesSound (office_of office.now) result (state S.Store conn.new) }
    ensures counted { CountsRecords result (state S.Store conn.new) }
    ensures cause { TellsRefusedRows StoreVersion.Second (office_of office.now) result
        (state S.Store conn.old) (state S.Store conn.new) }
    ensures kept { CommitStays (state S.Store conn.old) (state S.Store conn.new) }
    ensures crash { Survives (state S.Store conn.old) (state S.Store conn.new) (λ _. ⊥) }
{
    let (held, parts) = judge_records(alloc, conn, office, watch)?;
    fill(conn, office, &parts)?;
    check_sums(conn, office, &parts, watch)?;
    Ok(held)
}

// Brings a store of an earlier version to version 3 within a transaction, if its rows are those of the office: how many
// records there are.
fn raise_and_check<S: Alter, W: Watch>(
    alloc: Global,
    conn: &mut Connection<S>,
    office: &Office,
    text: &[u8],
    version: StoreVersion,
    watch: &mut W,
) -> Result<u32, OpenFault>
    requires earlier { IsEarlier version }
    requires old_tables { HasTablesOf version (state S.Store conn.old) }
    requires old_text { HasCleanDisk (state S.Store conn.old)
        → KeepsText (KeepsVersion version text.now) (state S.Store conn.old).now.trees }
    ensures counted { CountsRecords result (state S.Store conn.new) }
    ensures ready { HasCleanDisk (state S.Store conn.new)
        → OnOk result (IsReady version (office_of office.now) text.now
        (state S.Store conn.old).now (state S.Store conn.new)) }
    ensures cause { TellsRefusedRows version (office_of office.now) result (state S.Store conn.old)
        (state S.Store conn.new) }
    ensures kept { CommitStays (state S.Store conn.old) (state S.Store conn.new) }
    ensures crash { Survives (state S.Store conn.old) (state S.Store conn.new) (λ _. ⊥) }
{
    raise(conn, version)?;
    let held = fill_and_check(alloc, conn, office, watch)?;
    see_office(conn, text)?;
    // it says that the file lists these tables
    let _ = conn.schema();
    Ok(held)
}

// Undoes the transaction, if it still stands.
pub(crate) fn undo<S: Alter>(conn: &mut Connection<S>)
    ensures kept { CommitStays (state S.Store conn.old) (state S.Store conn.new) }
    ensures crash { Survives (state S.Store conn.old) (state S.Store conn.new) (λ _. ⊥) }
{
    let _ = roll_back(conn);
}

// Brings a store of an earlier version to version 3, if its rows are those of the office: how many records there are.
fn upgrade<S: Alter, W: Watch>(
    alloc: Global,
    conn: &mut Connection<S>,
    office: &Office,
    text: &[u8],
    version: StoreVersion,
    watch: &mut W,
) -> Result<u32, OpenFault>
    requires idle { HasCleanDisk (state S.Store conn.old) → IsIdleAt (state S.Store conn.old) }
    requires earlier { IsEarlier version }
    requires old_tables { HasTablesOf version (state S.Store conn.old) }
    requires old_text { HasCleanDisk (state S.Store conn.old)
        → KeepsText (KeepsVersion version text.now) (state S.Store conn.old).now.trees }
    ensures counted { CountsRecords result (state S.Store conn.new) }
    ensures opened { HasCleanDisk (state S.Store conn.new)
        → OnOk result (IsOpened (office_of office.now) text.now (state S.Store conn.old).now
        (state S.Store conn.new)) }
    ensures cause { TellsRefusedRows version (office_of office.now) result (state S.Store conn.old)
        (state S.Store conn.new) }
    ensures kept { CommitStaysOnErr result (state S.Store conn.old) (state S.Store conn.new) }
    ensures clean { HasCleanDisk (state S.Store conn.new) → HasCleanDisk (state S.Store conn.old) }
    ensures crash { Survives (state S.Store conn.old) (state S.Store conn.new)
        (MayBeUpgraded (office_of office.now) text.now (state S.Store conn.old).now) }
{
    match raise_and_check(alloc, conn, office, text, version, watch) {
        Ok(held) => {
            commit(conn)?;
            watch.upgraded();
            Ok(held)
        }
        Err(fault) => {
            undo(conn);
            Err(fault)
        }
    }
}

// What is there, behind the tables of version 1 and in them, judged, and a store of an earlier version brought to version 3:
// how many records there are.
fn check<S: Alter, W: Watch>(
    alloc: Global,
    conn: &mut Connection<S>,
    office: &Office,
    text: &[u8],
    watch: &mut W,
) -> Result<u32, OpenFault>
    requires idle { HasCleanDisk (state S.Store conn.old) → IsIdleAt (state S.Store conn.old) }
    requires begun { BeginsWithOurTables (state S.Store conn.old) }
    ensures counted { CountsRecords result (state S.Store conn.new) }
    ensures opened { HasCleanDisk (state S.Store conn.new)
        → OnOk result (IsOpened (office_of office.now) text.now (state S.Store conn.old).now
        (state S.Store conn.new)) }
    ensures cause { HasCleanDisk (state S.Store conn.new)
        → IfErr result (BegunRefuses (office_of office.now) text.now (state S.Store conn.old).now) }
    ensures kept { CommitStaysOnErr result (state S.Store conn.old) (state S.Store conn.new) }
    ensures clean { HasCleanDisk (state S.Store conn.new) → HasCleanDisk (state S.Store conn.old) }
    ensures crash { Survives (state S.Store conn.old) (state S.Store conn.new)
        (MayBeUpgraded (office_of office.now) text.now (state S.Store conn.old).now) }
{
    match check_office(conn, text)? {
        StoreVersion::First => upgrade(alloc, conn, office, text, StoreVersion::First, watch),
        StoreVersion::Second => upgrade(alloc, conn, office, text, StoreVersion::Second, watch),
        StoreVersion::Third => check_rows(alloc, conn, office, watch),
    }
}

// Makes the tables where nothing is there, else judges what is there, and brings a store of an earlier version to version 3:
// how many records there are.
fn make_or_check<S: Alter, W: Watch>(
    alloc: Global,
    conn: &mut Connection<S>,
    office: &Office,
    text: &[u8],
    watch: &mut W,
) -> Result<u32, OpenFault>
    requires { HasCleanDisk (state S.Store conn.old) → IsIdleAt (state S.Store conn.old) }
    ensures counted { CountsRecords result (state S.Store conn.new) }
    ensures opened { HasCleanDisk (state S.Store conn.new)
        → OnOk result (IsOpened (office_of office.now) text.now (state S.Store conn.old).committed
        (state S.Store conn.new)) }
    ensures cause { HasCleanDisk (state S.Store conn.new)
        → IfErr result (Refuses (office_of office.now) text.now
        (state S.Store conn.old).committed) }
    ensures kept { CommitStaysOnErr result (state S.Store conn.old) (state S.Store conn.new) }
    ensures clean { HasCleanDisk (state S.Store conn.new) → HasCleanDisk (state S.Store conn.old) }
    ensures crash { OnErr result (Survives (state S.Store conn.old) (state S.Store conn.new)
        (MayBeMade (office_of office.now) text.now (state S.Store conn.old))) }
{
    match look(conn) {
        Found::Nothing => {
            create(conn, text)?;
            Ok(0)
        }
        Found::Begun => check(alloc, conn, office, text, watch),
        Found::Other => Err(OpenFault::Unclean),
    }
}

#[derive(Clone, Copy, Debug, PartialEq, Eq)]
enum Found {
    Nothing,
    Begun,
    Other,
}

// What tables are there.
fn look<S: Alter>(conn: &Connection<S>) -> Found
    ensures nothing { result ≡ Found.Nothing → (state S.Store conn.now).now.schema ≡ no_schema }
    ensures begun { result ≡ Found.Begun → BeginsAsOurs (state S.Store conn.now).now.schema }
    ensures not_nothing { result ≡ Found.Other → (state S.Store conn.now).now.schema ≡ no_schema
        → ⊥ }
    ensures not_begun { result ≡ Found.Other → BeginsAsOurs (state S.Store conn.now).now.schema
        → ⊥ }
{
    let schema = conn.schema();
    if is_nothing(schema) {
        return Found::Nothing;
    }
    if begins_as_ours(schema) {
        return Found::Begun;
    }
    Found::Other
}

// Makes a connection ready to be a store, and says how many records it holds, or why it can't be one.
pub(crate) fn prepare<S: Alter, W: Watch>(
    alloc: Global,
    conn: &mut Connection<S>,
    office: &Office,
    text: &[u8],
    watch: &mut W,
) -> Result<u32, OpenFault>
    ensures counted { CountsRecords result (state S.Store conn.new) }
    ensures opened { HasCleanDisk (state S.Store conn.new)
        → OnOk result (IsOpened (office_of office.now) text.now (state S.Store conn.old).committed
        (state S.Store conn.new)) }
    ensures cause { HasCleanDisk (state S.Store conn.new)
        → IfErr result (Refuses (office_of office.now) text.now
        (state S.Store conn.old).committed) }
    ensures was_open { HasCleanDisk (state S.Store conn.new)
        → OnOk result (IsTrue (state S.Store conn.old).is_open) }
    ensures kept { CommitStaysOnErr result (state S.Store conn.old) (state S.Store conn.new) }
    ensures clean { HasCleanDisk (state S.Store conn.new) → HasCleanDisk (state S.Store conn.old) }
    ensures crash { OnErr result (Survives (state S.Store conn.old) (state S.Store conn.new)
        (MayBeMade (office_of office.now) text.now (state S.Store conn.old))) }
{
    roll_back_and_wake(conn)?;
    make_or_check(alloc, conn, office, text, watch)
}
