//! What a found store holds, judged: the row of its office, its records, and their totals.

ghost use Rattle.std.specs.Prelude.{◌≡◌, IfErr, IfOk, IsTrue, OnOk, length};
ghost use Rattle.std.specs.List.Sorted.{IsPermutation};
ghost use Rattle.sqlite.specs.Held.{state};
ghost use Rattle.sqlite.specs.State.{HasCleanDisk, IsUnchanged, Survives};
ghost use Rattle.pw_tariff.specs.Office.{office_of};
ghost use Rattle.pw_model.specs.Office.{AllOfOffice};
ghost use Rattle.pw_schema.specs.Calls.{CommitStays, Looks};
ghost use Rattle.pw_store.specs.Content.{records_of, entries_of};
ghost use Rattle.pw_schema.specs.Judging.{HasVersion, KeepsVersion};
ghost use Rattle.pw_schema.specs.inner.Calls.{BeginsWithOurTables, HasOurTables};
ghost use Rattle.pw_store.specs.Opening.{HoldsAllRecords, HoldsTables, HoldsRecords, KeepsText, offices};
ghost use Rattle.pw_store.specs.inner.Connections.{CountsRecords, HasJudged, LeavesSound, TellsRefusedRows};
ghost use Rattle.pw_store.specs.inner.Opened.{AreJudged, RecordsRefuse, RefusesUnless, RowRefuses, VersionRefuses};

use crate::derived::parts_of;
use crate::fault::OpenFault;
use crate::listings::{Listing, judge_listing};
use crate::office::office_rows;
use crate::sums::read_sums;
use crate::watch::{Part, Watch};
use pw_model::Entry;
use pw_parts::Parts;
use pw_schema::{
    OfficeFault, RecordKind, Records, StoreVersion, has_no_conflict, is_of, judge_version,
    keeps_office,
};
use pw_tariff::Office;
use sqlite::{Alter, Connection, Error, Row};
use std::alloc::Global;

// Why the row of `office` refuses an opening.
fn fault_of_office(fault: OfficeFault) -> OpenFault
    ensures version { fault ≡ OfficeFault.Version → result ≡ OpenFault.Version }
    ensures missing { fault ≡ OfficeFault.Missing → result ≡ OpenFault.Unclean }
{
    match fault {
        OfficeFault::Missing => OpenFault::Unclean,
        OfficeFault::Version => OpenFault::Version,
    }
}

// The kinds of records in their order.
const KINDS: [RecordKind; 6] = [
    RecordKind::Readings,
    RecordKind::Assignments,
    RecordKind::TopUps,
    RecordKind::WithdrawnReadings,
    RecordKind::WithdrawnAssignments,
    RecordKind::WithdrawnTopUps,
];

// The records of the six tables, judged.
fn check_records<S: Alter, W: Watch>(
    alloc: Global,
    conn: &mut Connection<S>,
    office: &Office,
    watch: &mut W,
) -> Result<Vec<Entry>, OpenFault>
    requires is_open { HasCleanDisk (state S.Store conn.old)
        → IsTrue (state S.Store conn.old).is_open }
    requires ours { HasOurTables (state S.Store conn.old) }
    ensures sound { HasCleanDisk (state S.Store conn.new)
        → OnOk result (HoldsAllRecords StoreVersion.Third (office_of office.now)
        (state S.Store conn.old).now.trees) }
    ensures listed { HasCleanDisk (state S.Store conn.new)
        → IfOk result (λ found. IsPermutation (records_of (state S.Store conn.old).now.trees)
        found.items) }
    ensures of_office { IfOk result (λ found. AllOfOffice (office_of office.now) found.items) }
    ensures cause { HasCleanDisk (state S.Store conn.new)
        → IfErr result (RefusesUnless
        (HoldsAllRecords StoreVersion.Third (office_of office.now)
        (state S.Store conn.old).now.trees)) }
    ensures looks { Looks result (state S.Store conn.old) (state S.Store conn.new) }
{
    let mut all = Vec::new(alloc);
    for kind in &KINDS {
        let mut found = check_kind(alloc, conn, office, *kind)?;
        watch.checked(Part::Records(*kind), found.len());
        if all.append(&mut found).is_err() {
            return Err(OpenFault::Memory);
        }
    }
    Ok(all)
}

// The records of a kind, judged.
fn check_kind<S: Alter>(
    alloc: Global,
    conn: &mut Connection<S>,
    office: &Office,
    kind: RecordKind,
) -> Result<Vec<Entry>, OpenFault>
    requires ours { HasOurTables (state S.Store conn.old) }
    ensures good { HasCleanDisk (state S.Store conn.new)
        → OnOk result (HoldsRecords (office_of office.now) kind
        (state S.Store conn.old).now.trees) }
    ensures listed { HasCleanDisk (state S.Store conn.new)
        → IfOk result (λ found. IsPermutation (entries_of kind (state S.Store conn.old).now.trees)
        found.items) }
    ensures of_office { IfOk result (λ found. AllOfOffice (office_of office.now) found.items) }
    ensures cause { HasCleanDisk (state S.Store conn.new)
        → IfErr result (RefusesUnless
        (HoldsRecords (office_of office.now) kind (state S.Store conn.old).now.trees)) }
    ensures looks { Looks result (state S.Store conn.old) (state S.Store conn.new) }
{
    let mut records = Records::new(alloc, office, kind);
    judge_listing(conn, Listing::Records(kind), &mut records)?;
    Ok(records.into_entries())
}

// The row of `office`, whose version is judged, whatever stands behind the tables of version 1.
fn read_office<S: Alter>(conn: &mut Connection<S>) -> Result<(Vec<Row>, StoreVersion), OpenFault>
    requires begun { BeginsWithOurTables (state S.Store conn.old) }
    ensures rows { HasCleanDisk (state S.Store conn.new)
        → IfOk result (λ read. IsPermutation (offices (state S.Store conn.old).now.trees)
        read.0.items) }
    ensures version { IfOk result (λ read. HasVersion read.1 read.0.items) }
    ensures cause { HasCleanDisk (state S.Store conn.new)
        → IfErr result (VersionRefuses (state S.Store conn.old).now.trees) }
    ensures looks { Looks result (state S.Store conn.old) (state S.Store conn.new) }
{
    let rows = office_rows(conn)?;
    match judge_version(rows.as_slice()) {
        Ok(version) => Ok((rows, version)),
        Err(fault) => Err(fault_of_office(fault)),
    }
}

// Whether there are the tables of a version alone, and no text of theirs speaks of a conflict.
fn holds_tables<S: Alter>(conn: &mut Connection<S>, version: StoreVersion) -> Result<bool, Error>
    ensures is { HasCleanDisk (state S.Store conn.new)
        → IfOk result (λ alone. IsTrue alone → HoldsTables version (state S.Store conn.old).now) }
    ensures all { HasCleanDisk (state S.Store conn.new)
        → IfOk result (λ alone. HoldsTables version (state S.Store conn.old).now → IsTrue alone) }
    ensures same { HasCleanDisk (state S.Store conn.new)
        → IfOk result (λ alone. IsTrue alone
        → IsUnchanged (state S.Store conn.old) (state S.Store conn.new)) }
    ensures kept { CommitStays (state S.Store conn.old) (state S.Store conn.new) }
    ensures crash { Survives (state S.Store conn.old) (state S.Store conn.new) (λ _. ⊥) }
{
    if !is_of(conn.schema(), version) {
        return Ok(false);
    }
    has_no_conflict(conn)
}

// The version, what stands beside its tables, and the text of the office, judged: which version it is.
pub(crate) fn check_office<S: Alter>(
    conn: &mut Connection<S>,
    text: &[u8],
) -> Result<StoreVersion, OpenFault>
    requires begun { BeginsWithOurTables (state S.Store conn.old) }
    ensures ours { HasCleanDisk (state S.Store conn.new)
        → IfOk result (λ version. HoldsTables version (state S.Store conn.new).now) }
    ensures kept_text { HasCleanDisk (state S.Store conn.new)
        → IfOk result (λ version.
        KeepsText (KeepsVersion version text.now) (state S.Store conn.new).now.trees) }
    ensures cause { HasCleanDisk (state S.Store conn.new)
        → IfErr result (RowRefuses text.now (state S.Store conn.old).now) }
    ensures looks { Looks result (state S.Store conn.old) (state S.Store conn.new) }
{
    let (rows, version) = read_office(conn)?;
    if !holds_tables(conn, version)? {
        return Err(OpenFault::Unclean);
    }
    if !keeps_office(rows.as_slice(), version, text) {
        return Err(OpenFault::OfficeDiffers);
    }
    Ok(version)
}

// The records of our tables, judged, and the parts that they have: how many records there are.
pub(crate) fn judge_records<S: Alter, W: Watch>(
    alloc: Global,
    conn: &mut Connection<S>,
    office: &Office,
    watch: &mut W,
) -> Result<(u32, Parts), OpenFault>
    requires is_open { HasCleanDisk (state S.Store conn.old)
        → IsTrue (state S.Store conn.old).is_open }
    requires ours { HasOurTables (state S.Store conn.old) }
    ensures counted { HasCleanDisk (state S.Store conn.new)
        → IfOk result (λ it. length (records_of (state S.Store conn.new).now.trees) ≡ it.0) }
    ensures judged { HasCleanDisk (state S.Store conn.new)
        → IfOk result (λ it. AreJudged (office_of office.now) (state S.Store conn.new).now.trees
        it.1) }
    ensures cause { HasCleanDisk (state S.Store conn.new)
        → IfErr result (RecordsRefuse (office_of office.now) (state S.Store conn.old).now.trees) }
    ensures looks { Looks result (state S.Store conn.old) (state S.Store conn.new) }
{
    let records = check_records(alloc, conn, office, watch)?;
    let held = records.len();
    let parts = parts_of(alloc, office, records)?;
    Ok((held as u32, parts))
}

// Points, starts and totals, judged and compared with the parts of the records.
pub(crate) fn check_sums<S: Alter, W: Watch>(
    conn: &mut Connection<S>,
    office: &Office,
    parts: &Parts,
    watch: &mut W,
) -> Result<(), OpenFault>
    requires ours { HasOurTables (state S.Store conn.old) }
    requires judged { HasJudged (office_of office.now) (state S.Store conn.old) parts.now }
    ensures sound { LeavesSound (office_of office.now) result (state S.Store conn.new) }
    ensures cause { TellsRefusedRows StoreVersion.Third (office_of office.now) result
        (state S.Store conn.old) (state S.Store conn.new) }
    ensures looks { Looks result (state S.Store conn.old) (state S.Store conn.new) }
{
    if read_sums(conn, office, parts, watch)? {
        Ok(())
    } else {
        Err(OpenFault::Unclean)
    }
}

// The rows of our tables, judged: how many records there are.
pub(crate) fn check_rows<S: Alter, W: Watch>(
    alloc: Global,
    conn: &mut Connection<S>,
    office: &Office,
    watch: &mut W,
) -> Result<u32, OpenFault>
    requires is_open { HasCleanDisk (state S.Store conn.old)
        → IsTrue (state S.Store conn.old).is_open }
    requires ours { HasOurTables (state S.Store conn.old) }
    ensures counted { CountsRecords result (state S.Store conn.new) }
    ensures sound { LeavesSound (office_of office.now) result (state S.Store conn.new) }
    ensures cause { TellsRefusedRows StoreVersion.Third (office_of office.now) result
        (state S.Store conn.old) (state S.Store conn.new) }
    ensures looks { Looks result (state S.Store conn.old) (state S.Store conn.new) }
{
    let (held, parts) = judge_records(alloc, conn, office, watch)?;
    check_sums(conn, office, &parts, watch)?;
    Ok(held)
}
