//! Rows of tables, judged: such as no store that opens has, and versions. (How stores that have such are refused:
//! `tests/stores`.)

use crate::sql_stores::memory;
use pw_model::Entry;
use pw_schema::{
    Judge, JudgeFault, OfficeFault, ReadFault, RecordKind, Records, Rowids, StoreVersion,
    contents_in, judge_version, read_rows,
};
use pw_tariff::Office;
use pw_tests::offices::SAMPLE;
use sqlite::Row;
use std::alloc::Global;
use std::process::Abort;

fn office(rt: &impl Abort, alloc: Global) -> Office {
    Office::read(alloc, SAMPLE.as_bytes()).expect(rt, "an office")
}

fn rows(rt: &impl Abort, alloc: Global, text: &str) -> Vec<Row> {
    memory(rt, alloc).query_all(text, &[]).expect(rt, "rows")
}

// Whether the rows that a text shows are records of the office.
fn judged(
    rt: &impl Abort,
    alloc: Global,
    kind: RecordKind,
    text: &str,
) -> Result<Vec<Entry>, JudgeFault> {
    let office = office(rt, alloc);
    let mut records = Records::new(alloc, &office, kind);
    for row in rows(rt, alloc, text).as_slice() {
        records.take(row)?;
    }
    Ok(records.into_entries())
}

// Rows that are no records of the office.
const FOREIGN: [(RecordKind, &str); 17] = [
    (RecordKind::Readings, "SELECT 0, 9, 1704067200, 1"),
    (RecordKind::Readings, "SELECT 0, 0, 1704067200, 1"),
    (RecordKind::Readings, "SELECT 3, 5, 1704067200, 1"),
    (RecordKind::Readings, "SELECT 0, 5, 5, 1"),
    (
        RecordKind::Readings,
        "SELECT 0, 5, 1704067200, 100000000000",
    ),
    (RecordKind::Readings, "SELECT 0, 5, 1704067200, NULL"),
    (RecordKind::Readings, "SELECT 0, 5, 1704067200, 'x'"),
    (
        RecordKind::Readings,
        "SELECT 0, 5, 1704067200, 1 UNION ALL SELECT 0, 5, 1704067200, 1",
    ),
    (RecordKind::Assignments, "SELECT 0, 1704067200, 3"),
    (RecordKind::Assignments, "SELECT 0, 1704067200, -1"),
    (RecordKind::Assignments, "SELECT 0, 5, 0"),
    (RecordKind::TopUps, "SELECT 'P/1', 0, 1, 1704067200"),
    (RecordKind::TopUps, "SELECT '', 0, 1, 1704067200"),
    (RecordKind::TopUps, "SELECT 'P1', 2, 1, 1704067200"),
    (RecordKind::TopUps, "SELECT 'P1', 0, 0, 1704067200"),
    (RecordKind::TopUps, "SELECT 'P1', 0, 100000001, 1704067200"),
    (RecordKind::TopUps, "SELECT 'P1', 0, 1, 4102444800"),
];

// Records of the office in the wrong order.
const TWISTED: (RecordKind, &str) = (
    RecordKind::Readings,
    "SELECT 0, 5, 1704067200, 2 UNION ALL SELECT 0, 5, 1704067200, 1",
);

// Whether the rows that a text shows are refused for this cause.
fn are_refused(
    rt: &impl Abort,
    alloc: Global,
    kind: RecordKind,
    text: &str,
    fault: JudgeFault,
) -> bool {
    judged(rt, alloc, kind, text).err() == Some(fault)
}

// Whether the rows that a text shows can't be read as records in their order.
fn are_wrong(rt: &impl Abort, alloc: Global, kind: RecordKind, text: &str) -> bool {
    let rows = rows(rt, alloc, text);
    read_rows(alloc, kind, rows.as_slice()).err() == Some(ReadFault::Wrong)
}

// bears on: pw_schema judge.rt Judge::take took
// bears on: pw_schema judging.rt record_in some
// bears on: pw_schema reading.rt entry_of kinds
// bears on: pw_schema reading.rt read_rows wrong
// bears on: pw_schema records.rt Records::new memory
// bears on: pw_schema records.rt Records::new kind
// bears on: pw_schema records.rt Records::new office
// bears on: pw_schema records.rt Records::new start
// bears on: pw_schema cells.rt instant_at some
// bears on: pw_schema cells.rt number_at some
// bears on: pw_schema cells.rt owner_at some
// bears on: pw_schema cells.rt wh_at some
#[test]
fn rows_that_are_no_records_of_the_office_are_foreign(rt: HostRuntime) {
    for (kind, text) in FOREIGN {
        assert!(rt; are_refused(&rt, rt.alloc(), kind, text, JudgeFault::Foreign));
    }
    let (kind, twisted) = TWISTED;
    assert!(rt; are_wrong(&rt, rt.alloc(), kind, twisted));
    assert!(rt; are_refused(&rt, rt.alloc(), kind, twisted, JudgeFault::Unordered));
}

// Rows at a key, and whether they show a content: at the ends of what one can have, and behind these.
const CONTENTS: [(RecordKind, &str, bool); 11] = [
    (RecordKind::Readings, "SELECT 99999999999", true),
    (RecordKind::Readings, "SELECT 100000000000", false),
    (RecordKind::Readings, "SELECT 'x'", false),
    (RecordKind::Assignments, "SELECT 0", true),
    (RecordKind::Assignments, "SELECT 65536", true),
    (RecordKind::Assignments, "SELECT 65537", false),
    (RecordKind::TopUps, "SELECT 0, 0, 946684800", true),
    (
        RecordKind::TopUps,
        "SELECT 65535, 4294967295, 4102444799",
        true,
    ),
    (RecordKind::TopUps, "SELECT 65536, 1, 1704067200", false),
    (RecordKind::TopUps, "SELECT 0, -1, 1704067200", false),
    (RecordKind::TopUps, "SELECT 0, 1, 5", false),
];

// bears on: pw_schema reading.rt contents_in none
// bears on: pw_schema reading.rt contents_in shows
#[test]
fn a_row_that_shows_no_content_tells_nothing(rt: HostRuntime) {
    for (kind, text, shows) in CONTENTS {
        let found = rows(&rt, rt.alloc(), text);
        let told = contents_in(kind, found.as_slice());
        assert!(rt; told.is_some() == shows, "{text}");
    }
}

// bears on: pw_schema judge.rt Judge::take took
// bears on: pw_schema rowids.rt Rowids::new ensures
#[test]
fn rowids_rise(rt: HostRuntime) {
    let alloc = rt.alloc();
    for (text, rising) in [
        ("SELECT -1 UNION ALL SELECT 1 UNION ALL SELECT 3", true),
        ("SELECT 1 UNION ALL SELECT 1", false),
        ("SELECT 2 UNION ALL SELECT 1", false),
        ("SELECT 1 UNION ALL SELECT 'x'", false),
    ] {
        let (rows, mut ids) = (rows(&rt, alloc, text), Rowids::new());
        let are_rising = rows.as_slice().iter().all(|row| ids.take(row).is_ok());
        assert!(rt; are_rising == rising, "{text}");
    }
}

// The version that the rows of `office` tell, as a text shows them, if it is known.
fn version_in(rt: &impl Abort, alloc: Global, text: &str) -> Result<StoreVersion, OfficeFault> {
    let rows = rows(rt, alloc, text);
    judge_version(rows.as_slice())
}

// Versions 1 and 2 are older, 3 is the one that stores have now, and no other is known.
// bears on: pw_schema office.rt judge_version missing
// bears on: pw_schema office.rt judge_version other
// bears on: pw_schema office.rt judge_version version
#[test]
fn versions_of_stores(rt: HostRuntime) {
    for (text, told) in [
        ("SELECT 1", Ok(StoreVersion::First)),
        ("SELECT 2", Ok(StoreVersion::Second)),
        ("SELECT 3", Ok(StoreVersion::Third)),
        ("SELECT 0", Err(OfficeFault::Version)),
        ("SELECT 4", Err(OfficeFault::Version)),
        ("SELECT -1", Err(OfficeFault::Version)),
        ("SELECT '3'", Err(OfficeFault::Version)),
        ("SELECT NULL", Err(OfficeFault::Version)),
        ("SELECT 3 UNION ALL SELECT 3", Err(OfficeFault::Missing)),
    ] {
        assert!(rt; version_in(&rt, rt.alloc(), text) == told, "{text}");
    }
}
