//! The rows over each kind of store: in memory, in memory with its calls counted, and over SQL.

use super::counted::{failing_device, failing_device_and_abandon};
use super::periods::energies_by_period;
use super::sql::OverSql;
use super::uploads::agrees_behind_each;
use super::withdrawn::withdrawn_records;
use super::{Books, Counting, InMemory, questions};
use std::alloc::Global;
use std::process::Abort;

// The rows of a test.
#[derive(Clone, Copy)]
enum Group {
    Uploads,
    Periods,
    Failures,
}

// A call of the store that fails: each in turn.
fn failures<B: Books>(rt: &impl Abort, alloc: Global, books: &B) {
    failing_device(rt, alloc, books);
    failing_device_and_abandon(rt, alloc, books);
    questions::failing_device(rt, alloc, books);
}

fn try_rows<B: Books>(rt: &impl Abort, alloc: Global, books: &B, group: Group) {
    match group {
        Group::Uploads => {
            agrees_behind_each(rt, alloc, books);
            withdrawn_records(rt, alloc, books);
        }
        Group::Periods => energies_by_period(rt, alloc, books),
        Group::Failures => failures(rt, alloc, books),
    }
}

fn in_memory(rt: &impl Abort, alloc: Global, rows: Group) {
    try_rows(rt, alloc, &InMemory, rows);
}

fn with_calls_counted(rt: &impl Abort, alloc: Global, rows: Group) {
    try_rows(rt, alloc, &Counting, rows);
}

fn over_sql(rt: &impl Abort, alloc: Global, rows: Group) {
    try_rows(rt, alloc, &OverSql, rows);
}

#[test]
fn uploads_in_memory(rt: HostRuntime) {
    in_memory(&rt, rt.alloc(), Group::Uploads);
}

#[test]
fn uploads_with_calls_counted(rt: HostRuntime) {
    with_calls_counted(&rt, rt.alloc(), Group::Uploads);
}

// bears on: pw_schema reading.rt contents_in some
// bears on: pw_schema reading.rt read_rows found
// bears on: pw_schema reading.rt read_rows memory
// bears on: pw_schema reading.rt read_rows wrong
// bears on: pw_schema values.rt direction_place ensures
// bears on: pw_shelf shelf.rt Shelf::assignments_of rows
// bears on: pw_shelf shelf.rt Shelf::contents_at rows
// bears on: pw_shelf shelf.rt Shelf::point_after row
// bears on: pw_shelf shelf.rt Shelf::point_before row
// bears on: pw_shelf shelf.rt Shelf::point_del deleted
// bears on: pw_shelf shelf.rt Shelf::point_del memory
// bears on: pw_shelf shelf.rt Shelf::points_between rows
// bears on: pw_shelf shelf.rt Shelf::start_del memory
// bears on: pw_shelf shelf.rt Shelf::starts_of rows
#[test]
fn uploads_over_sql(rt: HostRuntime) {
    over_sql(&rt, rt.alloc(), Group::Uploads);
}

#[test]
fn periods_in_memory(rt: HostRuntime) {
    in_memory(&rt, rt.alloc(), Group::Periods);
}

#[test]
fn periods_with_calls_counted(rt: HostRuntime) {
    with_calls_counted(&rt, rt.alloc(), Group::Periods);
}

#[test]
fn periods_over_sql(rt: HostRuntime) {
    over_sql(&rt, rt.alloc(), Group::Periods);
}

#[test]
fn failures_in_memory(rt: HostRuntime) {
    in_memory(&rt, rt.alloc(), Group::Failures);
}

#[test]
fn failures_with_calls_counted(rt: HostRuntime) {
    with_calls_counted(&rt, rt.alloc(), Group::Failures);
}

#[test]
fn failures_over_sql(rt: HostRuntime) {
    over_sql(&rt, rt.alloc(), Group::Failures);
}
