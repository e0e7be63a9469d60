//! A store of an older version is opened, as a file stops at each of its calls, and holds the same as before.

use super::answers::Told;
use super::{
    AT_SIX, BEHIND_READINGS, Case, End, FIRST_OWNER, Image, LONG, PAYMENT_AND_READINGS, SETTLED,
    SHORT, TOPUP, TWO_READINGS, TWO_WITHDRAWALS, Upload, connected, files_left, image_of,
    new_files, stops_at_each,
};
use crate::sql_stores::execute;
use std::alloc::Global;
use std::process::Abort;

const SETTLED_READINGS: [Upload; 5] = [FIRST_OWNER, TOPUP, TWO_READINGS, AT_SIX, TWO_WITHDRAWALS];

// What makes a store with two withdrawals one of version 2, whose totals of energy have no period.
const TO_VERSION_2: [&str; 4] = [
    "INSERT INTO total (owner, band, direction, wh) VALUES (1, 0, 0, 1000)",
    "INSERT INTO total (owner, band, direction, wh) VALUES (1, 1, 0, 2001)",
    "DROP TABLE period_total",
    "UPDATE office SET version = 2",
];

// What makes a store with both readings one of version 1, which knows no withdrawals either.
const TO_VERSION_1: [&str; 7] = [
    "INSERT INTO total (owner, band, direction, wh) VALUES (1, 0, 0, 1500)",
    "INSERT INTO total (owner, band, direction, wh) VALUES (1, 1, 0, 1501)",
    "DROP TABLE period_total",
    "DROP TABLE withdrawn_reading",
    "DROP TABLE withdrawn_assignment",
    "DROP TABLE withdrawn_topup",
    "UPDATE office SET version = 1",
];

// What the files of a store of an older version hold, of which the log has what made it one.
fn stored_in_older_version(
    rt: &impl Abort,
    alloc: Global,
    uploads: &[Upload],
    statements: &[&str],
) -> Image {
    let files = new_files(rt, alloc, uploads, true);
    match connected(rt, alloc, files, LONG) {
        Ok(mut connection) => {
            for statement in statements {
                execute(rt, &mut connection, statement);
            }
            image_of(rt, alloc, &files_left(connection))
        }
        Err(_) => panic!(rt; "no connection"),
    }
}

// Each file stops at each of its calls, as a store of an older version is opened, which tells this.
fn opening_stops(rt: &impl Abort, alloc: Global, store: &Image, told: Told) {
    for (pages, db_end) in [(LONG, End::NoConnection), (SHORT, End::NoStore)] {
        let case = Case {
            uploads: &[],
            before: told,
            behind: told,
            pages,
        };
        stops_at_each(rt, alloc, store, &case, true, End::NoStore);
        stops_at_each(rt, alloc, store, &case, false, db_end);
    }
}

// bears on: pw_schema raise.rt raise_to_third crash
// bears on: pw_store laws.rt upgraded_stores_open ensures
// bears on: pw_store laws.rt upgraded_stores_hold_the_same ensures
#[test]
fn a_store_of_version_1_holds_the_same_wherever_its_opening_stops(rt: HostRuntime) {
    let alloc = rt.alloc();
    let store = stored_in_older_version(&rt, alloc, &PAYMENT_AND_READINGS, &TO_VERSION_1);
    opening_stops(&rt, alloc, &store, BEHIND_READINGS);
}

// bears on: pw_schema raise.rt raise_to_third crash
// bears on: pw_schema raise.rt raise_to_third raised
// bears on: pw_store laws.rt upgraded_stores_open ensures
// bears on: pw_store laws.rt upgraded_stores_hold_the_same ensures
#[test]
fn a_store_of_version_2_holds_the_same_wherever_its_opening_stops(rt: HostRuntime) {
    let alloc = rt.alloc();
    let store = stored_in_older_version(&rt, alloc, &SETTLED_READINGS, &TO_VERSION_2);
    opening_stops(&rt, alloc, &store, SETTLED);
}
