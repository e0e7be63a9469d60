//! What a book answers of its records: energies, payments with balances, readings, and how many records there are.

use crate::book::{asking, money};
use pw_book::{Book, BookFault};
use pw_model::ReadingRow;
use pw_obis::Register;
use pw_shelf::Shelf;
use pw_tests::sample::{FIRST, KINDS, Kind, METER, PERIOD, SECOND};
use std::alloc::Global;
use std::process::Abort;

// Whether a reading counts, is withdrawn, or is one of several at its second.
#[derive(Clone, Copy, PartialEq, Eq)]
pub(super) enum Standing {
    Counts,
    Withdrawn,
    Disputed,
}

// A reading of the first register of the first meter: its second, its watt-hours, and whether it counts.
pub(super) type Row = (u32, u64, Standing);

// How many records are held, and what is told of them: the energies of `KINDS`, for both accounts what was topped up, in
// cents, with the balance, in nano-euro, and the readings.
#[derive(Clone, Copy)]
pub(super) struct Told {
    pub(super) records: u32,
    pub(super) energies: [u64; 12],
    pub(super) first: (u64, i128),
    pub(super) second: (u64, i128),
    pub(super) readings: &'static [Row],
}

fn standing_of(row: &ReadingRow) -> Standing {
    match (row.counted, row.withdrawn) {
        (true, _) => Standing::Counts,
        (false, true) => Standing::Withdrawn,
        (false, false) => Standing::Disputed,
    }
}

// Whether a reading is this one.
fn is_row(row: &ReadingRow, (second, watt_hours, standing): Row) -> bool {
    row.instant.seconds() == second && row.wh.get() == watt_hours && standing_of(row) == standing
}

// Whether just these readings were told.
fn are_rows(told: Result<Vec<ReadingRow>, BookFault>, wanted: &[Row]) -> bool {
    match told {
        Ok(rows) => {
            rows.len() == wanted.len()
                && rows
                    .iter()
                    .zip(wanted.iter())
                    .all(|(row, one)| is_row(row, *one))
        }
        Err(_) => false,
    }
}

// Whether this is an energy, and that of the one period.
fn is_energy<S: Shelf>(rt: &impl Abort, book: &mut Book<S>, kind: Kind, watt_hours: u64) -> bool {
    asking::energy(rt, book, kind) == Ok(watt_hours)
        && asking::energy_in(rt, book, PERIOD, kind) == Ok(watt_hours)
}

// Whether these are the energies of `KINDS`.
fn are_energies<S: Shelf>(rt: &impl Abort, book: &mut Book<S>, wanted: &[u64; 12]) -> bool {
    for (kind, watt_hours) in KINDS.iter().zip(wanted.iter()) {
        if !is_energy(rt, book, *kind, *watt_hours) {
            return false;
        }
    }
    true
}

// Whether just this is told.
pub(super) fn tells<S: Shelf>(
    rt: &impl Abort,
    alloc: Global,
    book: &mut Book<S>,
    told: &Told,
) -> bool {
    are_energies(rt, book, &told.energies)
        && money(rt, book, FIRST) == Ok(told.first)
        && money(rt, book, SECOND) == Ok(told.second)
        && are_rows(
            asking::readings(rt, alloc, book, METER, Register::I1),
            told.readings,
        )
        && asking::count(book) == Ok(told.records)
}
