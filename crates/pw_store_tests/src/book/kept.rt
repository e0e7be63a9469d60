//! A book and what its store keeps beside its records, points, starts and totals, against the definitions.

use super::OTHER;
use super::agreeing::{all_agree, have_meaning, is_list};
use crate::entries::at;
use pw_book::Book;
use pw_model::{Content, Entry, Key, TotalKey};
use pw_obis::Register;
use pw_parts::{Parts, true_parts};
use pw_shelf::{Shelf, ShelfFault};
use pw_tariff::{Direction, MeterId, Owner, PeriodId};
use pw_tests::sample::{FIRST, HIGH, LOW, METER, SECOND};
use pw_time::{FIRST_SECOND, LAST_SECOND};
use std::alloc::Global;
use std::process::Abort;

// Adds the points that a store keeps of a register, as readings.
fn add_points<S: Shelf>(
    rt: &impl Abort,
    alloc: Global,
    shelf: &mut S,
    points: &mut Vec<Entry>,
    meter: MeterId,
    register: Register,
) -> Result<(), ShelfFault> {
    let (from, to) = (at(rt, FIRST_SECOND), at(rt, LAST_SECOND));
    for (instant, wh) in shelf.points_between(alloc, meter, register, from, to)? {
        let key = Key::Reading {
            meter,
            register,
            instant,
        };
        let content = Content::Reading { wh };
        points.extend_from_slice(&[Entry { key, content }])?;
    }
    Ok(())
}

// The points that a store keeps, as readings in the order of their keys.
fn points_kept<S: Shelf>(
    rt: &impl Abort,
    alloc: Global,
    shelf: &mut S,
) -> Result<Vec<Entry>, ShelfFault> {
    let mut points = Vec::new(alloc);
    for meter in [METER, OTHER] {
        for register in [Register::I1, Register::I2, Register::E1, Register::E2] {
            add_points(rt, alloc, shelf, &mut points, meter, register)?;
        }
    }
    Ok(points)
}

// Adds the starts that a store keeps of a meter, as assignments.
fn add_starts<S: Shelf>(
    alloc: Global,
    shelf: &mut S,
    starts: &mut Vec<Entry>,
    meter: MeterId,
) -> Result<(), ShelfFault> {
    for (start, owner) in shelf.starts_of(alloc, meter)? {
        let key = Key::Assignment { meter, start };
        let content = Content::Assignment { owner };
        starts.extend_from_slice(&[Entry { key, content }])?;
    }
    Ok(())
}

// The starts that a store keeps, as assignments in the order of their keys.
fn starts_kept<S: Shelf>(alloc: Global, shelf: &mut S) -> Result<Vec<Entry>, ShelfFault> {
    let mut starts = Vec::new(alloc);
    add_starts(alloc, shelf, &mut starts, METER)?;
    add_starts(alloc, shelf, &mut starts, OTHER)?;
    Ok(starts)
}

// Adds a total that a store keeps, if it is above 0.
fn add_total<S: Shelf>(
    shelf: &mut S,
    totals: &mut Vec<(TotalKey, u64)>,
    key: TotalKey,
) -> Result<(), ShelfFault> {
    let amount = shelf.total(&key)?;
    if amount > 0 {
        totals.push((key, amount))?;
    }
    Ok(())
}

// Adds the energies above 0 that a store keeps of an owner within a period.
fn add_energies<S: Shelf>(
    shelf: &mut S,
    totals: &mut Vec<(TotalKey, u64)>,
    owner: Owner,
    period: PeriodId,
) -> Result<(), ShelfFault> {
    for band in [LOW, HIGH] {
        for direction in [Direction::Import, Direction::Export] {
            let key = TotalKey::Energy {
                owner,
                period,
                band,
                direction,
            };
            add_total(shelf, totals, key)?;
        }
    }
    Ok(())
}

// The totals above 0 that a store of an office with so many periods keeps, energies first.
fn totals_kept<S: Shelf>(
    alloc: Global,
    shelf: &mut S,
    periods: u8,
) -> Result<Vec<(TotalKey, u64)>, ShelfFault> {
    let mut totals = Vec::new(alloc);
    for owner in [None, Some(FIRST), Some(SECOND)] {
        for period in 0..periods {
            add_energies(shelf, &mut totals, owner, PeriodId(period))?;
        }
    }
    for account in [FIRST, SECOND] {
        add_total(shelf, &mut totals, TotalKey::TopUps { account })?;
    }
    Ok(totals)
}

// The parts of all the entries that a book took.
fn parts_of<S: Shelf>(rt: &impl Abort, alloc: Global, book: &Book<S>, entries: &[Entry]) -> Parts {
    assert!(rt; have_meaning(book.office(), book.zone(), entries));
    true_parts(alloc, book.office(), book.zone(), entries).expect(rt, "memory")
}

fn are_kept<S: Shelf>(
    rt: &impl Abort,
    alloc: Global,
    shelf: &mut S,
    periods: u8,
    parts: &Parts,
) -> bool {
    is_list(points_kept(rt, alloc, shelf), &parts.points)
        && is_list(starts_kept(alloc, shelf), &parts.starts)
        && is_list(totals_kept(alloc, shelf, periods), &parts.totals)
}

// A book answers all questions as the definitions do of all the entries that it took, and holds so many records; and what
// its store keeps are the parts of these entries.
pub(super) fn book_and_store_agree<S: Shelf + Drop>(
    rt: &impl Abort,
    alloc: Global,
    mut book: Book<S>,
    entries: &[Entry],
    held: u32,
) {
    assert!(rt; all_agree(rt, alloc, &mut book, entries, held));
    let parts = parts_of(rt, alloc, &book, entries);
    let periods = book.office().periods();
    assert!(rt; are_kept(rt, alloc, &mut book.into_shelf(), periods, &parts));
}
