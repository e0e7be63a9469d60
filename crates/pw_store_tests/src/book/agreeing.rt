//! The answers of a book against those that the definitions give for all the entries that it took.

ghost use Rattle.std.specs.Prelude.{◌≤◌, IsTrue, length};
ghost use Rattle.pw_model.specs.Office.{AllOfOffice, most_records};
ghost use Rattle.pw_tariff.specs.Office.{office_of};

use super::{OTHER, asking, money};
use pw_book::{Book, BookFault, Entry};
use pw_model::MOST_RECORDS;
use pw_model::plain::{self, OfficeTerms};
use pw_obis::Register;
use pw_shelf::Shelf;
use pw_tariff::{AccountId, MeterId, Office, PeriodId};
use pw_tests::sample::{FIRST, KINDS, Kind, METER, SECOND, are_of_office};
use pw_time::Zone;
use std::alloc::Global;
use std::process::Abort;

// Whether a list was told, and is the expected one.
pub(super) fn is_list<T: PartialEq + Drop, E: Drop>(
    told: Result<Vec<T>, E>,
    expected: &[T],
) -> bool {
    match told {
        Ok(list) => list.as_slice() == expected,
        Err(_) => false,
    }
}

pub(super) fn length<T: Drop, E: Drop>(told: Result<Vec<T>, E>) -> Result<usize, E> {
    match told {
        Ok(list) => Ok(list.len()),
        Err(fault) => Err(fault),
    }
}

fn are_few(entries: &[Entry]) -> bool
    ensures { IsTrue result → length entries.now ≤ most_records }
{
    entries.len() <= MOST_RECORDS as usize
}

// Whether the definitions can be asked about entries.
pub(super) fn have_meaning(office: &Office, zone: &Zone, entries: &[Entry]) -> bool
    ensures of_office { IsTrue result → AllOfOffice (office_of office.now) entries.now }
    ensures few { IsTrue result → length entries.now ≤ most_records }
{
    are_few(entries) && are_of_office(office, zone, entries)
}

// The energy that the definitions give, one second at a time: that within a period, or that of all.
fn meant_energy(
    rt: &impl Abort,
    alloc: Global,
    office: &Office,
    zone: &Zone,
    entries: &[Entry],
    within: Option<PeriodId>,
    (owner, band, direction): Kind,
) -> u64 {
    assert!(rt; have_meaning(office, zone, entries));
    let terms = OfficeTerms::new(office, zone);
    let meant = match within {
        Some(period) => plain::energy_in(alloc, &terms, entries, owner, period, band, direction),
        None => plain::energy(alloc, &terms, entries, owner, band, direction),
    };
    meant.expect(rt, "memory")
}

// The energy that a book tells.
fn told_energy<S: Shelf>(
    rt: &impl Abort,
    book: &mut Book<S>,
    within: Option<PeriodId>,
    kind: Kind,
) -> Result<u64, BookFault> {
    match within {
        Some(period) => asking::energy_in(rt, book, period, kind),
        None => asking::energy(rt, book, kind),
    }
}

// Whether a book answers the energies as the definitions do.
fn energies_agree<S: Shelf>(
    rt: &impl Abort,
    alloc: Global,
    book: &mut Book<S>,
    entries: &[Entry],
    within: Option<PeriodId>,
) -> bool {
    for kind in KINDS {
        let meant = meant_energy(
            rt,
            alloc,
            book.office(),
            book.zone(),
            entries,
            within,
            *kind,
        );
        if told_energy(rt, book, within, *kind) != Ok(meant) {
            return false;
        }
    }
    true
}

// Whether it answers those of each period so.
pub(super) fn periods_agree<S: Shelf>(
    rt: &impl Abort,
    alloc: Global,
    book: &mut Book<S>,
    entries: &[Entry],
) -> bool {
    let periods = book.office().periods();
    for period in 0..periods {
        if !energies_agree(rt, alloc, book, entries, Some(PeriodId(period))) {
            return false;
        }
    }
    true
}

// What was topped up for an account by the definitions, and its balance.
fn meant_money(
    rt: &impl Abort,
    alloc: Global,
    office: &Office,
    zone: &Zone,
    entries: &[Entry],
    account: AccountId,
) -> (u128, i128) {
    assert!(rt; have_meaning(office, zone, entries));
    let terms = OfficeTerms::new(office, zone);
    let nano = plain::balance(alloc, &terms, entries, account).expect(rt, "memory");
    (plain::topped_up(entries, account), nano)
}

fn money_agrees<S: Shelf>(
    rt: &impl Abort,
    alloc: Global,
    book: &mut Book<S>,
    entries: &[Entry],
    account: AccountId,
) -> bool {
    let meant = meant_money(rt, alloc, book.office(), book.zone(), entries, account);
    match money(rt, book, account) {
        Ok((cents, nano)) => (u128::from(cents), nano) == meant,
        Err(_) => false,
    }
}

fn falls_agree<S: Shelf>(
    rt: &impl Abort,
    alloc: Global,
    book: &mut Book<S>,
    entries: &[Entry],
) -> bool {
    let falls = plain::falls(alloc, entries).expect(rt, "memory");
    is_list(asking::falls(alloc, book), &falls)
}

fn disputes_agree<S: Shelf>(
    rt: &impl Abort,
    alloc: Global,
    book: &mut Book<S>,
    entries: &[Entry],
) -> bool {
    assert!(rt; are_few(entries));
    let disputes = plain::disputes(alloc, entries).expect(rt, "memory");
    is_list(asking::disputes(alloc, book), &disputes)
}

fn rows_agree<S: Shelf>(
    rt: &impl Abort,
    alloc: Global,
    book: &mut Book<S>,
    entries: &[Entry],
    meter: MeterId,
    register: Register,
) -> bool {
    let rows = plain::readings(alloc, entries, meter, register).expect(rt, "memory");
    is_list(asking::readings(rt, alloc, book, meter, register), &rows)
}

fn registers_agree<S: Shelf>(
    rt: &impl Abort,
    alloc: Global,
    book: &mut Book<S>,
    entries: &[Entry],
    meter: MeterId,
) -> bool {
    for register in [Register::I1, Register::I2, Register::E1, Register::E2] {
        if !rows_agree(rt, alloc, book, entries, meter, register) {
            return false;
        }
    }
    true
}

// Whether a book answers all questions as the definitions do, and holds so many records.
pub(super) fn all_agree<S: Shelf>(
    rt: &impl Abort,
    alloc: Global,
    book: &mut Book<S>,
    entries: &[Entry],
    held: u32,
) -> bool {
    asking::count(book) == Ok(held)
        && energies_agree(rt, alloc, book, entries, None)
        && money_agrees(rt, alloc, book, entries, FIRST)
        && money_agrees(rt, alloc, book, entries, SECOND)
        && falls_agree(rt, alloc, book, entries)
        && disputes_agree(rt, alloc, book, entries)
        && registers_agree(rt, alloc, book, entries, METER)
        && registers_agree(rt, alloc, book, entries, OTHER)
}
