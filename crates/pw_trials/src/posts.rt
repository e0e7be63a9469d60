//! An upload to a book, and the parts of records, while one request for memory is refused.

ghost use Rattle.std.specs.Prelude.{IsTrue, ◌↔◌};
ghost use Rattle.pw_model.specs.Office.{AllOfOffice};
ghost use Rattle.pw_tariff.specs.Office.{office_of};

use crate::calls::entries::records_of;
use pw_book::{Accepted, Book, PostFault, true_parts};
use pw_model::plain::{self, OfficeTerms};
use pw_model::{Entry, TotalKey};
use pw_shelf::Shelf;
use pw_tariff::{AccountId, BandId, Direction, Office, PeriodId};
use pw_time::Zone;
use std::alloc::{AllocError, Global};

// The most records of an office.
const MOST_RECORDS: usize = 10_000_000;

// An assignment and three readings.
const FIRST: [&str; 4] = [
    "assignment 4D31 2024-01-02T04:00:00Z A1",
    "reading 4D31 I1 2024-01-02T05:00:00Z 1000000",
    "reading 4D31 I1 2024-01-02T06:00:00Z 1001000",
    "reading 4D31 I1 2024-01-02T07:00:00Z 1003001",
];

// A late reading, one that disputes another, and an assignment.
pub(crate) const UPLOAD: [&str; 3] = [
    "reading 4D31 I1 2024-01-02T06:30:00Z 1002000",
    "reading 4D31 I1 2024-01-02T06:00:00Z 1001500",
    "assignment 4D31 2024-01-02T06:15:00Z A2",
];

// A meter that is given back, readings of two hours, two unlike ones between them, and a payment.
pub(crate) const RECORDS: [&str; 7] = [
    "assignment 4D31 2024-01-02T04:00:00Z A1",
    "assignment 4D31 2024-01-02T06:00:00Z -",
    "reading 4D31 I1 2024-01-02T07:00:00Z 1003001",
    "reading 4D31 I1 2024-01-02T06:00:00Z 1001000",
    "reading 4D31 I1 2024-01-02T06:00:00Z 1001500",
    "reading 4D31 I1 2024-01-02T05:00:00Z 1000000",
    "topup P1 A1 5000 2000-01-01T00:00:00Z",
];

// What an account imported in a band.
type Figure = (AccountId, BandId, u64);

// What the two accounts imported in each band before the upload, and behind it.
const BEFORE: [Figure; 4] = [
    (AccountId(0), BandId(0), 1_000),
    (AccountId(0), BandId(1), 2_001),
    (AccountId(1), BandId(0), 0),
    (AccountId(1), BandId(1), 0),
];

const BEHIND: [Figure; 4] = [
    (AccountId(0), BandId(0), 1_333),
    (AccountId(0), BandId(1), 333),
    (AccountId(1), BandId(0), 0),
    (AccountId(1), BandId(1), 1_335),
];

// Whether a book takes an assignment and three readings.
pub(crate) fn is_filled<S: Shelf>(alloc: Global, book: &mut Book<S>) -> bool {
    match records_of(alloc, book.office(), &FIRST) {
        Some(entries) => post(alloc, book, &entries) == Ok((4, 0)),
        None => false,
    }
}

fn are_of_office(office: &Office, zone: &Zone, entries: &[Entry]) -> bool
    ensures { IsTrue result ↔ AllOfOffice (office_of office.now) entries.now }
{
    let terms = OfficeTerms::new(office, zone);
    plain::are_of_office(&terms, entries)
}

// How many entries were fresh and repeated; entries that aren't of the office are told as a book that is shut.
pub(crate) fn post<S: Shelf>(
    alloc: Global,
    book: &mut Book<S>,
    entries: &[Entry],
) -> Result<(u32, u32), PostFault> {
    if !are_of_office(book.office(), book.zone(), entries) {
        return Err(PostFault::Reopen);
    }
    let Accepted { fresh, repeated } = book.post(alloc, entries)?;
    Ok((fresh, repeated))
}

// Whether the accounts imported this.
fn are_figures<S: Shelf>(book: &mut Book<S>, figures: &[Figure]) -> bool {
    for (account, band, wh) in figures {
        if !is_imported(book, *account, *band, *wh) {
            return false;
        }
    }
    true
}

fn is_imported<S: Shelf>(book: &mut Book<S>, account: AccountId, band: BandId, wh: u64) -> bool {
    if account.0 >= book.office().accounts() || band.0 >= book.office().bands() {
        return false;
    }
    book.energy(Some(account), band, Direction::Import) == Ok(wh)
}

// Whether an upload is taken: at once, or, where it is refused for want of memory, with all as before, at the next try.
pub(crate) fn is_taken<S: Shelf>(alloc: Global, book: &mut Book<S>, entries: &[Entry]) -> bool {
    let told = match post(alloc, book, entries) {
        Err(PostFault::Memory) if is_as_before(book) => post(alloc, book, entries),
        told => told,
    };
    told == Ok((3, 0)) && book.count() == Ok(7) && are_figures(book, &BEHIND)
}

fn is_as_before<S: Shelf>(book: &mut Book<S>) -> bool {
    book.count() == Ok(4) && are_figures(book, &BEFORE)
}

// The second hour is of the second period.
const TOTALS: [(TotalKey, u64); 3] = [
    (
        TotalKey::Energy {
            owner: None,
            period: PeriodId(1),
            band: BandId(1),
            direction: Direction::Import,
        },
        1_501,
    ),
    (
        TotalKey::Energy {
            owner: Some(AccountId(0)),
            period: PeriodId(0),
            band: BandId(0),
            direction: Direction::Import,
        },
        1_500,
    ),
    (
        TotalKey::TopUps {
            account: AccountId(0),
        },
        5_000,
    ),
];

// Whether the parts of records are told: at once, or at the next try.
pub(crate) fn are_told(alloc: Global, office: &Office, zone: &Zone, entries: &[Entry]) -> bool {
    match are_parts_right(alloc, office, zone, entries) {
        Ok(are_right) => are_right,
        Err(_) => are_parts_right(alloc, office, zone, entries) == Ok(true),
    }
}

fn are_parts_right(
    alloc: Global,
    office: &Office,
    zone: &Zone,
    entries: &[Entry],
) -> Result<bool, AllocError> {
    if entries.len() > MOST_RECORDS || !are_of_office(office, zone, entries) {
        return Ok(false);
    }
    let parts = true_parts(alloc, office, zone, entries)?;
    let are_totals = parts.totals.as_slice() == TOTALS.as_slice();
    Ok(are_totals && parts.points.len() == 2 && parts.starts.len() == 2)
}
