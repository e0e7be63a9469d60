//! The book over each kind of store: records of all kinds by the definitions, devices that fail, and counts of calls.
//! Each row is a function of what makes such books. (What commands show of worked rows, over a store in memory and over
//! SQL, stands in cases; what they do where memory is refused, in `tests/memory`.)

ghost use Rattle.std.specs.Prelude.{◌≡◌, None, IfOk, false};
ghost use Rattle.pw_model.specs.Shelf.{no_content};

mod agreeing;
pub mod asking;
mod counted;
mod kept;
mod limits;
mod periods;
mod questions;
mod sql;
mod stores;
mod uploads;
mod withdrawn;
mod worked;

use agreeing::length;
use pw_book::{Accepted, Book, BookFault, Entry, PostFault};
use pw_obis::Register;
use pw_shelf::{CountShelf, MemoryShelf, Shelf};
use pw_tariff::{AccountId, BandId, Direction, MeterId, Office, OfficeFault};
use pw_tests::books::empty_book;
use pw_tests::offices::TWO_METERS;
use pw_tests::sample::{FIRST, METER, are_of_office};
use std::alloc::Global;
use std::process::Abort;

const OTHER: MeterId = MeterId(1);

// A new book, or why there is none.
type Made<S> = Result<Book<S>, OfficeFault>;

// A new book over a store that counts its calls, or why there is none.
type Failing<S> = Made<CountShelf<S>>;

// Which call of a store fails, and whether each `abandon` behind it does. No call fails at 0.
#[derive(Clone, Copy)]
struct Fails {
    at: u32,
    of_abandon: bool,
}

impl Fails {
    const NEVER: Fails = Fails {
        at: 0,
        of_abandon: false,
    };
}

// Makes empty books over stores of one kind.
trait Books {
    type Store: Shelf + Drop;

    /// A book of the office that a text gives, which takes so many records.
    fn empty(&self, rt: &impl Abort, alloc: Global, office: &str, limit: u32) -> Made<Self::Store>;

    /// One of the office with two meters, over a store that counts its calls and fails as it is told to.
    fn failing(&self, rt: &impl Abort, alloc: Global, fails: Fails) -> Failing<Self::Store>;
}

// The office with two meters.
fn two_meters(alloc: Global) -> Result<Office, OfficeFault> {
    Office::read(alloc, TWO_METERS.as_bytes())
}

// An empty store in memory that counts its calls.
fn counting_shelf(alloc: Global) -> CountShelf<MemoryShelf>
    ensures empty { (⟦<CountShelf<MemoryShelf> as Shelf>⟧.state result).content ≡ no_content }
    ensures idle { (⟦<CountShelf<MemoryShelf> as Shelf>⟧.state result).begun ≡ None }
{
    CountShelf::new(MemoryShelf::new(alloc))
}

// A book over a store that counts its calls, one of which fails.
fn failing_over<S: Shelf>(
    rt: &impl Abort,
    office: Office,
    shelf: S,
    fails: Fails,
) -> Book<CountShelf<S>>
    requires empty { (S.state shelf).content ≡ no_content }
    requires idle { (S.state shelf).begun ≡ None }
{
    let failing = CountShelf::failing(shelf, fails.at, fails.of_abandon);
    book_of(rt, office, failing, 2_000)
}

// Books over a store in memory.
struct InMemory;

impl Books for InMemory {
    type Store = MemoryShelf;

    fn empty(&self, rt: &impl Abort, alloc: Global, office: &str, limit: u32) -> Made<Self::Store> {
        let office = Office::read(alloc, office.as_bytes())?;
        Ok(book_of(rt, office, MemoryShelf::new(alloc), limit))
    }

    fn failing(&self, rt: &impl Abort, alloc: Global, fails: Fails) -> Failing<Self::Store> {
        let office = two_meters(alloc)?;
        let shelf = MemoryShelf::new(alloc);
        Ok(failing_over(rt, office, shelf, fails))
    }
}

// Books over a store in memory that counts its calls.
struct Counting;

impl Books for Counting {
    type Store = CountShelf<MemoryShelf>;

    fn empty(&self, rt: &impl Abort, alloc: Global, office: &str, limit: u32) -> Made<Self::Store> {
        let office = Office::read(alloc, office.as_bytes())?;
        Ok(book_of(rt, office, counting_shelf(alloc), limit))
    }

    fn failing(&self, rt: &impl Abort, alloc: Global, fails: Fails) -> Failing<Self::Store> {
        let office = two_meters(alloc)?;
        let shelf = counting_shelf(alloc);
        Ok(failing_over(rt, office, shelf, fails))
    }
}

// A book over a store that holds nothing.
fn book_of<S: Shelf>(rt: &impl Abort, office: Office, shelf: S, limit: u32) -> Book<S>
    requires empty { (S.state shelf).content ≡ no_content }
    requires idle { (S.state shelf).begun ≡ None }
    ensures { result.office ≡ office }
{
    assert!(rt; 1 <= limit && limit <= 2_000);
    empty_book(office, shelf, limit)
}

pub fn post<S: Shelf>(
    rt: &impl Abort,
    alloc: Global,
    book: &mut Book<S>,
    entries: &[Entry],
) -> Result<(u32, u32), PostFault>
    ensures office { book.new.office ≡ book.old.office }
    ensures open { IfOk result (λ _. book.new.shut ≡ false) }
{
    let of_office = are_of_office(book.office(), book.zone(), entries);
    assert!(rt; of_office);
    let Accepted { fresh, repeated } = book.post(alloc, entries)?;
    Ok((fresh, repeated))
}

// An upload is taken, with so many fresh and repeated entries.
fn takes<S: Shelf>(
    rt: &impl Abort,
    alloc: Global,
    book: &mut Book<S>,
    entries: &[Entry],
    counts: (u32, u32),
) {
    assert!(rt; post(rt, alloc, book, entries) == Ok(counts));
}

// What the first account imported in both bands.
fn imported<S: Shelf>(rt: &impl Abort, book: &mut Book<S>) -> Result<(u64, u64), BookFault> {
    let low = asking::energy(rt, book, (Some(FIRST), BandId(0), Direction::Import))?;
    let high = asking::energy(rt, book, (Some(FIRST), BandId(1), Direction::Import))?;
    Ok((low, high))
}

/// What was topped up for an account, in cents, and its balance, in nano-euro.
pub fn money<S: Shelf>(
    rt: &impl Abort,
    book: &mut Book<S>,
    account: AccountId,
) -> Result<(u64, i128), BookFault> {
    let cents = asking::topped_up(rt, book, account)?;
    let nano = asking::balance(rt, book, account)?;
    Ok((cents, nano))
}

// How many falls, disputes and readings of the register there are.
fn lengths<S: Shelf>(
    rt: &impl Abort,
    alloc: Global,
    book: &mut Book<S>,
) -> Result<(usize, usize, usize), BookFault> {
    let falls = length(asking::falls(alloc, book))?;
    let disputes = length(asking::disputes(alloc, book))?;
    let readings = length(asking::readings(rt, alloc, book, METER, Register::I1))?;
    Ok((falls, disputes, readings))
}
