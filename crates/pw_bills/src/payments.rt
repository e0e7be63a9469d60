//! The top-ups of an account between two instants.

ghost use Rattle.std.specs.Prelude.{◌≡◌, ℕ, ◌+◌, ◌<◌, ◌≤◌, IfOk, IsNone};
ghost use Rattle.std.specs.List.{sum_by};
ghost use Rattle.pw_model.specs.Counting.{contents_at as held_at};
ghost use Rattle.pw_model.specs.Kinds.{IsTopUp, ListsHeld};
ghost use Rattle.pw_shelf.specs.Calls.{failures_told};
ghost use Rattle.pw_shelf.specs.Rows.{rows_at, rows_listed};
ghost use Rattle.pw_book.specs.Asking.{IsOnlyAsked};
ghost use Rattle.pw_book.specs.Cost.{RisesAtMost};
ghost use Rattle.pw_book.specs.Questions.{IsQuestion};
ghost use Rattle.pw_months.specs.Between.{topped_up_between};
ghost use Rattle.pw_bills.specs.Payments.{AreEnoughForTopUps, AreTopUpRows};
ghost use Rattle.pw_bills.specs.inner.TopUpRows.{is_alone, reads_among, row_at, row_reads, row_told, rows_among as rows_of};
ghost use Rattle.pw_bills.specs.inner.Gathering.{TakesRows};

use pw_book::{Book, BookFault};
use pw_model::{Content, Contents, Entry, Key, Reference, is_same_content};
use pw_shelf::{Shelf, ShelfFault};
use pw_tariff::AccountId;
use pw_time::Instant;
use std::alloc::Global;

/// A top-up that counts: of the records held that stand, it alone has its reference.
#[derive(Clone, Copy, Debug, PartialEq, Eq)]
pub struct TopUpRow {
    /// What it is named by.
    pub reference: Reference,
    /// What was paid, in cents.
    pub cents: u32,
    /// When it was paid.
    pub instant: Instant,
}

/// The top-ups of an account that count and that have their instant in an interval, from an instant
/// on and up to and without a later second, by the records held: in the order of their references.
///
/// One that is withdrawn, or disputed by another of its reference, doesn't count. As with each
/// question to a book, `Device`, `Memory` and `Reopen` (of a shut book) leave the records as they
/// are.
pub fn top_ups_between<S: Shelf>(
    book: &mut Book<S>,
    alloc: Global,
    account: AccountId,
    from: Instant,
    until: u32,
) -> Result<Vec<TopUpRow>, BookFault>
    ensures top_ups { S.clean book.new.shelf → IfOk result
        (λ rows. AreTopUpRows (S.state book.old.shelf).content.records account from until
        rows.items) }
    ensures sum { S.clean book.new.shelf → IfOk result
        (λ rows. sum_by (λ row. row.cents) rows.items
        ≡ topped_up_between (S.state book.old.shelf).content.records account.0 from until) }
    ensures cost { S.clean book.new.shelf → (most : ℕ)
        → AreEnoughForTopUps (S.state book.old.shelf).content.records account from until most
        → RisesAtMost most (S.state book.old.shelf).tally (S.state book.new.shelf).tally }
    ensures question { IsQuestion S.Shelf result book.old book.new }
{
    book.still_open()?;
    let rows = rows_held(&mut book.shelf, alloc, account, from, until)?;
    Ok(rows)
}

// The top-ups of an account that count and have their instant in an interval.
fn rows_held<S: Shelf>(
    shelf: &mut S,
    alloc: Global,
    account: AccountId,
    from: Instant,
    until: u32,
) -> Result<Vec<TopUpRow>, ShelfFault>
    requires idle { IsNone (S.state shelf.old).begun }
    ensures rows { S.clean shelf.new → IfOk result
        (λ rows. AreTopUpRows (S.state shelf.old).content.records account from until rows.items) }
    ensures tally { S.clean shelf.new → (most : ℕ)
        → AreEnoughForTopUps (S.state shelf.old).content.records account from until most
        → (S.state shelf.new).tally ≤ (S.state shelf.old).tally + most }
    ensures asked { IsOnlyAsked S.Shelf (failures_told result) shelf.old shelf.new }
{
    let held = topups_held(shelf, alloc)?;
    let rows = rows_among(shelf, alloc, &held, account, from, until)?;
    Ok(rows)
}

// The rows of those of some top-ups that count, and are the account's in the interval.
fn rows_among<S: Shelf>(
    shelf: &mut S,
    alloc: Global,
    held: &[Entry],
    account: AccountId,
    from: Instant,
    until: u32,
) -> Result<Vec<TopUpRow>, ShelfFault>
    requires idle { IsNone (S.state shelf.old).begun }
    ensures rows { S.clean shelf.new → IfOk result
        (λ rows. rows.items ≡ rows_of (held_at (S.state shelf.old).content.records) account from
        until held.now) }
    ensures tally { (S.state shelf.new).tally
        ≤ (S.state shelf.old).tally + reads_among account from until held.now }
    ensures asked { IsOnlyAsked S.Shelf (failures_told result) shelf.old shelf.new }
{
    let mut rows = Vec::new(alloc);
    for entry in held {
        if let Some(row) = row_counting(shelf, entry, account, from, until)? {
            rows.push(row)?;
        }
    }
    Ok(rows)
}

// The row of a top-up, where it is the account's in the interval and counts: it is asked of none
// other whether it counts.
fn row_counting<S: Shelf>(
    shelf: &mut S,
    entry: &Entry,
    account: AccountId,
    from: Instant,
    until: u32,
) -> Result<Option<TopUpRow>, ShelfFault>
    requires idle { IsNone (S.state shelf.old).begun }
    ensures row { S.clean shelf.new → IfOk result
        (λ row. row ≡ row_told (held_at (S.state shelf.old).content.records) account from until
        entry.now) }
    ensures tally { (S.state shelf.new).tally
        ≤ (S.state shelf.old).tally
        + row_reads (row_at account from until entry.now.key entry.now.content) }
    ensures asked { IsOnlyAsked S.Shelf (failures_told result) shelf.old shelf.new }
{
    let Some(row) = row_of(entry, account, from, until) else {
        return Ok(None);
    };
    let contents = contents_held(shelf, &entry.key)?;
    if tell_alone(&contents, &entry.content) {
        Ok(Some(row))
    } else {
        Ok(None)
    }
}

// The row of a top-up of the account in the interval, whether it counts or not.
fn row_of(entry: &Entry, account: AccountId, from: Instant, until: u32) -> Option<TopUpRow>
    ensures { result ≡ row_at account from until entry.now.key entry.now.content }
{
    let Key::TopUp { reference } = &entry.key else {
        return None;
    };
    let Content::TopUp {
        account: other,
        cents,
        instant,
    } = &entry.content
    else {
        return None;
    };
    if from <= *instant && instant.seconds() < until && other.0 == account.0 {
        Some(TopUpRow {
            reference: *reference,
            cents: *cents,
            instant: *instant,
        })
    } else {
        None
    }
}

// Whether just this content is told.
fn tell_alone(contents: &Contents, content: &Content) -> bool
    ensures { result ≡ is_alone content.now contents.now }
{
    match contents {
        Contents::One(told) => is_same_content(content, told),
        _ => false,
    }
}

// The top-ups held.
fn topups_held<S: Shelf>(shelf: &mut S, alloc: Global) -> Result<Vec<Entry>, ShelfFault>
    requires { IsNone (S.state shelf.old).begun }
    ensures rows { S.clean shelf.new → IfOk result
        (λ held. ListsHeld IsTopUp (S.state shelf.old).content.records held.items) }
    ensures tally { TakesRows S.Shelf rows_listed result shelf.old shelf.new }
    ensures asked { IsOnlyAsked S.Shelf (failures_told result) shelf.old shelf.new }
{
    shelf.topups(alloc)
}

// What the records held tell of a key.
fn contents_held<S: Shelf>(shelf: &mut S, key: &Key) -> Result<Contents, ShelfFault>
    requires { IsNone (S.state shelf.old).begun }
    ensures told { S.clean shelf.new → IfOk result
        (λ contents. contents ≡ held_at (S.state shelf.old).content.records key.now) }
    ensures tally { TakesRows S.Shelf rows_at result shelf.old shelf.new }
    ensures asked { IsOnlyAsked S.Shelf (failures_told result) shelf.old shelf.new }
{
    shelf.contents_at(key)
}
