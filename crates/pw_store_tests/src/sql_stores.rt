//! Stores over SQL of an office, and books over them.

ghost use Rattle.std.specs.Prelude.{◌≡◌, ◌≤◌, None, IfOk, length};
ghost use Rattle.pw_model.specs.Office.{AllOfOffice, most_records};
ghost use Rattle.pw_model.specs.Shelf.{IsTrueContent};
ghost use Rattle.pw_tariff.specs.Office.{office_of};
ghost use Rattle.pw_tariff.specs.Text.{IsOfficeOf};

use pw_book::Book;
use pw_shelf::{CountShelf, Shelf};
use pw_store::{OpenFault, SqlShelf};
use pw_tariff::Office;
use pw_time::Zone;
use sqlite::{Alter, Connection, MemStore};
use std::alloc::Global;
use std::process::Abort;

/// A connection to nothing, in memory.
pub fn memory(rt: &impl Abort, alloc: Global) -> Connection<MemStore> {
    Connection::open_in_memory(alloc).expect(rt, "a connection")
}

pub fn execute<S: Alter>(rt: &impl Abort, connection: &mut Connection<S>, statement: &str) {
    connection.execute(statement, &[]).expect(rt, "a statement");
}

// The store of an office, whose text this is, over a connection.
fn store_on<S: Alter>(
    alloc: Global,
    connection: Connection<S>,
    office: &Office,
    text: &[u8],
) -> Result<SqlShelf<S>, (OpenFault, Connection<S>)>
    requires { IsOfficeOf text.now office.now }
    ensures few { IfOk result (λ s. ⟦<SqlShelf<S> as Shelf>⟧.clean s
        → length (⟦<SqlShelf<S> as Shelf>⟧.state s).content.records ≤ most_records) }
    ensures of_office { IfOk result (λ s. ⟦<SqlShelf<S> as Shelf>⟧.clean s
        → AllOfOffice (office_of office.now) (⟦<SqlShelf<S> as Shelf>⟧.state s).content.records) }
    ensures truth { IfOk result (λ s. ⟦<SqlShelf<S> as Shelf>⟧.clean s
        → IsTrueContent (office_of office.now) (⟦<SqlShelf<S> as Shelf>⟧.state s).content) }
    ensures idle { IfOk result (λ s. (⟦<SqlShelf<S> as Shelf>⟧.state s).begun ≡ None) }
{
    SqlShelf::open(alloc, connection, text)
}

// A book over a store of its office.
fn book_over<S: Shelf>(office: Office, shelf: S, limit: u32) -> Book<S>
    requires few { S.clean shelf → length (S.state shelf).content.records ≤ most_records }
    requires of_office { S.clean shelf → AllOfOffice (office_of office)
        (S.state shelf).content.records }
    requires truth { S.clean shelf → IsTrueContent (office_of office) (S.state shelf).content }
    requires idle { (S.state shelf).begun ≡ None }
    requires least { 1 ≤ limit }
    requires most { limit ≤ most_records }
    ensures { result.office ≡ office }
{
    Book::new(office, Zone::central(), shelf, limit)
}

// A book over a store of its office that counts its calls, one of which fails (`CountShelf::failing`).
fn failing_over<S: Shelf>(
    office: Office,
    shelf: S,
    fail_at: u32,
    abandon_fails: bool,
) -> Book<CountShelf<S>>
    requires few { S.clean shelf → length (S.state shelf).content.records ≤ most_records }
    requires of_office { S.clean shelf → AllOfOffice (office_of office)
        (S.state shelf).content.records }
    requires truth { S.clean shelf → IsTrueContent (office_of office) (S.state shelf).content }
    requires idle { (S.state shelf).begun ≡ None }
{
    let failing = CountShelf::failing(shelf, fail_at, abandon_fails);
    book_over(office, failing, 2_000)
}

// The office that a text gives, with its store over a connection; or why there is no store on it.
fn office_and_store<S: Alter>(
    alloc: Global,
    connection: Connection<S>,
    text: &[u8],
) -> Result<(Office, SqlShelf<S>), (OpenFault, Connection<S>)>
    ensures few { IfOk result (λ r. ⟦<SqlShelf<S> as Shelf>⟧.clean r.1
        → length (⟦<SqlShelf<S> as Shelf>⟧.state r.1).content.records ≤ most_records) }
    ensures of_office { IfOk result (λ r. ⟦<SqlShelf<S> as Shelf>⟧.clean r.1
        → AllOfOffice (office_of r.0) (⟦<SqlShelf<S> as Shelf>⟧.state r.1).content.records) }
    ensures truth { IfOk result (λ r. ⟦<SqlShelf<S> as Shelf>⟧.clean r.1
        → IsTrueContent (office_of r.0) (⟦<SqlShelf<S> as Shelf>⟧.state r.1).content) }
    ensures idle { IfOk result (λ r. (⟦<SqlShelf<S> as Shelf>⟧.state r.1).begun ≡ None) }
{
    let Ok(office) = Office::read(alloc, text) else {
        return Err((OpenFault::Memory, connection));
    };
    match store_on(alloc, connection, &office, text) {
        Ok(shelf) => Ok((office, shelf)),
        Err(left) => Err(left),
    }
}

/// A book of the office that a text gives, over a connection; or why there is no store on it.
pub fn book_on<S: Alter>(
    alloc: Global,
    connection: Connection<S>,
    office: &str,
    limit: u32,
) -> Result<Book<SqlShelf<S>>, (OpenFault, Connection<S>)>
    requires least { 1 ≤ limit }
    requires most { limit ≤ most_records }
{
    match office_and_store(alloc, connection, office.as_bytes()) {
        Ok((office, shelf)) => Ok(book_over(office, shelf, limit)),
        Err(left) => Err(left),
    }
}

/// One over a store that counts its calls, one of which fails.
pub fn failing_on<S: Alter>(
    alloc: Global,
    connection: Connection<S>,
    office: &str,
    fail_at: u32,
    abandon_fails: bool,
) -> Result<Book<CountShelf<SqlShelf<S>>>, (OpenFault, Connection<S>)> {
    match office_and_store(alloc, connection, office.as_bytes()) {
        Ok((office, shelf)) => Ok(failing_over(office, shelf, fail_at, abandon_fails)),
        Err(left) => Err(left),
    }
}
