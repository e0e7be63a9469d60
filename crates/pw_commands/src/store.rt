//! A book over a store's files.

ghost use Rattle.std.specs.Prelude.{◌≡◌, ◌≢◌, ◌≤◌, IfErr, IfOk, IsTrue, OnOk};
ghost use Rattle.sqlite.specs.Held.{state};
ghost use Rattle.sqlite.specs.State.{HasCleanDisk};
ghost use Rattle.sqlite.specs.Effect.{IsDatabase};
ghost use Rattle.sqlite.specs.Files.{file_state, image_of};
ghost use Rattle.sqlite.specs.Start.{FindsIn};
ghost use Rattle.sqlite_wal.specs.Reads.{OnlyReads};
ghost use Rattle.pw_tariff.specs.Office.{office_of};
ghost use Rattle.pw_tariff.specs.Text.{IsOfficeOf};
ghost use Rattle.pw_words.specs.Words.{IsLimit};
ghost use Rattle.pw_schema.specs.Tables.{no_schema};
ghost use Rattle.pw_commands.specs.Crashes.{WasHeld};
ghost use Rattle.pw_commands.specs.Faults.{IsOfOpening};
ghost use Rattle.pw_commands.specs.Stores.{OpensWith};
ghost use Rattle.pw_found.specs.Verdicts.{MayOpen};

use crate::fault::Fault;
use pw_book::Book;
use pw_found::{Cause, Place, Purpose, admit, refused};
use pw_schema::is_nothing;
use pw_shelf::Shelf;
use pw_store::{OpenFault, SqlShelf, Watch};
use pw_tariff::Office;
use pw_time::Zone;
use sqlite::{Alter, Connection, Error, ErrorCode};
use sqlite_disk::{Disk, Files};
use sqlite_pager::Options;
use sqlite_std_file::{FileFrom, Wary};
use sqlite_store::FileStore;
use std::alloc::Global;
use std::hash::{BuildHasher, RandomState};

// The size of a page, in bytes.
const PAGE: usize = 4_096;

// The most pages of a store that are kept in memory.
const MOST_KEPT: usize = 16_000;

/// A book whose records stand in a file.
pub type FileBook = Book<SqlShelf<FileStore<FileFrom<Wary>>>>;

/// Opens the store at a path as a book of the office of a text. Where none is, one is made to take uploads, and none to
/// ask; `watch` is told how far the opening is.
pub fn open_book<W: Watch>(
    rt: &HostRuntime,
    path: &str,
    purpose: Purpose,
    office: Office,
    text: &[u8],
    limit: u32,
    watch: &mut W,
) -> Result<FileBook, Fault>
    requires office { IsOfficeOf text.now office }
    requires limit { IsLimit limit }
    ensures office { IfOk result (λ book. book.office ≡ office) }
    ensures limit { IfOk result (λ book. book.limit ≡ limit) }
    ensures cause { IfErr result IsOfOpening }
{
    let place = Place::at(rt, path)?;
    if let Some(refusal) = refused(place.found(rt), purpose) {
        return Err(Fault::from(refusal));
    }
    let Ok(random) = RandomState::new(rt) else {
        return Err(Fault::Unopened(Cause::Disk));
    };
    let mut files = place.open(rt, Wary)?;
    let options = options_for(random.hash_one(&0u8), &mut files.db);
    match open_from(
        rt.alloc(),
        files,
        options,
        purpose,
        office,
        text,
        limit,
        watch,
    ) {
        Ok(book) => Ok(book),
        Err((fault, files)) => {
            place.leave(rt, files);
            Err(fault)
        }
    }
}

// How a store's file is opened: so many pages are kept in memory as it has, within bounds. Memory is asked for each as it
// is opened, so a small one has no more than 2,000.
fn options_for<D: Disk>(seed: u64, file: &mut D) -> Options
    requires { IsTrue (D.Disk.is_usable file.old) }
    ensures usable { IsTrue (D.Disk.is_usable file.new) }
    ensures kept { (2_000 ≤ result.cache_pages) × (result.cache_pages ≤ MOST_KEPT) }
{
    let mut options = Options::new(seed);
    if let Ok(size) = file.len() {
        options.cache_pages = (size / PAGE).max(options.cache_pages).min(MOST_KEPT);
    }
    options
}

/// Opens the files of a store as a book of the office of a text. A store that was there holds what its tables do; one is
/// made to take uploads, where nothing is; to ask, none is made, and no database is taken that lists nothing. Where the
/// opening is refused the files are given back.
pub fn open_from<D: Disk + Drop, W: Watch>(
    alloc: Global,
    files: Files<D>,
    options: Options,
    purpose: Purpose,
    office: Office,
    text: &[u8],
    limit: u32,
    watch: &mut W,
) -> Result<Book<SqlShelf<FileStore<D>>>, (Fault, Files<D>)>
    requires log { IsTrue (D.Disk.is_usable files.log) }
    requires db { IsTrue (D.Disk.is_usable files.db) }
    requires office { IsOfficeOf text.now office }
    requires limit { IsLimit limit }
    ensures office { IfOk result (λ book. book.office ≡ office) }
    ensures limit { IfOk result (λ book. book.limit ≡ limit) }
    ensures content { IfOk result (λ book. HasCleanDisk (file_state book.shelf.conn)
        → OpensWith (office_of office) purpose (image_of D.Disk files)
        (⟦<SqlShelf<FileStore<D>> as Shelf>⟧.state book.shelf).content) }
    ensures cause { IfErr result (λ e. IsOfOpening e.0) }
    ensures untouched { IfErr result (λ e. e.0 ≡ Fault.Unopened Cause.LogAlone
        → OnlyReads D.Disk files.log e.1.log × OnlyReads D.Disk files.db e.1.db) }
{
    let connection = connection_in(alloc, files, options, purpose)?;
    match book_over(alloc, connection, office, text, limit, watch) {
        Ok(book) => Ok(book),
        Err((fault, connection)) => Err((Fault::Store(fault), files_under(connection))),
    }
}

/// A connection over the files of a store, which are looked at before: nothing that may hold uploads is written over,
/// and to ask no store is made. Where it is refused the files are given back, and nothing more is written to them.
pub fn connection_in<D: Disk + Drop>(
    alloc: Global,
    mut files: Files<D>,
    options: Options,
    purpose: Purpose,
) -> Result<Connection<FileStore<D>>, (Fault, Files<D>)>
    requires log { IsTrue (D.Disk.is_usable files.log) }
    requires db { IsTrue (D.Disk.is_usable files.db) }
    ensures kept { IfOk result (λ c. HasCleanDisk (file_state c)
        → MayOpen purpose (image_of D.Disk files)) }
    ensures found { IfOk result (λ c. HasCleanDisk (file_state c)
        → FindsIn (image_of D.Disk files) (file_state c)) }
    ensures settled { IfOk result (λ c. HasCleanDisk (file_state c)
        → (file_state c).now ≡ (file_state c).committed) }
    ensures database { IfOk result (λ c. HasCleanDisk (file_state c)
        → IsDatabase (file_state c).committed) }
    ensures asked { IfOk result (λ c. purpose ≡ Purpose.Ask
        → (file_state c).now.schema ≢ no_schema) }
    ensures cause { IfErr result (λ e. IsOfOpening e.0) }
    ensures untouched { IfErr result (λ e. e.0 ≡ Fault.Unopened Cause.LogAlone
        → OnlyReads D.Disk files.log e.1.log × OnlyReads D.Disk files.db e.1.db) }
{
    if let Err(refusal) = admit(alloc, &mut files, purpose) {
        return Err((Fault::from(refusal), files));
    }
    match Connection::open_files(alloc, files, options) {
        Ok(connection) => if_asked(connection, purpose),
        Err((error, left)) => Err((unopened(error), left.into_files())),
    }
}

// The connection, unless it is to a database that lists nothing and is only asked.
fn if_asked<D: Disk + Drop>(
    connection: Connection<FileStore<D>>,
    purpose: Purpose,
) -> Result<Connection<FileStore<D>>, (Fault, Files<D>)>
    ensures same { IfOk result (λ c. c ≡ connection) }
    ensures asked { OnOk result (purpose ≡ Purpose.Ask
        → (file_state connection).now.schema ≢ no_schema) }
    ensures cause { IfErr result (λ e. e.0 ≡ Fault.NoSuchStore) }
{
    if purpose == Purpose::Ask && is_nothing(connection.schema()) {
        return Err((Fault::NoSuchStore, files_under(connection)));
    }
    Ok(connection)
}

// The files that a connection stands on. Nothing is written any more: what was committed stays where it is.
fn files_under<D: Disk + Drop>(connection: Connection<FileStore<D>>) -> Files<D> {
    connection.into_store().close()
}

// Why a file can't be opened as a database.
fn unopened(error: Error) -> Fault
    ensures opening { IsOfOpening result }
    ensures other { result ≢ Fault.Unopened Cause.LogAlone }
{
    match error {
        Error::SqliteFailure(ErrorCode::OutOfMemory) => Fault::Memory,
        Error::SqliteFailure(ErrorCode::NotADatabase) => Fault::Unopened(Cause::NoDatabase),
        Error::SqliteFailure(ErrorCode::DatabaseCorrupt) => Fault::Unopened(Cause::Damaged),
        _ => Fault::Unopened(Cause::Disk),
    }
}

// A book over a connection, which is opened as the store of the office of a text; a refused connection is given back.
fn book_over<S: Alter, W: Watch>(
    alloc: Global,
    connection: Connection<S>,
    office: Office,
    text: &[u8],
    limit: u32,
    watch: &mut W,
) -> Result<Book<SqlShelf<S>>, (OpenFault, Connection<S>)>
    requires office { IsOfficeOf text.now office }
    requires limit { IsLimit limit }
    ensures office { IfOk result (λ book. book.office ≡ office) }
    ensures limit { IfOk result (λ book. book.limit ≡ limit) }
    ensures content { IfOk result (λ book. HasCleanDisk (state S.Store book.shelf.conn)
        → HasCleanDisk (state S.Store connection)
        × WasHeld (office_of office) (state S.Store connection).committed
        (⟦<SqlShelf<S> as Shelf>⟧.state book.shelf).content) }
{
    let shelf = SqlShelf::open_watched(alloc, connection, text, watch)?;
    Ok(Book::new(office, Zone::central(), shelf, limit))
}

/// Closes a book's store. What was committed stands in the file already; `Device` where the file can't be tidied.
pub fn close_book(book: FileBook) -> Result<(), Fault>
    ensures { IfErr result (λ fault. fault ≡ Fault.Device) }
{
    close_store(connection_under(book))
}

// Closes the connection to a store's files, likewise.
pub(crate) fn close_store(connection: Connection<FileStore<FileFrom<Wary>>>) -> Result<(), Fault>
    ensures { IfErr result (λ fault. fault ≡ Fault.Device) }
{
    match connection.close() {
        Ok(()) => Ok(()),
        Err(_) => Err(Fault::Device),
    }
}

// The connection that a book's store stands on.
fn connection_under<S: Alter>(book: Book<SqlShelf<S>>) -> Connection<S> {
    book.into_shelf().close()
}
