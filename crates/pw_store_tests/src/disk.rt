//! A store over SQL on a disk whose log or database file stops at each of its calls in turn. It is opened again where all
//! that was written is there, and where what wasn't synced is lost: an upload is there whole, or not at all.

mod answers;
mod older_versions;
mod stops;

use crate::book::post;
use crate::entries::{Sent, entries_of};
use crate::sql_stores::book_on;
use answers::{Row, Standing, Told, tells};
use pw_book::{Book, PostFault};
use pw_obis::Register;
use pw_shelf::Shelf;
use pw_store::{OpenFault, SqlShelf};
use pw_tests::ends::done;
use pw_tests::offices::TWO_METERS;
use pw_tests::sample::{FIRST, FIVE, METER, NEW_YEAR, SEVEN, SIX};
use sqlite::{Alter, Connection, FileStore, Files, Options};
use sqlite_disk::{Crash, Disk, Fuse, Memory};
use std::alloc::Global;
use std::process::Abort;

// More calls than a test makes.
const ALL: u64 = 1_000_000;

// How many pages the log has before it is copied into the database file: as the program runs, and so few that each upload
// begins with the copying.
const LONG: usize = 1_000;

const SHORT: usize = 1;

// A file that stops.
type Stopping = Fuse<Memory>;

// The records of an upload.
type Upload = &'static [Sent];

const FIRST_OWNER: Upload = &[Sent::Assignment(METER, NEW_YEAR, Some(FIRST))];

const TOPUP: Upload = &[Sent::TopUp(b"P1", FIRST, 5_000)];

const TWO_READINGS: Upload = &[
    Sent::Reading(METER, Register::I1, FIVE, 1_000_000),
    Sent::Reading(METER, Register::I1, SEVEN, 1_003_001),
];

const AT_SIX: Upload = &[
    Sent::Reading(METER, Register::I1, SIX, 1_001_000),
    Sent::Reading(METER, Register::I1, SIX, 1_001_200),
    Sent::Reading(METER, Register::I1, SIX, 1_001_500),
];

const TWO_WITHDRAWALS: Upload = &[
    Sent::ReadingWithdrawn(METER, Register::I1, SIX, 1_001_200),
    Sent::ReadingWithdrawn(METER, Register::I1, SIX, 1_001_500),
];

const PAYMENT_AND_READINGS: [Upload; 3] = [FIRST_OWNER, TOPUP, TWO_READINGS];

const BOTH_READINGS: &[Row] = &[
    (FIVE, 1_000_000, Standing::Counts),
    (SEVEN, 1_003_001, Standing::Counts),
];

// What the pair gives of energy, and leaves of the payment.
const BY_THE_PAIR: [u64; 12] = [0, 0, 0, 0, 1_500, 0, 1_501, 0, 0, 0, 0, 0];

const LEFT_BY_THE_PAIR: (u64, i128) = (5_000, 49_249_700_000);

const BEHIND_READINGS: Told = Told {
    records: 4,
    energies: BY_THE_PAIR,
    first: LEFT_BY_THE_PAIR,
    second: (0, 0),
    readings: BOTH_READINGS,
};

// Of the three readings at six, two are withdrawn, and the third counts.
const SETTLED: Told = Told {
    records: 9,
    energies: [0, 0, 0, 0, 1_000, 0, 2_001, 0, 0, 0, 0, 0],
    first: (5_000, 49_199_700_000),
    second: (0, 0),
    readings: &[
        (FIVE, 1_000_000, Standing::Counts),
        (SIX, 1_001_000, Standing::Counts),
        (SIX, 1_001_200, Standing::Withdrawn),
        (SIX, 1_001_500, Standing::Withdrawn),
        (SEVEN, 1_003_001, Standing::Counts),
    ],
};

// What the two files of a store hold.
#[derive(Drop)]
struct Image {
    log: Vec<u8>,
    db: Vec<u8>,
}

// What is uploaded to a store that tells one thing before and another behind, with a log of so many pages.
#[derive(Clone, Copy)]
struct Case<'a> {
    uploads: &'a [Upload],
    before: Told,
    behind: Told,
    pages: usize,
}

// The files give no connection, the connection no store, the store refuses an upload, or it takes all.
#[derive(Clone, Copy, PartialEq, Eq)]
enum End {
    NoConnection,
    NoStore,
    Refused,
    Taken,
}

// Whether the bytes are written to a file and synced.
fn is_written<D: Disk>(file: &mut D, bytes: &[u8]) -> bool {
    file.may_be_used()
        && file.write_at(0, bytes).is_ok()
        && file.may_be_used()
        && file.sync().is_ok()
}

// A file of these bytes, which stops behind so many calls.
fn file_of(rt: &impl Abort, alloc: Global, bytes: &[u8], calls: u64) -> Stopping {
    let mut file = Memory::new(alloc);
    assert!(rt; is_written(&mut file, bytes));
    Fuse::new(file, calls)
}

// Files of these bytes, each of which stops behind so many calls.
fn files_of(
    rt: &impl Abort,
    alloc: Global,
    log: &[u8],
    db: &[u8],
    (log_calls, db_calls): (u64, u64),
) -> Files<Stopping> {
    Files {
        log: file_of(rt, alloc, log, log_calls),
        db: file_of(rt, alloc, db, db_calls),
    }
}

// A connection of files, or the files that gave none.
fn connected<D: Disk + Drop>(
    rt: &impl Abort,
    alloc: Global,
    files: Files<D>,
    pages: usize,
) -> Result<Connection<FileStore<D>>, Files<D>> {
    assert!(rt; files.may_be_used());
    let mut options = Options::new(7);
    options.checkpoint_frames = pages;
    match Connection::open_files(alloc, files, options) {
        Ok(connection) => Ok(connection),
        Err((_, left)) => Err(left.into_files()),
    }
}

// Whether a book tells what it has to behind the uploads. Else it tells what it did before.
fn is_behind<S: Shelf>(rt: &impl Abort, alloc: Global, book: &mut Book<S>, case: &Case) -> bool {
    let behind = tells(rt, alloc, book, &case.behind);
    assert!(rt; behind || tells(rt, alloc, book, &case.before));
    behind
}

// The same of the book over a connection that has a store.
fn is_behind_on<S: Alter + Drop>(
    rt: &impl Abort,
    alloc: Global,
    connection: Connection<S>,
    case: &Case,
) -> bool {
    match book_on(alloc, connection, TWO_METERS, 100) {
        Ok(mut book) => {
            let is_behind = is_behind(rt, alloc, &mut book, case);
            done(book);
            is_behind
        }
        Err(_) => panic!(rt; "no store"),
    }
}

// The same of the book over files that give a connection.
fn is_behind_in<D: Disk + Drop>(
    rt: &impl Abort,
    alloc: Global,
    files: Files<D>,
    case: &Case,
) -> bool {
    match connected(rt, alloc, files, LONG) {
        Ok(connection) => is_behind_on(rt, alloc, connection, case),
        Err(_) => panic!(rt; "no connection"),
    }
}

// Whether an upload is taken. Else the device failed.
fn is_taken<S: Shelf>(rt: &impl Abort, alloc: Global, book: &mut Book<S>, upload: Upload) -> bool {
    let entries = entries_of(rt, alloc, upload);
    match post(rt, alloc, book, &entries) {
        Ok(_) => true,
        Err(PostFault::Device | PostFault::Reopen) => false,
        Err(_) => panic!(rt; "refused for another cause"),
    }
}

// The end of the uploads to a book.
fn end_of<S: Shelf>(rt: &impl Abort, alloc: Global, book: &mut Book<S>, uploads: &[Upload]) -> End {
    for upload in uploads {
        if !is_taken(rt, alloc, book, *upload) {
            return End::Refused;
        }
    }
    End::Taken
}

// The connection under a book.
fn connection_under<S: Alter>(book: Book<SqlShelf<S>>) -> Connection<S> {
    book.into_shelf().close()
}

// The uploads to a book, and its connection.
fn uploaded<S: Alter>(
    rt: &impl Abort,
    alloc: Global,
    mut book: Book<SqlShelf<S>>,
    uploads: &[Upload],
) -> (End, Connection<S>) {
    let end = end_of(rt, alloc, &mut book, uploads);
    (end, connection_under(book))
}

// The files under a connection, which isn't closed.
fn files_left<D: Disk + Drop>(connection: Connection<FileStore<D>>) -> Files<D> {
    connection.into_store().close()
}

// The files under a connection that is closed, so that it copies the log, as far as that goes.
fn files_closed<D: Disk + Drop>(connection: Connection<FileStore<D>>) -> Files<D> {
    match connection.close_files() {
        Ok(files) => files,
        Err((_, store)) => store.close(),
    }
}

fn files_of_connection<D: Disk + Drop>(
    connection: Connection<FileStore<D>>,
    closes: bool,
) -> Files<D> {
    if closes {
        files_closed(connection)
    } else {
        files_left(connection)
    }
}

// The uploads to a store on a connection: how they ended, and the files. The connection is closed, if it has a store and
// this is asked for.
fn attempt_on<D: Disk + Drop>(
    rt: &impl Abort,
    alloc: Global,
    connection: Connection<FileStore<D>>,
    uploads: &[Upload],
    closes: bool,
) -> (End, Files<D>) {
    match book_on(alloc, connection, TWO_METERS, 100) {
        Ok(book) => {
            let (end, connection) = uploaded(rt, alloc, book, uploads);
            (end, files_of_connection(connection, closes))
        }
        Err((fault, refused)) => {
            assert!(rt; fault == OpenFault::Store);
            (End::NoStore, files_left(refused))
        }
    }
}

// The uploads to a store on these files: how they ended, and the files.
fn attempt<D: Disk + Drop>(
    rt: &impl Abort,
    alloc: Global,
    files: Files<D>,
    uploads: &[Upload],
    pages: usize,
    closes: bool,
) -> (End, Files<D>) {
    match connected(rt, alloc, files, pages) {
        Ok(connection) => attempt_on(rt, alloc, connection, uploads, closes),
        Err(files) => (End::NoConnection, files),
    }
}

// Whether a file stopped, or would at its next call.
fn has_stopped<D: Disk>(file: &mut D) -> bool {
    !file.may_be_used() || file.len().is_err()
}

fn copy(rt: &impl Abort, alloc: Global, file: &Stopping) -> Vec<u8> {
    file.inner().bytes().to_vec(alloc).expect(rt, "memory")
}

// What a file may hold behind a stop: all that was written, or what was synced.
fn outcomes(rt: &impl Abort, alloc: Global, file: &mut Stopping) -> [Vec<u8>; 2] {
    let written = copy(rt, alloc, file);
    file.crash();
    [written, copy(rt, alloc, file)]
}

// Whatever a stop leaves in the files, nothing is there of the uploads or all; and all if they were taken.
fn leaves_whole(
    rt: &impl Abort,
    alloc: Global,
    files: &mut Files<Stopping>,
    end: End,
    case: &Case,
) {
    let logs = outcomes(rt, alloc, &mut files.log);
    let dbs = outcomes(rt, alloc, &mut files.db);
    for log in &logs {
        for db in &dbs {
            let files = files_of(rt, alloc, log, db, (ALL, ALL));
            assert!(rt; is_behind_in(rt, alloc, files, case) || end != End::Taken);
        }
    }
}

// The uploads to a store whose files stop behind so many calls: how they ended, and whether a file stopped.
fn attempt_stopped(
    rt: &impl Abort,
    alloc: Global,
    store: &Image,
    case: &Case,
    calls: (u64, u64),
) -> (End, bool) {
    let files = files_of(rt, alloc, &store.log, &store.db, calls);
    let (end, mut files) = attempt(rt, alloc, files, case.uploads, case.pages, true);
    let stopped = has_stopped(&mut files.log) || has_stopped(&mut files.db);
    leaves_whole(rt, alloc, &mut files, end, case);
    (end, stopped)
}

// One of the files stops behind each number of calls, until none is left out; this end is met.
fn stops_at_each(
    rt: &impl Abort,
    alloc: Global,
    store: &Image,
    case: &Case,
    log_stops: bool,
    met: End,
) {
    let mut times = 0u32;
    for calls in 0..ALL {
        let both = if log_stops {
            (calls, ALL)
        } else {
            (ALL, calls)
        };
        let (end, stopped) = attempt_stopped(rt, alloc, store, case, both);
        if end == met {
            times = times.saturating_add(1);
        }
        if !stopped {
            assert!(rt; end == End::Taken && times > 0);
            return;
        }
    }
    panic!(rt; "stopped each time");
}

fn image_of(rt: &impl Abort, alloc: Global, files: &Files<Stopping>) -> Image {
    Image {
        log: copy(rt, alloc, &files.log),
        db: copy(rt, alloc, &files.db),
    }
}

// The files of a new store behind uploads, which was closed if this is asked for.
fn new_files(rt: &impl Abort, alloc: Global, uploads: &[Upload], closes: bool) -> Files<Stopping> {
    let empty = files_of(rt, alloc, b"", b"", (ALL, ALL));
    let (end, files) = attempt(rt, alloc, empty, uploads, LONG, closes);
    assert!(rt; end == End::Taken);
    files
}
