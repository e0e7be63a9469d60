//! All records of a store, taken into a new store of another office file.

ghost use Rattle.pw_tariff.specs.Text.{IsOfficeOf};

use crate::fault::Fault;
use crate::offices::read_office;
use crate::progress::Follow;
use crate::records::{account_name, put_record};
use crate::store::{close_book, open_book};
use crate::telling::{finish, tell, write_whole};
use pw_book::{Book, BookFault};
use pw_carrying::{CarryFault, carry_into};
use pw_found::{Cause, Place, Purpose};
use pw_model::{Entry, MOST_RECORDS, NANO_IN_CENT};
use pw_shelf::Shelf;
use pw_store::SqlShelf;
use pw_tariff::{AccountId, Office};
use pw_words::Carriage;
use sqlite::Alter;
use sqlite_std_file::Wary;
use std::alloc::{AllocError, Global};
use std::fmt;
use std::fs::{self, File};
use std::io::{self, ErrorKind, Write};

// The paths at which a new store is made: its own and that of the log beside it; and those at which it stands until it is
// whole.
#[derive(Drop)]
struct Paths {
    file: String,
    log: String,
    part: String,
    part_log: String,
}

// Takes all records of a store into a new one, and answers the exit status. How many they were, and each account whose
// balance is another one, is told to `out`; the first record that the new office can't hold to `err`.
pub(crate) fn carry<O: Write, E: Write, F: Follow>(
    rt: &HostRuntime,
    asked: Carriage<'_>,
    out: &mut O,
    err: &mut E,
    follow: &mut F,
) -> u8 {
    match carried(rt, asked, err, follow) {
        Ok(text) => finish(rt.alloc(), Ok(text), out, err),
        Err(fault) => tell(rt.alloc(), fault, err),
    }
}

fn carried<E: Write, F: Follow>(
    rt: &HostRuntime,
    asked: Carriage<'_>,
    err: &mut E,
    follow: &mut F,
) -> Result<Vec<u8>, Fault> {
    let (office, text) = read_office(rt, asked.office)?;
    let (new, new_text) = read_office(rt, asked.new_office)?;
    carry_store(rt, asked, office, &text, new, &new_text, err, follow)
}

// Carries the store of an office file into a new store of another one, once both files are read.
fn carry_store<E: Write, F: Follow>(
    rt: &HostRuntime,
    asked: Carriage<'_>,
    office: Office,
    text: &[u8],
    new: Office,
    new_text: &[u8],
    err: &mut E,
    follow: &mut F,
) -> Result<Vec<u8>, Fault>
    requires old { IsOfficeOf text.now office }
    requires new { IsOfficeOf new_text.now new }
{
    let paths = paths_of(rt.alloc(), asked.new_store)?;
    see_free(rt, &paths)?;
    let store = asked.store;
    let mut from = open_book(rt, store, Purpose::Ask, office, text, MOST_RECORDS, follow)?;
    let told = carry_from(rt, &mut from, store, &paths, new, new_text, err, follow);
    close_book(from)?;
    told
}

fn paths_of(alloc: Global, store: &str) -> Result<Paths, AllocError> {
    Ok(Paths {
        file: String::from_str(alloc, store)?,
        log: format!(in alloc; "{store}-wal")?,
        part: format!(in alloc; "{store}.part")?,
        part_log: format!(in alloc; "{store}.part-wal")?,
    })
}

// Whether something is at a path, a link that leads nowhere too.
fn is_there(rt: &HostRuntime, path: &str) -> bool {
    match fs::symlink_metadata(rt, path) {
        Ok(_) => true,
        Err(error) => error.kind() != ErrorKind::NotFound,
    }
}

// Refuses a path of a new store at which something is, or beside which a log is.
fn see_free(rt: &HostRuntime, paths: &Paths) -> Result<(), Fault> {
    if is_there(rt, &paths.file) || is_there(rt, &paths.log) {
        return Err(Fault::NotFree);
    }
    Ok(())
}

// Carries what a book holds into the new store, and puts that in its place once it is whole; else nothing of it is left,
// unless another run has it open. The book's own log, which its opening has made, is no path for it.
fn carry_from<S: Alter, E: Write, F: Follow>(
    rt: &HostRuntime,
    from: &mut Book<SqlShelf<S>>,
    store: &str,
    paths: &Paths,
    new: Office,
    new_text: &[u8],
    err: &mut E,
    follow: &mut F,
) -> Result<Vec<u8>, Fault>
    requires { IsOfficeOf new_text.now new }
{
    see_free(rt, paths)?;
    clear(rt, store, paths)?;
    let told = carry_to(rt, from, &paths.part, new, new_text, err, follow);
    match placed(rt, paths, told) {
        Err(fault) if fault != Fault::Unopened(Cause::InUse) => {
            remove(rt, &paths.part)?;
            remove(rt, &paths.part_log)?;
            Err(fault)
        }
        placed => placed,
    }
}

// Carries what a book holds into a new store at a path, which is closed behind it.
fn carry_to<S: Alter, E: Write, F: Follow>(
    rt: &HostRuntime,
    from: &mut Book<SqlShelf<S>>,
    path: &str,
    new: Office,
    new_text: &[u8],
    err: &mut E,
    follow: &mut F,
) -> Result<Vec<u8>, Fault>
    requires { IsOfficeOf new_text.now new }
{
    let mut into = open_book(rt, path, Purpose::Take, new, new_text, MOST_RECORDS, follow)?;
    let told = carry_stores(rt.alloc(), from, &mut into, err, follow);
    close_book(into)?;
    told
}

// Has a new store that is whole be found at its path, if that is still free.
fn placed(rt: &HostRuntime, paths: &Paths, told: Result<Vec<u8>, Fault>) -> Result<Vec<u8>, Fault> {
    let text = told?;
    see_free(rt, paths)?;
    match put_in_place(rt, paths) {
        Ok(()) => Ok(text),
        Err(_) => Err(Fault::Device),
    }
}

// Takes away what a run that was stopped has left, unless the store itself stands there, or a run goes on with it: that
// has locked it.
fn clear(rt: &HostRuntime, store: &str, paths: &Paths) -> Result<(), Fault> {
    see_other(rt, store, &paths.part)?;
    see_other(rt, store, &paths.part_log)?;
    if !is_there(rt, &paths.part) {
        return remove(rt, &paths.part_log);
    }
    let place = Place::at(rt, &paths.part)?;
    let _locked = place.open(rt, Wary)?;
    remove(rt, &paths.part)?;
    remove(rt, &paths.part_log)
}

// Refuses a path at which a store itself stands.
fn see_other(rt: &HostRuntime, store: &str, path: &str) -> Result<(), Fault> {
    if !is_there(rt, path) {
        return Ok(());
    }
    let (Ok(kept), Ok(found)) = (fs::canonicalize(rt, store), fs::canonicalize(rt, path)) else {
        return Err(Fault::Device);
    };
    if kept.as_str() == found.as_str() {
        return Err(Fault::NotFree);
    }
    Ok(())
}

// Takes a file away, if it is there.
fn remove(rt: &HostRuntime, path: &str) -> Result<(), Fault> {
    match fs::remove_file(rt, path) {
        Err(error) if error.kind() != ErrorKind::NotFound => Err(Fault::Device),
        _ => Ok(()),
    }
}

// Carries what a book holds into another one, over any stores that are written to as SQLite's are.
fn carry_stores<S: Alter, T: Alter, E: Write, F: Follow>(
    alloc: Global,
    from: &mut Book<SqlShelf<S>>,
    into: &mut Book<SqlShelf<T>>,
    err: &mut E,
    follow: &mut F,
) -> Result<Vec<u8>, Fault> {
    carry_between(alloc, from, into, err, follow)
}

// Carries what a book holds into another one: how many records they were, and the balances that differ.
fn carry_between<S: Shelf, T: Shelf, E: Write, F: Follow>(
    alloc: Global,
    from: &mut Book<S>,
    into: &mut Book<T>,
    err: &mut E,
    follow: &mut F,
) -> Result<Vec<u8>, Fault> {
    let records = match carry_into(alloc, from, into, follow) {
        Ok(records) => records,
        Err(CarryFault::Record(record)) => {
            follow.clear();
            tell_record(alloc, from.office(), &record, err)?;
            return Err(Fault::NotCarried);
        }
        Err(CarryFault::Post(fault)) => return Err(Fault::Post(fault)),
        Err(CarryFault::Book(fault)) => return Err(Fault::Book(fault)),
        Err(CarryFault::Memory) => return Err(Fault::Memory),
    };
    follow.clear();
    let line = format!(in alloc; "carried {records} records\n")?;
    let mut text = line.into_bytes();
    let carried = text.len();
    put_balances(&mut text, from, into)?;
    if text.len() == carried {
        text.extend_from_slice(b"no balance differs\n")?;
    }
    Ok(text)
}

// Tells the record that can't be carried.
fn tell_record<E: Write>(
    alloc: Global,
    office: &Office,
    record: &Entry,
    err: &mut E,
) -> Result<(), Fault> {
    let mut text = Vec::new(alloc);
    if put_record(&mut text, office, record).is_err() || text.push(b'\n').is_err() {
        return Err(Fault::Memory);
    }
    write_whole(err, text.as_slice())
}

// A line for each account of both offices whose balances differ, by less than a cent too: `A1 49.24 50.11`.
fn put_balances<S: Shelf, T: Shelf>(
    text: &mut Vec<u8>,
    from: &mut Book<S>,
    into: &mut Book<T>,
) -> Result<(), Fault> {
    for account in 0..from.office().accounts() {
        let account = AccountId(account);
        let name = account_name(from.office(), account);
        let Some(place) = into.office().account(name.as_bytes()) else {
            continue;
        };
        let before = balance_at(from, account)?;
        let after = balance_at(into, place)?;
        if before != after && put_balance(text, from.office(), account, before, after).is_err() {
            return Err(Fault::Memory);
        }
    }
    Ok(())
}

// The balance of an account; of one that the office hasn't 0.
fn balance_at<T: Shelf>(book: &mut Book<T>, account: AccountId) -> Result<i128, BookFault> {
    if account.0 < book.office().accounts() {
        book.balance(account)
    } else {
        Ok(0)
    }
}

fn put_balance(
    text: &mut Vec<u8>,
    office: &Office,
    account: AccountId,
    before: i128,
    after: i128,
) -> io::Result<()> {
    let (name, before, after) = (account_name(office, account), Nano(before), Nano(after));
    writeln!(text, "{name} {before} {after}")
}

// An amount in nano-euro, told in euro: the greatest whole number of cents that isn't above it.
#[derive(Clone, Copy)]
struct Nano(i128);

impl fmt::Display for Nano {
    fn fmt<W: fmt::Write>(&self, f: &mut fmt::Formatter<W>) -> fmt::Result {
        let cents = self.0.div_euclid(NANO_IN_CENT as i128);
        let sign = if cents < 0 { "-" } else { "" };
        let cents = cents.unsigned_abs();
        write!(f, "{sign}{}.{:02}", cents / 100, cents % 100)
    }
}

// Has a new store that is whole, and closed, be found at its path, whatever comes behind.
fn put_in_place(rt: &HostRuntime, paths: &Paths) -> io::Result<()> {
    File::open(rt, &paths.part)?.sync_all()?;
    match fs::remove_file(rt, &paths.part_log) {
        Err(error) if error.kind() != ErrorKind::NotFound => return Err(error),
        _ => {}
    }
    fs::rename(rt, &paths.part, &paths.file)?;
    File::open(rt, folder_of(&paths.file))?.sync_all()
}

fn folder_of(path: &str) -> &str {
    match path.rfind('/') {
        Some(0) => "/",
        Some(at) => &path[..at],
        None => ".",
    }
}
