//! Files of uploads read again: which of their records a store lacks.

ghost use Rattle.pw_tariff.specs.Text.{IsOfficeOf};

use crate::commands::entries_of;
use crate::fault::Fault;
use crate::files::read_file;
use crate::listed::{Upload, uploads_from};
use crate::loading::{are_there, is_of_file, tell_of};
use crate::offices::read_office;
use crate::records::put_record;
use crate::store::{close_book, open_book};
use crate::telling::{tell, write_whole};
use pw_book::Book;
use pw_carrying::{lacking, unsent};
use pw_found::Purpose;
use pw_http::LONGEST_BODY;
use pw_model::{Entry, MOST_RECORDS};
use pw_shelf::Shelf;
use pw_store::{SqlShelf, Watch};
use pw_tariff::Office;
use pw_words::Verification;
use sqlite::Alter;
use std::alloc::Global;
use std::io::{self, Write};

// What was found so far: how many records the files have, how many of them the store lacks, how many of the store's stand in
// no file, and whether a file is refused.
#[derive(Clone, Copy)]
struct Found {
    records: u64,
    lacking: u64,
    unsent: u64,
    is_refused: bool,
}

// Reads uploads again, tells the records that the store lacks, and answers the exit status: 0 where none is lacking, 1
// where some are or a file is refused, 3 where something failed.
pub(crate) fn verify<O: Write, E: Write, W: Watch>(
    rt: &HostRuntime,
    asked: Verification<'_>,
    out: &mut O,
    err: &mut E,
    watch: &mut W,
) -> u8 {
    match verified(rt, asked, out, err, watch) {
        Ok(status) => status,
        Err(fault) => tell(rt.alloc(), fault, err),
    }
}

fn verified<O: Write, E: Write, W: Watch>(
    rt: &HostRuntime,
    asked: Verification<'_>,
    out: &mut O,
    err: &mut E,
    watch: &mut W,
) -> Result<u8, Fault> {
    let Verification {
        office,
        store,
        source,
        all,
    } = asked;
    let (office, text) = read_office(rt, office)?;
    let mut lines = Vec::new(rt.alloc());
    let uploads = uploads_from(rt, source, &mut lines)?;
    verify_in(rt, store, office, &text, &uploads, all, out, err, watch)
}

// Verifies uploads against the store at a path, once all their files are there.
fn verify_in<O: Write, E: Write, W: Watch>(
    rt: &HostRuntime,
    store: &str,
    office: Office,
    text: &[u8],
    uploads: &[Upload<'_>],
    all: bool,
    out: &mut O,
    err: &mut E,
    watch: &mut W,
) -> Result<u8, Fault>
    requires { IsOfficeOf text.now office }
{
    if !are_there(rt, uploads, err) {
        return Ok(Fault::Device.status());
    }
    let mut book = open_book(rt, store, Purpose::Ask, office, text, MOST_RECORDS, watch)?;
    let status = verify_store(rt, &mut book, uploads, all, out, err);
    close_book(book)?;
    status
}

// Verifies uploads against a book over any store that is written to as SQLite's are.
fn verify_store<S: Alter, O: Write, E: Write>(
    rt: &HostRuntime,
    book: &mut Book<SqlShelf<S>>,
    uploads: &[Upload<'_>],
    all: bool,
    out: &mut O,
    err: &mut E,
) -> Result<u8, Fault> {
    verify_all(rt, book, uploads, all, out, err)
}

// Verifies uploads against a book, one behind another, and answers the exit status. One that is refused for what its file
// holds doesn't stop the rest; what else fails does.
fn verify_all<S: Shelf, O: Write, E: Write>(
    rt: &HostRuntime,
    book: &mut Book<S>,
    uploads: &[Upload<'_>],
    all: bool,
    out: &mut O,
    err: &mut E,
) -> Result<u8, Fault> {
    let mut found = Found::none();
    let mut sent = Vec::new(rt.alloc());
    for upload in uploads {
        match verify_one(rt, book, upload, out, &mut found) {
            Ok(entries) => {
                if all {
                    sent.extend_from_slice(entries.as_slice())?;
                }
            }
            Err(fault) if is_of_file(fault) => {
                tell_of(upload, fault, err);
                found.is_refused = true;
            }
            Err(fault) => return Err(fault),
        }
    }
    if all {
        tell_unsent(rt, book, sent, out, &mut found)?;
    }
    tell_sum(rt.alloc(), found, all, out)?;
    Ok(found.status())
}

impl Found {
    fn none() -> Found {
        Found {
            records: 0,
            lacking: 0,
            unsent: 0,
            is_refused: false,
        }
    }

    fn status(self) -> u8 {
        u8::from(self.is_refused || self.lacking > 0 || self.unsent > 0)
    }
}

// Tells the records of an upload that a book lacks, and answers all its records.
fn verify_one<S: Shelf, O: Write>(
    rt: &HostRuntime,
    book: &mut Book<S>,
    upload: &Upload<'_>,
    out: &mut O,
    found: &mut Found,
) -> Result<Vec<Entry>, Fault> {
    let body = read_file(rt, upload.path.as_str(), LONGEST_BODY as u32)?;
    let entries = entries_of(rt, book.office(), upload.kind, body.as_slice())?.into_entries();
    let lacking = lacking(rt.alloc(), book, entries.as_slice())?;
    found.records = found.records.saturating_add(entries.len() as u64);
    found.lacking = found.lacking.saturating_add(lacking.len() as u64);
    let (office, path) = (book.office(), upload.path.as_str());
    tell_records(rt.alloc(), office, path, lacking.as_slice(), out)?;
    Ok(entries)
}

// Tells the records of a book that stand in none of the uploads.
fn tell_unsent<S: Shelf, O: Write>(
    rt: &HostRuntime,
    book: &mut Book<S>,
    mut sent: Vec<Entry>,
    out: &mut O,
    found: &mut Found,
) -> Result<(), Fault> {
    sent.sort_unstable();
    let unsent = unsent(rt.alloc(), book, sent.as_slice())?;
    found.unsent = unsent.len() as u64;
    tell_records(
        rt.alloc(),
        book.office(),
        "in no file",
        unsent.as_slice(),
        out,
    )
}

// A line for each record, behind what is said of it.
fn tell_records<O: Write>(
    alloc: Global,
    office: &Office,
    said: &str,
    records: &[Entry],
    out: &mut O,
) -> Result<(), Fault> {
    let mut text = Vec::new(alloc);
    for record in records {
        if put_line(&mut text, office, said, record).is_err() {
            return Err(Fault::Memory);
        }
    }
    write_whole(out, text.as_slice())
}

// `reading 4D31 I1 2024-01-02T05:00:00Z 1000000` behind what is said of it.
fn put_line(text: &mut Vec<u8>, office: &Office, said: &str, record: &Entry) -> io::Result<()> {
    write!(text, "{said}: ")?;
    put_record(text, office, record)?;
    text.write_all(b"\n")
}

// How many records the files have, and how many of them are lacking; of `all`, how many of the store's stand in no file.
fn tell_sum<O: Write>(alloc: Global, found: Found, all: bool, out: &mut O) -> Result<(), Fault> {
    let Found {
        records,
        lacking,
        unsent,
        ..
    } = found;
    let line = if all {
        format!(in alloc; "records {records} lacking {lacking} in no file {unsent}\n")?
    } else {
        format!(in alloc; "records {records} lacking {lacking}\n")?
    };
    write_whole(out, line.as_bytes())
}
