//! Uploads in files, loaded into a store.

ghost use Rattle.pw_tariff.specs.Office.{office_of};
ghost use Rattle.pw_tariff.specs.Text.{IsOfficeOf};
ghost use Rattle.pw_model.specs.Office.{AllOfOffice};
ghost use Rattle.pw_words.specs.Words.{IsLimit};

use crate::commands::entries_of;
use crate::fault::Fault;
use crate::files::read_file;
use crate::listed::{Upload, uploads_from};
use crate::offices::read_office;
use crate::progress::{Follow, Loaded};
use crate::store::{close_book, open_book};
use crate::telling::{finish, tell};
use pw_book::{Accepted, Book};
use pw_found::Purpose;
use pw_http::LONGEST_BODY;
use pw_line::ended;
use pw_model::Distinct;
use pw_record::UploadKind;
use pw_shelf::Shelf;
use pw_store::{SqlShelf, Watch};
use pw_tariff::Office;
use pw_words::{Loading, Source, Target};
use sqlite::Alter;
use std::io::Write;
use std::{fs, io};

// No line of an accepted upload is longer, in bytes.
const LONGEST_LINE: usize = 64;

// Loads what a source has, and answers the exit status. Of one file the acceptance line goes to `out`, or the fault's to
// `err`; of more each line stands behind its file's name.
pub(crate) fn load<O: Write, E: Write, F: Follow>(
    rt: &HostRuntime,
    asked: Loading<'_>,
    out: &mut O,
    err: &mut E,
    follow: &mut F,
) -> u8
    requires { IsLimit asked.target.limit }
{
    if let Source::Files { kind, files } = &asked.source {
        if let [file] = files.as_slice() {
            let line = load_file(rt, asked.target, *kind, file, follow);
            return finish(rt.alloc(), line, out, err);
        }
    }
    match load_all(rt, asked, out, err, follow) {
        Ok(status) => status,
        Err(fault) => tell(rt.alloc(), fault, err),
    }
}

// The acceptance line of an upload that a store has taken.
fn load_file<W: Watch>(
    rt: &HostRuntime,
    target: Target<'_>,
    kind: UploadKind<'_>,
    file: &str,
    watch: &mut W,
) -> Result<Vec<u8>, Fault>
    requires { IsLimit target.limit }
{
    let (office, text) = read_office(rt, target.office)?;
    let body = read_file(rt, file, LONGEST_BODY as u32)?;
    let entries = entries_of(rt, &office, kind, body.as_slice())?;
    post_into(rt, target, office, &text, &entries, watch)
}

// Takes the entries of an upload into a store, and answers the acceptance line.
fn post_into<W: Watch>(
    rt: &HostRuntime,
    target: Target<'_>,
    office: Office,
    text: &[u8],
    entries: &Distinct,
    watch: &mut W,
) -> Result<Vec<u8>, Fault>
    requires office { IsOfficeOf text.now office }
    requires of_office { AllOfOffice (office_of office) entries.now }
    requires limit { IsLimit target.limit }
{
    let (store, limit) = (target.store, target.limit);
    let mut book = open_book(rt, store, Purpose::Take, office, text, limit, watch)?;
    let line = post_to_store(rt, &mut book, entries);
    close_book(book)?;
    line
}

// Posts entries to a book over any store that is written to as SQLite's are.
fn post_to_store<S: Alter>(
    rt: &HostRuntime,
    book: &mut Book<SqlShelf<S>>,
    entries: &Distinct,
) -> Result<Vec<u8>, Fault>
    requires { AllOfOffice (office_of book.old.office) entries.now }
{
    post(rt, book, entries)
}

fn post<S: Shelf>(
    rt: &HostRuntime,
    book: &mut Book<S>,
    entries: &Distinct,
) -> Result<Vec<u8>, Fault>
    requires { AllOfOffice (office_of book.old.office) entries.now }
{
    // Room for the line comes first, so that an upload which was accepted isn't told as refused.
    let mut line = Vec::with_capacity(rt.alloc(), LONGEST_LINE)?;
    let accepted = book.post_distinct(rt.alloc(), entries)?;
    line.extend_from_slice(ended(accepted.line()).as_str().as_bytes())?;
    Ok(line)
}

// Loads what a source names, each upload whole or not at all, and answers the exit status. That all files are there is seen
// before the store is opened.
fn load_all<O: Write, E: Write, F: Follow>(
    rt: &HostRuntime,
    asked: Loading<'_>,
    out: &mut O,
    err: &mut E,
    follow: &mut F,
) -> Result<u8, Fault>
    requires { IsLimit asked.target.limit }
{
    let Loading { target, source } = asked;
    let (office, text) = read_office(rt, target.office)?;
    let mut lines = Vec::new(rt.alloc());
    let uploads = uploads_from(rt, source, &mut lines)?;
    if !are_there(rt, &uploads, err) {
        return Ok(Fault::Device.status());
    }
    let (store, limit) = (target.store, target.limit);
    let mut book = open_book(rt, store, Purpose::Take, office, &text, limit, follow)?;
    let status = take_to_store(rt, &mut book, &uploads, out, err, follow);
    close_book(book)?;
    Ok(status)
}

// Whether each upload's file is there. Those that aren't are told.
pub(crate) fn are_there<E: Write>(rt: &HostRuntime, uploads: &[Upload<'_>], err: &mut E) -> bool {
    let mut all = true;
    for upload in uploads {
        let is_there = match fs::metadata(rt, upload.path.as_str()) {
            Ok(found) => !found.is_dir(),
            Err(_) => false,
        };
        if !is_there {
            tell_of(upload, Fault::Device, err);
            all = false;
        }
    }
    all
}

// Takes uploads into a book over any store that is written to as SQLite's are.
fn take_to_store<S: Alter, O: Write, E: Write, F: Follow>(
    rt: &HostRuntime,
    book: &mut Book<SqlShelf<S>>,
    uploads: &[Upload<'_>],
    out: &mut O,
    err: &mut E,
    follow: &mut F,
) -> u8 {
    take_all(rt, book, uploads, out, err, follow)
}

// Takes uploads into a book, one behind another, and answers the exit status. One that is refused for what its file holds
// doesn't stop the rest; what else fails does.
fn take_all<S: Shelf, O: Write, E: Write, F: Follow>(
    rt: &HostRuntime,
    book: &mut Book<S>,
    uploads: &[Upload<'_>],
    out: &mut O,
    err: &mut E,
    follow: &mut F,
) -> u8 {
    let mut status = 0;
    let mut loaded = Loaded::none_of(uploads.len());
    for upload in uploads {
        match taken(rt, book, upload, out, follow) {
            Ok(accepted) => loaded.add(accepted),
            Err(fault) => {
                follow.clear();
                tell_of(upload, fault, err);
                if !is_of_file(fault) {
                    let _ = writeln!(err, "powerbook: stopped: {loaded}");
                    return fault.status();
                }
                loaded.pass();
                status = fault.status();
            }
        }
        follow.loaded(&loaded);
    }
    follow.clear();
    status
}

// Takes an upload into a book, and tells it.
fn taken<S: Shelf, O: Write, F: Follow>(
    rt: &HostRuntime,
    book: &mut Book<S>,
    upload: &Upload<'_>,
    out: &mut O,
    follow: &mut F,
) -> Result<Accepted, Fault> {
    let accepted = take(rt, book, upload)?;
    follow.clear();
    match told_of(upload, accepted, out) {
        Ok(()) => Ok(accepted),
        Err(_) => Err(Fault::Device),
    }
}

// Takes an upload into a book.
fn take<S: Shelf>(
    rt: &HostRuntime,
    book: &mut Book<S>,
    upload: &Upload<'_>,
) -> Result<Accepted, Fault> {
    let body = read_file(rt, upload.path.as_str(), LONGEST_BODY as u32)?;
    let entries = entries_of(rt, book.office(), upload.kind, body.as_slice())?;
    Ok(book.post_distinct(rt.alloc(), &entries)?)
}

// Whether a fault says only that the file of an upload is wrong.
pub(crate) fn is_of_file(fault: Fault) -> bool {
    match fault {
        Fault::Upload(_) | Fault::TooLarge => fault.status() == 1,
        _ => false,
    }
}

fn told_of<O: Write>(upload: &Upload<'_>, accepted: Accepted, out: &mut O) -> io::Result<()> {
    writeln!(out, "{}: {}", upload.path, accepted.line().as_str())?;
    out.flush()
}

// Tells why an upload is refused, behind its file's name.
pub(crate) fn tell_of<E: Write>(upload: &Upload<'_>, fault: Fault, err: &mut E) {
    let _ = writeln!(err, "{}: {fault}", upload.path);
}
