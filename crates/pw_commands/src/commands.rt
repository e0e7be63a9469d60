//! What each command of the program does with the words that it is given, and with which exit status it ends.

ghost use Rattle.std.specs.Prelude.{◌≡◌, ◌⊎◌, ◌<◌, List, Some, ℕ, IfOk, IfErr};
ghost use Rattle.pw_time.specs.declared.zone.Clock.{Clock};
ghost use Rattle.pw_tariff.specs.Office.{office_of};
ghost use Rattle.pw_tariff.specs.Text.{IsOfficeOf};
ghost use Rattle.pw_model.specs.Office.{AllOfOffice};
ghost use Rattle.pw_report.specs.Pages.{IsPageOf};
ghost use Rattle.pw_words.specs.Words.{IsLimit, IsRefusal, IsSound};
ghost use Rattle.pw_words.specs.declared.commands.Command.TheVariants.{Read};
ghost use Rattle.pw_read.specs.Run.{IsRun};
ghost use Rattle.pw_commands.specs.Loads.{Gives, Refused};
ghost use Rattle.pw_commands.specs.inner.Months.{IsMonthOf, IsNoMonth};

use crate::adopting::adopt;
use crate::carrying::carry;
use crate::fault::Fault;
use crate::files::{LONGEST_OFFICE, read_file};
use crate::loading::load;
use crate::offices::{office_text, read_office};
use crate::pipe::pipe_run;
use crate::progress::{Follow, Progress};
use crate::server::Term;
use crate::serving::{origins_of, serve};
use crate::store::{FileBook, close_book, open_book};
use crate::telling::{finish, tell};
use crate::verifying::verify;
use pw_book::{Book, BookFault};
use pw_found::Purpose;
use pw_http::Audience;
use pw_model::{Distinct, MOST_RECORDS};
use pw_read::read_run;
use pw_record::{UploadBytes, UploadFault, UploadKind, upload_records};
use pw_report::{MonthPage, Page, month_of, page_text};
use pw_store::{SqlShelf, Watch};
use pw_tariff::Office;
use pw_time::Zone;
use pw_words::words::command;
use pw_words::{Command, Exported, SAMPLE, WordsFault};
use sqlite::Alter;
use std::alloc::Global;
use std::io::{Read, Write};

// The exit status for words that no command has.
const WRONG_WORDS: u8 = 2;

/// Does what the words behind the program's name ask for, and answers the exit status: 0; 1 where what was given is
/// refused; 2 for words that ask for no command; 3 where a file, socket, stream, store or memory failed.
///
/// What is asked for goes to `out`, and so does help; why there is none is a line to `err`. That a store was brought to a
/// later version is a line on the standard error of `rt`.
pub fn run<I: Read, O: Write, E: Write>(
    rt: &HostRuntime,
    words: &[&str],
    input: &mut I,
    out: &mut O,
    err: &mut E,
) -> u8 {
    let mut told = Progress::new(rt, rt.stderr(), false);
    run_watched(rt, words, input, out, err, &mut told)
}

/// Does what `run` does, and tells `watch` how far the opening of a store is, what it changed, and how far a load of many
/// files is.
pub fn run_watched<I: Read, O: Write, E: Write, W: Follow>(
    rt: &HostRuntime,
    words: &[&str],
    input: &mut I,
    out: &mut O,
    err: &mut E,
    watch: &mut W,
) -> u8 {
    match command(rt.alloc(), words) {
        Ok(asked) => obey(rt, asked, input, out, err, watch),
        Err(fault) => not_asked(rt.alloc(), fault, out, err),
    }
}

// Tells why words give no command, and answers the exit status.
fn not_asked<O: Write, E: Write>(alloc: Global, fault: WordsFault, out: &mut O, err: &mut E) -> u8
    ensures { IsRefusal fault → (result ≡ 2) ⊎ (result ≡ 3) }
{
    match fault {
        WordsFault::Help { text } => match out.write_all(text.as_bytes()) {
            Ok(()) => 0,
            Err(_) => tell(alloc, Fault::Device, err),
        },
        WordsFault::Words { text } => {
            let _ = err.write_all(text.as_bytes());
            WRONG_WORDS
        }
        WordsFault::Memory => tell(alloc, Fault::Memory, err),
    }
}

// Does what a command asks for, and answers the exit status.
fn obey<I: Read, O: Write, E: Write, W: Follow>(
    rt: &HostRuntime,
    asked: Command<'_>,
    input: &mut I,
    out: &mut O,
    err: &mut E,
    watch: &mut W,
) -> u8
    requires { IsSound asked }
    ensures read { (clock : Clock) (body : List ℕ) → asked.entry ≡ Read clock
        → I.remaining input.old ≡ Some body →
        IsRun clock body (O.contents out.old) (O.contents out.new) (E.contents err.old)
        (E.contents err.new) result }
{
    match asked {
        Command::Read { clock } => read_run(rt.alloc(), clock, input, out, err),
        Command::Pipe { office, limit } => pipe(rt, office, limit, input, out, err),
        Command::Check { office, verbose } => {
            finish(rt.alloc(), check(rt, office, verbose), out, err)
        }
        Command::Load(asked) => load(rt, asked, out, err, watch),
        Command::Statement {
            office,
            store,
            account,
        } => {
            finish(
                rt.alloc(),
                statement_of(rt, office, store, account, watch),
                out,
                err,
            )
        }
        Command::Month {
            what,
            office,
            store,
            account,
            month,
        } => {
            let asked = MonthAsked {
                what,
                account,
                month,
            };
            finish(
                rt.alloc(),
                month_page_of(rt, office, store, asked, watch),
                out,
                err,
            )
        }
        Command::Export {
            office,
            store,
            what,
        } => finish(rt.alloc(), export(rt, office, store, what, watch), out, err),
        Command::Serve {
            office,
            store,
            count,
            until_input_ends,
            port,
            limit,
            origins,
            tells,
        } => {
            let origins = match origins_of(rt.alloc(), origins.as_slice()) {
                Ok(origins) => origins,
                Err(fault) => return not_asked(rt.alloc(), fault, out, err),
            };
            let audience = Audience::Here(origins.as_slice());
            let term = Term {
                count,
                until_input_ends,
            };
            match book_at(rt, office, store, Purpose::Take, limit, watch) {
                Ok(book) => serve(rt, book, audience, term, port, tells, out, err),
                Err(fault) => tell(rt.alloc(), fault, err),
            }
        }
        Command::Adopt(asked) => adopt(rt, asked, out, err, watch),
        Command::Carry(asked) => carry(rt, asked, out, err, watch),
        Command::Verify(asked) => verify(rt, asked, out, err, watch),
    }
}

// A conversation over the streams, with the office of a file or the sample office.
fn pipe<I: Read, O: Write, E: Write>(
    rt: &HostRuntime,
    office: Option<&str>,
    limit: u32,
    input: &mut I,
    out: &mut O,
    err: &mut E,
) -> u8
    requires { IsLimit limit }
{
    match office {
        None => pipe_run(rt.alloc(), SAMPLE.as_bytes(), limit, input, out, err),
        Some(path) => match read_file(rt, path, LONGEST_OFFICE) {
            Ok(text) => pipe_run(rt.alloc(), text.as_slice(), limit, input, out, err),
            Err(fault) => tell(rt.alloc(), fault, err),
        },
    }
}

// How large the office of a file is; where it is asked for, its periods too.
fn check(rt: &HostRuntime, office: &str, verbose: bool) -> Result<Vec<u8>, Fault> {
    let (office, _text) = read_office(rt, office)?;
    Ok(office_text(rt.alloc(), &office, verbose)?)
}

/// The entries that a file of an upload gives, in order, each once, or why it is refused.
pub fn entries_of(
    rt: &HostRuntime,
    office: &Office,
    kind: UploadKind<'_>,
    body: &[u8],
) -> Result<Distinct, UploadFault>
    ensures entries { IfOk result (λ entries. Gives office.now kind.entry body.now entries) }
    ensures of_office { IfOk result (λ entries. AllOfOffice (office_of office.now) entries) }
    ensures refused { IfErr result (λ fault. Refused office.now kind.entry body.now fault) }
{
    let upload = UploadBytes { kind, body };
    upload_records(rt.alloc(), office, &Zone::central(), upload)
}

fn book_at<W: Watch>(
    rt: &HostRuntime,
    office: &str,
    store: &str,
    purpose: Purpose,
    limit: u32,
    watch: &mut W,
) -> Result<FileBook, Fault>
    requires { IsLimit limit }
{
    let (office, text) = read_office(rt, office)?;
    open_book(rt, store, purpose, office, text.as_slice(), limit, watch)
}

fn statement_of<W: Watch>(
    rt: &HostRuntime,
    office: &str,
    store: &str,
    account: &str,
    watch: &mut W,
) -> Result<Vec<u8>, Fault> {
    let (office, text) = read_office(rt, office)?;
    let Some(account) = office.account(account.as_bytes()) else {
        return Err(Fault::NoSuchAccount);
    };
    page_from(rt, store, office, &text, Page::Statement(account), watch)
}

// A page of an account for a month, by the words that name them.
#[derive(Clone, Copy)]
struct MonthAsked<'a> {
    what: MonthPage,
    account: &'a str,
    month: &'a str,
}

fn month_page_of<W: Watch>(
    rt: &HostRuntime,
    office: &str,
    store: &str,
    asked: MonthAsked<'_>,
    watch: &mut W,
) -> Result<Vec<u8>, Fault> {
    let (office, text) = read_office(rt, office)?;
    let page = month_page(&office, asked)?;
    page_from(rt, store, office, &text, page, watch)
}

// The page of an account for a month. The account is looked at first.
fn month_page(office: &Office, asked: MonthAsked<'_>) -> Result<Page, Fault>
    ensures page { IfOk result (IsPageOf office.now) }
    ensures known { IfOk result (IsMonthOf office.now asked.entry.what asked.entry.account.now
        asked.entry.month.now) }
    ensures refused { IfErr result (IsNoMonth office.now asked.entry.account.now
        asked.entry.month.now) }
{
    let Some(account) = office.account(asked.account.as_bytes()) else {
        return Err(Fault::NoSuchAccount);
    };
    let Some(month) = month_of(asked.month.as_bytes()) else {
        return Err(Fault::NoSuchMonth);
    };
    Ok(Page::Month(asked.what, account, month))
}

fn export<W: Watch>(
    rt: &HostRuntime,
    office: &str,
    store: &str,
    what: Exported<'_>,
    watch: &mut W,
) -> Result<Vec<u8>, Fault> {
    let (office, text) = read_office(rt, office)?;
    let page = page_of(&office, what)?;
    page_from(rt, store, office, &text, page, watch)
}

// The page that is to be exported.
fn page_of(office: &Office, what: Exported<'_>) -> Result<Page, Fault>
    ensures { IfOk result (IsPageOf office.now) }
{
    match what {
        Exported::Table(table) => Ok(Page::Table(table)),
        Exported::MeterReadings(id) => match office.meter(id.as_bytes()) {
            Some(meter) => Ok(Page::MeterReadings(meter)),
            None => Err(Fault::NoSuchMeter),
        },
    }
}

// A page of a store, which is opened to ask, and closed again.
fn page_from<W: Watch>(
    rt: &HostRuntime,
    store: &str,
    office: Office,
    text: &[u8],
    page: Page,
    watch: &mut W,
) -> Result<Vec<u8>, Fault>
    requires office { IsOfficeOf text.now office }
    requires page { IsPageOf office page }
{
    let mut book = open_book(rt, store, Purpose::Ask, office, text, MOST_RECORDS, watch)?;
    let told = shown(rt, &mut book, page);
    close_book(book)?;
    Ok(told?)
}

fn shown<S: Alter>(
    rt: &HostRuntime,
    book: &mut Book<SqlShelf<S>>,
    page: Page,
) -> Result<Vec<u8>, BookFault>
    requires { IsPageOf book.old.office page }
{
    page_text(book, rt.alloc(), page)
}
