//! What a book answers: to an upload, to a question for a page, and where a file of the page is asked for.

ghost use Rattle.arrayvec.specs.ArrayString.{array_string_len};
ghost use Rattle.std.specs.Prelude.{◌≡◌, ◌<◌, ◌≤◌, length};
ghost use Rattle.pw_book.specs.After.{Refused};
ghost use Rattle.pw_record.specs.Laws.{upload_with};
ghost use Rattle.pw_report.specs.Pages.{IsPageOf};
ghost use Rattle.pw_http.specs.Steps.{AnswersAt, Shows, ShowsAccount, ShowsMeter, ShowsMonth, ShowsMonthOf, Takes, file_reply, line_reply, page_content, posted_reply, posted_status as status_posted, refused_status as status_refused, upload_reply};
ghost use Rattle.pw_http.specs.declared.routes.Place.TheVariants.{At};
ghost use Rattle.pw_http.specs.inner.Answered.{body_text, reply_of};

use crate::replies::{ContentType, Status};
use crate::routes::{Route, account_in, exported_meter_in, meter_in, month_in};
use pw_book::{Accepted, Book, PostFault};
use pw_line::{Line, ROOM, ended, line_of};
use pw_page::File;
use pw_record::{Cause, UploadBytes, UploadFault, UploadKind, upload_records};
use pw_report::{MonthPage, Page, Table, month_of, page_text};
use pw_shelf::Shelf;
use pw_tariff::AccountId;
use std::alloc::Global;

// The body of an answer. Only a page takes memory.
#[derive(Drop)]
pub(crate) enum Body {
    Line(Line),
    Page(Vec<u8>),
    File(&'static str),
}

// An answer that wasn't written yet.
#[derive(Drop)]
pub(crate) struct Answer {
    pub(crate) status: Status,
    pub(crate) content: ContentType,
    pub(crate) body: Body,
}

impl Answer {
    // A line, with its end.
    fn of_line(status: Status, line: Line) -> Answer
        requires { array_string_len line < ROOM }
        ensures { reply_of result ≡ line_reply status line.bytes }
    {
        Answer {
            status,
            content: ContentType::Plain,
            body: Body::Line(ended(line)),
        }
    }

    // The bytes of the body.
    pub(crate) fn bytes(&self) -> &[u8]
        ensures { result.now ≡ body_text self.now.body }
    {
        match &self.body {
            Body::Line(line) => line.as_str().as_bytes(),
            Body::Page(text) => text,
            Body::File(text) => text.as_bytes(),
        }
    }
}

// What is said where nothing is asked of the book.
pub(crate) fn said(status: Status, text: &str) -> Answer
    requires { length text.now ≤ 40 }
    ensures { reply_of result ≡ line_reply status text.now }
{
    Answer::of_line(status, line_of(text))
}

// The answer with a file of the page to look at: the book is asked nothing.
fn given(file: File) -> Answer
    ensures { reply_of result ≡ file_reply file }
{
    Answer {
        status: Status::Fine,
        content: ContentType::File(file),
        body: Body::File(file.text()),
    }
}

fn refused_status(cause: Cause) -> Status
    ensures { result ≡ status_refused cause }
{
    match cause {
        Cause::Memory => Status::Unavailable,
        _ => Status::BadRequest,
    }
}

// What is answered to an upload that is refused in reading its body.
fn refused(fault: UploadFault) -> Answer
    ensures { reply_of result ≡ upload_reply (Refused fault) }
{
    Answer::of_line(refused_status(fault.cause), fault.line())
}

fn posted_status(fault: PostFault) -> Status
    ensures { result ≡ status_posted fault }
{
    match fault {
        PostFault::Full { .. } => Status::InsufficientStorage,
        PostFault::Device | PostFault::Memory | PostFault::Reopen => Status::Unavailable,
    }
}

// What is answered to an upload that was posted.
fn posted(answer: Result<Accepted, PostFault>) -> Answer
    ensures { reply_of result ≡ posted_reply answer }
{
    match answer {
        Ok(accepted) => Answer::of_line(Status::Fine, accepted.line()),
        Err(fault) => Answer::of_line(posted_status(fault), fault.line()),
    }
}

// What the book answers to a body that is uploaded.
fn take<S: Shelf>(book: &mut Book<S>, alloc: Global, kind: UploadKind, body: &[u8]) -> Answer
    ensures { Takes S.Shelf (upload_with kind.entry body.now) book.old (reply_of result) book.new }
{
    let upload = UploadBytes { kind, body };
    match upload_records(alloc, book.office(), book.zone(), upload) {
        Err(fault) => refused(fault),
        Ok(entries) => posted(book.post_distinct(alloc, &entries)),
    }
}

fn content_of(page: Page) -> ContentType
    ensures { result ≡ page_content page }
{
    match page {
        Page::Month(MonthPage::Days | MonthPage::Why, _, _) | Page::MeterReadings(_) => {
            ContentType::Csv
        }
        Page::Table(
            Table::Readings
            | Table::Energies
            | Table::Assignments
            | Table::TopUps
            | Table::Withdrawals,
        ) => ContentType::Csv,
        Page::Statement(_) | Page::Month(MonthPage::Bill, _, _) | Page::Table(_) => {
            ContentType::Plain
        }
    }
}

// What the book answers where a page is asked for.
fn show<S: Shelf>(book: &mut Book<S>, alloc: Global, page: Page) -> Answer
    requires { IsPageOf book.old.office page }
    ensures { Shows S.Shelf page book.old (reply_of result) book.new }
{
    match page_text(book, alloc, page) {
        Ok(text) => Answer {
            status: Status::Fine,
            content: content_of(page),
            body: Body::Page(text),
        },
        Err(fault) => Answer::of_line(Status::Unavailable, fault.line()),
    }
}

// Asks for the statement of the account of a name.
fn show_account<S: Shelf>(book: &mut Book<S>, alloc: Global, name: &[u8]) -> Answer
    ensures { ShowsAccount S.Shelf name.now book.old (reply_of result) book.new }
{
    match book.office().account(name) {
        Some(account) => show(book, alloc, Page::Statement(account)),
        None => said(Status::NotFound, "no such account"),
    }
}

// Asks for a page of the account of a name for the month of a text. The account is looked at first.
fn show_month<S: Shelf>(
    book: &mut Book<S>,
    alloc: Global,
    what: MonthPage,
    name: &[u8],
    text: &[u8],
) -> Answer
    ensures { ShowsMonth S.Shelf what name.now text.now book.old (reply_of result) book.new }
{
    let Some(account) = book.office().account(name) else {
        return said(Status::NotFound, "no such account");
    };
    show_month_of(book, alloc, what, account, text)
}

// Asks for a page of an account for the month of a text.
fn show_month_of<S: Shelf>(
    book: &mut Book<S>,
    alloc: Global,
    what: MonthPage,
    account: AccountId,
    text: &[u8],
) -> Answer
    requires { account.0 < length book.old.office.accounts }
    ensures { ShowsMonthOf S.Shelf what account text.now book.old (reply_of result) book.new }
{
    match month_of(text) {
        Some(month) => show(book, alloc, Page::Month(what, account, month)),
        None => said(Status::NotFound, "no such month"),
    }
}

// Asks for the readings of the meter of an id.
fn show_meter<S: Shelf>(book: &mut Book<S>, alloc: Global, id: &[u8]) -> Answer
    ensures { ShowsMeter S.Shelf id.now book.old (reply_of result) book.new }
{
    match book.office().meter(id) {
        Some(meter) => show(book, alloc, Page::MeterReadings(meter)),
        None => said(Status::NotFound, "no such meter"),
    }
}

// What a book answers to a request that goes to a route.
pub(crate) fn answer_at<S: Shelf>(
    book: &mut Book<S>,
    alloc: Global,
    route: Route,
    target: &[u8],
    body: &[u8],
) -> Answer
    ensures { AnswersAt S.Shelf (At route) target.now body.now book.old (reply_of result) book.new }
{
    match route {
        Route::Telegrams => take(book, alloc, UploadKind::Telegrams, body),
        Route::Readouts => take(book, alloc, UploadKind::Readouts(meter_in(target)), body),
        Route::Assignments => take(book, alloc, UploadKind::Assignments, body),
        Route::TopUps => take(book, alloc, UploadKind::TopUps, body),
        Route::Withdrawals => take(book, alloc, UploadKind::Withdrawals, body),
        Route::Account => show_account(book, alloc, account_in(target)),
        Route::Month(what) => {
            let (name, text) = (account_in(target), month_in(target));
            show_month(book, alloc, what, name, text)
        }
        Route::MeterReadings => show_meter(book, alloc, exported_meter_in(target)),
        Route::Table(table) => show(book, alloc, Page::Table(table)),
        Route::File(file) => given(file),
    }
}
