//! The text of a reply. It takes no memory.

ghost use Rattle.std.specs.Prelude.{◌≡◌, ◌≤◌, ◌++◌, codes, length};
ghost use Rattle.pw_http.specs.Replies.{close_line, content_name, file_headers, refusal_line, refusal_status, reply_head, status_told};
ghost use Rattle.pw_http.specs.inner.Fronts.{rest_of_head};

use crate::requests::Refusal;
use http::StatusCode;
use pw_line::{Line, push_number};
use pw_page::File;

/// The status of a reply.
#[derive(Clone, Copy, Debug, PartialEq, Eq)]
pub enum Status {
    Fine,
    BadRequest,
    Forbidden,
    NotFound,
    MethodNotAllowed,
    PayloadTooLarge,
    NotImplemented,
    Unavailable,
    InsufficientStorage,
}

/// What a reply's body is.
#[derive(Clone, Copy, Debug, PartialEq, Eq)]
pub enum ContentType {
    Plain,
    Csv,
    /// A file of the page.
    File(File),
}

impl Status {
    /// The number of the status.
    pub fn number(self) -> u16
        ensures { result ≡ (status_told self).0 }
    {
        match self {
            Status::Fine => 200,
            Status::BadRequest => 400,
            Status::Forbidden => 403,
            Status::NotFound => 404,
            Status::MethodNotAllowed => 405,
            Status::PayloadTooLarge => 413,
            Status::NotImplemented => 501,
            Status::Unavailable => 503,
            Status::InsufficientStorage => 507,
        }
    }

    /// The phrase of the status.
    pub fn phrase(self) -> &'static str
        ensures text { result.now ≡ (status_told self).1 }
        ensures short { length result.now ≤ 20 }
    {
        match self.code().canonical_reason() {
            Some(text) => text,
            None => unreachable!(),
        }
    }

    fn code(self) -> StatusCode
        ensures { result ≡ (status_told self).0 }
    {
        match StatusCode::from_u16(self.number()) {
            Ok(code) => code,
            Err(_) => unreachable!(),
        }
    }
}

fn content_text(content: ContentType) -> &'static str
    ensures text { result.now ≡ content_name content }
    ensures short { length result.now ≤ 30 }
{
    match content {
        ContentType::Plain => "text/plain",
        ContentType::Csv => "text/csv",
        ContentType::File(File::Page) => "text/html; charset=utf-8",
        ContentType::File(File::Script) => "text/javascript; charset=utf-8",
        ContentType::File(File::Style) => "text/css; charset=utf-8",
    }
}

fn closing_line(closing: bool) -> &'static str
    ensures text { result.now ≡ close_line closing }
    ensures short { length result.now ≤ 19 }
{
    if closing { "Connection: close\r\n" } else { "" }
}

// What ends the first part of a head.
fn first_end(content: ContentType) -> &'static str
    ensures text { result.now ++ rest_of_head content ≡ file_headers content ++ codes "\r\n" }
    ensures short { length result.now ≤ 2 }
{
    match content {
        ContentType::Plain | ContentType::Csv => "\r\n",
        ContentType::File(_) => "",
    }
}

// The first part of the head of a reply with a body of this size.
pub(crate) fn head(status: Status, content: ContentType, size: usize, closing: bool) -> Line
    ensures { result.bytes ++ rest_of_head content ≡ reply_head status content size closing }
{
    let mut line = pw_line::line_of("HTTP/1.1 ");
    push_number(&mut line, status.number() as u64);
    line.push_str(" ");
    line.push_str(status.phrase());
    line.push_str("\r\nContent-Type: ");
    line.push_str(content_text(content));
    line.push_str("\r\nContent-Length: ");
    push_number(&mut line, size as u64);
    line.push_str("\r\n");
    line.push_str(closing_line(closing));
    line.push_str(first_end(content));
    line
}

// What the first part of a head leaves: the headers of a file of the page, which are longer than a line may be.
pub(crate) fn behind_head(content: ContentType) -> &'static str
    ensures { result.now ≡ rest_of_head content }
{
    match content {
        ContentType::Plain | ContentType::Csv => "",
        ContentType::File(_) => {
            "Content-Security-Policy: default-src 'self'; frame-ancestors 'none'; \
             base-uri 'none'; form-action 'self'\r\n\
             X-Content-Type-Options: nosniff\r\n\
             Cache-Control: no-cache\r\n\r\n"
        }
    }
}

// The status of the reply to what is no whole request.
pub(crate) fn status_of(why: Refusal) -> Status
    ensures { result ≡ refusal_status why }
{
    match why {
        Refusal::BadHead | Refusal::BadBody => Status::BadRequest,
        Refusal::NotForThisServer => Status::Forbidden,
        Refusal::NotSupported => Status::NotImplemented,
        Refusal::BodyTooLarge => Status::PayloadTooLarge,
    }
}

// The body of the reply to what is no whole request.
pub(crate) fn line_of(why: Refusal) -> &'static str
    ensures { result.now ≡ refusal_line why }
{
    match why {
        Refusal::BadHead => "bad head\n",
        Refusal::NotForThisServer => "not for this server\n",
        Refusal::NotSupported => "not supported\n",
        Refusal::BodyTooLarge => "body too large\n",
        Refusal::BadBody => "bad body\n",
    }
}
