//! The next request in the bytes received so far.

ghost use Rattle.std.specs.Prelude.{◌≡◌, ◌≤◌, ◌<◌, length, map, codes, take, All, IfSome};
ghost use Rattle.std.specs.List.{list_any};
ghost use Rattle.httparse.specs.Spans.{IsHeaderWithin, header_bytes, span_bytes, IsWithin};
ghost use Rattle.pw_http.specs.Heads.{is_named, most_fields, values_of};
ghost use Rattle.pw_http.specs.Requests.{asks_close, length_said, number_of};
ghost use Rattle.pw_http.specs.inner.Received.{IsNext};

use crate::audience::{Audience, is_let_in, is_name};
use crate::heads::{LONGEST_HEAD, Outcome, look};
use httparse::spans::{HeaderSpan, Span};
use pw_frame::LONGEST_BODY;

/// The most bytes of one request.
pub const ROOM: usize = 270_336;

/// Why no request can be answered.
#[derive(Clone, Copy, Debug, PartialEq, Eq)]
pub enum Refusal {
    /// No head comes, or what it says of the body's length is no length.
    BadHead,
    /// It is no request of this machine, nor of a page that is let in.
    NotForThisServer,
    /// The body is coded.
    NotSupported,
    /// The body is longer than the longest.
    BodyTooLarge,
    /// The stream ends within the body.
    BadBody,
}

// The places of a whole request's parts.
#[derive(Clone, Copy, Debug)]
pub(crate) struct Places {
    pub(crate) method: Span,
    pub(crate) target: Span,
    /// Where the body begins.
    pub(crate) start: usize,
    /// Where the request ends.
    pub(crate) len: usize,
    pub(crate) closes: bool,
}

// What the bytes received so far say.
#[derive(Clone, Copy, Debug)]
pub(crate) enum Next {
    /// No byte is left.
    Nothing,
    /// No whole request yet, and there is room for more bytes.
    More,
    Refused(Refusal),
    Ready(Places),
}

// Whether a header has this name.
fn has_named(buf: &[u8], spans: &[HeaderSpan], name: &[u8]) -> bool
    requires { All (IsHeaderWithin (length buf.now)) spans.now }
    ensures { result ≡ list_any (is_named name.now) (map (header_bytes buf.now) spans.now) }
{
    let mut found = false;
    for span in spans {
        if is_name(buf, *span, name) {
            found = true;
        }
    }
    found
}

fn is_close(buf: &[u8], span: HeaderSpan) -> bool
    requires { IsHeaderWithin (length buf.now) span }
    ensures { result ≡ asks_close (header_bytes buf.now span) }
{
    is_name(buf, span, b"connection") && span.value.of(buf).eq_ignore_ascii_case(b"close")
}

// Whether a header asks that the conversation end.
fn has_close(buf: &[u8], spans: &[HeaderSpan]) -> bool
    requires { All (IsHeaderWithin (length buf.now)) spans.now }
    ensures { result ≡ list_any asks_close (map (header_bytes buf.now) spans.now) }
{
    let mut found = false;
    for span in spans {
        if is_close(buf, *span) {
            found = true;
        }
    }
    found
}

// The number that 1 to 10 digits write.
fn number(text: &[u8]) -> Option<u64>
    ensures { result ≡ number_of text.now }
{
    if text.is_empty() || text.len() > 10 {
        return None;
    }
    let mut value: u64 = 0;
    for b in text {
        if !b.is_ascii_digit() {
            return None;
        }
        value = value * 10 + u64::from(*b - b'0');
    }
    Some(value)
}

// What a header says of the length of the body: 0 where no header does, nothing where several do or it says no number.
fn said_length(buf: &[u8], spans: &[HeaderSpan]) -> Option<u64>
    requires { All (IsHeaderWithin (length buf.now)) spans.now }
    ensures { result ≡ length_said (values_of (codes "content-length")
        (map (header_bytes buf.now) spans.now)) }
{
    let mut count = 0usize;
    let mut said = Some(0);
    for span in spans {
        if is_name(buf, *span, b"content-length") {
            said = if count == 0 {
                number(span.value.of(buf))
            } else {
                None
            };
            count += 1;
        }
    }
    said
}

// The next request, where `ended` says that no more bytes come.
pub(crate) fn ask_next(
    audience: Audience,
    buf: &[u8],
    ended: bool,
    headers: &mut [HeaderSpan],
) -> Next
    requires room { length headers.old ≡ most_fields }
    ensures next { IsNext audience.entry buf.now ended result }
    ensures room { length headers.new ≡ most_fields }
{
    if buf.is_empty() {
        return if ended { Next::Nothing } else { Next::More };
    }
    let front = &buf[..buf.len().min(LONGEST_HEAD)];
    match look(front, headers) {
        Outcome::Bad => Next::Refused(Refusal::BadHead),
        Outcome::More => {
            if ended {
                Next::Refused(Refusal::BadHead)
            } else {
                Next::More
            }
        }
        Outcome::Head(head) => {
            let fields = &headers[..head.headers];
            if !is_let_in(audience, front, fields) {
                return Next::Refused(Refusal::NotForThisServer);
            }
            if has_named(front, fields, b"transfer-encoding") {
                return Next::Refused(Refusal::NotSupported);
            }
            let Some(length) = said_length(front, fields) else {
                return Next::Refused(Refusal::BadHead);
            };
            if length > LONGEST_BODY as u64 {
                return Next::Refused(Refusal::BodyTooLarge);
            }
            let len = head.len + length as usize;
            if len <= buf.len() {
                return Next::Ready(Places {
                    method: head.method,
                    target: head.path,
                    start: head.len,
                    len,
                    closes: head.version == 0 || has_close(front, fields),
                });
            }
            if ended {
                Next::Refused(Refusal::BadBody)
            } else {
                Next::More
            }
        }
    }
}
