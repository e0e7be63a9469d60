//! A conversation with any service.

ghost use Rattle.std.specs.Prelude.{◌≡◌, ◌≤◌, ◌+◌, length, IfErr, IfOk};
ghost use Rattle.httparse.specs.Spans.{IsWithin};
ghost use Rattle.pw_http.specs.Heads.{most_fields};
ghost use Rattle.pw_http.specs.Runs.{IsTalk, Serving};
ghost use Rattle.pw_http.specs.declared.fault.WireFault.TheVariants.{Write as WriteFault};
ghost use Rattle.pw_http.specs.inner.Turns.{IsBatch, IsTurn, asking_at};

use crate::audience::Audience;
use crate::fault::WireFault;
use crate::heads::MOST_FIELDS;
use crate::inbox::Inbox;
use crate::requests::{Next, Places, ROOM, ask_next};
use crate::routes::Routes;
use crate::send::refuse;
use crate::served::Served;
use crate::service::Service;
use httparse::spans::{EMPTY_HEADER_SPAN, HeaderSpan};
use std::alloc::Global;
use std::io::{Read, Write};

/// The most calls of `read` in a conversation.
pub const MOST_TURNS: u32 = 16_777_216;

// What one look at the bytes received led to.
#[derive(Clone, Copy, Debug, PartialEq, Eq)]
pub(crate) enum Turn {
    /// More bytes are needed.
    Waits,
    /// The stream ended where a request would begin.
    Over,
    /// A request was answered.
    Replied,
    /// A request was answered, and the conversation ends.
    Last,
}

#[derive(Clone, Copy, Debug)]
pub(crate) struct Batch {
    pub(crate) replies: u64,
    pub(crate) is_over: bool,
}

// Answers a whole request, whose parts stand at these places.
pub(crate) fn answer_whole<S: Service, W: Write>(
    alloc: Global,
    service: &mut S,
    routes: &Routes,
    bytes: &[u8],
    whole: Places,
    writer: &mut W,
) -> Result<(), WireFault>
    requires method { IsWithin (length bytes.now) whole.method }
    requires target { IsWithin (length bytes.now) whole.target }
    requires body { whole.start ≤ whole.len }
    requires within { whole.len ≤ length bytes.now }
    ensures serving { Serving S.serves service.old (asking_at bytes.now whole) whole.closes
        (W.contents writer.old) (W.contents writer.new) service.new result }
    ensures fault { IfErr result (λ e. e ≡ WriteFault) }
{
    let method = whole.method.of(bytes);
    let target = whole.target.of(bytes);
    let body = &bytes[whole.start..whole.len];
    service.serve(alloc, routes, method, target, body, whole.closes, writer)
}

// Answers the next request, where it was wholly received.
fn take_turn<S: Service, W: Write>(
    alloc: Global,
    service: &mut S,
    routes: &Routes,
    audience: Audience,
    inbox: &mut Inbox,
    ended: bool,
    writer: &mut W,
    headers: &mut [HeaderSpan],
) -> Result<Turn, WireFault>
    requires room { length headers.old ≡ most_fields }
    ensures turn { IsTurn audience.entry S.serves service.old inbox.old ended
        (W.contents writer.old) (W.contents writer.new) service.new inbox.new result }
    ensures room { length headers.new ≡ most_fields }
{
    let whole = match ask_next(audience, inbox.unread(), ended, headers) {
        Next::Nothing => return Ok(Turn::Over),
        Next::More => return Ok(Turn::Waits),
        Next::Refused(why) => {
            return match refuse(writer, why) {
                Ok(()) => Ok(Turn::Last),
                Err(_) => Err(WireFault::Write),
            };
        }
        Next::Ready(whole) => whole,
    };
    let bytes = inbox.unread();
    match answer_whole(alloc, service, routes, bytes, whole, writer) {
        Err(_) => Err(WireFault::Write),
        Ok(()) => {
            inbox.consume(whole.len);
            if whole.closes {
                Ok(Turn::Last)
            } else {
                Ok(Turn::Replied)
            }
        }
    }
}

// Answers each request that was wholly received.
fn answer_all<S: Service, W: Write>(
    alloc: Global,
    service: &mut S,
    routes: &Routes,
    audience: Audience,
    inbox: &mut Inbox,
    ended: bool,
    writer: &mut W,
    headers: &mut [HeaderSpan],
) -> Result<Batch, WireFault>
    requires room { length headers.old ≡ most_fields }
    requires fits { length inbox.old ≤ ROOM }
    ensures batch { IsBatch audience.entry S.serves service.old inbox.old ended
        (W.contents writer.old) (W.contents writer.new) service.new inbox.new result }
    ensures room { length headers.new ≡ most_fields }
    ensures few { IfOk result (λ b. b.replies ≤ ROOM + 1) }
{
    let mut replies = 0;
    loop {
        let turn = match take_turn(
            alloc, service, routes, audience, inbox, ended, writer, headers,
        ) {
            Ok(turn) => turn,
            Err(_) => return Err(WireFault::Write),
        };
        match turn {
            Turn::Waits => {
                return Ok(Batch {
                    replies,
                    is_over: false,
                });
            }
            Turn::Over => {
                return Ok(Batch {
                    replies,
                    is_over: true,
                });
            }
            Turn::Last => {
                return Ok(Batch {
                    replies: replies + 1,
                    is_over: true,
                });
            }
            Turn::Replied => replies += 1,
        }
    }
}

/// Reads requests and writes what a service replies, by at most `turns` calls of `read`, until the stream or the
/// conversation ends. Who isn't let in is answered 403, and the conversation ends.
///
/// `Memory` is answered only before anything is read. Behind `Read` and `TooManyTurns` each request that was wholly
/// read is answered, behind `Write` the last reply may be lost.
pub fn serve_within<S: Service, R: Read, W: Write>(
    alloc: Global,
    service: &mut S,
    routes: &Routes,
    audience: Audience,
    reader: &mut R,
    writer: &mut W,
    turns: u32,
) -> Result<Served, WireFault>
    ensures talk { IsTalk audience.entry S.serves (R.remaining reader.old) (R.remaining reader.new)
        (W.contents writer.old) (W.contents writer.new) service.old service.new turns result }
{
    let mut inbox = match Inbox::new(alloc) {
        Ok(inbox) => inbox,
        Err(_) => return Err(WireFault::Memory),
    };
    let mut headers = [EMPTY_HEADER_SPAN; MOST_FIELDS];
    let mut requests = 0;
    for _ in 0..turns {
        let count = match inbox.fill(reader) {
            Ok(count) => count,
            Err(_) => return Err(WireFault::Read),
        };
        let batch = match answer_all(
            alloc,
            service,
            routes,
            audience,
            &mut inbox,
            count == 0,
            writer,
            &mut headers,
        ) {
            Ok(batch) => batch,
            Err(_) => return Err(WireFault::Write),
        };
        requests += batch.replies;
        if batch.is_over {
            return Ok(Served { requests });
        }
    }
    Err(WireFault::TooManyTurns)
}

// The same by the routes of this project.
pub(crate) fn serve_for<S: Service, R: Read, W: Write>(
    alloc: Global,
    service: &mut S,
    audience: Audience,
    reader: &mut R,
    writer: &mut W,
    turns: u32,
) -> Result<Served, WireFault>
    ensures talk { IsTalk audience.entry S.serves (R.remaining reader.old) (R.remaining reader.new)
        (W.contents writer.old) (W.contents writer.new) service.old service.new turns result }
{
    let Ok(routes) = Routes::new(alloc) else {
        return Err(WireFault::Memory);
    };
    serve_within(alloc, service, &routes, audience, reader, writer, turns)
}

/// Reads requests and writes what a service replies to those that are let in, by at most 16,777,216 calls of `read`:
/// [`serve_within`] by the routes of this project.
pub fn serve_to<S: Service, R: Read, W: Write>(
    alloc: Global,
    service: &mut S,
    audience: Audience,
    reader: &mut R,
    writer: &mut W,
) -> Result<Served, WireFault>
    ensures talk { IsTalk audience.entry S.serves (R.remaining reader.old) (R.remaining reader.new)
        (W.contents writer.old) (W.contents writer.new) service.old service.new MOST_TURNS result }
{
    serve_for(alloc, service, audience, reader, writer, MOST_TURNS)
}
