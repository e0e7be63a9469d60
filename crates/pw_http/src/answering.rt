//! Conversations of many connections with any service.

ghost use Rattle.std.specs.Prelude.{◌≡◌, ◌≤◌, ◌<◌, ◌+◌, ◌*◌, [], length};
ghost use Rattle.httparse.specs.Spans.{IsWithin};
ghost use Rattle.pw_serve.specs.Answered.{IsAnswer};
ghost use Rattle.pw_http.specs.Many.{IsManyTalks};
ghost use Rattle.pw_http.specs.inner.Answering.{IsAnswered, IsReply, IsStillCut, is_large_in};

use crate::audience::Audience;
use crate::conversation::answer_whole;
use crate::heads::MOST_FIELDS;
use crate::requests::{Next, Places, ROOM, ask_next};
use crate::routes::{Routes, is_large_at};
use crate::send::refuse;
use crate::service::Service;
use httparse::spans::EMPTY_HEADER_SPAN;
use pw_serve::{Answer, Connections, serve_many};
use std::alloc::Global;

// A service of requests, as it answers the bytes of connections.
#[derive(Drop)]
struct Answering<'a, S> {
    service: &'a mut S,
    routes: &'a Routes,
    audience: &'a Audience<'a>,
}

/// It answers whole requests of who is let in, and refuses others.
impl<S: Service> pw_serve::Service for Answering<'_, S> {
    ghost use Rattle.std.specs.Prelude.{◌≡◌};
    ghost use Rattle.pw_http.specs.inner.Answering.{IsAnswered, IsStillCut};

    ghost answers = { λ old sent text new. (new.service.ghost_name ≡ old.service.ghost_name) × (new.audience.now ≡ old.audience.now) × IsAnswered old.audience.now S.serves old.service.now sent text new.service.now };

    ghost waits = { IsStillCut };

    ghost calls = { λ _. 0 };

    const LONGEST: usize = ROOM;

    fn answer(
        &mut self,
        alloc: Global,
        bytes: &[u8],
        ended: bool,
        may_be_large: bool,
        outbox: &mut Vec<u8>,
    ) -> Answer {
        let audience = *self.audience;
        answer_first(
            alloc,
            self.service,
            self.routes,
            audience,
            bytes,
            ended,
            may_be_large,
            outbox,
        )
    }
}

// Whether the reply to the request at these places may be a large one.
fn has_large_reply(routes: &Routes, bytes: &[u8], whole: Places) -> bool
    requires method { IsWithin (length bytes.now) whole.method }
    requires target { IsWithin (length bytes.now) whole.target }
    ensures { result ≡ is_large_in bytes.now whole }
{
    is_large_at(routes.place(whole.method.of(bytes), whole.target.of(bytes)))
}

// Answers a whole request, whose parts stand at these places, where its reply may be made. A reply for which
// there is no memory is lost.
fn reply_in_turn<S: Service>(
    alloc: Global,
    service: &mut S,
    routes: &Routes,
    bytes: &[u8],
    whole: Places,
    may_be_large: bool,
    outbox: &mut Vec<u8>,
) -> Answer
    requires empty { outbox.old.items ≡ [] }
    requires method { IsWithin (length bytes.now) whole.method }
    requires target { IsWithin (length bytes.now) whole.target }
    requires body { whole.start ≤ whole.len }
    requires within { whole.len ≤ length bytes.now }
    ensures reply { IsReply S.serves service.old bytes.now whole may_be_large service.new
        outbox.new.items result }
{
    if !may_be_large && has_large_reply(routes, bytes, whole) {
        return Answer::Later;
    }
    let Ok(()) = answer_whole(alloc, service, routes, bytes, whole, outbox) else {
        return Answer::Short;
    };
    Answer::Replied(whole.len, whole.closes)
}

// Answers the first request, if it is wholly there, or refuses it.
fn answer_first<S: Service>(
    alloc: Global,
    service: &mut S,
    routes: &Routes,
    audience: Audience,
    bytes: &[u8],
    ended: bool,
    may_be_large: bool,
    outbox: &mut Vec<u8>,
) -> Answer
    requires some { 0 < length bytes.now }
    requires empty { outbox.old.items ≡ [] }
    ensures answered { IsAnswer (IsAnswered audience.entry S.serves) IsStillCut service.old
        bytes.now ended may_be_large service.new outbox.new.items result }
{
    let mut headers = [EMPTY_HEADER_SPAN; MOST_FIELDS];
    match ask_next(audience, bytes, ended, &mut headers) {
        Next::Nothing | Next::More => Answer::Waits,
        Next::Refused(why) => match refuse(outbox, why) {
            Ok(()) => Answer::Refused,
            Err(_) => Answer::Short,
        },
        Next::Ready(whole) => {
            reply_in_turn(alloc, service, routes, bytes, whole, may_be_large, outbox)
        }
    }
}

// Serves connections with such a service.
fn serve_all<S: Service, C: Connections>(
    alloc: Global,
    answering: &mut Answering<S>,
    connections: &mut C,
    turns: u64,
)
    ensures talks { IsManyTalks answering.old.audience.now S.serves answering.old.service.now
        (C.connection connections.old) (C.connection connections.new) answering.new.service.now }
    ensures same { answering.new.service.ghost_name ≡ answering.old.service.ghost_name }
    ensures bounded { C.moves connections.new ≤ C.moves connections.old + 16 * turns }
{
    serve_many(alloc, answering, connections, turns)
}

/// Serves many connections with a service, by so many turns: each is a conversation, for an audience.
///
/// Whatever order their bytes come in, there is one order of requests and replies, in which the service answered one
/// after another: [`IsManyTalks`]. Of each connection its requests in that order are those that its bytes hold, and
/// what it was told is the replies to them, whole or a front; one that is over was told the reply to each. Who isn't
/// let in is answered 403, and the connection ends behind it.
///
/// A page that grows with the records may be large: such replies are made one at a time for all. In each turn there are
/// 16 reads and writes at most.
pub fn serve_connections<S: Service, C: Connections>(
    alloc: Global,
    service: &mut S,
    routes: &Routes,
    audience: Audience,
    connections: &mut C,
    turns: u64,
)
    ensures talks { IsManyTalks audience.entry S.serves service.old (C.connection connections.old)
        (C.connection connections.new) service.new }
    ensures bounded { C.moves connections.new ≤ C.moves connections.old + 16 * turns }
{
    let mut answering = Answering {
        service,
        routes,
        audience: &audience,
    };
    serve_all(alloc, &mut answering, connections, turns);
}
