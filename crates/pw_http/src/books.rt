//! A book as a service, and conversations with it.

ghost use Rattle.pw_http.specs.declared.audience.Audience.TheVariants.{Everybody};
ghost use Rattle.pw_http.specs.Headline.{HasHeadline};
ghost use Rattle.pw_http.specs.Runs.{IsTalk};
ghost use Rattle.pw_http.specs.Steps.{Answers};
ghost use Rattle.pw_http.specs.inner.Answered.{reply_of};

use crate::answers::{Answer, answer_at, said};
use crate::audience::Audience;
use crate::conversation::{MOST_TURNS, serve_for};
use crate::fault::WireFault;
use crate::replies::Status;
use crate::routes::{Place, Routes};
use crate::send::send_reply;
use crate::served::Served;
use crate::service::Service;
use pw_book::Book;
use pw_shelf::Shelf;
use std::alloc::Global;
use std::io::{Read, Write};

/// Uploads are posted, and pages are asked for, each by its route.
impl<S: Shelf> Service for Book<S> {
    ghost use Rattle.pw_http.specs.Steps.{Answers};

    ghost serves = { Answers S.Shelf };

    fn serve<W: Write>(
        &mut self,
        alloc: Global,
        routes: &Routes,
        method: &[u8],
        target: &[u8],
        body: &[u8],
        closing: bool,
        writer: &mut W,
    ) -> Result<(), WireFault> {
        let reply = reply_to(self, alloc, routes, method, target, body);
        let bytes = reply.bytes();
        send_reply(writer, reply.status, reply.content, closing, bytes)
    }
}

// What a book replies to a request.
pub(crate) fn reply_to<S: Shelf>(
    book: &mut Book<S>,
    alloc: Global,
    routes: &Routes,
    method: &[u8],
    target: &[u8],
    body: &[u8],
) -> Answer
    ensures { Answers S.Shelf book.old (record
        { method = method.now; target = target.now; body = body.now }) (reply_of result) book.new }
{
    match routes.place(method, target) {
        Place::NoPage => said(Status::NotFound, "no such page"),
        Place::NoMethod => said(Status::MethodNotAllowed, "no such method"),
        Place::At(route) => answer_at(book, alloc, route, target, body),
    }
}

fn converse_for<S: Shelf, R: Read, W: Write>(
    alloc: Global,
    book: &mut Book<S>,
    audience: Audience,
    reader: &mut R,
    writer: &mut W,
    turns: u32,
) -> Result<Served, WireFault>
    ensures talk { IsTalk audience.entry (Answers S.Shelf) (R.remaining reader.old)
        (R.remaining reader.new) (W.contents writer.old) (W.contents writer.new) book.old book.new
        turns result }
    ensures headline { HasHeadline S.Shelf audience.entry (R.remaining reader.old)
        (R.remaining reader.new) (W.contents writer.old) (W.contents writer.new) book.old book.new
        result }
{
    serve_for(alloc, book, audience, reader, writer, turns)
}

/// Reads requests and writes what a book replies, by at most `turns` calls of `read`, until the stream or the
/// conversation ends (RFC 9112, in this project's profile).
///
/// 62, `Memory`, is answered only before anything is read. Behind 80, `Read`, and 82, `TooManyTurns`, each request
/// that was wholly read is answered, behind 81, `Write`, the last reply may be lost. The book is as after the uploads
/// accepted so far.
///
/// Each answer is fair, by the book that answers it and the one behind it: an upload is answered 400 where the office
/// file, its path and its body alone refuse it, and nowhere else, unless 62 stands in its place; whatever wasn't answered
/// 200 left records, points, starts and totals as they were, unless an `abandon` failed in it. Behind Ok, and behind 80,
/// 81 and 82 too, of a book that isn't shut and over a store that returned what was written: each figure that the book
/// then answers is the definition's, for the records held before with those of the uploads that were answered 200. Behind
/// 81 the one whose reply is cut is among them.
pub fn converse_within<S: Shelf, R: Read, W: Write>(
    alloc: Global,
    book: &mut Book<S>,
    reader: &mut R,
    writer: &mut W,
    turns: u32,
) -> Result<Served, WireFault>
    ensures talk { IsTalk Everybody (Answers S.Shelf) (R.remaining reader.old)
        (R.remaining reader.new) (W.contents writer.old) (W.contents writer.new) book.old book.new
        turns result }
    ensures headline { HasHeadline S.Shelf Everybody (R.remaining reader.old)
        (R.remaining reader.new) (W.contents writer.old) (W.contents writer.new) book.old book.new
        result }
{
    converse_for(alloc, book, Audience::Everybody, reader, writer, turns)
}

/// Reads requests and writes what a book replies, by at most 16,777,216 calls of `read`: [`converse_within`].
pub fn converse<S: Shelf, R: Read, W: Write>(
    alloc: Global,
    book: &mut Book<S>,
    reader: &mut R,
    writer: &mut W,
) -> Result<Served, WireFault>
    ensures talk { IsTalk Everybody (Answers S.Shelf) (R.remaining reader.old)
        (R.remaining reader.new) (W.contents writer.old) (W.contents writer.new) book.old book.new
        MOST_TURNS result }
    ensures headline { HasHeadline S.Shelf Everybody (R.remaining reader.old)
        (R.remaining reader.new) (W.contents writer.old) (W.contents writer.new) book.old book.new
        result }
{
    converse_within(alloc, book, reader, writer, MOST_TURNS)
}

/// Reads requests and writes what a book replies to those that are let in: [`converse`] for an audience.
///
/// Any other request is answered 403 before its body is read, and the conversation ends, so that its body is never
/// taken for a request. No memory is taken for it.
pub fn converse_with<S: Shelf, R: Read, W: Write>(
    alloc: Global,
    book: &mut Book<S>,
    audience: Audience,
    reader: &mut R,
    writer: &mut W,
) -> Result<Served, WireFault>
    ensures talk { IsTalk audience.entry (Answers S.Shelf) (R.remaining reader.old)
        (R.remaining reader.new) (W.contents writer.old) (W.contents writer.new) book.old book.new
        MOST_TURNS result }
    ensures headline { HasHeadline S.Shelf audience.entry (R.remaining reader.old)
        (R.remaining reader.new) (W.contents writer.old) (W.contents writer.new) book.old book.new
        result }
{
    converse_for(alloc, book, audience, reader, writer, MOST_TURNS)
}
