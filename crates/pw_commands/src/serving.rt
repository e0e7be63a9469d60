//! The server, whose book is closed behind it; and connections of a listener, one after the other.

ghost use Rattle.std.specs.Prelude.{◌≡◌, ◌⊎◌, None, IfErr};
ghost use Rattle.pw_http.specs.Runs.{IsTalk};
ghost use Rattle.pw_words.specs.Words.{IsRefusal};

use crate::accepting::next_connection;
use crate::client::Client;
use crate::fault::Fault;
use crate::server::{Term, serve_book, serve_told};
use crate::store::{FileBook, close_book};
use crate::telling::tell;
use pw_http::{Audience, MOST_TURNS, Origin, Served, Service, WireFault, serve_to};
use pw_words::WordsFault;
use pw_words::words::no_origin;
use std::alloc::Global;
use std::io::Write;
use std::net::{TcpListener, TcpStream};
use std::time::Clock;

/// Listens on a port of 127.0.0.1, says so on `out`, serves connections of a book to whom it is for, side by side until a
/// term is over, and closes it. A connection that broke is a line on the standard error of `rt`; and where `tells` says so,
/// each upload that was answered.
pub fn serve<O: Write, E: Write>(
    rt: &HostRuntime,
    mut book: FileBook,
    audience: Audience<'_>,
    term: Term,
    port: u16,
    tells: bool,
    out: &mut O,
    err: &mut E,
) -> u8
    ensures { (result ≡ 0) ⊎ (result ≡ 3) }
{
    if tells {
        let (status, book) = serve_told(rt, book, audience, term, port, out, err);
        return closed(rt.alloc(), book, status, err);
    }
    let status = serve_book(rt, &mut book, audience, term, port, out, err);
    closed(rt.alloc(), book, status, err)
}

// The exit status behind a server, whose book is closed.
fn closed<E: Write>(alloc: Global, book: FileBook, status: u8, err: &mut E) -> u8
    requires { (status ≡ 0) ⊎ (status ≡ 3) }
    ensures { (result ≡ 0) ⊎ (result ≡ 3) }
{
    match close_book(book) {
        Err(fault) if status == 0 => tell(alloc, fault, err),
        _ => status,
    }
}

/// Serves `count` connections of a listener, one after the other: each is a conversation with the service, for an audience,
/// and why one stopped is a line to `err`. A client is waited for by the clock, within limits of time: a minute for a
/// read, for a write and for a whole request, and for a reply a second more for each 65,536 bytes of it.
///
/// A connection that is gone before it is accepted, or that no descriptor or no memory is free for, is not counted.
/// Answers 0; 3 where the listener fails in another way, with `device failed` as the last line.
pub fn serve_on<R: Clock, V: Service, E: Write>(
    clock: &R,
    alloc: Global,
    listener: &TcpListener,
    audience: Audience<'_>,
    count: u32,
    service: &mut V,
    err: &mut E,
) -> u8
    ensures { (result ≡ 0) ⊎ (result ≡ 3) }
{
    for _ in 0..count {
        match next_connection(clock, listener) {
            Ok(stream) => serve_one(clock, alloc, &stream, audience, service, err),
            Err(fault) => return tell(alloc, fault, err),
        }
    }
    0
}

fn serve_one<'a, R: Clock, V: Service, E: Write>(
    clock: &'a R,
    alloc: Global,
    stream: &'a TcpStream,
    audience: Audience<'_>,
    service: &mut V,
    err: &mut E,
) {
    let _ = stream.set_nodelay(true);
    let Ok(client) = Client::new(clock, stream) else {
        tell(alloc, Fault::Device, err);
        return;
    };
    if let Err(fault) = serve_client(alloc, &client, audience, service) {
        tell(alloc, Fault::Wire(fault), err);
        if fault == WireFault::Read || fault == WireFault::Write {
            return;
        }
    }
    client.part();
}

fn serve_client<R: Clock, V: Service>(
    alloc: Global,
    client: &Client<'_, R>,
    audience: Audience<'_>,
    service: &mut V,
) -> Result<Served, WireFault>
    ensures { IsTalk audience.entry V.serves None None None None service.old service.new MOST_TURNS
        result }
{
    serve_to(alloc, service, audience, &mut &*client, &mut &*client)
}

/// The origins of these words; a word that is none is refused.
pub fn origins_of<'a>(alloc: Global, urls: &[&'a str]) -> Result<Vec<Origin<'a>>, WordsFault>
    ensures { IfErr result IsRefusal }
{
    let mut origins = Vec::with_capacity(alloc, urls.len())?;
    for url in urls {
        let Some(origin) = Origin::of(url.as_bytes()) else {
            return Err(no_origin(alloc, url));
        };
        if origins.push(origin).is_err() {
            return Err(WordsFault::Memory);
        }
    }
    Ok(origins)
}
