//! The server: many connections of a port of this machine, side by side.

ghost use Rattle.std.specs.Prelude.{◌≡◌, ◌⊎◌, true, IfErr, IfOk};
ghost use Rattle.pw_http.specs.Replies.{reply_bytes};
ghost use Rattle.pw_http.specs.Steps.{Answers};
ghost use Rattle.pw_commands.specs.Ports.{IsServed};
ghost use Rattle.pw_commands.specs.inner.Busy.{busy_reply as reply_to_many};

use crate::fault::Fault;
use crate::telling::{tell, write_whole};
use crate::trail::Lines;
use pw_book::Book;
use pw_http::{
    Audience, ContentType, Routes, Service, Status, Trailed, WireFault, send_reply,
    serve_connections,
};
use pw_shelf::Shelf;
use pw_sockets::{Broke, Sockets, Told};
use pw_store::SqlShelf;
use sqlite::Alter;
use std::alloc::Global;
use std::io::{ErrorKind, Stderr, Write};

// What a client is told for whom no place is free.
const TOO_MANY: &str = "too many clients\n";

// The most turns of the server.
const MOST_TURNS: u64 = u64::MAX;

/// How long a port is served: up to the first of the ends that are stated; for ever, where none is.
#[derive(Clone, Copy, Debug, PartialEq, Eq)]
pub struct Term {
    /// Until so many connections were accepted and have ended.
    pub count: Option<u32>,
    /// Until standard input ends.
    pub until_input_ends: bool,
}

// Tells each connection that broke: the line of its fault.
#[derive(Drop)]
struct Breaks {
    alloc: Global,
    err: Stderr,
}

impl Told for Breaks {
    fn broke(&mut self, why: Broke) {
        let fault = match why {
            Broke::Read => WireFault::Read,
            Broke::Write => WireFault::Write,
            Broke::Memory => WireFault::Memory,
        };
        tell(self.alloc, Fault::Wire(fault), &mut self.err);
    }
}

// The reply to a client for whom no place is free; `Memory` where there is none for it.
fn busy_reply(alloc: Global) -> Result<Vec<u8>, Fault>
    ensures reply { IfOk result (λ bytes. bytes.items ≡ reply_bytes true reply_to_many) }
    ensures fault { IfErr result (λ fault. fault ≡ Fault.Memory) }
{
    let mut bytes = Vec::new(alloc);
    let line = TOO_MANY.as_bytes();
    match send_reply(
        &mut bytes,
        Status::Unavailable,
        ContentType::Plain,
        true,
        line,
    ) {
        Ok(()) => Ok(bytes),
        Err(_) => Err(Fault::Memory),
    }
}

// Serves connections of a port with a service, and says on `out` that it listens. `Device` where the port is taken, a
// device or the clock failed, `Memory` where there is none for the server itself.
fn serve_port<V: Service, O: Write>(
    rt: &HostRuntime,
    service: &mut V,
    audience: Audience<'_>,
    term: Term,
    port: u16,
    out: &mut O,
) -> Result<(), Fault>
    ensures served { IsServed audience.entry V.serves service.old service.new }
    ensures fault { IfErr result (λ fault. (fault ≡ Fault.Device) ⊎ (fault ≡ Fault.Memory)) }
{
    let Ok(routes) = Routes::new(rt.alloc()) else {
        return Err(Fault::Memory);
    };
    let busy = busy_reply(rt.alloc())?;
    let mut sockets = sockets_at(rt, port, term, busy.as_slice())?;
    listens(rt.alloc(), port, out)?;
    let alloc = rt.alloc();
    serve_connections(alloc, service, &routes, audience, &mut sockets, MOST_TURNS);
    if sockets.has_failed() {
        return Err(Fault::Device);
    }
    Ok(())
}

// The connections of a port.
fn sockets_at<'a>(
    rt: &'a HostRuntime,
    port: u16,
    term: Term,
    busy: &'a [u8],
) -> Result<Sockets<'a, Breaks>, Fault>
    ensures { IfErr result (λ fault. (fault ≡ Fault.Device) ⊎ (fault ≡ Fault.Memory)) }
{
    let told = Breaks {
        alloc: rt.alloc(),
        err: rt.stderr(),
    };
    Sockets::listen(rt, port, term.count, term.until_input_ends, busy, told).map_err(
        |error| fault_of(error.kind()),
    )
}

// Why nothing is listened to.
fn fault_of(kind: ErrorKind) -> Fault
    ensures { (result ≡ Fault.Device) ⊎ (result ≡ Fault.Memory) }
{
    match kind {
        ErrorKind::OutOfMemory => Fault::Memory,
        _ => Fault::Device,
    }
}

// Says that a port is listened to.
fn listens<O: Write>(alloc: Global, port: u16, out: &mut O) -> Result<(), Fault>
    ensures { IfErr result (λ fault. (fault ≡ Fault.Device) ⊎ (fault ≡ Fault.Memory)) }
{
    let line = format!(in alloc; "listening 127.0.0.1:{port}\n")?;
    write_whole(out, line.as_bytes())
}

// Serves a port, and answers the exit status.
fn serve_at<V: Service, O: Write, E: Write>(
    rt: &HostRuntime,
    service: &mut V,
    audience: Audience<'_>,
    term: Term,
    port: u16,
    out: &mut O,
    err: &mut E,
) -> u8
    ensures served { IsServed audience.entry V.serves service.old service.new }
    ensures status { (result ≡ 0) ⊎ (result ≡ 3) }
{
    match serve_port(rt, service, audience, term, port, out) {
        Ok(()) => 0,
        Err(fault) => tell(rt.alloc(), fault, err),
    }
}

/// Serves connections of a port with a book over any store that is written to as SQLite's are: as many at once as come, up
/// to 256, for an audience, until a term is over. `out` is told that it listens; a connection that broke is a line on the
/// standard error of `rt`.
///
/// Whatever was asked, and in whatever order and pieces it came, the book answered it in one order: `IsServed`. Answers 0;
/// 3 where the port is taken, or a socket or memory failed, with the fault as a line to `err`.
pub fn serve_book<S: Alter, O: Write, E: Write>(
    rt: &HostRuntime,
    book: &mut Book<SqlShelf<S>>,
    audience: Audience<'_>,
    term: Term,
    port: u16,
    out: &mut O,
    err: &mut E,
) -> u8
    ensures served { IsServed audience.entry (Answers ⟦<SqlShelf<S> as Shelf>⟧) book.old book.new }
    ensures status { (result ≡ 0) ⊎ (result ≡ 3) }
{
    serve_at(rt, book, audience, term, port, out, err)
}

/// The same, with a line on the standard error of `rt` for each upload that was answered. Takes the book, and answers the
/// exit status with the book behind it.
pub fn serve_told<S: Alter, O: Write, E: Write>(
    rt: &HostRuntime,
    book: Book<SqlShelf<S>>,
    audience: Audience<'_>,
    term: Term,
    port: u16,
    out: &mut O,
    err: &mut E,
) -> (u8, Book<SqlShelf<S>>)
    ensures served { IsServed audience.entry (Answers ⟦<SqlShelf<S> as Shelf>⟧) book result.1 }
    ensures status { (result.0 ≡ 0) ⊎ (result.0 ≡ 3) }
{
    let mut told = Trailed::new(book, Lines::new(rt, rt.stderr()));
    let status = serve_at(rt, &mut told, audience, term, port, out, err);
    (status, told.into_book())
}
