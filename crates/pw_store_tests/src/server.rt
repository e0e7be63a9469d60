//! Connections of a listener, one after the other. (The program serves its own side by side: what it does, scripts show.)

use pw_book::Book;
use pw_commands::serve_on;
use pw_http::Audience;
use pw_shelf::{MemoryShelf, Shelf};
use pw_tests::books::book_of;
use pw_tests::ends::done;
use pw_tests::offices::SAMPLE;
use std::alloc::Global;
use std::cell::Cell;
use std::io::{self, Read, Write};
use std::net::{Shutdown, TcpListener, TcpStream};
use std::process::Abort;
use std::time::{Clock, Duration};

const LIMIT: u32 = 1_000_000;

const HERE: Audience<'static> = Audience::Here(&[]);

const REQUESTS: &[u8] =
    b"POST /topups HTTP/1.1\r\nContent-Length: 64\r\n\r\nreference,account,cents,instant\nP1,A1,5000,2024-01-01T00:00:00Z\nGET /accounts/A1 HTTP/1.1\r\n\r\n";

const HALF_A_HEAD: &[u8] = b"GET /acc";

// A page of another machine may have led a browser here so.
const OF_ANOTHER_MACHINE: &[u8] = b"GET /accounts HTTP/1.1\r\nHost: meters.example\r\n\r\n";

const NOTHING: &[u8] = b"";

const READ_REFUSED: &[u8] = b"refused 80 Read\n";

const WRITE_REFUSED: &[u8] = b"refused 81 Write\n";

const REPLIES: &str =
    "HTTP/1.1 200 OK\r\nContent-Type: text/plain\r\nContent-Length: 28\r\n\r\naccepted fresh 1 repeated 0
HTTP/1.1 200 OK\r\nContent-Type: text/plain\r\nContent-Length: 160\r\n\r\naccount A1
band       import Wh       export Wh
L                  0               0
H                  0               0
topped up EUR 50.00
balance EUR 50.00
";

// A clock that is so many seconds ahead each time it is read.
#[derive(Drop)]
struct Leaping {
    seconds: Cell<u64>,
    leap: u64,
}

impl Clock for Leaping {
    fn monotonic(&self) -> io::Result<Duration> {
        let now = self.seconds.get().saturating_add(self.leap);
        self.seconds.set(now);
        Ok(Duration::from_secs(now))
    }

    fn since_1970(&self) -> io::Result<Duration> {
        self.monotonic()
    }
}

fn leaping_by(leap: u64) -> Leaping {
    Leaping {
        seconds: Cell::new(0),
        leap,
    }
}

// A client that has sent these bytes, and sends no more.
fn client_of(rt: &HostRuntime, listener: &TcpListener, bytes: &[u8]) -> io::Result<TcpStream> {
    let mut client = TcpStream::connect(rt, listener.local_addr()?)?;
    client.write_all(bytes)?;
    client.shutdown(Shutdown::Write)?;
    Ok(client)
}

// Whether so many connections are served by a clock, and just this is told of them.
fn are_served<R: Clock, S: Shelf>(
    clock: &R,
    alloc: Global,
    listener: &TcpListener,
    count: u32,
    book: &mut Book<S>,
    told: &[u8],
) -> bool {
    let mut err = Vec::new(alloc);
    serve_on(clock, alloc, listener, HERE, count, book, &mut err) == 0 && err.as_slice() == told
}

// What a client is replied to: both of its requests, that its head is bad, that its request isn't for it, with a head
// alone, or nothing.
#[derive(Clone, Copy)]
enum Reply {
    Both,
    BadHead,
    Forbidden,
    HeadAlone,
    Nothing,
}

fn is_reply(reply: Reply, bytes: &[u8]) -> bool {
    match reply {
        Reply::Both => bytes == REPLIES.as_bytes(),
        Reply::BadHead => bytes.ends_with(b"bad head\n"),
        Reply::Forbidden => bytes.starts_with(b"HTTP/1.1 403 "),
        Reply::HeadAlone => bytes.ends_with(b"\r\n\r\n"),
        Reply::Nothing => bytes.is_empty(),
    }
}

// Whether a client is replied to so.
fn is_replied(alloc: Global, client: &mut TcpStream, reply: Reply) -> io::Result<bool> {
    let mut replies = Vec::new(alloc);
    client.read_to_end(&mut replies)?;
    Ok(is_reply(reply, replies.as_slice()))
}

// Whether a client that sends these bytes, and no more, is replied to so by a clock, and just this is told.
fn is_served<R: Clock, S: Shelf>(
    rt: &HostRuntime,
    clock: &R,
    book: &mut Book<S>,
    bytes: &[u8],
    reply: Reply,
    told: &[u8],
) -> io::Result<bool> {
    let listener = TcpListener::bind(rt, ("127.0.0.1", 0))?;
    let mut client = client_of(rt, &listener, bytes)?;
    let are_served = are_served(clock, rt.alloc(), &listener, 1, book, told);
    Ok(are_served && is_replied(rt.alloc(), &mut client, reply)?)
}

// Whether a client's requests are replied to behind another's, which sends half a head.
fn are_both_served<S: Shelf>(rt: &HostRuntime, book: &mut Book<S>) -> io::Result<bool> {
    let listener = TcpListener::bind(rt, ("127.0.0.1", 0))?;
    let mut first = client_of(rt, &listener, HALF_A_HEAD)?;
    let mut second = client_of(rt, &listener, REQUESTS)?;
    let are_served = are_served(rt, rt.alloc(), &listener, 2, book, NOTHING);
    let first_is_refused = is_replied(rt.alloc(), &mut first, Reply::BadHead)?;
    let second_is_replied = is_replied(rt.alloc(), &mut second, Reply::Both)?;
    Ok(are_served && first_is_refused && second_is_replied)
}

fn sample_book(rt: &impl Abort, alloc: Global) -> Book<MemoryShelf> {
    book_of(alloc, SAMPLE, LIMIT).expect(rt, "the sample office")
}

// bears on: pw_commands serving.rt serve_on ensures
// bears on: pw_commands serving.rt serve_on memory
// bears on: pw_http conversation.rt serve_to talk
#[test]
fn two_connections(rt: HostRuntime) {
    let mut book = sample_book(&rt, rt.alloc());
    assert!(rt; are_both_served(&rt, &mut book).unwrap_or(false));
    done(book);
}

// How many seconds a clock is ahead each time, what a client sends, how it is replied to, and what is told.
type Timed = (u64, &'static [u8], Reply, &'static [u8]);

fn is_in_time<S: Shelf>(
    rt: &HostRuntime,
    book: &mut Book<S>,
    (leap, bytes, reply, told): Timed,
) -> io::Result<bool> {
    is_served(rt, &leaping_by(leap), book, bytes, reply, told)
}

fn are_in_time(stop: &impl Abort, rt: &HostRuntime, rows: [Timed; 2]) {
    for row in rows {
        let mut book = sample_book(stop, rt.alloc());
        assert!(stop; is_in_time(rt, &mut book, row).unwrap_or(false));
        done(book);
    }
}

// bears on: pw_commands serving.rt serve_on audience
#[test]
fn a_request_that_names_another_machine_is_forbidden(rt: HostRuntime) {
    let mut book = sample_book(&rt, rt.alloc());
    let forbidden: Timed = (1, OF_ANOTHER_MACHINE, Reply::Forbidden, NOTHING);
    assert!(rt; is_in_time(&rt, &mut book, forbidden).unwrap_or(false));
    done(book);
}

// bears on: pw_commands serving.rt serve_on times
// bears on: pw_sockets limits.rt left_of ensures
// bears on: pw_sockets limits.rt Course::to_read ensures
// bears on: pw_sockets limits.rt Course::came first
// bears on: pw_sockets limits.rt Course::came later
#[test]
fn a_request_takes_a_minute_at_most(rt: HostRuntime) {
    let bad_head: Timed = (59, HALF_A_HEAD, Reply::BadHead, NOTHING);
    let too_late: Timed = (60, HALF_A_HEAD, Reply::Nothing, READ_REFUSED);
    are_in_time(&rt, &rt, [bad_head, too_late]);
}

// bears on: pw_commands serving.rt serve_on times
// bears on: pw_sockets limits.rt Course::to_write ensures
// bears on: pw_sockets limits.rt Course::goes_on goes_on
// bears on: pw_sockets limits.rt Course::goes_on begins
// bears on: pw_sockets limits.rt Course::took taken
// bears on: pw_sockets limits.rt Course::took ahead
#[test]
fn a_short_reply_takes_a_minute_at_most(rt: HostRuntime) {
    let whole: Timed = (59, REQUESTS, Reply::Both, NOTHING);
    let cut_short: Timed = (60, REQUESTS, Reply::HeadAlone, WRITE_REFUSED);
    are_in_time(&rt, &rt, [whole, cut_short]);
}
