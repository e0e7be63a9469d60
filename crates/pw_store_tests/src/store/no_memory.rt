//! The call on a store that takes no memory, made where none is given; and calls that take some, made while one request
//! for it is refused.
//!
//! `tests/no_memory` runs the test here with an allocator that refuses each request between the lines `no memory` and
//! `memory again`, and one in each run between `one may be refused` and `all is given`: there a call answers that
//! memory was refused, and is right when it is made again. In the gate the test runs as it is.

ghost use Rattle.std.specs.Prelude.{◌≡◌, IsSome, None, OnOk};

use super::{begun_total, empty_shelf, see_office, shelf_of};
use crate::sql_stores::memory;
use pw_shelf::{Shelf, ShelfFault};
use pw_store::{OpenFault, SqlShelf};
use pw_tests::offices::SAMPLE;
use pw_tests::sample::METER;
use pw_time::{FIRST_SECOND, Instant};
use sqlite::{Connection, MemStore};
use std::alloc::Global;
use std::io::Write;
use std::process::Abort;

// Writes a line. One that can't be written is missing from the output, which is compared.
fn tell<O: Write>(out: &mut O, text: &[u8]) {
    let _ = out.write_all(text);
    let _ = out.flush();
}

// Whether a store is closed, inside the upload that is begun.
fn is_closed(store: SqlShelf<MemStore>) -> bool {
    let connection = store.close();
    !connection.is_autocommit()
}

fn is_empty<S: Shelf>(store: &mut S) -> bool {
    store.count() == Ok(0)
}

fn is_new(rt: &impl Abort, alloc: Global, connection: Connection<MemStore>) -> bool {
    is_empty(&mut shelf_of(rt, alloc, connection))
}

// Whether a new store is opened: at once, or, where it is refused for want of memory, at the next try.
fn is_opened<O: Write>(rt: &impl Abort, alloc: Global, out: &mut O) -> bool {
    let text = SAMPLE.as_bytes();
    see_office(rt, alloc, text);
    let connection = memory(rt, alloc);
    tell(out, b"one may be refused\n");
    let opened = SqlShelf::open(alloc, connection, text);
    tell(out, b"all is given\n");
    match opened {
        Ok(mut store) => is_empty(&mut store),
        Err((fault, refused)) => is_new(rt, alloc, refused) && fault == OpenFault::Memory,
    }
}

// Puts a start. What can't be made is told as a device's failure, which the trial refuses.
fn put<S: Shelf>(store: &mut S, second: u32) -> Result<(), ShelfFault>
    requires { IsSome (S.state store.old).begun }
    ensures { (S.state store.new).begun ≡ (S.state store.old).begun }
{
    let instant = Instant::of(second).ok_or(ShelfFault::Device)?;
    store.start_put(METER, instant, None)
}

// Puts two starts in an upload that is given up; whether the second is refused as the first is, one of whose requests
// may have been refused.
fn is_given_up<S: Shelf, O: Write>(out: &mut O, store: &mut S) -> Result<bool, ShelfFault>
    requires { (S.state store.old).begun ≡ None }
    ensures { OnOk result ((S.state store.new).begun ≡ None) }
{
    store.begin()?;
    tell(out, b"one may be refused\n");
    let first = put(store, FIRST_SECOND);
    tell(out, b"all is given\n");
    let second = put(store, FIRST_SECOND + 1);
    store.abandon()?;
    Ok(first != Err(ShelfFault::Device) && second.is_ok() == first.is_ok())
}

// Whether nothing is kept of an upload that was given up, which the engine has undone where it was refused memory.
fn is_left_alone<S: Shelf, O: Write>(
    alloc: Global,
    out: &mut O,
    store: &mut S,
) -> Result<bool, ShelfFault>
    requires { (S.state store.old).begun ≡ None }
{
    let is_given_up = is_given_up(out, store)?;
    let starts = store.starts_of(alloc, METER)?;
    Ok(is_given_up && starts.is_empty())
}

fn closed_without_memory<O: Write>(rt: &impl Abort, alloc: Global, out: &mut O) {
    let mut store = empty_shelf(rt, alloc);
    assert!(rt; begun_total(&mut store).is_ok());
    tell(out, b"no memory\n");
    assert!(rt; is_closed(store));
    tell(out, b"store closed\n");
    tell(out, b"memory again\n");
}

fn with_one_refused<O: Write>(rt: &impl Abort, alloc: Global, out: &mut O) {
    assert!(rt; is_opened(rt, alloc, out));
    tell(out, b"store opened\n");
    let mut store = empty_shelf(rt, alloc);
    assert!(rt; is_left_alone(alloc, out, &mut store) == Ok(true));
    tell(out, b"upload undone\n");
}

#[test]
fn trials(rt: HostRuntime) {
    let mut out = rt.stdout();
    closed_without_memory(&rt, rt.alloc(), &mut out);
    with_one_refused(&rt, rt.alloc(), &mut out);
    tell(&mut out, b"done\n");
}
