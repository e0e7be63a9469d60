//! A program for the tests alone. Without words it makes trials: each call that takes no memory, made while none is given.
//!
//! `calls OFFICE_FILE` answers in place of that each line of the input, a call in words: cases of `cases/` make calls so
//! that no command shows, and `tests/sample` compares powerbook's figures with those of the plain program of the definitions.
//!
//! Between the lines `no memory` and `memory again` nothing may ask for memory. Between `one may be refused` and `all is
//! given` a call answers that memory was refused, and is right when it is made again. The script `tests/no_memory` runs it
//! with an allocator that refuses each request there, and here one in each run; in the gate it runs as it is.
#![tactic(auto)]

mod calls;
mod posts;
mod shelves;
mod shut;
mod uploads;

ghost use Rattle.std.specs.Prelude.{IsSome};

use calls::entries::records_of;
use pw_book::Book;
use pw_shelf::{MemoryShelf, Shelf};
use pw_tariff::Office;
use std::alloc::Global;
use std::env;
use std::io::Write;
use std::process::ExitCode;

const OFFICE: &str = r#"accounts = ["A1", "A2"]
week = [
  "LLLLLLLHHHHHHHHHHHHHHHHL", "LLLLLLLHHHHHHHHHHHHHHHHL", "LLLLLLLHHHHHHHHHHHHHHHHL", "LLLLLLLHHHHHHHHHHHHHHHHL",
  "LLLLLLLHHHHHHHHHHHHHHHHL", "LLLLLLLLLLLLLLLLLLLLLLLL", "LLLLLLLLLLLLLLLLLLLLLLLL",
]
band = [{ name = "L", import = 200000, export = 50000 }, { name = "H", import = 300000, export = 50000 }]
meter = [
  { id = "4D31", clock = "marked", registers = ["I1", "I2", "E1", "E2"] },
  { id = "Z7", clock = "winter", registers = ["I0"] },
]
[[period]]
start = "2024-01-02T06:00:00Z"
week = [
  "LLLLLLLHHHHHHHHHHHHHHHHL", "LLLLLLLHHHHHHHHHHHHHHHHL", "LLLLLLLHHHHHHHHHHHHHHHHL", "LLLLLLLHHHHHHHHHHHHHHHHL",
  "LLLLLLLHHHHHHHHHHHHHHHHL", "LLLLLLLLLLLLLLLLLLLLLLLL", "LLLLLLLLLLLLLLLLLLLLLLLL",
]
import = [250000, 350000]
export = [60000, 60000]
"#;

// The exit status where what the trials need can't be made.
const NO_MEMORY: u8 = 3;

// The exit status where the words ask for nothing that is done here.
const NOT_UNDERSTOOD: u8 = 2;

fn main(rt: HostRuntime) -> ExitCode {
    ExitCode::from(status_of(&rt))
}

// Does what the words behind the program's name ask for, and answers the exit status.
fn status_of(rt: &HostRuntime) -> u8 {
    let Ok(mut words) = env::args(rt) else {
        return NO_MEMORY;
    };
    let Some(task) = words.nth(1) else {
        return trials(rt);
    };
    match (task.as_str(), words.next()) {
        ("calls", Some(office)) => calls::answer_calls(rt, &office),
        _ => NOT_UNDERSTOOD,
    }
}

// Makes the trials, and answers the exit status.
fn trials(rt: &HostRuntime) -> u8 {
    let mut out = rt.stdout();
    let are_made = without_memory(&mut out, rt.alloc())
        && shut_without_memory(&mut out, rt.alloc())
        && with_one_refused(&mut out, rt.alloc());
    if are_made { 0 } else { NO_MEMORY }
}

// The calls that take no memory; whether what they need could be made. (Each store is made by a function that lends it.)
fn without_memory<O: Write>(out: &mut O, alloc: Global) -> bool {
    let mut begun = MemoryShelf::new(alloc);
    uploads::is_changed(&mut begun) && beside_begun(out, alloc, &mut begun)
}

fn beside_begun<O: Write, S: Shelf>(out: &mut O, alloc: Global, begun: &mut S) -> bool
    requires { IsSome (S.state begun.old).begun }
{
    let mut changed = MemoryShelf::new(alloc);
    uploads::is_changed(&mut changed) && beside_changed(out, alloc, begun, &mut changed)
}

fn beside_changed<O: Write, S: Shelf, T: Shelf>(
    out: &mut O,
    alloc: Global,
    begun: &mut S,
    changed: &mut T,
) -> bool
    requires begun { IsSome (S.state begun.old).begun }
    requires changed { IsSome (T.state changed.old).begun }
{
    match Office::read(alloc, OFFICE.as_bytes()) {
        Ok(office) => {
            tell(out, b"no memory\n");
            tell_stores(out, begun, changed);
            tell_made(out, alloc, office);
            tell(out, b"memory again\n");
            true
        }
        Err(_) => false,
    }
}

fn tell_stores<O: Write, S: Shelf, T: Shelf>(out: &mut O, begun: &mut S, changed: &mut T)
    requires begun { IsSome (S.state begun.old).begun }
    requires changed { IsSome (T.state changed.old).begun }
{
    tell_trial(out, shelves::is_taken_back(begun), b"upload taken back\n");
    tell_trial(out, uploads::is_kept(changed), b"upload kept\n");
}

// A counting store and a book, which are made without memory.
fn tell_made<O: Write>(out: &mut O, alloc: Global, office: Office) {
    tell_trial(out, shelves::is_counted(alloc), b"calls counted\n");
    let is_kept = shelves::is_kept(office, MemoryShelf::new(alloc));
    tell_trial(out, is_kept, b"book right\n");
}

// A book that is shut; whether it could be made.
fn shut_without_memory<O: Write>(out: &mut O, alloc: Global) -> bool {
    match Office::read(alloc, OFFICE.as_bytes()) {
        Ok(office) => tell_shut(out, alloc, &mut shut::failing_book(alloc, office)),
        Err(_) => false,
    }
}

fn tell_shut<O: Write, S: Shelf>(out: &mut O, alloc: Global, book: &mut Book<S>) -> bool {
    let is_shut = shut::is_refused(alloc, book);
    tell(out, b"no memory\n");
    tell_trial(out, shut::is_still_shut(alloc, book), b"shut book right\n");
    tell(out, b"memory again\n");
    is_shut
}

// The calls that answer that memory was refused, and are right when they are made again; whether their book could be made.
fn with_one_refused<O: Write>(out: &mut O, alloc: Global) -> bool {
    let is_taken_back = uploads::is_taken_back(alloc, out);
    tell_trial(out, is_taken_back, b"upload given up\n");
    match Office::read(alloc, OFFICE.as_bytes()) {
        Ok(office) => posted_with_one_refused(
            out,
            alloc,
            &mut shelves::empty_book(alloc, office, 100),
        ),
        Err(_) => false,
    }
}

fn posted_with_one_refused<O: Write, S: Shelf>(
    out: &mut O,
    alloc: Global,
    book: &mut Book<S>,
) -> bool {
    let is_filled = posts::is_filled(alloc, book);
    let Some(upload) = records_of(alloc, book.office(), &posts::UPLOAD) else {
        return false;
    };
    let Some(records) = records_of(alloc, book.office(), &posts::RECORDS) else {
        return false;
    };
    tell(out, b"one may be refused\n");
    let are_told = posts::are_told(alloc, book.office(), book.zone(), &records);
    tell_trial(out, are_told, b"parts right\n");
    tell_trial(
        out,
        posts::is_taken(alloc, book, &upload),
        b"upload right\n",
    );
    tell(out, b"all is given\n");
    tell(out, b"done\n");
    is_filled
}

// Writes the line of a trial.
fn tell_trial<O: Write>(out: &mut O, is_right: bool, text: &[u8]) {
    tell(out, if is_right { text } else { b"wrong\n" });
}

// Writes a line. One that can't be written is missing from the output, which is compared.
fn tell<O: Write>(out: &mut O, text: &[u8]) {
    let _ = out.write_all(text);
    let _ = out.flush();
}
