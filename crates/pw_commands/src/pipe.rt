//! The command `pipe`: requests from one stream are answered on another, by a book in memory that ends with them.

ghost use Rattle.std.specs.Prelude.{◌≡◌, ◌⊎◌, List, ℕ};
ghost use Rattle.pw_tariff.specs.Text.{IsOfficeOf};
ghost use Rattle.pw_words.specs.Words.{IsLimit};
ghost use Rattle.pw_commands.specs.Pipe.{IsDone, IsStopped, RefusesOffice};
ghost use Rattle.pw_commands.specs.inner.Piping.{Pipes};

use crate::fault::Fault;
use crate::telling::tell;
use pw_book::Book;
use pw_http::{WireFault, converse};
use pw_shelf::{MemoryShelf, Shelf};
use pw_tariff::Office;
use pw_time::Zone;
use std::alloc::Global;
use std::io::{Read, Write};

/// Reads requests from `reader` and writes the replies to `out`: a conversation with an empty book of the office of a text,
/// whose records stand in memory.
///
/// Answers the exit status: 0; 1 where the text is refused as an office file; 3 where a stream or memory failed. With 1 and
/// 3 the fault is a line to `err`, of which with 3 a front may be written alone.
pub fn pipe_run<R: Read, O: Write, E: Write>(
    alloc: Global,
    office: &[u8],
    limit: u32,
    reader: &mut R,
    out: &mut O,
    err: &mut E,
) -> u8
    requires { IsLimit limit }
    ensures status { (result ≡ 0) ⊎ ((result ≡ 1) ⊎ (result ≡ 3)) }
    ensures refused { result ≡ 1 → (out.new ≡ out.old)
        × RefusesOffice office.now (E.contents err.old) (E.contents err.new) }
    ensures piped { result ≡ 0 → (err.new ≡ err.old)
        × IsDone ⟦<MemoryShelf as Shelf>⟧ office.now (R.remaining reader.old)
        (R.remaining reader.new) (O.contents out.old) (O.contents out.new) }
    ensures stopped { result ≡ 3 → IsStopped ⟦<MemoryShelf as Shelf>⟧ office.now
        (R.remaining reader.old) (R.remaining reader.new) (O.contents out.old)
        (O.contents out.new) (E.contents err.old) (E.contents err.new) }
{
    let office = match Office::read(alloc, office) {
        Ok(office) => office,
        Err(fault) => return tell(alloc, Fault::Office(fault), err),
    };
    match pipe_in(alloc, office, limit, reader, out) {
        Ok(()) => 0,
        Err(fault) => tell(alloc, Fault::Wire(fault), err),
    }
}

// The conversation, whose replies are seen to leave.
fn pipe_in<R: Read, O: Write>(
    alloc: Global,
    office: Office,
    limit: u32,
    reader: &mut R,
    out: &mut O,
) -> Result<(), WireFault>
    requires { IsLimit limit }
    ensures { (text : List ℕ) → IsOfficeOf text office
        → Pipes ⟦<MemoryShelf as Shelf>⟧ text (R.remaining reader.old) (R.remaining reader.new)
        (O.contents out.old) (O.contents out.new) result }
{
    let mut book = Book::new(office, Zone::central(), MemoryShelf::new(alloc), limit);
    converse(alloc, &mut book, reader, out)?;
    match out.flush() {
        Ok(()) => Ok(()),
        Err(_) => Err(WireFault::Write),
    }
}
