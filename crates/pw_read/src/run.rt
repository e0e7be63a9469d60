//! One run of `read`: from a reader to two writers and an exit status.

ghost use Rattle.std.specs.Prelude.{◌≡◌, ◌⊎◌, ℕ, ◌<◌, ◌≤◌, List, Some, length, MatchResult};
ghost use Rattle.pw_frame.specs.declared.frames.TheConstants.{LONGEST_BODY};
ghost use Rattle.pw_read.specs.Text.{BodyShows};
ghost use Rattle.pw_read.specs.Run.{IsFailure, IsRun, failure_line, failure_status};
ghost use Rattle.pw_read.specs.inner.Run.{Tells, TellsLine, Writes};
ghost use Rattle.pw_time.specs.declared.zone.Clock.{Clock};

use crate::fault::ReadFault;
use crate::frame_text::body_text;
use pw_frame::LONGEST_BODY;
use pw_line::{Line, ended, line_of, memory_refused};
use pw_time::{Clock, Zone};
use std::alloc::Global;
use std::io;
use std::io::{ErrorKind, Read, Write};

// What came of a run, beside the text of a body.
#[derive(Drop)]
enum Failure {
    Body(ReadFault),
    TooLarge,
    Device,
}

/// Reads a body to the end of `reader` and writes its text to `out`, or why there is none as a line to `err`.
///
/// `clock` is the one of readouts. A telegram's stamp has its own mark.
///
/// Answers the exit status: 0, 1 for a body that is refused or longer than 262,144 bytes, 3 for a reader or writer that
/// fails or for want of memory. At most 262,145 bytes are read. With 3, `out` has a front of the body's
/// text, or nothing, and `err` a front of the line of one failure, or all of it. (What the streams are given is said of a
/// reader whose bytes are known. That 3 comes only where something failed, no contract can say: a stream doesn't tell.)
pub fn read_run<R: Read, O: Write, E: Write>(
    alloc: Global,
    clock: Clock,
    reader: &mut R,
    out: &mut O,
    err: &mut E,
) -> u8
    ensures status { (result ≡ 0) ⊎ ((result ≡ 1) ⊎ (result ≡ 3)) }
    ensures run { (body : List ℕ) → R.remaining reader.old ≡ Some body →
        IsRun clock body (O.contents out.old) (O.contents out.new) (E.contents err.old)
        (E.contents err.new) result }
{
    let text = match text_of(alloc, clock, reader) {
        Ok(text) => text,
        Err(failure) => return tell(&failure, err),
    };
    match write(out, text.as_slice()) {
        Ok(()) => 0,
        Err(_) => tell(&Failure::Device, err),
    }
}

// The text of the body that a reader gives, or why there is none.
fn text_of<R: Read>(alloc: Global, clock: Clock, reader: &mut R) -> Result<Vec<u8>, Failure>
    ensures { (body : List ℕ) → R.remaining reader.old ≡ Some body → MatchResult result
        (λ text. (length body ≤ LONGEST_BODY) × BodyShows clock body text.items)
        (λ failure. IsFailure clock body failure) }
{
    let mut body = Vec::new(alloc);
    if let Err(error) = reader.take(LONGEST_BODY as u64 + 1).read_to_end(&mut body) {
        return Err(reading_failed(error.kind()));
    }
    if body.len() > LONGEST_BODY {
        return Err(Failure::TooLarge);
    }
    match body_text(alloc, clock, &Zone::central(), body.as_slice()) {
        Ok(text) => Ok(text),
        Err(fault) => Err(Failure::Body(fault)),
    }
}

// What came of it where a reader answers an error: want of memory in taking its bytes, or its own failure.
fn reading_failed(kind: ErrorKind) -> Failure
    ensures { (clock : Clock) (body : List ℕ) → IsFailure clock body result }
{
    match kind {
        ErrorKind::OutOfMemory => Failure::Body(ReadFault::Memory),
        _ => Failure::Device,
    }
}

// Writes bytes by as many calls as it takes, and flushes. After an error a front of them is written.
fn write<W: Write>(writer: &mut W, bytes: &[u8]) -> io::Result<()>
    ensures { Writes (W.contents writer.old) (W.contents writer.new) bytes.now result }
{
    let mut at = 0;
    'calls: for _ in 0..u64::MAX {
        if at == bytes.len() {
            return writer.flush();
        }
        match writer.write(&bytes[at..]) {
            Ok(0) => return Err(io::Error::from(ErrorKind::WriteZero)),
            Ok(n) => at += n,
            Err(error) => {
                if error.kind() != ErrorKind::Interrupted {
                    return Err(error);
                }
            }
        }
    }
    Err(io::Error::from(ErrorKind::TimedOut))
}

// Writes the line of a failure, and answers its exit status. It takes no memory.
fn tell<E: Write>(failure: &Failure, err: &mut E) -> u8
    ensures { Tells failure.now (E.contents err.old) (E.contents err.new) result }
{
    let line = line_with_end(failure);
    tell_line(line.as_str().as_bytes(), status_of(failure), err)
}

// The line of a failure as it is written, its end included.
fn line_with_end(failure: &Failure) -> Line
    ensures { result.bytes ≡ failure_line failure.now }
{
    match failure {
        Failure::Body(ReadFault::Refused(refusal)) => ended(refusal.line()),
        Failure::Body(ReadFault::Memory) => ended(memory_refused()),
        Failure::TooLarge => line_of("body too large\n"),
        Failure::Device => line_of("device failed\n"),
    }
}

// The exit status that tells whose the failure is: the body's, or the device's and the memory's.
fn status_of(failure: &Failure) -> u8
    ensures { result ≡ failure_status failure.now }
{
    match failure {
        Failure::Body(ReadFault::Refused(_)) | Failure::TooLarge => 1,
        Failure::Body(ReadFault::Memory) | Failure::Device => 3,
    }
}

// Writes a line, and answers `status`, or 3 where the writer fails.
fn tell_line<E: Write>(line: &[u8], status: u8, err: &mut E) -> u8
    ensures { TellsLine line.now status (E.contents err.old) (E.contents err.new) result }
{
    match write(err, line) {
        Ok(()) => status,
        Err(_) => 3,
    }
}
