//! What came of a command, told: its text to standard output, or the fault's line to standard error.

ghost use Rattle.std.specs.Prelude.{◌≡◌, ◌⊎◌, List, ℕ, IfOk, IfErr};
ghost use Rattle.std.specs.Io.KnownBytes.{Appends};
ghost use Rattle.pw_read.specs.Run.{WritesFront};
ghost use Rattle.pw_commands.specs.Faults.{IsTold, TellsLine, Writes};

use crate::fault::Fault;
use pw_line::{ended, memory_refused};
use std::alloc::Global;
use std::io::{ErrorKind, Write};

/// Writes the text of a command to `out`, or why there is none as a line to `err`.
///
/// Answers the exit status: 0; that of the fault; 3 where a stream fails, which has a front of what it was to be given.
pub fn finish<O: Write, E: Write>(
    alloc: Global,
    text: Result<Vec<u8>, Fault>,
    out: &mut O,
    err: &mut E,
) -> u8
    ensures text { IfOk text (λ text. ((result ≡ 0)
        × Appends (O.contents out.old) (O.contents out.new) text.items × (err.new ≡ err.old))
        ⊎ ((result ≡ 3) × WritesFront (O.contents out.old) (O.contents out.new) text.items
        × IsTold Fault.Device (E.contents err.old) (E.contents err.new) result)) }
    ensures fault { IfErr text (λ fault. (out.new ≡ out.old)
        × IsTold fault (E.contents err.old) (E.contents err.new) result) }
{
    match text {
        Ok(text) => match write_whole(out, text.as_slice()) {
            Ok(()) => 0,
            Err(_) => tell(alloc, Fault::Device, err),
        },
        Err(fault) => tell(alloc, fault, err),
    }
}

/// Writes the line of a fault, and answers its exit status; where memory for it is refused, tells that.
///
/// Where the line can't be written, 3 is answered, and a front of it was.
pub fn tell<E: Write>(alloc: Global, fault: Fault, err: &mut E) -> u8
    ensures { IsTold fault (E.contents err.old) (E.contents err.new) result }
{
    match format!(in alloc; "{fault}\n") {
        Ok(line) => tell_line(line.as_bytes(), fault.status(), err),
        Err(_) => tell_line(ended(memory_refused()).as_str().as_bytes(), 3, err),
    }
}

// Writes a line, and answers `status`, or 3 where the writer fails.
fn tell_line<E: Write>(line: &[u8], status: u8, err: &mut E) -> u8
    ensures { TellsLine line.now status (E.contents err.old) (E.contents err.new) result }
{
    match write_whole(err, line) {
        Ok(()) => status,
        Err(_) => 3,
    }
}

/// Writes bytes by as many calls as it takes, and sees to it that they leave. After an error a front of them is written.
pub fn write_whole<O: Write>(out: &mut O, bytes: &[u8]) -> Result<(), Fault>
    ensures written { Writes (O.contents out.old) (O.contents out.new) bytes.now result }
    ensures err { IfErr result (λ fault. fault ≡ Fault.Device) }
{
    let mut at = 0;
    'calls: for _ in 0..u64::MAX {
        if at == bytes.len() {
            return match out.flush() {
                Ok(()) => Ok(()),
                Err(_) => Err(Fault::Device),
            };
        }
        match out.write(&bytes[at..]) {
            Ok(0) => return Err(Fault::Device),
            Ok(n) => at += n,
            Err(error) => {
                if error.kind() != ErrorKind::Interrupted {
                    return Err(Fault::Device);
                }
            }
        }
    }
    Err(Fault::Device)
}
