//! Files that a command is given.

ghost use Rattle.std.specs.Prelude.{◌≡◌, ◌≤◌, ◌⊎◌, IfErr, IfOk, length};
ghost use Rattle.pw_commands.specs.Faults.{IsOfReading};

use crate::fault::Fault;
use std::fs::File;
use std::io::{ErrorKind, Read};

/// The longest office file, in bytes.
pub const LONGEST_OFFICE: u32 = 1_048_576;

/// The bytes of a file. `TooLarge` where there are more than `most`; `Memory`; `Device` where it can't be read.
pub fn read_file(rt: &HostRuntime, path: &str, most: u32) -> Result<Vec<u8>, Fault>
    ensures size { IfOk result (λ bytes. length bytes.items ≤ most) }
    ensures cause { IfErr result (λ fault. (fault ≡ Fault.TooLarge) ⊎ IsOfReading fault) }
{
    match File::open(rt, path) {
        Ok(file) => read_whole(rt, file, most),
        Err(error) => Err(reading_failed(error.kind())),
    }
}

fn read_whole(rt: &HostRuntime, file: File, most: u32) -> Result<Vec<u8>, Fault>
    ensures size { IfOk result (λ bytes. length bytes.items ≤ most) }
    ensures cause { IfErr result (λ fault. (fault ≡ Fault.TooLarge) ⊎ IsOfReading fault) }
{
    let mut bytes = Vec::new(rt.alloc());
    match file.take(u64::from(most) + 1).read_to_end(&mut bytes) {
        Ok(_) if bytes.len() <= most as usize => Ok(bytes),
        Ok(_) => Err(Fault::TooLarge),
        Err(error) => Err(reading_failed(error.kind())),
    }
}

fn reading_failed(kind: ErrorKind) -> Fault
    ensures { IsOfReading result }
{
    match kind {
        ErrorKind::OutOfMemory => Fault::Memory,
        _ => Fault::Device,
    }
}
