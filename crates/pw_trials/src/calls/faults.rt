//! What is told where memory was refused. (The script `tests/memory` shows when.)

use pw_record::{Cause, UploadFault};
use pw_tariff::OfficeFault;
use std::io::Write;

pub(crate) fn answer<O: Write>(words: &[&str], out: &mut O) -> Option<()> {
    match words {
        ["want_of_memory"] => {
            tell_want(out);
            Some(())
        }
        _ => None,
    }
}

// Of an office file, and of an upload.
fn tell_want<O: Write>(out: &mut O) {
    let upload = UploadFault {
        part: 0,
        cause: Cause::Memory,
    };
    let _ = writeln!(out, "{}", OfficeFault::Memory);
    let _ = writeln!(out, "{}", upload.line().as_str());
}
