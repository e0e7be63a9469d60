//! Why a sample can't be made.

use std::alloc::AllocError;
use std::io::{Error as IoError, ErrorKind};
use thiserror::Error;

/// Why a sample can't be made. Its text is the line, without its end.
#[derive(Debug, Drop, Error)]
pub enum Fault {
    /// Memory was refused.
    #[error("powerbook-sample: no memory")]
    Memory(#[from(alloc)] AllocError),
    /// A folder or a file can't be made: its path, and why.
    #[error("powerbook-sample: can't make {path}: {why}")]
    Device { path: String, why: ErrorKind },
}

/// The fault of what the system answers for a path.
pub fn fault_at(path: String, error: &IoError) -> Fault {
    match error.kind() {
        ErrorKind::OutOfMemory => Fault::Memory(AllocError),
        why => Fault::Device { path, why },
    }
}
