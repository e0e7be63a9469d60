//! How far an opening is.

use pw_schema::{RecordKind, TotalKind};

/// What an opening checks, in its order.
#[derive(Clone, Copy, Debug, PartialEq, Eq)]
pub enum Part {
    Records(RecordKind),
    Points,
    Starts,
    Totals(TotalKind),
}

/// Who is told how far an opening is, and what it changed.
pub trait Watch {
    /// So many rows of a part have been read, and are those of the office.
    fn checked(&mut self, part: Part, rows: usize);

    /// The store was of an earlier version, and is one of version 3 now.
    fn upgraded(&mut self);
}

/// Nobody is told.
#[derive(Drop)]
pub struct Unwatched;

impl Watch for Unwatched {
    fn checked(&mut self, _part: Part, _rows: usize) {}

    fn upgraded(&mut self) {}
}
