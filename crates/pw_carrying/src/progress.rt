//! How far a carrying is.

/// Who is told how far a carrying is.
pub trait Carrying {
    /// So many records have been carried so far, and are kept by the other store.
    fn carried(&mut self, records: u32);
}

/// Nobody is told.
#[derive(Drop)]
pub struct Untold;

impl Carrying for Untold {
    fn carried(&mut self, _records: u32) {}
}
