//! Limits of amounts, and how money is counted.

/// The most records that a book may hold.
pub const MOST_RECORDS: u32 = 10_000_000;

/// The most cents of one top-up: 1,000,000 euro.
pub const MOST_CENTS: u32 = 100_000_000;

/// Nano-euro in a cent.
pub const NANO_IN_CENT: u128 = 10_000_000;
