//! The limits of an office file.

/// The most accounts that an office has.
pub const MOST_ACCOUNTS: usize = 256;

/// The most meters that an office has.
pub const MOST_METERS: usize = 1_024;

/// The most tariff bands that an office has.
pub const MOST_BANDS: usize = 8;

/// The most tariff periods that an office has.
pub const MOST_PERIODS: usize = 16;

/// The highest price, in nano-euro per Wh.
pub const MOST_PRICE: u32 = 1_000_000_000;

// The seconds of an hour.
pub(crate) const HOUR: u32 = 3_600;

/// The most characters of an account's name.
pub const LONGEST_ACCOUNT_NAME: usize = 32;

/// The most characters of a meter's id.
pub const LONGEST_METER_ID: usize = 192;
