//! The days of a sample, from Monday, 25 March 2024 on.

use pw_time::{Instant, write_utc};
use std::alloc::AllocError;
use std::str::from_utf8;

/// The quarters of an hour in a day.
pub const QUARTERS: u32 = 96;

// The second of 2024-03-25T00:00:00Z.
const BEGIN: u32 = 1_711_324_800;

// Summer time of 2024, from 2024-03-31T01:00:00Z to 2024-10-27T01:00:00Z. (EU directive 2000/84/EC; that of 2025 begins
// behind the last day of a sample.)
const SUMMER: [u32; 2] = [1_711_846_800, 1_729_990_800];

/// The second at which a day of a sample begins in UTC. The first is day 0.
pub fn day_begin(day: u32) -> u32 {
    BEGIN.saturating_add(day.saturating_mul(86_400))
}

/// The second of a day's noon in UTC.
pub fn noon(day: u32) -> u32 {
    day_begin(day).saturating_add(43_200)
}

/// The second of the first midnight of Central European time.
pub fn first_midnight() -> u32 {
    BEGIN - 3600
}

/// The second at which a quarter of an hour of a day begins in UTC.
pub fn quarter_begin(day: u32, quarter: u32) -> u32 {
    day_begin(day).saturating_add(quarter.saturating_mul(900))
}

/// The characters of a second, `YYYY-MM-DDThh:mm:ssZ`; zeros where it is no instant of 2000 to 2099.
pub fn utc_text(second: u32) -> [u8; 20] {
    match Instant::of(second) {
        Some(instant) => write_utc(instant),
        None => [b'0'; 20],
    }
}

/// Characters of a second as text.
pub fn text_of(characters: &[u8]) -> &str {
    from_utf8(characters).unwrap_or("")
}

/// Adds the stamp of a telegram at a second: `YYMMDDhhmmss` and the season mark, `S` or `W`.
pub fn push_stamp(text: &mut String, second: u32) -> Result<(), AllocError> {
    let is_summer = SUMMER[0] <= second && second < SUMMER[1];
    let ahead = if is_summer { 7200 } else { 3600 };
    let local = utc_text(second.saturating_add(ahead));
    push_digits(text, &local[2..19])?;
    text.push(if is_summer { 'S' } else { 'W' })
}

/// Adds the digits among characters.
pub fn push_digits(text: &mut String, characters: &[u8]) -> Result<(), AllocError> {
    for byte in characters {
        if matches!(*byte, b'0'..=b'9') {
            text.push(char::from(*byte))?;
        }
    }
    Ok(())
}
