//! The texts of sample offices.

pub use pw_words::SAMPLE;
use std::alloc::{AllocError, Global};

/// Two accounts, two bands, and two meters of four registers.
pub const TWO_METERS: &str = r#"accounts = ["A1", "A2"]
week = [
  "LLLLLLLHHHHHHHHHHHHHHHHL", "LLLLLLLHHHHHHHHHHHHHHHHL", "LLLLLLLHHHHHHHHHHHHHHHHL", "LLLLLLLHHHHHHHHHHHHHHHHL",
  "LLLLLLLHHHHHHHHHHHHHHHHL", "LLLLLLLLLLLLLLLLLLLLLLLL", "LLLLLLLLLLLLLLLLLLLLLLLL",
]
band = [{ name = "L", import = 200000, export = 50000 }, { name = "H", import = 300000, export = 50000 }]
meter = [
  { id = "4D31", clock = "marked", registers = ["I1", "I2", "E1", "E2"] },
  { id = "4D32", clock = "marked", registers = ["I1", "I2", "E1", "E2"] },
]
"#;

// What it has from 2024-01-02T06:00:00Z on: each hour is of the first band, and import costs more.
const RISE: &str = r#"
[[period]]
start = "2024-01-02T06:00:00Z"
week = [
  "LLLLLLLLLLLLLLLLLLLLLLLL", "LLLLLLLLLLLLLLLLLLLLLLLL", "LLLLLLLLLLLLLLLLLLLLLLLL", "LLLLLLLLLLLLLLLLLLLLLLLL",
  "LLLLLLLLLLLLLLLLLLLLLLLL", "LLLLLLLLLLLLLLLLLLLLLLLL", "LLLLLLLLLLLLLLLLLLLLLLLL",
]
import = [250000, 300000]
export = [50000, 50000]
"#;

/// The same office with a period from 2024-01-02T06:00:00Z on, in which each hour is of the first band, and import costs
/// more.
pub fn rising_office(alloc: Global) -> Result<String, AllocError> {
    format!(in alloc; "{TWO_METERS}{RISE}")
}
