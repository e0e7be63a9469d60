//! The office that `pipe` takes where the words name none.

/// An office file, that of `examples/sample.toml`: two accounts, two bands, and three meters, one that marks its times,
/// one on winter time and one on local time.
pub const SAMPLE: &str = r#"accounts = ["A1", "A2"]
week = [
  "LLLLLLLHHHHHHHHHHHHHHHHL",
  "LLLLLLLHHHHHHHHHHHHHHHHL",
  "LLLLLLLHHHHHHHHHHHHHHHHL",
  "LLLLLLLHHHHHHHHHHHHHHHHL",
  "LLLLLLLHHHHHHHHHHHHHHHHL",
  "LLLLLLLLLLLLLLLLLLLLLLLL",
  "LLLLLLLLLLLLLLLLLLLLLLLL",
]

[[band]]
name = "L"
import = 200000
export = 50000

[[band]]
name = "H"
import = 300000
export = 50000

[[meter]]
id = "4D31"
clock = "marked"
registers = ["I1", "I2", "E1", "E2"]

[[meter]]
id = "Z7"
clock = "winter"
registers = ["I0"]

[[meter]]
id = "Z8"
clock = "local"
registers = ["I0"]
"#;
