//! The office file of a sample.

use crate::meter::{Clock, Meter, Shown};
use crate::moment::{text_of, utc_text};
use std::alloc::{AllocError, Global};

// Five days of work, and the weekend. The bands by the hours of a day: L by night, H by day, and L all through the weekend.
const WEEK: &str = r#"week = [
  "LLLLLLLHHHHHHHHHHHHHHHHL",
  "LLLLLLLHHHHHHHHHHHHHHHHL",
  "LLLLLLLHHHHHHHHHHHHHHHHL",
  "LLLLLLLHHHHHHHHHHHHHHHHL",
  "LLLLLLLHHHHHHHHHHHHHHHHL",
  "LLLLLLLLLLLLLLLLLLLLLLLL",
  "LLLLLLLLLLLLLLLLLLLLLLLL",
]
"#;

const BANDS: &str = r#"
[[band]]
name = "L"
import = 200000
export = 50000

[[band]]
name = "H"
import = 300000
export = 50000
"#;

// The bands' prices in the period in which import is dearer.
const LATER_PRICES: &str = "import = [220000, 330000]
export = [50000, 50000]
";

/// The names of the accounts, one a line.
pub fn account_list(alloc: Global, accounts: u32) -> Result<String, AllocError> {
    let mut text = String::new(alloc);
    push_accounts(&mut text, accounts, "", "\n")?;
    Ok(text)
}

/// The office file: accounts, week and bands, the period that begins at a second, meters.
pub fn office_text(
    alloc: Global,
    accounts: u32,
    later: u32,
    meters: &[Meter],
) -> Result<String, AllocError> {
    let mut text = String::new(alloc);
    push_office(&mut text, accounts, later, meters)?;
    Ok(text)
}

fn push_office(
    text: &mut String,
    accounts: u32,
    later: u32,
    meters: &[Meter],
) -> Result<(), AllocError> {
    text.push_str("accounts = [\n")?;
    push_accounts(text, accounts, "  \"", "\",\n")?;
    let utc = utc_text(later);
    let start = text_of(&utc);
    write!(
        text,
        "]\n{WEEK}{BANDS}\n[[period]]\nstart = \"{start}\"\n{WEEK}{LATER_PRICES}"
    )?;
    for meter in meters {
        push_meter(text, meter)?;
    }
    Ok(())
}

// Adds the names of the accounts, each between two texts.
fn push_accounts(
    text: &mut String,
    accounts: u32,
    before: &str,
    behind: &str,
) -> Result<(), AllocError> {
    for account in 0..accounts {
        let number = account.saturating_add(1);
        write!(text, "{before}A{number:03}{behind}")?;
    }
    Ok(())
}

fn push_meter(text: &mut String, meter: &Meter) -> Result<(), AllocError> {
    let clock = match meter.clock {
        Clock::Marked => "marked",
        Clock::Winter => "winter",
        Clock::Local => "local",
    };
    let registers = match (meter.shown, meter.exports) {
        (Shown::Totals, false) => r#""I0""#,
        (Shown::Totals, true) => r#""I0", "E0""#,
        (Shown::Rates, false) => r#""I1", "I2""#,
        (Shown::Rates, true) => r#""I1", "I2", "E1", "E2""#,
    };
    let id = meter.id.as_str();
    write!(
        text,
        "\n[[meter]]\nid = \"{id}\"\nclock = \"{clock}\"\nregisters = [{registers}]\n"
    )
}
