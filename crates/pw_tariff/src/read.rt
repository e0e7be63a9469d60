//! Reading an office file.

ghost use Rattle.std.specs.Prelude.{◌≡◌, IsUtf8, MatchResult, Some};
ghost use Rattle.toml.specs.View.{table_view};
ghost use Rattle.pw_tariff.specs.inner.Checks.{IsRefusal};
ghost use Rattle.pw_tariff.specs.inner.Checks.{Passes};
ghost use Rattle.pw_tariff.specs.Text.{IsOfficeOf, IsRefused, IsTable, file_of_table, office_checks};
ghost use Rattle.pw_tariff.specs.inner.Checks.{IsNoTable};

use crate::accounts::read_accounts;
use crate::bands::read_bands;
use crate::meters::{by_id, read_meters};
use crate::periods::read_periods;
use crate::week::read_week;
use crate::{Office, OfficeFault};
use std::alloc::Global;
use toml::Table;

impl Office {
    /// The office of a text, by the format of the office file, or the first refusal in its order.
    ///
    /// `Memory` says nothing of the text: memory was refused while it was read.
    pub fn read(alloc: Global, text: &[u8]) -> Result<Office, OfficeFault>
        ensures { MatchResult result (λ office. IsOfficeOf text.now office)
            (λ e. IsRefused text.now e) }
    {
        let table = table_of(alloc, text)?;
        office_of(alloc, &table)
    }
}

// The table of a text.
fn table_of(alloc: Global, text: &[u8]) -> Result<Table, OfficeFault>
    ensures { MatchResult result (λ t. IsTable text.now (table_view t))
        (λ e. IsNoTable text.now e) }
{
    match toml::table_from_slice(alloc, text) {
        Ok(table) => Ok(table),
        Err(error) => {
            if error.is_memory() {
                return Err(OfficeFault::Memory);
            }
            Err(OfficeFault::Toml)
        }
    }
}

// The office of a table, or the first refusal.
fn office_of(alloc: Global, table: &Table) -> Result<Office, OfficeFault>
    ensures { MatchResult result
        (λ office. Passes (office_checks (table_view table.now))
        × (office ≡ file_of_table (table_view table.now)))
        (λ e. IsRefusal (office_checks (table_view table.now)) e) }
{
    let accounts = read_accounts(alloc, table)?;
    let bands = read_bands(alloc, table)?;
    let meters = read_meters(alloc, table)?;
    let by_id = by_id(alloc, &meters)?;
    let week = read_week(alloc, table, &bands)?;
    let later = read_periods(alloc, table, &bands)?;
    Ok(Office {
        accounts,
        bands,
        meters,
        by_id,
        week,
        later,
    })
}
