//! The periods of an office file behind the first.

ghost use Rattle.std.specs.Prelude.{◌≡◌, MatchOption, MatchResult, Some, map, true, false};
ghost use Rattle.toml.specs.View.{array_view, table_view};
ghost use Rattle.pw_time.specs.declared.instant.TheConstants.{FIRST_SECOND};
ghost use Rattle.pw_tariff.specs.Held.{bands_of, period_of};
ghost use Rattle.pw_tariff.specs.Text.{bands_of_table, is_later, later_of_table, period_checks, period_of_table, periods_checks, periods_in_turn, prices_checks, tables_of, whole_of};
ghost use Rattle.pw_tariff.specs.Words.{whole_hour};
ghost use Rattle.pw_tariff.specs.inner.Checks.{IsRefusal, Passes};
ghost use Rattle.pw_tariff.specs.inner.Held.{table_in};

use crate::OfficeFault;
use crate::bands::price;
use crate::limits::MOST_PERIODS;
use crate::office::{Band, Period};
use crate::table::{are_tables, has_key, integers_at, list_at, text_at, texts_at};
use crate::week::is_week;
use crate::words::whole_hour;
use pw_time::{FIRST_SECOND, Instant};
use std::alloc::Global;
use toml::Table;
use toml::value::Array;

// The periods behind the first, or the first refusal, behind the bands that were read. A file may leave their key out.
pub(crate) fn read_periods(
    alloc: Global,
    table: &Table,
    bands: &[Band],
) -> Result<Vec<Period>, OfficeFault>
    requires { bands_of bands.now ≡ bands_of_table (table_view table.now) }
    ensures { MatchResult result
        (λ v. Passes (periods_checks (table_view table.now))
        × (map period_of v.items ≡ later_of_table (table_view table.now)))
        (λ e. IsRefusal (periods_checks (table_view table.now)) e) }
{
    if !has_key(table, "period") {
        return Ok(Vec::new(alloc));
    }
    let Some(array) = list_at(table, "period") else {
        return Err(OfficeFault::MissingField);
    };
    if !are_tables(array) {
        return Err(OfficeFault::MissingField);
    }
    if array.len() >= MOST_PERIODS {
        return Err(OfficeFault::TooMany);
    }
    read_each(alloc, array, bands)
}

// The periods of a list of tables, one after another, or the first refusal.
fn read_each(alloc: Global, array: &Array, bands: &[Band]) -> Result<Vec<Period>, OfficeFault>
    requires { tables_of (array_view array.now) ≡ Some (map table_in array.now.items) }
    ensures { MatchResult result
        (λ v. Passes (periods_in_turn (bands_of bands.now) FIRST_SECOND
        (map table_in array.now.items))
        × (map period_of v.items ≡ map period_of_table (map table_in array.now.items)))
        (λ e. IsRefusal (periods_in_turn (bands_of bands.now) FIRST_SECOND
        (map table_in array.now.items)) e) }
{
    let mut periods = Vec::new(alloc);
    let mut before = FIRST_SECOND;
    for value in array {
        let Some(table) = value.as_table() else {
            return Err(OfficeFault::MissingField);
        };
        let period = read_period(alloc, table, bands, before)?;
        before = period.start.seconds();
        periods.push(period)?;
    }
    Ok(periods)
}

// One period behind the start of the one before it, or its first refusal.
fn read_period(
    alloc: Global,
    table: &Table,
    bands: &[Band],
    before: u32,
) -> Result<Period, OfficeFault>
    ensures { MatchResult result
        (λ p. Passes (period_checks (bands_of bands.now) before (table_view table.now))
        × (period_of p ≡ period_of_table (table_view table.now)))
        (λ e. IsRefusal (period_checks (bands_of bands.now) before (table_view table.now)) e) }
{
    let Some(start) = text_at(table, "start") else {
        return Err(OfficeFault::MissingField);
    };
    let week = texts_at(alloc, table, "week")?;
    let import = integers_at(alloc, table, "import")?;
    let export = integers_at(alloc, table, "export")?;
    let Some(start) = later_hour(start.as_bytes(), before) else {
        return Err(OfficeFault::Period);
    };
    if !is_week(bands, &week) {
        return Err(OfficeFault::Week);
    }
    let import_prices = read_prices(alloc, bands, &import)?;
    let export_prices = read_prices(alloc, bands, &export)?;
    Ok(Period {
        start,
        week,
        import_prices,
        export_prices,
    })
}

// The whole hour of UTC that a text tells, if it is later than a second.
fn later_hour(text: &[u8], before: u32) -> Option<Instant>
    ensures { MatchOption result
        (is_later before (whole_hour text.now) ≡ false)
        (λ start. (is_later before (whole_hour text.now) ≡ true)
        × (whole_hour text.now ≡ Some start)) }
{
    let start = whole_hour(text)?;
    if start.seconds() <= before {
        return None;
    }
    Some(start)
}

// A price for each band, or the first refusal of their list.
fn read_prices(alloc: Global, bands: &[Band], values: &[i64]) -> Result<Vec<u32>, OfficeFault>
    ensures { MatchResult result
        (λ v. Passes (prices_checks (bands_of bands.now) values.now)
        × (v.items ≡ map whole_of values.now))
        (λ e. IsRefusal (prices_checks (bands_of bands.now) values.now) e) }
{
    if values.len() != bands.len() {
        return Err(OfficeFault::Period);
    }
    let mut prices = Vec::new(alloc);
    for value in values {
        let Some(price) = price(*value) else {
            return Err(OfficeFault::Price);
        };
        prices.push(price)?;
    }
    Ok(prices)
}
