//! The week of an office file.

ghost use Rattle.std.specs.Prelude.{◌≡◌, ◌&&◌, ◌==◌, MatchResult, length, map, nat_lt, string_bytes};
ghost use Rattle.std.specs.List.{list_all};
ghost use Rattle.toml.specs.View.{table_view};
ghost use Rattle.pw_tariff.specs.inner.Checks.{IsRefusal};
ghost use Rattle.pw_tariff.specs.inner.Checks.{Passes};
ghost use Rattle.pw_tariff.specs.Held.{bands_of};
ghost use Rattle.pw_tariff.specs.Office.{band_named};
ghost use Rattle.pw_tariff.specs.Text.{bands_of_table, is_day, is_week, week_checks, week_of};

use crate::OfficeFault;
use crate::office::{Band, named};
use crate::table::texts_at;
use std::alloc::Global;
use toml::Table;

// The week, or its first refusal, behind the bands that were read.
pub(crate) fn read_week(
    alloc: Global,
    table: &Table,
    bands: &[Band],
) -> Result<Vec<String>, OfficeFault>
    requires { bands_of bands.now ≡ bands_of_table (table_view table.now) }
    ensures { MatchResult result
        (λ v. Passes (week_checks (table_view table.now))
        × (map string_bytes v.items ≡ week_of (table_view table.now)))
        (λ e. IsRefusal (week_checks (table_view table.now)) e) }
{
    let week = texts_at(alloc, table, "week")?;
    if !is_week(bands, &week) {
        return Err(OfficeFault::Week);
    }
    Ok(week)
}

// Seven days, from Monday on.
pub(crate) fn is_week(bands: &[Band], week: &[String]) -> bool
    ensures { result ≡ is_week (bands_of bands.now) (map string_bytes week.now) }
{
    let seven = week.len() == 7;
    let days = are_days(bands, week);
    seven && days
}

// Nothing but days.
fn are_days(bands: &[Band], week: &[String]) -> bool
    ensures { result ≡ list_all (is_day (bands_of bands.now)) (map string_bytes week.now) }
{
    for day in week {
        if !is_day(bands, day.as_bytes()) {
            return false;
        }
    }
    true
}

// 24 letters, each a band's name.
fn is_day(bands: &[Band], day: &[u8]) -> bool
    ensures { result ≡ is_day (bands_of bands.now) day.now }
{
    let whole = day.len() == 24;
    let letters = are_letters(bands, day);
    whole && letters
}

// Nothing but letters of bands.
fn are_letters(bands: &[Band], day: &[u8]) -> bool
    ensures { result ≡ list_all (λ c. nat_lt (band_named (bands_of bands.now) c)
        (length (bands_of bands.now))) day.now }
{
    for letter in day {
        if named(bands, *letter) >= bands.len() {
            return false;
        }
    }
    true
}
