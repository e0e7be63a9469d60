//! The tariff bands of an office file.

ghost use Rattle.std.specs.Prelude.{◌≡◌, [], ◌∷◌, MatchOption, MatchResult, Some, map, true, false};
ghost use Rattle.toml.specs.View.{array_view, table_view};
ghost use Rattle.pw_tariff.specs.inner.Checks.{IsRefusal};
ghost use Rattle.pw_tariff.specs.inner.Checks.{Passes};
ghost use Rattle.pw_tariff.specs.Held.{band_of, bands_of};
ghost use Rattle.pw_tariff.specs.inner.Held.{table_in};
ghost use Rattle.pw_tariff.specs.inner.Held.{letters_of};
ghost use Rattle.pw_tariff.specs.Text.{band_checks, band_of_table, bands_checks, bands_of_table, band_name_of, tables_of, whole_of};
ghost use Rattle.pw_tariff.specs.inner.Checks.{bands_in_turn};
ghost use Rattle.pw_tariff.specs.Words.{is_band_name, is_new, is_price};

use crate::OfficeFault;
use crate::limits::{MOST_BANDS, MOST_PRICE};
use crate::office::Band;
use crate::table::{are_tables, check_length, integer_at, list_at, text_at};
use crate::words::is_capital;
use std::alloc::Global;
use toml::Table;
use toml::value::Array;

// The bands, or the first refusal.
pub(crate) fn read_bands(alloc: Global, table: &Table) -> Result<Vec<Band>, OfficeFault>
    ensures { MatchResult result
        (λ v. Passes (bands_checks (table_view table.now))
        × (bands_of v.items ≡ bands_of_table (table_view table.now)))
        (λ e. IsRefusal (bands_checks (table_view table.now)) e) }
{
    let Some(array) = list_at(table, "band") else {
        return Err(OfficeFault::MissingField);
    };
    if !are_tables(array) {
        return Err(OfficeFault::MissingField);
    }
    check_length(array.len(), MOST_BANDS)?;
    read_each(alloc, array)
}

// The bands of a list of tables, one after another, or the first refusal.
fn read_each(alloc: Global, array: &Array) -> Result<Vec<Band>, OfficeFault>
    requires { tables_of (array_view array.now) ≡ Some (map table_in array.now.items) }
    ensures { MatchResult result
        (λ v. Passes (bands_in_turn (map table_in array.now.items))
        × (bands_of v.items ≡ map band_of_table (map table_in array.now.items)))
        (λ e. IsRefusal (bands_in_turn (map table_in array.now.items)) e) }
{
    let mut bands = Vec::new(alloc);
    for value in array {
        let Some(table) = value.as_table() else {
            return Err(OfficeFault::MissingField);
        };
        let band = read_band(table, &bands)?;
        bands.push(band)?;
    }
    Ok(bands)
}

// One band behind the earlier ones, or its first refusal.
fn read_band(table: &Table, earlier: &[Band]) -> Result<Band, OfficeFault>
    ensures { MatchResult result
        (λ b. Passes (band_checks (letters_of earlier.now) (table_view table.now))
        × (band_of b ≡ band_of_table (table_view table.now))
        × (band_name_of (table_view table.now) ≡ b.name ∷ []))
        (λ e. IsRefusal (band_checks (letters_of earlier.now) (table_view table.now)) e) }
{
    let Some(name) = text_at(table, "name") else {
        return Err(OfficeFault::MissingField);
    };
    let Some(import_price) = integer_at(table, "import") else {
        return Err(OfficeFault::MissingField);
    };
    let Some(export_price) = integer_at(table, "export") else {
        return Err(OfficeFault::MissingField);
    };
    let Some(name) = letter(name.as_bytes()) else {
        return Err(OfficeFault::BadName);
    };
    if !is_new_letter(name, earlier) {
        return Err(OfficeFault::TwiceNamed);
    }
    let Some(import_price) = price(import_price) else {
        return Err(OfficeFault::Price);
    };
    let Some(export_price) = price(export_price) else {
        return Err(OfficeFault::Price);
    };
    Ok(Band {
        name,
        import_price,
        export_price,
    })
}

// The letter that is a band's name.
fn letter(text: &[u8]) -> Option<u8>
    ensures { MatchOption result (is_band_name text.now ≡ false)
        (λ c. (is_band_name text.now ≡ true) × (text.now ≡ c ∷ [])) }
{
    match text {
        [letter] if is_capital(*letter) => Some(*letter),
        _ => None,
    }
}

// None of the earlier bands' letters.
fn is_new_letter(letter: u8, earlier: &[Band]) -> bool
    ensures { result ≡ is_new (letter ∷ []) (letters_of earlier.now) }
{
    for other in earlier {
        if other.name == letter {
            return false;
        }
    }
    true
}

// A price in nano-euro per Wh, if it is in range.
pub(crate) fn price(value: i64) -> Option<u32>
    ensures { MatchOption result (is_price value ≡ false)
        (λ p. (is_price value ≡ true) × (p ≡ whole_of value)) }
{
    if value < 0 || value > i64::from(MOST_PRICE) {
        return None;
    }
    Some(value as u32)
}
