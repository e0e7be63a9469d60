//! What stands at the keys of a TOML table.

ghost use Rattle.std.specs.Prelude.{◌≡◌, IsTrue, false, None, Some, MatchResult, is_some, map, option_copied, option_map, string_bytes};
ghost use Rattle.toml.specs.Data.{get_member};
ghost use Rattle.toml.specs.View.{array_view, table_view};
ghost use Rattle.pw_tariff.specs.Text.{integer_at, integers_at, integers_of, list_at, tables_of, text_at, texts_at, texts_of};
ghost use Rattle.pw_tariff.specs.inner.Held.{table_in};
ghost use Rattle.pw_tariff.specs.Checks.{length_checks};
ghost use Rattle.pw_tariff.specs.inner.Checks.{IsListFault};
ghost use Rattle.pw_tariff.specs.inner.Checks.{IsRefusal};
ghost use Rattle.pw_tariff.specs.inner.Checks.{Passes};

use crate::OfficeFault;
use std::alloc::Global;
use toml::Table;
use toml::value::Array;

// Whether something stands at a key.
pub(crate) fn has_key(table: &Table, key: &str) -> bool
    ensures { result ≡ is_some (get_member key.now (table_view table.now)) }
{
    table.get(key).is_some()
}

// The text at a key.
pub(crate) fn text_at<'t>(table: &'t Table, key: &str) -> Option<&'t str>
    ensures { option_copied result ≡ text_at key.now (table_view table.now) }
{
    table.get(key)?.as_str()
}

// The whole number at a key.
pub(crate) fn integer_at(table: &Table, key: &str) -> Option<i64>
    ensures { result ≡ integer_at key.now (table_view table.now) }
{
    table.get(key)?.as_integer()
}

// The list at a key.
pub(crate) fn list_at<'t>(table: &'t Table, key: &str) -> Option<&'t Array>
    ensures { option_map (λ v. array_view v.now) result ≡ list_at key.now (table_view table.now) }
{
    table.get(key)?.as_array()
}

// The texts of a list, each of whose elements has to be one.
fn texts(alloc: Global, array: &Array) -> Result<Vec<String>, OfficeFault>
    ensures { MatchResult result (λ v. texts_of (array_view array.now)
        ≡ Some (map string_bytes v.items)) (λ e. IsListFault (texts_of (array_view array.now)) e) }
{
    let mut texts = Vec::new(alloc);
    for value in array {
        let Some(text) = value.as_str() else {
            return Err(OfficeFault::MissingField);
        };
        let text = String::from_str(alloc, text)?;
        texts.push(text)?;
    }
    Ok(texts)
}

// The texts of the list at a key.
pub(crate) fn texts_at(alloc: Global, table: &Table, key: &str) -> Result<Vec<String>, OfficeFault>
    ensures { MatchResult result (λ v. texts_at key.now (table_view table.now)
        ≡ Some (map string_bytes v.items))
        (λ e. IsListFault (texts_at key.now (table_view table.now)) e) }
{
    let Some(array) = list_at(table, key) else {
        return Err(OfficeFault::MissingField);
    };
    texts(alloc, array)
}

// The whole numbers of a list, each of whose elements has to be one.
fn integers(alloc: Global, array: &Array) -> Result<Vec<i64>, OfficeFault>
    ensures { MatchResult result (λ v. integers_of (array_view array.now) ≡ Some v.items)
        (λ e. IsListFault (integers_of (array_view array.now)) e) }
{
    let mut integers = Vec::new(alloc);
    for value in array {
        let Some(integer) = value.as_integer() else {
            return Err(OfficeFault::MissingField);
        };
        integers.push(integer)?;
    }
    Ok(integers)
}

// The whole numbers of the list at a key.
pub(crate) fn integers_at(alloc: Global, table: &Table, key: &str) -> Result<Vec<i64>, OfficeFault>
    ensures { MatchResult result (λ v. integers_at key.now (table_view table.now) ≡ Some v.items)
        (λ e. IsListFault (integers_at key.now (table_view table.now)) e) }
{
    let Some(array) = list_at(table, key) else {
        return Err(OfficeFault::MissingField);
    };
    integers(alloc, array)
}

// Whether each element of a list is a table.
pub(crate) fn are_tables(array: &Array) -> bool
    ensures yes { IsTrue result → tables_of (array_view array.now)
        ≡ Some (map table_in array.now.items) }
    ensures no { result ≡ false → tables_of (array_view array.now) ≡ None }
{
    for value in array {
        if value.as_table().is_none() {
            return false;
        }
    }
    true
}

// A list isn't empty, and not too long.
pub(crate) fn check_length(length: usize, most: usize) -> Result<(), OfficeFault>
    ensures { MatchResult result (λ _. Passes (length_checks length most))
        (λ e. IsRefusal (length_checks length most) e) }
{
    if length == 0 {
        return Err(OfficeFault::Empty);
    }
    if length > most {
        return Err(OfficeFault::TooMany);
    }
    Ok(())
}
