//! The laws of the tables of a store.
//!
//! No function does anything but call. What counts is its contract.

ghost use Rattle.std.specs.Prelude.{◌≡◌, ◌<◌, Some, slice_get};
ghost use Rattle.pw_schema.specs.Texts.{table_texts};

use crate::table::StoreTable;

/// The text that makes a table of a store, by the table's place in the order in which they are made, is that of the
/// definition.
pub fn table_text(place: usize) -> &'static str
    requires { place < 12 }
    ensures { slice_get table_texts place ≡ Some result.now }
{
    StoreTable::ALL[place].text()
}
