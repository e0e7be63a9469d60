//! Whether a file holds the tables of a store, these and more, or nothing.

ghost use Rattle.std.specs.Prelude.{◌≡◌, ◌↔◌, IsTrue};
ghost use Rattle.pw_schema.specs.Tables.{BeginsAsOurs, IsOf, no_schema};

use crate::kind::StoreVersion;
use crate::of_tables::are_of_tables;
use crate::table::StoreTable;
use sqlite_schema::schema::Schema;

/// Whether these are the tables of a store of this version, and nothing else.
pub fn is_of(schema: &Schema, version: StoreVersion) -> bool
    ensures { IsTrue result ↔ IsOf version schema.now }
{
    let (tables, indexed) = StoreTable::of(version);
    schema.views.is_empty()
        && are_of_tables(schema.tables.as_slice(), tables)
        && are_of_tables(schema.indexes.as_slice(), indexed)
}

/// Whether the tables of version 1 stand first, with their indexes, whatever stands behind them.
pub fn begins_as_ours(schema: &Schema) -> bool
    ensures { IsTrue result ↔ BeginsAsOurs schema.now }
{
    let tables = schema.tables.as_slice();
    let indexes = schema.indexes.as_slice();
    if tables.len() < 8 {
        return false;
    }
    if indexes.len() < 6 {
        return false;
    }
    let (first, indexed) = StoreTable::of(StoreVersion::First);
    are_of_tables(&tables[..8], first) && are_of_tables(&indexes[..6], indexed)
}

/// Whether there is nothing at all.
pub fn is_nothing(schema: &Schema) -> bool
    ensures { IsTrue result ↔ (schema.now ≡ no_schema) }
{
    schema.tables.is_empty() && schema.indexes.is_empty() && schema.views.is_empty()
}
