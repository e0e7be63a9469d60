//! Whether a table is one of a store.

ghost use Rattle.std.specs.Prelude.{◌≡◌, [], IsTrue, false};
ghost use Rattle.pw_schema.specs.inner.Stages.{stored};

use crate::checks::is_only_one;
use crate::columns::are_columns;
use crate::keys::has_key;
use crate::of_tables::OfTable;
use crate::table::StoreTable;
use sqlite_schema::code::Terms;
use sqlite_schema::schema::{Stamps, Table};

fn has_no_stamps(stamps: &Stamps) -> bool
    ensures is { IsTrue result → stamps.now ≡ record { places = []; terms = []; formats = [] } }
    ensures all { stamps.now ≡ record { places = []; terms = []; formats = [] } → IsTrue result }
{
    stamps.places.is_empty() && stamps.terms.roots.is_empty() && stamps.formats.is_empty()
}

// Whether there is nothing in a table beside its columns, its key and its checks.
fn is_plain(found: &Table) -> bool
    ensures is { IsTrue result → (found.now.references ≡ []) × (found.now.computed ≡ [])
        × (found.now.stamps ≡ record { places = []; terms = []; formats = [] })
        × (found.now.is_counted ≡ false) }
    ensures all { found.now.references ≡ [] → found.now.computed ≡ []
        → found.now.stamps ≡ record { places = []; terms = []; formats = [] }
        → found.now.is_counted ≡ false → IsTrue result }
{
    found.references.is_empty()
        && found.computed.is_empty()
        && has_no_stamps(&found.stamps)
        && !found.is_counted
}

// Whether the checks are a table's: of `office` alone there is one.
fn are_checks(found: &Terms, table: StoreTable) -> bool
    ensures is { IsTrue result → found.now ≡ (stored table).checks }
    ensures all { found.now ≡ (stored table).checks → IsTrue result }
{
    match table {
        StoreTable::Office => is_only_one(found),
        _ => found.roots.is_empty(),
    }
}

impl OfTable for Table {
    ghost of_table = { stored };

    fn is_of_table(&self, table: StoreTable) -> bool {
        self.name.as_slice() == table.name()
            && self.tree == table.tree()
            && are_columns(self.columns.as_slice(), table)
            && has_key(self, table)
            && are_checks(&self.checks, table)
            && is_plain(self)
    }
}
