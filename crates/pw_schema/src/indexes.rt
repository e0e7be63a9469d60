//! Whether an index is one of a store.

ghost use Rattle.std.specs.Prelude.{◌≡◌, ◌↔◌, ◌++◌, IsTrue, codes};
ghost use Rattle.pw_schema.specs.inner.Stages.{index_at};

use crate::of_tables::OfTable;
use crate::table::StoreTable;
use sqlite_schema::schema::Index;
use sqlite_value::keys::Order;

// Whether a name is that of the index which SQLite makes for the key of a table of this name.
fn is_name(found: &[u8], table: &[u8]) -> bool
    ensures { IsTrue result ↔ (found.now ≡ codes "sqlite_autoindex_" ++ table.now ++ codes "_1") }
{
    let Some(rest) = found.strip_prefix(b"sqlite_autoindex_".as_slice()) else {
        return false;
    };
    let Some(name) = rest.strip_suffix(b"_1".as_slice()) else {
        return false;
    };
    name == table
}

impl OfTable for Index {
    ghost of_table = { index_at };

    fn is_of_table(&self, table: StoreTable) -> bool {
        is_name(self.name.as_slice(), table.name())
            && self.tree == table.tree() + 1
            && self.table == table.tree()
            && self.columns.as_slice() == table.key()
            && self.order == Order::PLAIN
            && self.is_unique
    }
}
