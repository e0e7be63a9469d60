//! Whether what a file lists is what the tables of a store have.

ghost use Rattle.std.specs.Prelude.{◌≡◌, IsTrue, map};
ghost use Rattle.pw_schema.specs.declared.table.StoreTable.{StoreTable};

use crate::table::StoreTable;

// What a file lists of a table: the table itself, or the index of its key.
pub(crate) trait OfTable {
    // That of a table, as it stands in a store.
    ghost of_table: { StoreTable → Self };

    // Whether it is that of this table.
    fn is_of_table(&self, table: StoreTable) -> bool
        ensures is { IsTrue result → self.now ≡ of_table table }
        ensures all { self.now ≡ of_table table → IsTrue result };
}

// Whether they are those of the tables, in this order, and no more.
pub(crate) fn are_of_tables<T: OfTable>(found: &[T], tables: &[StoreTable]) -> bool
    ensures is { IsTrue result → found.now ≡ map T.OfTable.of_table tables.now }
    ensures all { found.now ≡ map T.OfTable.of_table tables.now → IsTrue result }
{
    let [first, found @ ..] = found else {
        return tables.is_empty();
    };
    let [table, tables @ ..] = tables else {
        return false;
    };
    first.is_of_table(*table) && are_of_tables(found, tables)
}
