//! Whether a table has its key.

ghost use Rattle.std.specs.Prelude.{◌≡◌, [], ◌∷◌, IsTrue, None, Some};
ghost use Rattle.sqlite_value.specs.Keys.{plain};
ghost use Rattle.pw_schema.specs.inner.Stages.{stored};

use crate::table::StoreTable;
use sqlite_items::Items;
use sqlite_schema::schema::Table;
use sqlite_value::keys::Order;

fn same_places(found: &[usize], places: &[usize]) -> bool
    ensures is { IsTrue result → found.now ≡ places.now }
    ensures all { found.now ≡ places.now → IsTrue result }
{
    found == places
}

fn is_only(keys: &[Items<usize>], places: &[usize]) -> bool
    ensures is { IsTrue result → keys.now ≡ places.now ∷ [] }
    ensures all { keys.now ≡ places.now ∷ [] → IsTrue result }
{
    match keys {
        [key] => same_places(key.as_slice(), places),
        _ => false,
    }
}

fn is_plain_only(orders: &[Order]) -> bool
    ensures is { IsTrue result → orders.now ≡ plain ∷ [] }
    ensures all { orders.now ≡ plain ∷ [] → IsTrue result }
{
    match orders {
        [order] => *order == Order::PLAIN,
        _ => false,
    }
}

fn is_indexed_table(table: &Table, places: &[usize]) -> bool
    ensures key { IsTrue result → table.now.key ≡ None }
    ensures primary { IsTrue result → table.now.primary ≡ places.now }
    ensures uniques { IsTrue result → table.now.uniques ≡ places.now ∷ [] }
    ensures orders { IsTrue result → table.now.orders ≡ plain ∷ [] }
    ensures all { table.now.key ≡ None → table.now.primary ≡ places.now
        → table.now.uniques ≡ places.now ∷ [] → table.now.orders ≡ plain ∷ [] → IsTrue result }
{
    table.key.is_none()
        && same_places(table.primary.as_slice(), places)
        && is_plain_only(table.orders.as_slice())
        && is_only(table.uniques.as_slice(), places)
}

fn is_rowid_table(table: &Table) -> bool
    ensures key { IsTrue result → table.now.key ≡ Some 0 }
    ensures primary { IsTrue result → table.now.primary ≡ 0 ∷ [] }
    ensures uniques { IsTrue result → table.now.uniques ≡ [] }
    ensures orders { IsTrue result → table.now.orders ≡ [] }
    ensures all { table.now.key ≡ Some 0 → table.now.primary ≡ 0 ∷ [] → table.now.uniques ≡ []
        → table.now.orders ≡ [] → IsTrue result }
{
    table.key == Some(0)
        && table.primary.as_slice() == [0].as_slice()
        && table.uniques.is_empty()
        && table.orders.is_empty()
}

// Whether the key is a table's.
pub(crate) fn has_key(found: &Table, table: StoreTable) -> bool
    ensures is { IsTrue result → (found.now.key ≡ (stored table).key)
        × (found.now.primary ≡ (stored table).primary)
        × (found.now.uniques ≡ (stored table).uniques)
        × (found.now.orders ≡ (stored table).orders) }
    ensures all { found.now.key ≡ (stored table).key → found.now.primary ≡ (stored table).primary
        → found.now.uniques ≡ (stored table).uniques → found.now.orders ≡ (stored table).orders
        → IsTrue result }
{
    match table {
        StoreTable::Office | StoreTable::TotalTopUps => is_rowid_table(found),
        _ => is_indexed_table(found, table.key()),
    }
}
