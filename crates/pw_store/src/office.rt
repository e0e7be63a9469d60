//! The row that says of what version a store is, and by which office file it was made.

ghost use Rattle.std.specs.Prelude.{IfOk};
ghost use Rattle.std.specs.List.Sorted.{IsPermutation};
ghost use Rattle.sqlite.specs.Held.{state};
ghost use Rattle.sqlite.specs.State.{HasCleanDisk};
ghost use Rattle.pw_schema.specs.inner.Calls.{Asks, BeginsWithOurTables};
ghost use Rattle.pw_store.specs.Opening.{offices};

use sqlite::{Alter, Connection, Error, Row};

// The version and the text of the office, whatever stands behind our tables.
pub(crate) fn office_rows<S: Alter>(conn: &mut Connection<S>) -> Result<Vec<Row>, Error>
    requires begun { BeginsWithOurTables (state S.Store conn.old) }
    ensures rows { HasCleanDisk (state S.Store conn.new)
        → IfOk result (λ rows. IsPermutation (offices (state S.Store conn.old).now.trees)
        rows.items) }
    ensures asks { Asks result (state S.Store conn.old) (state S.Store conn.new) }
{
    conn.query_all("SELECT version, body FROM office WHERE id = 1", &[])
}
