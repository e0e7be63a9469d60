//! Whether the texts of a file's objects say what becomes of a row that breaks a rule.

ghost use Rattle.std.specs.List.{AllByRecursion};
ghost use Rattle.std.specs.Prelude.{◌≡◌, ◌↔◌, IfOk, IsTrue, codes, false};
ghost use Rattle.sqlite.specs.Held.{state};
ghost use Rattle.sqlite.specs.State.{HasCleanDisk};
ghost use Rattle.sqlite_catalog.specs.Listing.{mentions};
ghost use Rattle.pw_schema.specs.Calls.{Looks};
ghost use Rattle.pw_schema.specs.Conflicts.{AreWithoutConflict, IsWithoutConflict};
ghost use Rattle.pw_schema.specs.Tables.{IsKnown};
ghost use Rattle.pw_schema.specs.inner.Calls.{Asks};
ghost use Rattle.pw_schema.specs.inner.Listed.{ShowsTexts};

use sqlite::types::ValueRef;
use sqlite::{Alter, Connection, Error, Row};
use sqlite_schema::names::same_name;

// Whether the word CONFLICT stands in a text, be it in capitals or not.
fn speaks_of_conflict(text: &[u8]) -> bool
    ensures { result ≡ mentions (codes "conflict") text.now }
{
    let mut rest = text;
    while let [_, after @ ..] = rest {
        let front = &rest[..rest.len().min(8)];
        if same_name(front, b"conflict") {
            return true;
        }
        rest = after;
    }
    false
}

fn is_without_conflict(row: &Row) -> bool
    ensures { IsTrue result ↔ IsWithoutConflict row.now }
{
    match row.get_ref(0) {
        Ok(ValueRef::Text(text)) => !speaks_of_conflict(text),
        Ok(ValueRef::Blob(text)) => !speaks_of_conflict(text),
        _ => true,
    }
}

fn are_without_conflict(rows: &[Row]) -> bool
    ensures is { IsTrue result → AllByRecursion IsWithoutConflict rows.now }
    ensures all { AllByRecursion IsWithoutConflict rows.now → IsTrue result }
{
    let [row, rows @ ..] = rows else {
        return true;
    };
    is_without_conflict(row) && are_without_conflict(rows)
}

// The texts of all objects.
fn text_rows<S: Alter>(conn: &mut Connection<S>) -> Result<Vec<Row>, Error>
    requires known { HasCleanDisk (state S.Store conn.old)
        → IsKnown (state S.Store conn.old).now.schema }
    ensures rows { HasCleanDisk (state S.Store conn.new)
        → IfOk result (λ rows. ShowsTexts (state S.Store conn.old).now.trees rows.items) }
    ensures asks { Asks result (state S.Store conn.old) (state S.Store conn.new) }
{
    conn.query_all("SELECT sql FROM sqlite_schema", &[])
}

/// Whether no text of the tables of a store, of any version, has an ON CONFLICT clause, or speaks of one.
pub fn has_no_conflict<S: Alter>(conn: &mut Connection<S>) -> Result<bool, Error>
    requires known { HasCleanDisk (state S.Store conn.old)
        → IsKnown (state S.Store conn.old).now.schema }
    ensures told { HasCleanDisk (state S.Store conn.new)
        → IfOk result (λ none. IsTrue none
        ↔ AreWithoutConflict (state S.Store conn.old).now.trees) }
    ensures looks { Looks result (state S.Store conn.old) (state S.Store conn.new) }
{
    let rows = text_rows(conn)?;
    Ok(are_without_conflict(rows.as_slice()))
}
