//! A new store: its tables, each made by its own text, and its office.

ghost use Rattle.std.specs.Prelude.{◌≡◌, OnOk, IsTrue};
ghost use Rattle.sqlite.specs.Effect.{IsDatabase};
ghost use Rattle.sqlite.specs.Held.{state};
ghost use Rattle.sqlite.specs.State.{HasCleanDisk, Survives};
ghost use Rattle.pw_schema.specs.Calls.{CommitStays, CommitStaysOnErr, Looks};
ghost use Rattle.pw_schema.specs.Conflicts.{AreWithoutConflict};
ghost use Rattle.pw_schema.specs.Fresh.{AreNew, IsFresh, IsIdleAt, IsNew, IsWithin};
ghost use Rattle.pw_schema.specs.Tables.{no_schema, only_one, ours_with};
ghost use Rattle.pw_schema.specs.inner.Calls.{HasOurTables};
ghost use Rattle.pw_schema.specs.inner.Stages.{Grows, IsMaking, before, behind};

use crate::conflicts::has_no_conflict;
use crate::table::StoreTable;
use crate::transactions::{begin, commit};
use sqlite::{Alter, Connection, Error, ErrorCode, params};

// Makes a table behind those before it, whatever rows these have.
pub(crate) fn make<S: Alter>(conn: &mut Connection<S>, table: StoreTable) -> Result<usize, Error>
    requires { HasCleanDisk (state S.Store conn.old)
        → IsWithin (before table) (state S.Store conn.old) }
    ensures made { HasCleanDisk (state S.Store conn.new)
        → OnOk result (IsWithin (behind table) (state S.Store conn.new)) }
    ensures grows { HasCleanDisk (state S.Store conn.new)
        → OnOk result (Grows table (state S.Store conn.old).now.trees
        (state S.Store conn.new).now.trees) }
    ensures kept { CommitStays (state S.Store conn.old) (state S.Store conn.new) }
    ensures crash { Survives (state S.Store conn.old) (state S.Store conn.new) (λ _. ⊥) }
{
    conn.execute(table.text(), &[])
}

// Makes the tables, one behind the other.
fn make_all<S: Alter>(conn: &mut Connection<S>) -> Result<(), Error>
    requires { HasCleanDisk (state S.Store conn.old) → IsMaking no_schema (state S.Store conn.old) }
    ensures made { HasCleanDisk (state S.Store conn.new)
        → OnOk result (IsMaking (ours_with only_one) (state S.Store conn.new)) }
    ensures kept { CommitStays (state S.Store conn.old) (state S.Store conn.new) }
    ensures crash { Survives (state S.Store conn.old) (state S.Store conn.new) (λ _. ⊥) }
{
    for table in &StoreTable::ALL {
        make(conn, *table)?;
    }
    Ok(())
}

// Keeps the office's text.
fn put_office<S: Alter>(conn: &mut Connection<S>, body: &[u8]) -> Result<usize, Error>
    requires { HasCleanDisk (state S.Store conn.old)
        → IsMaking (ours_with only_one) (state S.Store conn.old) }
    ensures made { HasCleanDisk (state S.Store conn.new)
        → OnOk result (IsFresh body.now (state S.Store conn.new).now) }
    ensures listed { HasCleanDisk (state S.Store conn.new)
        → OnOk result (IsDatabase (state S.Store conn.new).now) }
    ensures inside { HasCleanDisk (state S.Store conn.new)
        → OnOk result (IsTrue (state S.Store conn.new).is_open) }
    ensures kept { CommitStays (state S.Store conn.old) (state S.Store conn.new) }
    ensures crash { Survives (state S.Store conn.old) (state S.Store conn.new) (λ _. ⊥) }
{
    conn.execute(
        "INSERT INTO office (id, version, body) VALUES (1, 3, ?1)",
        params![body],
    )
}

// Sees that the texts which the engine has kept are such as an opening takes.
fn see_texts<S: Alter>(conn: &mut Connection<S>) -> Result<(), Error>
    requires { HasOurTables (state S.Store conn.old) }
    ensures plain { HasCleanDisk (state S.Store conn.new)
        → OnOk result (AreWithoutConflict (state S.Store conn.new).now.trees) }
    ensures looks { Looks result (state S.Store conn.old) (state S.Store conn.new) }
{
    if has_no_conflict(conn)? {
        Ok(())
    } else {
        Err(Error::SqliteFailure(ErrorCode::DatabaseCorrupt))
    }
}

// The tables and the office's text, within a transaction.
fn fill<S: Alter>(conn: &mut Connection<S>, body: &[u8]) -> Result<(), Error>
    requires { HasCleanDisk (state S.Store conn.old) → IsMaking no_schema (state S.Store conn.old) }
    ensures made { HasCleanDisk (state S.Store conn.new)
        → OnOk result (IsNew body.now (state S.Store conn.new).now) }
    ensures inside { HasCleanDisk (state S.Store conn.new)
        → OnOk result (IsTrue (state S.Store conn.new).is_open) }
    ensures kept { CommitStays (state S.Store conn.old) (state S.Store conn.new) }
    ensures crash { Survives (state S.Store conn.old) (state S.Store conn.new) (λ _. ⊥) }
{
    make_all(conn)?;
    put_office(conn, body)?;
    see_texts(conn)?;
    Ok(())
}

/// Makes our tables where there was nothing. Where it fails, they may have been committed all the same: a crash then leaves
/// what it could leave before, or these tables whole.
pub fn create<S: Alter>(conn: &mut Connection<S>, body: &[u8]) -> Result<(), Error>
    requires { HasCleanDisk (state S.Store conn.old)
        → (state S.Store conn.old).now.schema ≡ no_schema }
    ensures made { HasCleanDisk (state S.Store conn.new)
        → OnOk result (IsNew body.now (state S.Store conn.new).now) }
    ensures idle { HasCleanDisk (state S.Store conn.new)
        → OnOk result (IsIdleAt (state S.Store conn.new)) }
    ensures kept { CommitStaysOnErr result (state S.Store conn.old) (state S.Store conn.new) }
    ensures clean { HasCleanDisk (state S.Store conn.new) → HasCleanDisk (state S.Store conn.old) }
    ensures crash { Survives (state S.Store conn.old) (state S.Store conn.new) (AreNew body.now) }
{
    begin(conn)?;
    fill(conn, body)?;
    commit(conn)?;
    Ok(())
}
