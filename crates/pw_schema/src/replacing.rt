//! Another office file in the place of a store's own, within a transaction.

ghost use Rattle.std.specs.Prelude.{OnOk};
ghost use Rattle.sqlite.specs.Held.{state};
ghost use Rattle.sqlite.specs.State.{HasCleanDisk, Survives};
ghost use Rattle.pw_schema.specs.Calls.{CommitStays, IsWithinVersion, KeepsAllButOffice, LeavesVersion};
ghost use Rattle.pw_schema.specs.Fresh.{SetsText};
ghost use Rattle.pw_schema.specs.inner.Stages.{BringsTo};

use crate::kind::StoreVersion;
use sqlite::{Alter, Connection, Error, params};

// Sets the text in the row of `office`, and tells how many rows there were.
fn set_text<S: Alter>(conn: &mut Connection<S>, body: &[u8]) -> Result<usize, Error>
    requires { IsWithinVersion StoreVersion.Third (state S.Store conn.old) }
    ensures tables { BringsTo StoreVersion.Third result (state S.Store conn.old)
        (state S.Store conn.new) }
    ensures set { HasCleanDisk (state S.Store conn.new)
        → OnOk result (SetsText body.now (state S.Store conn.old).now.trees
        (state S.Store conn.new).now.trees) }
    ensures others { KeepsAllButOffice result (state S.Store conn.old) (state S.Store conn.new) }
{
    conn.execute("UPDATE office SET body = ?1 WHERE id = 1", params![body])
}

/// Puts an office file's bytes in the place of those that the row of `office` has: a row of version 3, as powerbook writes
/// it, is the same with these bytes. What becomes of another one is to be read before it is committed. Each other table
/// keeps its rows.
pub fn set_office<S: Alter>(conn: &mut Connection<S>, body: &[u8]) -> Result<(), Error>
    requires { IsWithinVersion StoreVersion.Third (state S.Store conn.old) }
    ensures made { LeavesVersion StoreVersion.Third result (state S.Store conn.new) }
    ensures set { HasCleanDisk (state S.Store conn.new)
        → OnOk result (SetsText body.now (state S.Store conn.old).now.trees
        (state S.Store conn.new).now.trees) }
    ensures others { KeepsAllButOffice result (state S.Store conn.old) (state S.Store conn.new) }
    ensures kept { CommitStays (state S.Store conn.old) (state S.Store conn.new) }
    ensures crash { Survives (state S.Store conn.old) (state S.Store conn.new) (λ _. ⊥) }
{
    set_text(conn, body)?;
    Ok(())
}
