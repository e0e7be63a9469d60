//! BEGIN, COMMIT and ROLLBACK, each run by its own text.

ghost use Rattle.std.specs.Prelude.{◌≡◌, ◌⊎◌, OnOk, OnErr, IsTrue, true, false};
ghost use Rattle.sqlite.specs.Held.{state};
ghost use Rattle.sqlite.specs.Tree.{Trees};
ghost use Rattle.sqlite.specs.State.{HasCleanDisk, IsUnchanged, IsRolledBack, Shows, Survives};
ghost use Rattle.pw_schema.specs.Calls.{Writes};

use sqlite::{Alter, Connection, Error};

/// Begins a transaction.
pub fn begin<S: Alter>(conn: &mut Connection<S>) -> Result<(), Error>
    ensures begun { HasCleanDisk (state S.Store conn.new)
        → OnOk result (Shows (state S.Store conn.old) (state S.Store conn.new)
        (state S.Store conn.old).now (state S.Store conn.old).committed true) }
    ensures writes { Writes result (state S.Store conn.old) (state S.Store conn.new) }
{
    conn.execute("BEGIN", &[])?;
    Ok(())
}

/// Commits the transaction.
pub fn commit<S: Alter>(conn: &mut Connection<S>) -> Result<(), Error>
    ensures done { HasCleanDisk (state S.Store conn.new)
        → OnOk result (Shows (state S.Store conn.old) (state S.Store conn.new)
        (state S.Store conn.old).now (state S.Store conn.old).now false) }
    ensures failed { HasCleanDisk (state S.Store conn.new)
        → OnErr result (IsUnchanged (state S.Store conn.old) (state S.Store conn.new)
        ⊎ IsRolledBack (state S.Store conn.old) (state S.Store conn.new)) }
    ensures alone { HasCleanDisk (state S.Store conn.new)
        → OnOk result ((db : Trees) → (state S.Store conn.new).may_leave db
        → db ≡ (state S.Store conn.old).now.trees) }
    ensures stays { HasCleanDisk (state S.Store conn.new)
        → OnOk result ((state S.Store conn.new).may_leave (state S.Store conn.old).now.trees) }
    ensures crash { Survives (state S.Store conn.old) (state S.Store conn.new)
        (λ db. db ≡ (state S.Store conn.old).now.trees) }
{
    conn.execute("COMMIT", &[])?;
    Ok(())
}

/// Undoes the transaction.
pub fn roll_back<S: Alter>(conn: &mut Connection<S>) -> Result<(), Error>
    ensures undone { HasCleanDisk (state S.Store conn.new)
        → OnOk result (IsRolledBack (state S.Store conn.old) (state S.Store conn.new)) }
    ensures writes { Writes result (state S.Store conn.old) (state S.Store conn.new) }
{
    conn.execute("ROLLBACK", &[])?;
    Ok(())
}
