//! A store brought to version 3, within a transaction.

ghost use Rattle.std.specs.Prelude.{OnOk};
ghost use Rattle.sqlite.specs.Held.{state};
ghost use Rattle.sqlite.specs.State.{HasCleanDisk, Survives};
ghost use Rattle.pw_schema.specs.Calls.{CommitStays, IsWithinVersion, LeavesVersion};
ghost use Rattle.pw_schema.specs.Raised.{IsRaised};
ghost use Rattle.pw_schema.specs.inner.Calls.{KeepsLasting};
ghost use Rattle.pw_schema.specs.inner.Stages.{BringsTo, Raises};

use crate::kind::StoreVersion;
use crate::make::make;
use crate::table::StoreTable;
use sqlite::{Alter, Connection, Error};

// Makes the tables of version 2 behind those of version 1.
fn make_withdrawn<S: Alter>(conn: &mut Connection<S>) -> Result<(), Error>
    requires { IsWithinVersion StoreVersion.First (state S.Store conn.old) }
    ensures { Raises StoreVersion.First StoreVersion.Second result (state S.Store conn.old)
        (state S.Store conn.new) }
{
    make(conn, StoreTable::WithdrawnReadings)?;
    make(conn, StoreTable::WithdrawnAssignments)?;
    make(conn, StoreTable::WithdrawnTopUps)?;
    Ok(())
}

// Makes the table of version 3 behind those of version 2.
fn make_period_totals<S: Alter>(conn: &mut Connection<S>) -> Result<(), Error>
    requires { IsWithinVersion StoreVersion.Second (state S.Store conn.old) }
    ensures { Raises StoreVersion.Second StoreVersion.Third result (state S.Store conn.old)
        (state S.Store conn.new) }
{
    make(conn, StoreTable::PeriodTotals)?;
    Ok(())
}

// Makes the tables of versions 2 and 3 behind those of version 1.
fn make_later<S: Alter>(conn: &mut Connection<S>) -> Result<(), Error>
    requires { IsWithinVersion StoreVersion.First (state S.Store conn.old) }
    ensures { Raises StoreVersion.First StoreVersion.Third result (state S.Store conn.old)
        (state S.Store conn.new) }
{
    make_withdrawn(conn)?;
    make_period_totals(conn)?;
    Ok(())
}

// Makes the tables that a version lacks behind its own.
fn make_missing<S: Alter>(conn: &mut Connection<S>, version: StoreVersion) -> Result<(), Error>
    requires { IsWithinVersion version (state S.Store conn.old) }
    ensures { Raises version StoreVersion.Third result (state S.Store conn.old)
        (state S.Store conn.new) }
{
    match version {
        StoreVersion::First => make_later(conn),
        StoreVersion::Second => make_period_totals(conn),
        StoreVersion::Third => Ok(()),
    }
}

// Empties `total`. What it leaves there is to be read afterwards.
fn empty_total<S: Alter>(conn: &mut Connection<S>) -> Result<usize, Error>
    requires { IsWithinVersion StoreVersion.Third (state S.Store conn.old) }
    ensures tables { BringsTo StoreVersion.Third result (state S.Store conn.old)
        (state S.Store conn.new) }
    ensures others { KeepsLasting result (state S.Store conn.old) (state S.Store conn.new) }
{
    conn.execute("DELETE FROM total", &[])
}

// Sets the version. What it makes of the row of `office` is to be read afterwards.
fn set_version<S: Alter>(conn: &mut Connection<S>) -> Result<usize, Error>
    requires { IsWithinVersion StoreVersion.Third (state S.Store conn.old) }
    ensures tables { BringsTo StoreVersion.Third result (state S.Store conn.old)
        (state S.Store conn.new) }
    ensures others { KeepsLasting result (state S.Store conn.old) (state S.Store conn.new) }
{
    conn.execute("UPDATE office SET version = 3 WHERE id = 1", &[])
}

/// Makes the tables that a version lacks behind its own, whatever rows these have, empties `total`, and sets the version.
/// What becomes of the row of `office` and of the rows of `total` is to be read before it is committed, and totals of energy
/// by period are to be put.
pub fn raise_to_third<S: Alter>(
    conn: &mut Connection<S>,
    version: StoreVersion,
) -> Result<(), Error>
    requires { IsWithinVersion version (state S.Store conn.old) }
    ensures made { LeavesVersion StoreVersion.Third result (state S.Store conn.new) }
    ensures raised { HasCleanDisk (state S.Store conn.new)
        → OnOk result (IsRaised version (state S.Store conn.old).now.trees
        (state S.Store conn.new).now.trees) }
    ensures kept { CommitStays (state S.Store conn.old) (state S.Store conn.new) }
    ensures crash { Survives (state S.Store conn.old) (state S.Store conn.new) (λ _. ⊥) }
{
    make_missing(conn, version)?;
    empty_total(conn)?;
    set_version(conn)?;
    Ok(())
}
