//! The rows that a query shows, handed to a judge one at a time.

ghost use Rattle.std.specs.Prelude.{◌≡◌, [], Err, OnErr, OnOk};
ghost use Rattle.sqlite.specs.Held.{state};
ghost use Rattle.sqlite.specs.Listing.{understood};
ghost use Rattle.sqlite.specs.State.{HasCleanDisk, Shown};
ghost use Rattle.pw_schema.specs.Calls.{Looks};
ghost use Rattle.pw_store.specs.inner.Scanning.{HasRefused, HasTaken, IsOneQuery, IsOther};

use crate::fault::{OpenFault, fault_of_rows};
use pw_schema::Judge;
use sqlite::{Alter, Connection};

// Hands the rows that a query shows to a judge, up to the first that it refuses, and answers how many they were. None
// of them is kept.
pub(crate) fn judge_each<S: Alter, J: Judge>(
    conn: &mut Connection<S>,
    text: &str,
    judge: &mut J,
) -> Result<usize, OpenFault>
    requires query { HasCleanDisk (state S.Store conn.old)
        → IsOneQuery (understood (state S.Store conn.old).now.schema text.now) }
    requires start { J.took judge.old [] judge.old }
    ensures took { OnOk result (HasTaken J.took
        (λ rows. HasCleanDisk (state S.Store conn.new)
        → Shown text.now [] (state S.Store conn.old) (state S.Store conn.new) rows) judge.old
        judge.new) }
    ensures refused { HasCleanDisk (state S.Store conn.new) → result ≡ Err OpenFault.Unclean
        → HasRefused J.refuses (Shown text.now [] (state S.Store conn.old)
        (state S.Store conn.new)) judge.old }
    ensures others { OnErr result (IsOther result) }
    ensures looks { Looks result (state S.Store conn.old) (state S.Store conn.new) }
{
    let mut rows = conn.query(text, &[])?;
    for count in 0..usize::MAX {
        let row = match rows.next()? {
            Some(row) => row,
            None => return Ok(count),
        };
        match judge.take(row) {
            Ok(()) => {}
            Err(fault) => return Err(fault_of_rows(fault)),
        }
    }
    Err(OpenFault::Store)
}
