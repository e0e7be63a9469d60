//! Starts, each statement run by its own text.

ghost use Rattle.std.specs.Prelude.{◌≡◌, ◌↔◌, ℕ, Option, Some, IfOk, map};
ghost use Rattle.sqlite.specs.Held.{state};
ghost use Rattle.sqlite.specs.State.{HasCleanDisk};
ghost use Rattle.pw_tariff.specs.declared.ids.AccountId.{AccountId as Account};
ghost use Rattle.pw_model.specs.Counting.{Member};
ghost use Rattle.pw_schema.specs.Calls.{Writes};
ghost use Rattle.pw_schema.specs.inner.Calls.{Asks};
ghost use Rattle.pw_store.specs.Content.{start_in, start_tree};
ghost use Rattle.pw_store.specs.inner.Changing.{IsFree, IsTaken, Makes, changed};
ghost use Rattle.pw_store.specs.inner.Connections.{HasBegun, HoldsStore};
ghost use Rattle.pw_store.specs.inner.Seconds.{start_told};

use crate::changes::Change;
use pw_schema::{integer, owner_place};
use pw_tariff::{MeterId, Owner};
use pw_time::Instant;
use sqlite::{Alter, Connection, Error, Row};

// Takes the row of a start away, if there is one.
pub(crate) fn take_start<S: Alter>(
    conn: &mut Connection<S>,
    meter: MeterId,
    start: Instant,
) -> Result<usize, Error>
    requires inside { HasBegun (state S.Store conn.old) }
    requires store { HoldsStore (state S.Store conn.old) }
    ensures done { HasCleanDisk (state S.Store conn.new)
        → IfOk result (λ rows. Makes (changed (Change.TakeStart meter start) rows)
        (state S.Store conn.old) (state S.Store conn.new)) }
    ensures taken { HasCleanDisk (state S.Store conn.new)
        → IfOk result (λ rows. IsTaken (Change.TakeStart meter start) rows
        (state S.Store conn.new).now.trees) }
    ensures writes { Writes result (state S.Store conn.old) (state S.Store conn.new) }
{
    conn.execute(
        "DELETE FROM start WHERE meter = ?1 AND start = ?2",
        &[integer(u32::from(meter.0)), integer(start.seconds())],
    )
}

// Puts the row of a start where none has its key.
pub(crate) fn put_start<S: Alter>(
    conn: &mut Connection<S>,
    meter: MeterId,
    start: Instant,
    owner: Owner,
) -> Result<usize, Error>
    requires inside { HasBegun (state S.Store conn.old) }
    requires store { HoldsStore (state S.Store conn.old) }
    requires free { HasCleanDisk (state S.Store conn.old)
        → IsFree (Change.PutStart meter start owner) (state S.Store conn.old).now.trees }
    ensures done { HasCleanDisk (state S.Store conn.new)
        → IfOk result (λ rows. Makes (changed (Change.PutStart meter start owner) rows)
        (state S.Store conn.old) (state S.Store conn.new)) }
    ensures writes { Writes result (state S.Store conn.old) (state S.Store conn.new) }
{
    conn.execute(
        "INSERT INTO start (meter, start, owner) VALUES (?1, ?2, ?3)",
        &[
            integer(u32::from(meter.0)),
            integer(start.seconds()),
            integer(owner_place(owner)),
        ],
    )
}

// The rows of all starts of a meter.
pub(crate) fn start_rows<S: Alter>(
    conn: &mut Connection<S>,
    meter: MeterId,
) -> Result<Vec<Row>, Error>
    requires store { HoldsStore (state S.Store conn.old) }
    ensures rows { HasCleanDisk (state S.Store conn.new)
        → IfOk result (λ rows. (x : ℕ × Option Account)
        → Member x (map start_told rows.items)
        ↔ (start_in ((state S.Store conn.old).now.trees start_tree) meter.0 x.0 ≡ Some x.1)) }
    ensures asks { Asks result (state S.Store conn.old) (state S.Store conn.new) }
{
    conn.query_all(
        "SELECT start, owner FROM start WHERE meter = ?1 ORDER BY start",
        &[integer(u32::from(meter.0))],
    )
}
