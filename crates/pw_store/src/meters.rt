//! Readings and assignments, each asked for by its own text.

ghost use Rattle.std.specs.Prelude.{◌≡◌, IfOk, Some, length};
ghost use Rattle.sqlite.specs.Held.{state};
ghost use Rattle.sqlite.specs.State.{HasCleanDisk};
ghost use Rattle.pw_shelf.specs.Rows.{IsAssignmentOf, IsReadingOf};
ghost use Rattle.pw_schema.specs.inner.Calls.{Asks};
ghost use Rattle.pw_store.specs.Content.{records_of};
ghost use Rattle.pw_store.specs.Frontier.{NoneFrom};
ghost use Rattle.pw_store.specs.inner.Connections.{HoldsStore};
ghost use Rattle.pw_store.specs.inner.Lists.{ShowsKept};

use pw_model::register_place;
use pw_obis::Register;
use pw_schema::{RecordKind, integer};
use pw_tariff::MeterId;
use pw_time::Instant;
use sqlite::{Alter, Connection, Error, Row};

// All readings of a register, in order.
pub(crate) fn reading_rows<S: Alter>(
    conn: &mut Connection<S>,
    meter: MeterId,
    register: Register,
) -> Result<Vec<Row>, Error>
    requires store { HoldsStore (state S.Store conn.old) }
    ensures rows { HasCleanDisk (state S.Store conn.new)
        → IfOk result (λ rows. ShowsKept RecordKind.Readings (IsReadingOf meter register)
        (state S.Store conn.old).now.trees rows.items) }
    ensures asks { Asks result (state S.Store conn.old) (state S.Store conn.new) }
{
    conn.query_all(
        "SELECT meter, register, instant, wh FROM record_reading WHERE meter = ?1 AND register = ?2 ORDER BY instant, wh",
        &[
            integer(u32::from(meter.0)),
            integer(register_place(register)),
        ],
    )
}

// A row, if a reading of a register is held at an instant or behind it.
pub(crate) fn later_rows<S: Alter>(
    conn: &mut Connection<S>,
    meter: MeterId,
    register: Register,
    from: Instant,
) -> Result<Vec<Row>, Error>
    requires store { HoldsStore (state S.Store conn.old) }
    ensures none { HasCleanDisk (state S.Store conn.new)
        → IfOk result (λ rows. length rows.items ≡ 0
        → NoneFrom meter register (Some from) (records_of (state S.Store conn.old).now.trees)) }
    ensures asks { Asks result (state S.Store conn.old) (state S.Store conn.new) }
{
    conn.query_all(
        "SELECT wh FROM record_reading WHERE meter = ?1 AND register = ?2 AND instant >= ?3 LIMIT 1",
        &[
            integer(u32::from(meter.0)),
            integer(register_place(register)),
            integer(from.seconds()),
        ],
    )
}

// All assignments of a meter, in order.
pub(crate) fn assignment_rows<S: Alter>(
    conn: &mut Connection<S>,
    meter: MeterId,
) -> Result<Vec<Row>, Error>
    requires store { HoldsStore (state S.Store conn.old) }
    ensures rows { HasCleanDisk (state S.Store conn.new)
        → IfOk result (λ rows. ShowsKept RecordKind.Assignments (IsAssignmentOf meter)
        (state S.Store conn.old).now.trees rows.items) }
    ensures asks { Asks result (state S.Store conn.old) (state S.Store conn.new) }
{
    conn.query_all(
        "SELECT meter, start, owner FROM record_assignment WHERE meter = ?1 ORDER BY start, owner",
        &[integer(u32::from(meter.0))],
    )
}
