//! Questions about points, starts and totals, each over a statement that is run once the connection is known to be open.

ghost use Rattle.std.specs.Prelude.{◌≡◌, ◌≤◌, IfOk, length, map};
ghost use Rattle.sqlite.specs.Held.{state};
ghost use Rattle.sqlite.specs.State.{HasCleanDisk};
ghost use Rattle.pw_model.specs.Lists.{IsInOrder};
ghost use Rattle.pw_shelf.specs.Seconds.{ListsSeconds, ListsSecondsWithin, by_second};
ghost use Rattle.pw_schema.specs.inner.Calls.{Asks};
ghost use Rattle.pw_store.specs.Content.{point_in, point_tree, start_in, start_tree, total_in};
ghost use Rattle.pw_store.specs.Kept.{IsAwake, NowIsStore};
ghost use Rattle.pw_store.specs.Waiting.{points_over};
ghost use Rattle.pw_store.specs.inner.Seconds.{IsNearest, first_amount, first_point, point_told, start_told};

use crate::fault::AskFault;
use crate::liveness::wake;
use crate::points::{Side, between_rows, nearest_rows};
use crate::row_values::{all_points, all_starts, one_amount, one_point};
use crate::starts::start_rows;
use crate::total_statements::total_rows;
use crate::waiting::{WaitingPoint, nearest_of};
use pw_model::TotalKey;
use pw_obis::{Register, WattHours};
use pw_tariff::{MeterId, Owner};
use pw_time::Instant;
use sqlite::{Alter, Connection, Row};
use std::alloc::Global;

fn read_point(rows: &[Row]) -> Result<Option<(Instant, WattHours)>, AskFault>
    ensures { IfOk result (λ found. found ≡ first_point rows.now) }
{
    match one_point(rows) {
        Some(found) => Ok(found),
        None => Err(AskFault::Unreadable),
    }
}

fn read_points(alloc: Global, rows: &[Row]) -> Result<Vec<(Instant, WattHours)>, AskFault>
    ensures told { IfOk result (λ found. found.items ≡ map point_told rows.now) }
    ensures rising { IfOk result (λ found. IsInOrder by_second found.items) }
{
    Ok(all_points(alloc, rows)?)
}

fn read_starts(alloc: Global, rows: &[Row]) -> Result<Vec<(Instant, Owner)>, AskFault>
    ensures told { IfOk result (λ found. found.items ≡ map start_told rows.now) }
    ensures rising { IfOk result (λ found. IsInOrder by_second found.items) }
{
    Ok(all_starts(alloc, rows)?)
}

fn read_amount(rows: &[Row]) -> Result<u64, AskFault>
    ensures few { IfOk result (λ amount. length rows.now ≤ 1) }
    ensures told { IfOk result (λ amount. first_amount rows.now ≡ amount) }
{
    match one_amount(rows) {
        Some(amount) => Ok(amount),
        None => Err(AskFault::Unreadable),
    }
}

// The nearest point strictly on a side, if there is one: of those written, and of those that wait.
pub(crate) fn nearest<S: Alter>(
    conn: &mut Connection<S>,
    doubtful: bool,
    waiting: &[WaitingPoint],
    meter: MeterId,
    register: Register,
    side: Side,
) -> Result<Option<(Instant, WattHours)>, AskFault>
    requires awake { IsAwake (state S.Store conn.old) doubtful }
    requires store { NowIsStore (state S.Store conn.old) }
    ensures row { HasCleanDisk (state S.Store conn.new)
        → IfOk result (λ found. IsNearest side
        (points_over waiting.now (point_in ((state S.Store conn.old).now.trees point_tree)) meter.0
        register) found) }
    ensures asks { Asks result (state S.Store conn.old) (state S.Store conn.new) }
{
    wake(conn, doubtful)?;
    let rows = nearest_rows(conn, meter, register, &side)?;
    let written = read_point(rows.as_slice())?;
    Ok(nearest_of(waiting, meter, register, &side, written))
}

// The points from one instant to another, both included, in order.
pub(crate) fn points_between<S: Alter>(
    conn: &mut Connection<S>,
    doubtful: bool,
    alloc: Global,
    meter: MeterId,
    register: Register,
    from: Instant,
    to: Instant,
) -> Result<Vec<(Instant, WattHours)>, AskFault>
    requires awake { IsAwake (state S.Store conn.old) doubtful }
    requires store { NowIsStore (state S.Store conn.old) }
    ensures rows { HasCleanDisk (state S.Store conn.new)
        → IfOk result (λ found. ListsSecondsWithin from to
        (point_in ((state S.Store conn.old).now.trees point_tree) meter.0 register) found.items) }
    ensures asks { Asks result (state S.Store conn.old) (state S.Store conn.new) }
{
    wake(conn, doubtful)?;
    let rows = between_rows(conn, meter, register, from, to)?;
    read_points(alloc, rows.as_slice())
}

// All starts of a meter, in order.
pub(crate) fn starts_of<S: Alter>(
    conn: &mut Connection<S>,
    doubtful: bool,
    alloc: Global,
    meter: MeterId,
) -> Result<Vec<(Instant, Owner)>, AskFault>
    requires awake { IsAwake (state S.Store conn.old) doubtful }
    requires store { NowIsStore (state S.Store conn.old) }
    ensures rows { HasCleanDisk (state S.Store conn.new)
        → IfOk result (λ found. ListsSeconds
        (start_in ((state S.Store conn.old).now.trees start_tree) meter.0) found.items) }
    ensures asks { Asks result (state S.Store conn.old) (state S.Store conn.new) }
{
    wake(conn, doubtful)?;
    let rows = start_rows(conn, meter)?;
    read_starts(alloc, rows.as_slice())
}

// The total kept at a key; 0 where none is.
pub(crate) fn total<S: Alter>(
    conn: &mut Connection<S>,
    doubtful: bool,
    key: &TotalKey,
) -> Result<u64, AskFault>
    requires awake { IsAwake (state S.Store conn.old) doubtful }
    requires store { NowIsStore (state S.Store conn.old) }
    ensures amount { HasCleanDisk (state S.Store conn.new)
        → IfOk result (λ found. found ≡ total_in (state S.Store conn.old).now.trees key.now) }
    ensures asks { Asks result (state S.Store conn.old) (state S.Store conn.new) }
{
    wake(conn, doubtful)?;
    let rows = total_rows(conn, key)?;
    read_amount(rows.as_slice())
}
