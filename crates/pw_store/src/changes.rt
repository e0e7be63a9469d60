//! What is changed of points, starts and totals, by one statement.

ghost use Rattle.std.specs.Prelude.{IfOk};
ghost use Rattle.sqlite.specs.Held.{state};
ghost use Rattle.sqlite.specs.State.{HasCleanDisk};
ghost use Rattle.pw_schema.specs.Calls.{Writes};
ghost use Rattle.pw_store.specs.inner.Changing.{Fits, IsFree, IsTaken, Makes, changed};
ghost use Rattle.pw_store.specs.inner.Connections.{HasBegun, HoldsStore};

use crate::points::{put_four, put_point, take_point};
use crate::starts::{put_start, take_start};
use crate::total_statements::{put_total, set_total, take_total};
use crate::waiting::WaitingPoint;
use pw_model::TotalKey;
use pw_obis::Register;
use pw_tariff::{MeterId, Owner};
use pw_time::Instant;
use sqlite::{Alter, Connection, Error};

// One row that is taken away by its key, one that is put where none has its key, four of points likewise, or an amount
// that is set in the row that has its key. Where no row has the key of what is to be taken or set, or where one has the
// key of a point that is to be put, nothing changes.
#[derive(Clone, Copy)]
pub(crate) enum Change {
    TakePoint {
        meter: MeterId,
        register: Register,
        instant: Instant,
    },
    PutPoint {
        point: WaitingPoint,
    },
    PutFour {
        first: WaitingPoint,
        second: WaitingPoint,
        third: WaitingPoint,
        fourth: WaitingPoint,
    },
    TakeStart {
        meter: MeterId,
        start: Instant,
    },
    PutStart {
        meter: MeterId,
        start: Instant,
        owner: Owner,
    },
    TakeTotal {
        key: TotalKey,
    },
    SetTotal {
        key: TotalKey,
        amount: u64,
    },
    PutTotal {
        key: TotalKey,
        amount: u64,
    },
}

// Makes the change, by one statement, and tells how many rows that has changed.
pub(crate) fn make<S: Alter>(conn: &mut Connection<S>, change: Change) -> Result<usize, Error>
    requires inside { HasBegun (state S.Store conn.old) }
    requires store { HoldsStore (state S.Store conn.old) }
    requires free { HasCleanDisk (state S.Store conn.old)
        → IsFree change (state S.Store conn.old).now.trees }
    requires fits { Fits change }
    ensures done { HasCleanDisk (state S.Store conn.new)
        → IfOk result (λ rows. Makes (changed change rows) (state S.Store conn.old)
        (state S.Store conn.new)) }
    ensures taken { HasCleanDisk (state S.Store conn.new)
        → IfOk result (λ rows. IsTaken change rows (state S.Store conn.new).now.trees) }
    ensures writes { Writes result (state S.Store conn.old) (state S.Store conn.new) }
{
    match change {
        Change::TakePoint {
            meter,
            register,
            instant,
        } => take_point(conn, meter, register, instant),
        Change::PutPoint { point } => put_point(conn, point),
        Change::PutFour {
            first,
            second,
            third,
            fourth,
        } => put_four(conn, first, second, third, fourth),
        Change::TakeStart { meter, start } => take_start(conn, meter, start),
        Change::PutStart {
            meter,
            start,
            owner,
        } => put_start(conn, meter, start, owner),
        Change::TakeTotal { key } => take_total(conn, key),
        Change::SetTotal { key, amount } => set_total(conn, key, amount),
        Change::PutTotal { key, amount } => put_total(conn, key, amount),
    }
}
