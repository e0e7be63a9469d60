//! Points, each statement run by its own text.

ghost use Rattle.std.specs.Prelude.{◌≡◌, ◌↔◌, ◌≤◌, ℕ, pos, Some, IfErr, IfOk, Ok, Err, false, map, true};
ghost use Rattle.sqlite.specs.Held.{state};
ghost use Rattle.sqlite.specs.State.{HasCleanDisk};
ghost use Rattle.sqlite.specs.declared.types.Value.TheVariants.{Int};
ghost use Rattle.sqlite_value.specs.Value.{owned};
ghost use Rattle.pw_tariff.specs.Office.{register_place as told_place};
ghost use Rattle.pw_model.specs.Counting.{Member};
ghost use Rattle.pw_schema.specs.Calls.{Writes};
ghost use Rattle.pw_schema.specs.inner.Calls.{Asks};
ghost use Rattle.pw_store.specs.Content.{point_in, point_tree};
ghost use Rattle.pw_store.specs.inner.Changing.{Makes, changed, refuses_key};
ghost use Rattle.pw_store.specs.inner.Connections.{HasBegun, HoldsStore};
ghost use Rattle.pw_store.specs.inner.Seconds.{IsNearest, first_point, instant_of, nearest_text, point_told};

use crate::changes::Change;
use crate::fault::is_key_taken;
use crate::waiting::WaitingPoint;
use pw_model::register_place;
use pw_obis::{Register, WattHours};
use pw_schema::{integer, wide};
use pw_tariff::MeterId;
use pw_time::Instant;
use sqlite::types::ValueRef;
use sqlite::{Alter, Connection, Error, Row};

// Takes the row of a point away, if there is one.
pub(crate) fn take_point<S: Alter>(
    conn: &mut Connection<S>,
    meter: MeterId,
    register: Register,
    instant: Instant,
) -> Result<usize, Error>
    requires inside { HasBegun (state S.Store conn.old) }
    requires store { HoldsStore (state S.Store conn.old) }
    ensures done { HasCleanDisk (state S.Store conn.new)
        → IfOk result (λ rows. Makes (changed (Change.TakePoint meter register instant) rows)
        (state S.Store conn.old) (state S.Store conn.new)) }
    ensures writes { Writes result (state S.Store conn.old) (state S.Store conn.new) }
{
    conn.execute(
        "DELETE FROM point WHERE meter = ?1 AND register = ?2 AND instant = ?3",
        &[
            integer(u32::from(meter.0)),
            integer(register_place(register)),
            integer(instant.seconds()),
        ],
    )
}

// The values of a point's row.
fn meter_in<'a>(point: &WaitingPoint) -> ValueRef<'a>
    ensures { owned result ≡ Int (pos point.now.meter.0) }
{
    integer(u32::from(point.meter.0))
}

fn register_in<'a>(point: &WaitingPoint) -> ValueRef<'a>
    ensures { owned result ≡ Int (pos (told_place point.now.register)) }
{
    integer(register_place(point.register))
}

fn instant_in<'a>(point: &WaitingPoint) -> ValueRef<'a>
    ensures { owned result ≡ Int (pos point.now.instant) }
{
    integer(point.instant.seconds())
}

fn wh_in<'a>(point: &WaitingPoint) -> ValueRef<'a>
    ensures { owned result ≡ Int (pos point.now.wh) }
{
    wide(point.wh.get())
}

// No row was put where another has its key, which is no fault.
fn none_put(error: Error) -> Result<usize, Error>
    ensures taken { refuses_key error ≡ true → result ≡ Ok 0 }
    ensures other { refuses_key error ≡ false → result ≡ Err error }
{
    if is_key_taken(error) {
        Ok(0)
    } else {
        Err(error)
    }
}

// Puts the row of a point, and tells how many it has put: none where a row has its key.
pub(crate) fn put_point<S: Alter>(
    conn: &mut Connection<S>,
    point: WaitingPoint,
) -> Result<usize, Error>
    requires inside { HasBegun (state S.Store conn.old) }
    requires store { HoldsStore (state S.Store conn.old) }
    ensures done { HasCleanDisk (state S.Store conn.new)
        → IfOk result (λ rows. Makes (changed (Change.PutPoint point) rows) (state S.Store conn.old)
        (state S.Store conn.new)) }
    ensures refused { IfErr result (λ e. refuses_key e ≡ false) }
    ensures writes { Writes result (state S.Store conn.old) (state S.Store conn.new) }
{
    let put = conn.execute(
        "INSERT INTO point (meter, register, instant, wh) VALUES (?1, ?2, ?3, ?4)",
        &[
            meter_in(&point),
            register_in(&point),
            instant_in(&point),
            wh_in(&point),
        ],
    );
    match put {
        Ok(_) => Ok(1),
        Err(error) => none_put(error),
    }
}

// Puts the rows of four points, and tells how many it has put: none where a row has one of their keys.
pub(crate) fn put_four<S: Alter>(
    conn: &mut Connection<S>,
    first: WaitingPoint,
    second: WaitingPoint,
    third: WaitingPoint,
    fourth: WaitingPoint,
) -> Result<usize, Error>
    requires inside { HasBegun (state S.Store conn.old) }
    requires store { HoldsStore (state S.Store conn.old) }
    ensures done { HasCleanDisk (state S.Store conn.new)
        → IfOk result (λ rows. Makes (changed (Change.PutFour first second third fourth) rows)
        (state S.Store conn.old) (state S.Store conn.new)) }
    ensures writes { Writes result (state S.Store conn.old) (state S.Store conn.new) }
{
    let put = conn.execute(
        "INSERT INTO point (meter, register, instant, wh) VALUES (?1, ?2, ?3, ?4), (?5, ?6, ?7, ?8), (?9, ?10, ?11, ?12), (?13, ?14, ?15, ?16)",
        &[
            meter_in(&first),
            register_in(&first),
            instant_in(&first),
            wh_in(&first),
            meter_in(&second),
            register_in(&second),
            instant_in(&second),
            wh_in(&second),
            meter_in(&third),
            register_in(&third),
            instant_in(&third),
            wh_in(&third),
            meter_in(&fourth),
            register_in(&fourth),
            instant_in(&fourth),
            wh_in(&fourth),
        ],
    );
    match put {
        Ok(_) => Ok(4),
        Err(error) => none_put(error),
    }
}

// A side of an instant.
#[derive(Clone, Copy)]
pub(crate) enum Side {
    Before(Instant),
    Behind(Instant),
}

impl Side {
    // The text that asks for the nearest point strictly on it.
    fn text(&self) -> &'static str
        ensures { result.now ≡ nearest_text self.now }
    {
        match self {
            Side::Before(_) => {
                "SELECT instant, wh FROM point WHERE meter = ?1 AND register = ?2 AND instant < ?3 ORDER BY instant DESC LIMIT 1"
            }
            Side::Behind(_) => {
                "SELECT instant, wh FROM point WHERE meter = ?1 AND register = ?2 AND instant > ?3 ORDER BY instant LIMIT 1"
            }
        }
    }

    // The instant whose side it is.
    fn instant(&self) -> Instant
        ensures { result ≡ instant_of self.now }
    {
        match self {
            Side::Before(instant) => *instant,
            Side::Behind(instant) => *instant,
        }
    }
}

// The nearest point strictly on a side: one row at most.
pub(crate) fn nearest_rows<S: Alter>(
    conn: &mut Connection<S>,
    meter: MeterId,
    register: Register,
    side: &Side,
) -> Result<Vec<Row>, Error>
    requires store { HoldsStore (state S.Store conn.old) }
    ensures row { HasCleanDisk (state S.Store conn.new)
        → IfOk result (λ rows. IsNearest side.now
        (point_in ((state S.Store conn.old).now.trees point_tree) meter.0 register)
        (first_point rows.items)) }
    ensures asks { Asks result (state S.Store conn.old) (state S.Store conn.new) }
{
    let instant = side.instant();
    conn.query_all(
        side.text(),
        &[
            integer(u32::from(meter.0)),
            integer(register_place(register)),
            integer(instant.seconds()),
        ],
    )
}

// The points from one instant to another, both included.
pub(crate) fn between_rows<S: Alter>(
    conn: &mut Connection<S>,
    meter: MeterId,
    register: Register,
    from: Instant,
    to: Instant,
) -> Result<Vec<Row>, Error>
    requires store { HoldsStore (state S.Store conn.old) }
    ensures rows { HasCleanDisk (state S.Store conn.new)
        → IfOk result (λ rows. (x : ℕ × ℕ)
        → Member x (map point_told rows.items)
        ↔ ((from ≤ x.0) × (x.0 ≤ to)
        × ((point_in ((state S.Store conn.old).now.trees point_tree) meter.0 register) x.0
        ≡ Some x.1))) }
    ensures asks { Asks result (state S.Store conn.old) (state S.Store conn.new) }
{
    conn.query_all(
        "SELECT instant, wh FROM point WHERE meter = ?1 AND register = ?2 AND instant >= ?3 AND instant <= ?4 ORDER BY instant",
        &[
            integer(u32::from(meter.0)),
            integer(register_place(register)),
            integer(from.seconds()),
            integer(to.seconds()),
        ],
    )
}
