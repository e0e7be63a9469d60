//! The readings of a register, each with whether it counts and whether it is withdrawn.

ghost use Rattle.std.specs.Prelude.{◌≡◌, ◌↔◌, ℕ, Option, None, Some, IfOk, IsNone, IsTrue, MatchOption};
ghost use Rattle.pw_model.specs.Counting.{contents_at, point as point_told};
ghost use Rattle.pw_model.specs.Lists.{AreReadings, IsInOrder};
ghost use Rattle.pw_model.specs.Seconds.{ListsSeconds, by_second};
ghost use Rattle.pw_shelf.specs.Rows.{ListsReadings};
ghost use Rattle.pw_shelf.specs.Calls.{failures_told};
ghost use Rattle.pw_book.specs.Asking.{IsOnlyAsked};
ghost use Rattle.pw_parts.specs.Shown.{shown};
ghost use Rattle.pw_book.specs.inner.Counted.{IsRowOf, StandBefore};
ghost use Rattle.pw_book.specs.inner.Places.{TellsPoints};

use crate::shelf_calls::{points_held, readings_held};
use crate::withdrawn::is_withdrawn;
use pw_model::{Content, Entry, Key, ReadingRow};
use pw_obis::{Register, WattHours};
use pw_parts::Point;
use pw_shelf::{Shelf, ShelfFault};
use pw_tariff::MeterId;
use pw_time::Instant;
use std::alloc::Global;

// The readings held of a register, each with whether it counts and whether it is withdrawn.
pub(crate) fn rows_held<S: Shelf>(
    shelf: &mut S,
    alloc: Global,
    meter: MeterId,
    register: Register,
) -> Result<Vec<ReadingRow>, ShelfFault>
    requires idle { IsNone (S.state shelf.old).begun }
    requires points { S.clean shelf.old → TellsPoints (S.state shelf.old).content }
    ensures rows { S.clean shelf.new → IfOk result
        (λ rows. AreReadings (S.state shelf.old).content.records meter.0 register rows.items) }
    ensures asked { IsOnlyAsked S.Shelf (failures_told result) shelf.old shelf.new }
{
    let readings = readings_held(shelf, alloc, meter, register)?;
    let points = points_held(shelf, alloc, meter, register)?;
    let rows = rows_of(shelf, alloc, &readings, &points)?;
    Ok(rows)
}

// The rows of a register, told by all its readings that are held and by its points.
fn rows_of<S: Shelf>(
    shelf: &mut S,
    alloc: Global,
    readings: &[Entry],
    points: &[Point],
) -> Result<Vec<ReadingRow>, ShelfFault>
    requires { IsNone (S.state shelf.old).begun }
    ensures rows { S.clean shelf.new → (m : MeterId) (r : Register)
        → ListsReadings (S.state shelf.old).content.records m r readings.now
        → ListsSeconds (point_told (contents_at (S.state shelf.old).content.records) m.0 r)
        points.now → IfOk result (λ rows.
        AreReadings (S.state shelf.old).content.records m.0 r rows.items) }
    ensures asked { IsOnlyAsked S.Shelf (failures_told result) shelf.old shelf.new }
{
    let mut rows = Vec::new(alloc);
    for entry in readings {
        if let Some(row) = row_of(shelf, entry, points)? {
            rows.push(row)?;
        }
    }
    Ok(rows)
}

// The row of a reading: it counts where a point with its value stands at its instant. Only one that doesn't count can be
// withdrawn.
fn row_of<S: Shelf>(
    shelf: &mut S,
    entry: &Entry,
    points: &[Point],
) -> Result<Option<ReadingRow>, ShelfFault>
    requires { IsNone (S.state shelf.old).begun }
    ensures row { S.clean shelf.new → (told : ℕ → Option ℕ) → ListsSeconds told points.now
        → IfOk result (λ row. MatchOption row (shown entry.now ≡ None)
        (IsRowOf told (S.state shelf.old).content.records entry.now)) }
    ensures asked { IsOnlyAsked S.Shelf (failures_told result) shelf.old shelf.new }
{
    let Key::Reading { instant, .. } = &entry.key else {
        return Ok(None);
    };
    let Content::Reading { wh } = &entry.content else {
        return Ok(None);
    };
    let counted = shows(points, *instant, *wh);
    let withdrawn = !counted && is_withdrawn(shelf, entry)?;
    Ok(Some(ReadingRow {
        instant: *instant,
        wh: *wh,
        counted,
        withdrawn,
    }))
}

// Whether a point with this value stands at an instant.
fn shows(points: &[Point], instant: Instant, wh: WattHours) -> bool
    ensures { (told : ℕ → Option ℕ) → ListsSeconds told points.now
        → IsTrue result ↔ (told instant ≡ Some wh) }
{
    match points.get(stand_before(points, instant)) {
        Some(point) => point.0 == instant && point.1 == wh,
        None => false,
    }
}

// How many points stand before an instant.
fn stand_before(points: &[Point], instant: Instant) -> usize
    ensures { IsInOrder by_second points.now → StandBefore points.now instant result }
{
    points.partition_point(|point| point.0 < instant)
}
