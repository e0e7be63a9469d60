//! What rows of points, starts and totals tell.

ghost use Rattle.std.specs.Prelude.{◌≡◌, ◌<◌, ◌≤◌, IfOk, IfSome, IsTrue, length, map};
ghost use Rattle.pw_model.specs.Lists.{IsInOrder};
ghost use Rattle.pw_shelf.specs.Seconds.{by_second};
ghost use Rattle.pw_store.specs.inner.Seconds.{first_amount, first_point, point_told, start_told};

use pw_obis::WattHours;
use pw_schema::{ReadFault, amount_at, instant_at, owner_at, wh_at};
use pw_tariff::Owner;
use pw_time::Instant;
use sqlite::Row;
use std::alloc::Global;

fn point_of(row: &Row) -> Option<(Instant, WattHours)>
    ensures { IfSome result (λ point. point ≡ point_told row.now) }
{
    let instant = instant_at(row, 0)?;
    let wh = wh_at(row, 1)?;
    Some((instant, wh))
}

fn start_of(row: &Row) -> Option<(Instant, Owner)>
    ensures { IfSome result (λ start. start ≡ start_told row.now) }
{
    let instant = instant_at(row, 0)?;
    let owner = owner_at(row, 1)?;
    Some((instant, owner))
}

// The point that rows tell, of which there is one at most, if they tell it.
pub(crate) fn one_point(rows: &[Row]) -> Option<Option<(Instant, WattHours)>>
    ensures { IfSome result (λ found. found ≡ first_point rows.now) }
{
    match rows {
        [] => Some(None),
        [row] => {
            let point = point_of(row)?;
            Some(Some(point))
        }
        _ => None,
    }
}

// The amount that rows tell, of which there is one at most, if they tell it; 0 where there is none.
pub(crate) fn one_amount(rows: &[Row]) -> Option<u64>
    ensures few { IfSome result (λ amount. length rows.now ≤ 1) }
    ensures told { IfSome result (λ amount. first_amount rows.now ≡ amount) }
{
    match rows {
        [] => Some(0),
        [row] => amount_at(row, 0),
        _ => None,
    }
}

// Whether a second stands behind the last one.
fn is_behind(last: &Option<Instant>, instant: Instant) -> bool
    ensures { IsTrue result → IfSome last.now (λ l. l < instant) }
{
    match last {
        Some(last) => last.seconds() < instant.seconds(),
        None => true,
    }
}

// The points that rows tell, if each tells one and stands behind the one before.
pub(crate) fn all_points(
    alloc: Global,
    rows: &[Row],
) -> Result<Vec<(Instant, WattHours)>, ReadFault>
    ensures told { IfOk result (λ found. found.items ≡ map point_told rows.now) }
    ensures rising { IfOk result (λ found. IsInOrder by_second found.items) }
{
    let mut found = Vec::new(alloc);
    let mut last = None;
    for row in rows {
        let Some(point) = point_of(row) else {
            return Err(ReadFault::Wrong);
        };
        let instant = point.0;
        if !is_behind(&last, instant) {
            return Err(ReadFault::Wrong);
        }
        found.push(point)?;
        last = Some(instant);
    }
    Ok(found)
}

// The starts that rows tell, if each tells one and stands behind the one before.
pub(crate) fn all_starts(alloc: Global, rows: &[Row]) -> Result<Vec<(Instant, Owner)>, ReadFault>
    ensures told { IfOk result (λ found. found.items ≡ map start_told rows.now) }
    ensures rising { IfOk result (λ found. IsInOrder by_second found.items) }
{
    let mut found = Vec::new(alloc);
    let mut last = None;
    for row in rows {
        let Some(start) = start_of(row) else {
            return Err(ReadFault::Wrong);
        };
        let instant = start.0;
        if !is_behind(&last, instant) {
            return Err(ReadFault::Wrong);
        }
        found.push(start)?;
        last = Some(instant);
    }
    Ok(found)
}
