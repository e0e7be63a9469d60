//! The points of a register in stretches of time.

ghost use Rattle.std.specs.Prelude.{◌≡◌, ℕ, ◌+◌, ◌≤◌, IfOk, IsNone, slice_get};
ghost use Rattle.pw_flow.specs.Time.{last as latest_of};
ghost use Rattle.pw_shelf.specs.Calls.{failures_told};
ghost use Rattle.pw_book.specs.Asking.{IsOnlyAsked};
ghost use Rattle.pw_bills.specs.Stretches.{AreStretches};
ghost use Rattle.pw_bills.specs.inner.Flows.{CoversPlace, HasPointsIn};
ghost use Rattle.pw_bills.specs.inner.Gathering.{CanAskAt, PointsAreRead, pass_to};

use crate::gathering::Place;
use crate::shelf_calls::{point_after_held, point_before_held, points_held};
use pw_book::with_neighbours;
use pw_parts::Point;
use pw_shelf::{Shelf, ShelfFault};

// The points of a register that a pass comes to, as the one before and the one behind tell what flows
// at its ends: so none of them is left out or moved.
pub(crate) fn points_over<S: Shelf>(shelf: &mut S, place: &Place) -> Result<Vec<Point>, ShelfFault>
    requires able { CanAskAt S.Shelf place.now shelf.old }
    ensures points { S.clean shelf.new → IfOk result
        (λ points. CoversPlace place.now (S.state shelf.old).content points.items) }
    ensures tally { S.clean shelf.new → (most : ℕ)
        → PointsAreRead (pass_to place.now (S.state shelf.old).content) place.now.meter.0
        place.now.register most → (S.state shelf.new).tally ≤ (S.state shelf.old).tally + most }
    ensures asked { IsOnlyAsked S.Shelf (failures_told result) shelf.old shelf.new }
{
    points_around(shelf, place)
}

// The points of a register from the first second of stretches to the last, with the one before them
// and the one behind them, where there is one.
fn points_around<S: Shelf>(shelf: &mut S, place: &Place) -> Result<Vec<Point>, ShelfFault>
    requires idle { IsNone (S.state shelf.old).begun }
    requires stretches { AreStretches place.now.stretches.now.begins.now
        (place.now.stretches.now.last + 1) }
    ensures points { S.clean shelf.new → IfOk result
        (λ points. CoversPlace place.now (S.state shelf.old).content points.items) }
    ensures tally { S.clean shelf.new → (most : ℕ)
        → HasPointsIn place.now.stretches.now.begins.now (place.now.stretches.now.last + 1)
        ((S.state shelf.old).content.point place.now.meter.0 place.now.register) most
        → (S.state shelf.new).tally ≤ (S.state shelf.old).tally + 5 + most }
    ensures asked { IsOnlyAsked S.Shelf (failures_told result) shelf.old shelf.new }
{
    let from = place.stretches.begins[0];
    let last = place.stretches.last;
    let before = point_before_held(shelf, place, from)?;
    let after = point_after_held(shelf, place, last)?;
    let within = points_held(shelf, place, from, last)?;
    let points = with_neighbours(place.basis.alloc, before, &within, after)?;
    Ok(points)
}

// The latest point of a register at the last instant or before it.
pub(crate) fn latest_held<S: Shelf>(
    shelf: &mut S,
    place: &Place,
) -> Result<Option<Point>, ShelfFault>
    requires idle { IsNone (S.state shelf.old).begun }
    ensures point { S.clean shelf.new → IfOk result
        (λ latest. latest ≡ latest_of
        ((S.state shelf.old).content.point place.now.meter.0 place.now.register)
        place.now.stretches.now.last) }
    ensures tally { S.clean shelf.new → (S.state shelf.new).tally ≤ (S.state shelf.old).tally + 3 }
    ensures asked { IsOnlyAsked S.Shelf (failures_told result) shelf.old shelf.new }
{
    let last = place.stretches.last;
    let here = points_held(shelf, place, last, last)?;
    match earliest(&here) {
        Some(point) => Ok(Some(point)),
        None => point_before_held(shelf, place, last),
    }
}

// The first of some points, if there is one.
fn earliest(points: &[Point]) -> Option<Point>
    ensures { result ≡ slice_get points.now 0 }
{
    points.first().copied()
}
