//! The shelf's calls that stretches of time are asked by.

ghost use Rattle.std.specs.Prelude.{IfOk, IsNone};
ghost use Rattle.pw_model.specs.Seconds.{ListsSeconds};
ghost use Rattle.pw_shelf.specs.Calls.{failures_told};
ghost use Rattle.pw_shelf.specs.Rows.{rows_found, rows_listed};
ghost use Rattle.pw_shelf.specs.Seconds.{IsBefore, IsBehind, ListsSecondsWithin};
ghost use Rattle.pw_book.specs.Asking.{IsOnlyAsked};
ghost use Rattle.pw_bills.specs.inner.Gathering.{TakesRows};

use crate::gathering::Place;
use pw_book::Start;
use pw_parts::Point;
use pw_shelf::{Shelf, ShelfFault};
use pw_tariff::MeterId;
use pw_time::Instant;
use std::alloc::Global;

// The starts of a meter.
pub(crate) fn starts_held<S: Shelf>(
    shelf: &mut S,
    alloc: Global,
    meter: MeterId,
) -> Result<Vec<Start>, ShelfFault>
    requires { IsNone (S.state shelf.old).begun }
    ensures rows { S.clean shelf.new → IfOk result
        (λ starts. ListsSeconds ((S.state shelf.old).content.start meter.0) starts.items) }
    ensures tally { TakesRows S.Shelf rows_listed result shelf.old shelf.new }
    ensures asked { IsOnlyAsked S.Shelf (failures_told result) shelf.old shelf.new }
{
    shelf.starts_of(alloc, meter)
}

// The point of a register before an instant.
pub(crate) fn point_before_held<S: Shelf>(
    shelf: &mut S,
    place: &Place,
    instant: Instant,
) -> Result<Option<Point>, ShelfFault>
    requires { IsNone (S.state shelf.old).begun }
    ensures row { S.clean shelf.new → IfOk result
        (λ found. IsBefore ((S.state shelf.old).content.point place.now.meter.0
        place.now.register) instant found) }
    ensures tally { TakesRows S.Shelf rows_found result shelf.old shelf.new }
    ensures asked { IsOnlyAsked S.Shelf (failures_told result) shelf.old shelf.new }
{
    shelf.point_before(place.meter, place.register, instant)
}

// The point of a register behind an instant.
pub(crate) fn point_after_held<S: Shelf>(
    shelf: &mut S,
    place: &Place,
    instant: Instant,
) -> Result<Option<Point>, ShelfFault>
    requires { IsNone (S.state shelf.old).begun }
    ensures row { S.clean shelf.new → IfOk result
        (λ found. IsBehind ((S.state shelf.old).content.point place.now.meter.0
        place.now.register) instant found) }
    ensures tally { TakesRows S.Shelf rows_found result shelf.old shelf.new }
    ensures asked { IsOnlyAsked S.Shelf (failures_told result) shelf.old shelf.new }
{
    shelf.point_after(place.meter, place.register, instant)
}

// The points of a register from one instant to another.
pub(crate) fn points_held<S: Shelf>(
    shelf: &mut S,
    place: &Place,
    from: Instant,
    to: Instant,
) -> Result<Vec<Point>, ShelfFault>
    requires { IsNone (S.state shelf.old).begun }
    ensures rows { S.clean shelf.new → IfOk result
        (λ points. ListsSecondsWithin from to
        ((S.state shelf.old).content.point place.now.meter.0 place.now.register) points.items) }
    ensures tally { TakesRows S.Shelf rows_listed result shelf.old shelf.new }
    ensures asked { IsOnlyAsked S.Shelf (failures_told result) shelf.old shelf.new }
{
    shelf.points_between(place.basis.alloc, place.meter, place.register, from, to)
}
