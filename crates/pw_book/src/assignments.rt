//! The assignments of all meters.

ghost use Rattle.std.specs.Prelude.{IfOk, IsNone};
ghost use Rattle.pw_model.specs.Kinds.{IsAssignment, ListsHeld};
ghost use Rattle.pw_shelf.specs.Calls.{failures_told};
ghost use Rattle.pw_book.specs.Asking.{IsOnlyAsked};
ghost use Rattle.pw_book.specs.inner.Steps.{HoldsOffice};

use crate::shelf_calls::assignments_held;
use pw_model::Entry;
use pw_shelf::{Shelf, ShelfFault};
use pw_tariff::{MeterId, Office};
use std::alloc::Global;

// The assignments held of all meters, meter by meter.
pub(crate) fn all_assignments<S: Shelf>(
    shelf: &mut S,
    alloc: Global,
    office: &Office,
) -> Result<Vec<Entry>, ShelfFault>
    requires idle { IsNone (S.state shelf.old).begun }
    requires of_office { HoldsOffice S.Shelf office.now shelf.old }
    ensures assignments { S.clean shelf.new → IfOk result
        (λ found. ListsHeld IsAssignment (S.state shelf.old).content.records found.items) }
    ensures asked { IsOnlyAsked S.Shelf (failures_told result) shelf.old shelf.new }
{
    let mut found = Vec::new(alloc);
    for meter in 0..office.meters() {
        let assignments = assignments_held(shelf, alloc, MeterId(meter))?;
        found.extend_from_slice(&assignments)?;
    }
    Ok(found)
}
