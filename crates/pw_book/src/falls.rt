//! The falls of registers.

ghost use Rattle.std.specs.Prelude.{◌≡◌, ◌+◌, ◌*◌, ◌<◌, ℕ, Option, Some, IfOk, OnOk, IsNone};
ghost use Rattle.pw_model.specs.Lists.{AreFalls, Lists, fall_order};
ghost use Rattle.pw_shelf.specs.Calls.{failures_told};
ghost use Rattle.pw_tariff.specs.Office.{register_place};
ghost use Rattle.pw_book.specs.Asking.{IsOnlyAsked};
ghost use Rattle.pw_model.specs.Seconds.{ListsSeconds};
ghost use Rattle.pw_book.specs.inner.Counted.{IsFallOf};
ghost use Rattle.pw_book.specs.inner.Places.{FallsBefore, TellsPoints};
ghost use Rattle.pw_book.specs.inner.Steps.{HasTrueContent, HoldsOffice};

use crate::shelf_calls::points_held;
use pw_model::Fall;
use pw_obis::{Register, WattHours};
use pw_shelf::{Shelf, ShelfFault};
use pw_tariff::{MeterId, Office};
use pw_time::Instant;
use std::alloc::{AllocError, Global};

// The falls of all registers, of the records held.
pub(crate) fn falls_held<S: Shelf>(
    shelf: &mut S,
    alloc: Global,
    office: &Office,
) -> Result<Vec<Fall>, ShelfFault>
    requires idle { IsNone (S.state shelf.old).begun }
    requires of_office { HoldsOffice S.Shelf office.now shelf.old }
    requires truth { HasTrueContent S.Shelf office.now shelf.old }
    ensures falls { S.clean shelf.new → IfOk result
        (λ falls. AreFalls (S.state shelf.old).content.records falls.items) }
    ensures asked { IsOnlyAsked S.Shelf (failures_told result) shelf.old shelf.new }
{
    let mut falls = Vec::new(alloc);
    for meter in 0..office.meters() {
        add_meter(shelf, alloc, MeterId(meter), &mut falls)?;
    }
    Ok(falls)
}

// Adds the falls of a meter's registers behind those of the meters before it.
fn add_meter<S: Shelf>(
    shelf: &mut S,
    alloc: Global,
    meter: MeterId,
    falls: &mut Vec<Fall>,
) -> Result<(), ShelfFault>
    requires { IsNone (S.state shelf.old).begun }
    ensures falls { S.clean shelf.new → TellsPoints (S.state shelf.old).content
        → FallsBefore (S.state shelf.old).content.records (6 * meter.0) falls.old.items
        → OnOk result (FallsBefore (S.state shelf.old).content.records (6 * meter.0 + 6)
        falls.new.items) }
    ensures asked { IsOnlyAsked S.Shelf (failures_told result) shelf.old shelf.new }
{
    for register in &Register::ALL {
        add_register(shelf, alloc, meter, *register, falls)?;
    }
    Ok(())
}

// Adds the falls of a register behind those of the registers before it.
fn add_register<S: Shelf>(
    shelf: &mut S,
    alloc: Global,
    meter: MeterId,
    register: Register,
    falls: &mut Vec<Fall>,
) -> Result<(), ShelfFault>
    requires { IsNone (S.state shelf.old).begun }
    ensures falls { S.clean shelf.new → TellsPoints (S.state shelf.old).content
        → FallsBefore (S.state shelf.old).content.records (6 * meter.0 + register_place register)
        falls.old.items → OnOk result
        (FallsBefore (S.state shelf.old).content.records
        (6 * meter.0 + register_place register + 1) falls.new.items) }
    ensures asked { IsOnlyAsked S.Shelf (failures_told result) shelf.old shelf.new }
{
    let points = points_held(shelf, alloc, meter, register)?;
    let more = falls_of(alloc, meter, register, &points)?;
    falls.extend_from_slice(&more)?;
    Ok(())
}

// The neighbouring points of a register of which the later shows less.
pub(crate) fn falls_of(
    alloc: Global,
    meter: MeterId,
    register: Register,
    points: &[(Instant, WattHours)],
) -> Result<Vec<Fall>, AllocError>
    ensures { (told : ℕ → Option ℕ) (end : ℕ) → ListsSeconds told points.now
        → ((t w : ℕ) → told t ≡ Some w → t < end)
        → IfOk result (λ falls. Lists fall_order (IsFallOf meter register told) falls.items) }
{
    let mut falls = Vec::new(alloc);
    for pair in points.windows(2) {
        let ((from, high), (to, low)) = (pair[0], pair[1]);
        if low.get() < high.get() {
            falls.push(Fall {
                meter,
                register,
                from,
                high,
                to,
                low,
            })?;
        }
    }
    Ok(falls)
}
