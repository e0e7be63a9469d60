//! A start of a meter that begins or ceases to count, and the energies of the pairs from it up to the next.

ghost use Rattle.std.specs.Prelude.{◌≡◌, ℕ, ◌+◌, ◌*◌, ◌<◌, ◌≤◌, ◌^◌, ◌++◌, [], OnOk, IfOk, IsSome, length};
ghost use Rattle.pw_obis.specs.declared.reference.Register.{Register as AnyRegister};
ghost use Rattle.pw_tariff.specs.declared.ids.Direction.TheVariants.{Import, Export};
ghost use Rattle.pw_tariff.specs.Office.{office_of};
ghost use Rattle.pw_model.specs.declared.records.Contents.{Contents as AnyContents};
ghost use Rattle.pw_model.specs.declared.records.Key.{Key as AnyKey};
ghost use Rattle.pw_model.specs.declared.records.TotalKey.{TotalKey as AnyTotal};
ghost use Rattle.pw_model.specs.Changes.{IsOtherStart};
ghost use Rattle.pw_model.specs.Counting.{point as point_told, start as start_told};
ghost use Rattle.pw_model.specs.Energy.{over_registers};
ghost use Rattle.pw_shelf.specs.Changes.{starts_with, with_start as with_start_of};
ghost use Rattle.pw_book.specs.Cost.{HasStarts, classes_of};
ghost use Rattle.pw_parts.specs.declared.changes.Side.TheVariants.{Loses, Gains};
ghost use Rattle.pw_book.specs.inner.Settling.{EndsBefore, EndsBeforeNext, HavePoints, IsOver, IsSettled, IsStartChanged, register_told};
ghost use Rattle.pw_parts.specs.Changes.{gathered};
ghost use Rattle.pw_book.specs.Listed.{point_listed};
ghost use Rattle.pw_book.specs.inner.Sums.{AreDifferences};
ghost use Rattle.pw_book.specs.inner.Steps.{KeepsContent, TakesPoints, UploadGoesOn};
ghost use Rattle.pw_book.specs.inner.Gathered.{GathersAtMost, IsGatheredBelow};

use crate::basis::Basis;
use crate::moving::move_energies;
use crate::starts::{owners_of, until_next, with_start};
use pw_model::direction_of;
use pw_obis::Register;
use pw_parts::{Changes, Point, Side, add_pairs};
use pw_shelf::{Shelf, ShelfFault};
use pw_tariff::{Direction, MeterId, Owner, Owners};
use pw_time::Instant;
use std::alloc::{AllocError, Global};

// The time that a start of a meter decides on: from it up to the last instant before the next. And the meter's owners
// before and after a change there.
#[derive(Drop)]
struct Window<'a> {
    meter: MeterId,
    from: Instant,
    until: Instant,
    before: Owners<'a>,
    after: Owners<'a>,
}

// The points of a register within a window, and the ones next to it.
#[derive(Drop)]
struct Over {
    before: Option<Point>,
    within: Vec<Point>,
    after: Option<Point>,
}

// Keeps the start of a meter at an instant as this owner's, or takes it away, and changes the energies of the pairs that
// overlap the time from it up to the next start.
pub(crate) fn change_start<S: Shelf>(
    shelf: &mut S,
    basis: &Basis,
    meter: MeterId,
    start: Instant,
    owner: Option<Owner>,
) -> Result<(), ShelfFault>
    requires begun { IsSome (S.state shelf.old).begun }
    requires meter { meter.0 < length basis.now.office.now.meters }
    ensures settled { S.clean shelf.new → (was is : AnyKey → AnyContents)
        → (S.state shelf.old).content.point ≡ point_told was
        → (S.state shelf.old).content.start ≡ start_told was → IsOtherStart was is meter.0 start
        → start_told is meter.0 start ≡ owner
        → ((r : AnyRegister) → EndsBefore (office_of basis.now.office.now).end
        (point_told was meter.0 r))
        → OnOk result (IsSettled (office_of basis.now.office.now) was is
        (S.state shelf.old).content (S.state shelf.new).content) }
    ensures start { S.clean shelf.new → OnOk result
        (((S.state shelf.new).content.point ≡ (S.state shelf.old).content.point)
        × ((S.state shelf.new).content.start
        ≡ starts_with (S.state shelf.old).content.start meter.0 start owner)) }
    ensures tally { S.clean shelf.new → (starts : ℕ) (points : AnyRegister → ℕ)
        → HasStarts (S.state shelf.old).content meter.0 starts
        → HavePoints (S.state shelf.old).content meter.0 start points
        → (S.state shelf.new).tally
        ≤ (S.state shelf.old).tally + (32 + starts)
        + (over_registers Import points + over_registers Export points) + 6
        * classes_of (office_of basis.now.office.now) }
    ensures kept { UploadGoesOn S.Shelf result shelf.old shelf.new }
{
    let old = shelf.starts_of(basis.alloc, meter)?;
    let new = with_start(basis.alloc, &old, start, owner)?;
    let window = Window {
        meter,
        from: start,
        until: until_next(&old, start),
        before: owners_of(&old),
        after: owners_of(&new),
    };
    let changes = weigh_window(shelf, basis, &window)?;
    move_energies(shelf, basis.office, &changes)?;
    keep_start(shelf, meter, start, owner)
}

// Keeps the start of a meter at an instant as this owner's, or takes it away.
fn keep_start<S: Shelf>(
    shelf: &mut S,
    meter: MeterId,
    start: Instant,
    owner: Option<Owner>,
) -> Result<(), ShelfFault>
    requires { IsSome (S.state shelf.old).begun }
    ensures kept_start { S.clean shelf.new → OnOk result
        ((S.state shelf.new).content
        ≡ with_start_of (S.state shelf.old).content meter.0 start owner) }
    ensures tally { (S.state shelf.new).tally ≡ (S.state shelf.old).tally + 1 }
    ensures kept { UploadGoesOn S.Shelf result shelf.old shelf.new }
{
    match owner {
        Some(owner) => shelf.start_put(meter, start, owner),
        None => shelf.start_del(meter, start),
    }
}

// What each total loses and gains by the pairs that overlap a window: what they gave, and what they give.
fn weigh_window<S: Shelf>(
    shelf: &mut S,
    basis: &Basis,
    window: &Window,
) -> Result<Changes, ShelfFault>
    requires begun { IsSome (S.state shelf.old).begun }
    requires meter { window.now.meter.0 < length basis.now.office.now.meters }
    ensures few { IfOk result (λ changes. IsGatheredBelow (2 ^ 127) changes) }
    ensures moved { S.clean shelf.new → (was is : AnyKey → AnyContents)
        → IsStartChanged (S.state shelf.old).content was is window.now.meter.0 window.now.from
        window.now.until window.now.before window.now.after
        → IfOk result (λ changes.
        AreDifferences (office_of basis.now.office.now) was is changes.rows) }
    ensures same { KeepsContent S.Shelf result shelf.old shelf.new }
    ensures tally { S.clean shelf.new → (points : AnyRegister → ℕ)
        → EndsBeforeNext ((S.state shelf.old).content.start window.now.meter.0) window.now.from
        window.now.until → HavePoints (S.state shelf.old).content window.now.meter.0
        window.now.from points → (S.state shelf.new).tally
        ≤ (S.state shelf.old).tally + 30
        + (over_registers Import points + over_registers Export points) }
    ensures kept { UploadGoesOn S.Shelf result shelf.old shelf.new }
{
    let mut changes = Changes::new(basis.alloc);
    for register in &Register::ALL {
        add_register(shelf, basis, window, *register, &mut changes)?;
    }
    Ok(changes)
}

// Gathers what the pairs of a register that overlap a window gave, and what they give: nothing where the register
// doesn't count.
fn add_register<S: Shelf>(
    shelf: &mut S,
    basis: &Basis,
    window: &Window,
    register: Register,
    changes: &mut Changes,
) -> Result<(), ShelfFault>
    requires begun { IsSome (S.state shelf.old).begun }
    requires meter { window.now.meter.0 < length basis.now.office.now.meters }
    requires few { IsGatheredBelow (2 ^ 120) changes.old }
    ensures few { OnOk result (GathersAtMost (2 ^ 110) changes.old changes.new) }
    ensures moved { S.clean shelf.new → (was is : AnyKey → AnyContents)
        → IsStartChanged (S.state shelf.old).content was is window.now.meter.0 window.now.from
        window.now.until window.now.before window.now.after
        → OnOk result ((k : AnyTotal)
        → gathered Gains changes.new.rows k + gathered Loses changes.old.rows k
        + register_told (office_of basis.now.office.now) was window.now.meter.0 k register
        ≡ gathered Loses changes.new.rows k + gathered Gains changes.old.rows k
        + register_told (office_of basis.now.office.now) is window.now.meter.0 k register) }
    ensures same { KeepsContent S.Shelf result shelf.old shelf.new }
    ensures tally { TakesPoints S.Shelf 5 window.now register shelf.old shelf.new }
    ensures kept { UploadGoesOn S.Shelf result shelf.old shelf.new }
{
    if !basis.office.counts(window.meter, register) {
        return Ok(());
    }
    let over = points_over(shelf, basis.alloc, window, register)?;
    let points = with_neighbours(basis.alloc, over.before, &over.within, over.after)?;
    let direction = direction_of(register);
    add_pairs(
        basis.alloc,
        basis.office,
        basis.zone,
        &window.before,
        direction,
        &points,
        Side::Loses,
        changes,
    )?;
    add_pairs(
        basis.alloc,
        basis.office,
        basis.zone,
        &window.after,
        direction,
        &points,
        Side::Gains,
        changes,
    )?;
    Ok(())
}

// The points of a register within a window, and the one before it and the one behind it, where there is one.
fn points_over<S: Shelf>(
    shelf: &mut S,
    alloc: Global,
    window: &Window,
    register: Register,
) -> Result<Over, ShelfFault>
    requires { IsSome (S.state shelf.old).begun }
    ensures points { S.clean shelf.new → IfOk result
        (λ over. IsOver window.now.from window.now.until
        ((S.state shelf.old).content.point window.now.meter.0 register) over.before
        over.within.items over.after) }
    ensures same { KeepsContent S.Shelf result shelf.old shelf.new }
    ensures tally { TakesPoints S.Shelf 5 window.now register shelf.old shelf.new }
    ensures kept { UploadGoesOn S.Shelf result shelf.old shelf.new }
{
    let before = shelf.point_before(window.meter, register, window.from)?;
    let after = shelf.point_after(window.meter, register, window.until)?;
    let within = shelf.points_between(alloc, window.meter, register, window.from, window.until)?;
    Ok(Over {
        before,
        within,
        after,
    })
}

/// A list of points, with the one before them and the one behind them, where there is one.
pub fn with_neighbours(
    alloc: Global,
    before: Option<Point>,
    within: &[Point],
    after: Option<Point>,
) -> Result<Vec<Point>, AllocError>
    ensures { IfOk result (λ points. points.items
        ≡ point_listed before (within.now ++ point_listed after [])) }
{
    let mut points = Vec::new(alloc);
    if let Some(point) = before {
        points.push(point)?;
    }
    points.extend_from_slice(within)?;
    if let Some(point) = after {
        points.push(point)?;
    }
    Ok(points)
}
