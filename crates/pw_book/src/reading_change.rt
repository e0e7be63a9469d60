//! A reading that begins or ceases to count, and the energies of the pairs round it.

ghost use Rattle.std.specs.Prelude.{◌≡◌, ℕ, ◌+◌, ◌<◌, ◌≤◌, ◌^◌, ◌++◌, [], Some, None, OnOk, IfOk, IsSome, length};
ghost use Rattle.pw_model.specs.declared.records.Key.{Key as AnyKey};
ghost use Rattle.pw_model.specs.declared.records.Contents.{Contents as AnyContents};
ghost use Rattle.pw_model.specs.declared.records.TotalKey.{TotalKey as AnyTotal};
ghost use Rattle.pw_model.specs.Lists.{IsInOrder};
ghost use Rattle.pw_model.specs.Changes.{IsOneMoreReading};
ghost use Rattle.pw_model.specs.Counting.{point as point_told, start as start_told};
ghost use Rattle.pw_shelf.specs.Changes.{with_point};
ghost use Rattle.pw_tariff.specs.Office.{office_of};
ghost use Rattle.pw_tariff.specs.Owners.{StartsIncrease};
ghost use Rattle.pw_model.specs.Seconds.{by_second};
ghost use Rattle.pw_book.specs.inner.Gathered.{AreGathered, GathersAtMost, IsGatheredBelow};
ghost use Rattle.pw_book.specs.inner.Settling.{CountsAtMeter, EndsBefore};
ghost use Rattle.pw_parts.specs.Changes.{gathered, other_side, pairs_for};
ghost use Rattle.pw_book.specs.Listed.{point_listed};
ghost use Rattle.pw_book.specs.inner.Sums.{energy_told};
ghost use Rattle.pw_book.specs.inner.Steps.{KeepsContent, KeepsKnown, StillKeepsKnown, TakesStarts, UploadGoesOn};

use crate::basis::Basis;
use crate::gathered::{Gathered, know_starts};
use pw_model::direction_of;
use pw_obis::{Register, WattHours};
use pw_parts::{Changes, Point, Side, add_pairs};
use pw_shelf::{Shelf, ShelfFault};
use pw_tariff::{Direction, MeterId, Owner, Owners};
use pw_time::Instant;
use std::alloc::{AllocError, Global};

// Of which register a reading is, and of when.
#[derive(Clone, Copy)]
pub(crate) struct ReadingAt {
    pub(crate) meter: MeterId,
    pub(crate) register: Register,
    pub(crate) instant: Instant,
}

// Keeps a reading that begins to count, and gathers what the energies lose and gain by it.
pub(crate) fn begin_to_count<S: Shelf>(
    shelf: &mut S,
    basis: &Basis,
    reading: &ReadingAt,
    wh: WattHours,
    so_far: &mut Gathered,
) -> Result<(), ShelfFault>
    requires begun { IsSome (S.state shelf.old).begun }
    requires meter { reading.now.meter.0 < length basis.now.office.now.meters }
    requires counts { CountsAtMeter basis.now.office.now reading.now }
    requires few { IsGatheredBelow (2 ^ 120) so_far.old.changes }
    requires known { KeepsKnown S.Shelf so_far.old.known shelf.old }
    ensures gathered { S.clean shelf.new → (was is : AnyKey → AnyContents)
        → (S.state shelf.old).content.point ≡ point_told was
        → (S.state shelf.old).content.start ≡ start_told was
        → IsOneMoreReading was is reading.now.meter.0 reading.now.register reading.now.instant wh
        → EndsBefore (office_of basis.now.office.now).end
        (point_told is reading.now.meter.0 reading.now.register)
        → OnOk result (AreGathered (office_of basis.now.office.now) was is so_far.old.changes.rows
        so_far.new.changes.rows) }
    ensures few { OnOk result (GathersAtMost (2 ^ 39) so_far.old.changes so_far.new.changes) }
    ensures point { S.clean shelf.new → OnOk result
        ((S.state shelf.new).content
        ≡ with_point (S.state shelf.old).content reading.now.meter.0 reading.now.register
        reading.now.instant (Some wh)) }
    ensures tally { TakesStarts S.Shelf 6 reading.now.meter.0 shelf.old shelf.new }
    ensures known { StillKeepsKnown S.Shelf result so_far.new.known shelf.new }
    ensures kept { UploadGoesOn S.Shelf result shelf.old shelf.new }
{
    weigh_around(shelf, basis, reading, wh, Side::Gains, so_far)?;
    shelf.point_put(reading.meter, reading.register, reading.instant, wh)
}

// Takes a reading that ceases to count away, and gathers what the energies lose and gain by it.
pub(crate) fn cease_to_count<S: Shelf>(
    shelf: &mut S,
    basis: &Basis,
    reading: &ReadingAt,
    wh: WattHours,
    so_far: &mut Gathered,
) -> Result<(), ShelfFault>
    requires begun { IsSome (S.state shelf.old).begun }
    requires meter { reading.now.meter.0 < length basis.now.office.now.meters }
    requires counts { CountsAtMeter basis.now.office.now reading.now }
    requires few { IsGatheredBelow (2 ^ 120) so_far.old.changes }
    requires known { KeepsKnown S.Shelf so_far.old.known shelf.old }
    ensures gathered { S.clean shelf.new → (was is : AnyKey → AnyContents)
        → (S.state shelf.old).content.point ≡ point_told was
        → (S.state shelf.old).content.start ≡ start_told was
        → IsOneMoreReading is was reading.now.meter.0 reading.now.register reading.now.instant wh
        → EndsBefore (office_of basis.now.office.now).end
        (point_told was reading.now.meter.0 reading.now.register)
        → OnOk result (AreGathered (office_of basis.now.office.now) was is so_far.old.changes.rows
        so_far.new.changes.rows) }
    ensures few { OnOk result (GathersAtMost (2 ^ 39) so_far.old.changes so_far.new.changes) }
    ensures point { S.clean shelf.new → OnOk result
        ((S.state shelf.new).content
        ≡ with_point (S.state shelf.old).content reading.now.meter.0 reading.now.register
        reading.now.instant None) }
    ensures tally { TakesStarts S.Shelf 6 reading.now.meter.0 shelf.old shelf.new }
    ensures known { StillKeepsKnown S.Shelf result so_far.new.known shelf.new }
    ensures kept { UploadGoesOn S.Shelf result shelf.old shelf.new }
{
    weigh_around(shelf, basis, reading, wh, Side::Loses, so_far)?;
    shelf.point_del(reading.meter, reading.register, reading.instant)
}

// Gathers what the pairs of a register round an instant give: on one side what they give with a reading that counts
// there, on the other side what they give without it.
fn weigh_around<S: Shelf>(
    shelf: &mut S,
    basis: &Basis,
    reading: &ReadingAt,
    wh: WattHours,
    side: Side,
    so_far: &mut Gathered,
) -> Result<(), ShelfFault>
    requires begun { IsSome (S.state shelf.old).begun }
    requires meter { reading.now.meter.0 < length basis.now.office.now.meters }
    requires counts { CountsAtMeter basis.now.office.now reading.now }
    requires few { IsGatheredBelow (2 ^ 120) so_far.old.changes }
    requires known { KeepsKnown S.Shelf so_far.old.known shelf.old }
    ensures around { S.clean shelf.new → (free is : AnyKey → AnyContents)
        → ((u : ℕ) → (u ≡ reading.now.instant → ⊥)
        → (S.state shelf.old).content.point reading.now.meter.0 reading.now.register u
        ≡ point_told free reading.now.meter.0 reading.now.register u)
        → (S.state shelf.old).content.start reading.now.meter.0
        ≡ start_told free reading.now.meter.0
        → IsOneMoreReading free is reading.now.meter.0 reading.now.register reading.now.instant wh
        → EndsBefore (office_of basis.now.office.now).end
        (point_told is reading.now.meter.0 reading.now.register)
        → OnOk result ((k : AnyTotal)
        → energy_told (office_of basis.now.office.now) free k
        + gathered side so_far.new.changes.rows k
        + gathered (other_side side) so_far.old.changes.rows k
        ≡ energy_told (office_of basis.now.office.now) is k
        + gathered (other_side side) so_far.new.changes.rows k
        + gathered side so_far.old.changes.rows k) }
    ensures few { OnOk result (GathersAtMost (2 ^ 39) so_far.old.changes so_far.new.changes) }
    ensures same { KeepsContent S.Shelf result shelf.old shelf.new }
    ensures tally { TakesStarts S.Shelf 5 reading.now.meter.0 shelf.old shelf.new }
    ensures known { StillKeepsKnown S.Shelf result so_far.new.known shelf.new }
    ensures kept { UploadGoesOn S.Shelf result shelf.old shelf.new }
{
    know_starts(shelf, basis.alloc, reading.meter, &mut so_far.known)?;
    let below = shelf.point_before(reading.meter, reading.register, reading.instant)?;
    let above = shelf.point_after(reading.meter, reading.register, reading.instant)?;
    let direction = direction_of(reading.register);
    let apart = listed(basis.alloc, &below, &None, &above)?;
    let here = Some((reading.instant, wh));
    let joined = listed(basis.alloc, &below, &here, &above)?;
    let other = side.other();
    let Gathered { changes, known } = so_far;
    add_points(basis, &known.starts, direction, &apart, other, changes)?;
    add_points(basis, &known.starts, direction, &joined, side, changes)?;
    Ok(())
}

// The points that are there, one behind another.
fn listed(
    alloc: Global,
    below: &Option<Point>,
    here: &Option<Point>,
    above: &Option<Point>,
) -> Result<Vec<Point>, AllocError>
    ensures { IfOk result (λ points. points.items
        ≡ point_listed below.now (point_listed here.now (point_listed above.now []))) }
{
    let mut points = Vec::new(alloc);
    add_if_there(&mut points, below)?;
    add_if_there(&mut points, here)?;
    add_if_there(&mut points, above)?;
    Ok(points)
}

// Puts a point behind those before it, where there is one.
fn add_if_there(points: &mut Vec<Point>, point: &Option<Point>) -> Result<(), AllocError>
    ensures { IfOk result (λ _. points.new.items ≡ points.old.items ++ point_listed point.now []) }
{
    if let Some(point) = point {
        points.push(*point)?;
    }
    Ok(())
}

// Gathers what the neighbouring pairs of a short list of points give, of a register of the direction and a meter with
// these starts: nothing where the starts don't rise, as only those of a store that isn't clean can.
fn add_points(
    basis: &Basis,
    starts: &[(Instant, Owner)],
    direction: Direction,
    points: &[Point],
    side: Side,
    changes: &mut Changes,
) -> Result<(), AllocError>
    requires short { length points.now ≤ 3 }
    requires few { (k : AnyTotal) → gathered side changes.old.rows k < 2 ^ 120 }
    ensures gathered { StartsIncrease starts.now → IsInOrder by_second points.now
        → OnOk result ((k : AnyTotal)
        → gathered side changes.new.rows k
        ≡ gathered side changes.old.rows k
        + pairs_for basis.now.office.now starts.now direction points.now k) }
    ensures other { OnOk result ((k : AnyTotal)
        → gathered (other_side side) changes.new.rows k
        ≡ gathered (other_side side) changes.old.rows k) }
    ensures few { OnOk result ((k : AnyTotal)
        → gathered side changes.new.rows k ≤ gathered side changes.old.rows k + 2 ^ 39) }
{
    let Some(owners) = Owners::of(starts) else {
        return Ok(());
    };
    add_pairs(
        basis.alloc,
        basis.office,
        basis.zone,
        &owners,
        direction,
        points,
        side,
        changes,
    )
}
