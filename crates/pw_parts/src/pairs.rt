//! The energy that pairs of readings give to owners, periods and bands.

ghost use Rattle.std.specs.Prelude.{◌≡◌, ℕ, ◌+◌, ◌*◌, ◌<◌, ◌≤◌, ◌^◌, Option, IfOk, OnOk, length};
ghost use Rattle.pw_flow.specs.Energy.{cell};
ghost use Rattle.pw_model.specs.declared.records.TotalKey.{TotalKey as AnyTotal};
ghost use Rattle.pw_model.specs.Lists.{IsInOrder};
ghost use Rattle.pw_obis.specs.declared.energy.TheConstants.{LARGEST_WATT_HOURS};
ghost use Rattle.pw_tariff.specs.declared.ids.AccountId.{AccountId as AnAccount};
ghost use Rattle.pw_tariff.specs.Cells.{AreInOrder, energy_in, energy_of_all};
ghost use Rattle.pw_tariff.specs.Shares.{class_seconds};
ghost use Rattle.pw_model.specs.Seconds.{by_second};
ghost use Rattle.pw_parts.specs.Changes.{gathered, other_side, pairs_for};

use crate::basis::Basis;
use crate::changes::{Changes, Side};
use pw_obis::WattHours;
use pw_tariff::{Cell, Direction, Office, Owners, Span, apportion};
use pw_time::{Instant, Zone};
use std::alloc::{AllocError, Global};

/// When a reading was taken, and what it shows.
pub type Point = (Instant, WattHours);

/// Gathers what the neighbouring pairs of a list of points give, of a register of the direction and a meter with these
/// owners. It fails only where memory is refused.
pub fn add_pairs(
    alloc: Global,
    office: &Office,
    zone: &Zone,
    owners: &Owners,
    direction: Direction,
    points: &[Point],
    side: Side,
    changes: &mut Changes,
) -> Result<(), AllocError>
    requires few { (k : AnyTotal) → gathered side changes.old.rows k < 2 ^ 120 }
    ensures gathered { IsInOrder by_second points.now
        → OnOk result ((k : AnyTotal)
        → gathered side changes.new.rows k
        ≡ gathered side changes.old.rows k
        + pairs_for office.now owners.now direction points.now k) }
    ensures other { OnOk result ((k : AnyTotal)
        → gathered (other_side side) changes.new.rows k
        ≡ gathered (other_side side) changes.old.rows k) }
    ensures all { OnOk result ((k : AnyTotal)
        → gathered side changes.new.rows k
        ≤ gathered side changes.old.rows k + length points.now * LARGEST_WATT_HOURS) }
{
    let basis = Basis {
        alloc,
        office,
        zone,
    };
    for pair in points.windows(2) {
        let cells = cells_of_pair(&basis, owners, pair[0], pair[1])?;
        changes.add_cells(side, direction, &cells)?;
    }
    Ok(())
}

// What each owner gets in each period and band of what flows between two readings: nothing where the later shows less.
fn cells_of_pair(
    basis: &Basis,
    owners: &Owners,
    from: Point,
    to: Point,
) -> Result<Vec<Cell>, AllocError>
    ensures cells { from.0 < to.0 → IfOk result
        (λ cells. (o : Option AnAccount) (p b : ℕ)
        → energy_in cells.items o p b
        ≡ cell (class_seconds basis.now.office.now owners.now o p b) from to) }
    ensures in_order { IfOk result (λ cells. AreInOrder cells.items) }
    ensures bound { IfOk result (λ cells. energy_of_all cells.items ≤ LARGEST_WATT_HOURS) }
{
    if to.0 <= from.0 {
        return Ok(Vec::new(basis.alloc));
    }
    if to.1.get() < from.1.get() {
        return Ok(Vec::new(basis.alloc));
    }
    let span = Span {
        from: from.0,
        to: to.0,
        low: from.1,
        high: to.1,
    };
    apportion(basis.alloc, basis.office, basis.zone, owners, span)
}
