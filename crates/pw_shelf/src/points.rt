//! The points of a store in memory, in order.

ghost use Rattle.std.specs.Prelude.{◌≡◌, ◌↔◌, None, Some, IfOk, IfErr, IsTrue, OnOk, map};
ghost use Rattle.std.specs.BTreeMap.{IsOrdered};
ghost use Rattle.std.specs.BTreeMap.Range.{IsLeBy};
ghost use Rattle.std.specs.declared.ops.Bound.TheVariants.{Included};
ghost use Rattle.pw_shelf.specs.Changes.{points_with};
ghost use Rattle.pw_shelf.specs.Orders.{point_order};
ghost use Rattle.pw_shelf.specs.Seconds.{IsBefore, IsBehind, ListsSecondsWithin};
ghost use Rattle.pw_shelf.specs.Standing.{point_now, point_then};
ghost use Rattle.pw_shelf.specs.inner.Table.{CanGoBack, rows_between};
ghost use Rattle.pw_shelf.specs.declared.fault.ShelfFault.TheVariants.{Memory};

use crate::fault::ShelfFault;
use crate::table::Table;
use pw_obis::{Register, WattHours};
use pw_tariff::MeterId;
use pw_time::Instant;
use std::alloc::{AllocError, Global};
use std::ops::Bound;

/// What is kept as the values of counting readings.
#[derive(Drop)]
pub struct Points {
    pub(crate) table: Table<(MeterId, Register, Instant), WattHours>,
    ghost back: { CanGoBack point_order table },
}

impl Points {
    // None.
    pub(crate) fn new(alloc: Global) -> Points
        ensures now { point_now result.table ≡ (λ m r t. None) }
        ensures begin { point_then result.table ≡ (λ m r t. None) }
    {
        Points {
            table: Table::new(alloc),
        }
    }

    // Sets the point of a register at an instant.
    pub(crate) fn put(
        &mut self,
        meter: MeterId,
        register: Register,
        instant: Instant,
        wh: WattHours,
    ) -> Result<(), ShelfFault>
        ensures put { OnOk result (point_now self.new.table
            ≡ points_with (point_now self.old.table) meter.0 register instant (Some wh)) }
        ensures begin { point_then self.new.table ≡ point_then self.old.table }
        ensures memory { IfErr result (λ e. e ≡ Memory) }
    {
        self.table.put((meter, register, instant), wh)
    }

    // Takes the point of a register at an instant away, if there is one.
    pub(crate) fn delete(
        &mut self,
        meter: MeterId,
        register: Register,
        instant: Instant,
    ) -> Result<(), ShelfFault>
        ensures deleted { OnOk result (point_now self.new.table
            ≡ points_with (point_now self.old.table) meter.0 register instant None) }
        ensures begin { point_then self.new.table ≡ point_then self.old.table }
        ensures memory { IfErr result (λ e. e ≡ Memory) }
    {
        self.table.delete((meter, register, instant))
    }

    // Keeps what the upload changed. It takes no memory.
    pub(crate) fn keep(&mut self)
        ensures same { point_now self.new.table ≡ point_now self.old.table }
        ensures begin { point_then self.new.table ≡ point_now self.old.table }
    {
        self.table.keep();
    }

    // Goes back to what stood when the upload began. It takes no memory.
    pub(crate) fn go_back(&mut self)
        ensures back { point_now self.new.table ≡ point_then self.old.table }
        ensures begin { point_then self.new.table ≡ point_then self.old.table }
    {
        self.table.go_back();
    }

    // The latest point of a register strictly before an instant.
    pub(crate) fn before(
        &self,
        meter: MeterId,
        register: Register,
        instant: Instant,
    ) -> Option<(Instant, WattHours)>
        ensures { IsBefore (point_now self.now.table meter.0 register) instant result }
    {
        match self.table.last_before((meter, register, instant)) {
            Some((key, wh)) => {
                if is_of_register(&key, meter, register) {
                    Some((key.2, wh))
                } else {
                    None
                }
            }
            None => None,
        }
    }

    // The earliest point of a register strictly behind an instant.
    pub(crate) fn behind(
        &self,
        meter: MeterId,
        register: Register,
        instant: Instant,
    ) -> Option<(Instant, WattHours)>
        ensures { IsBehind (point_now self.now.table meter.0 register) instant result }
    {
        match self.table.first_behind((meter, register, instant)) {
            Some((key, wh)) => {
                if is_of_register(&key, meter, register) {
                    Some((key.2, wh))
                } else {
                    None
                }
            }
            None => None,
        }
    }

    // The points of a register from one instant to another, both included, in order.
    pub(crate) fn within(
        &self,
        alloc: Global,
        meter: MeterId,
        register: Register,
        from: Instant,
        to: Instant,
    ) -> Result<Vec<(Instant, WattHours)>, ShelfFault>
        ensures rows { IfOk result (λ found. ListsSecondsWithin from to
            (point_now self.now.table meter.0 register) found.items) }
        ensures memory { IfErr result (λ e. e ≡ Memory) }
    {
        if to < from {
            return Ok(Vec::new(alloc));
        }
        let found = self.stretch(alloc, (meter, register, from), (meter, register, to))?;
        Ok(found)
    }

    // The points from one key to another, both included, in order.
    fn stretch(
        &self,
        alloc: Global,
        from: (MeterId, Register, Instant),
        to: (MeterId, Register, Instant),
    ) -> Result<Vec<(Instant, WattHours)>, AllocError>
        requires { IsLeBy point_order from to }
        ensures ordered { IsOrdered point_order self.now.table.rows }
        ensures points { IfOk result (λ found. found.items
            ≡ map (λ e. (e.0.2, e.1))
            (rows_between point_order (Included from) (Included to) self.now.table)) }
    {
        let mut rows = self
            .table
            .rows
            .range((Bound::Included(from), Bound::Included(to)));
        let mut found = Vec::new(alloc);
        while let Some((key, wh)) = rows.next() {
            if !self.table.is_taken(key) {
                found.push((key.2, *wh))?;
            }
        }
        Ok(found)
    }
}

// Whether a key is one of this register.
fn is_of_register(key: &(MeterId, Register, Instant), meter: MeterId, register: Register) -> bool
    ensures { IsTrue result ↔ (key.now.0 ≡ meter) × (key.now.1 ≡ register) }
{
    key.0 == meter && key.1 == register
}
