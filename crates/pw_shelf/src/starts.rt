//! The starts of a store in memory, in order.

ghost use Rattle.std.specs.Prelude.{◌≡◌, None, Some, IfOk, IfErr, OnOk, map};
ghost use Rattle.std.specs.BTreeMap.{IsOrdered};
ghost use Rattle.std.specs.BTreeMap.Range.{IsLeBy};
ghost use Rattle.std.specs.declared.ops.Bound.TheVariants.{Included};
ghost use Rattle.pw_shelf.specs.Changes.{starts_with};
ghost use Rattle.pw_shelf.specs.Orders.{start_order};
ghost use Rattle.pw_model.specs.Seconds.{ListsSeconds};
ghost use Rattle.pw_shelf.specs.Standing.{start_now, start_then};
ghost use Rattle.pw_shelf.specs.inner.Held.{AreDated};
ghost use Rattle.pw_shelf.specs.inner.Table.{CanGoBack, rows_between};
ghost use Rattle.pw_shelf.specs.declared.fault.ShelfFault.TheVariants.{Memory};

use crate::fault::ShelfFault;
use crate::table::Table;
use pw_tariff::{MeterId, Owner};
use pw_time::{FIRST_SECOND, Instant, LAST_SECOND};
use std::alloc::{AllocError, Global};
use std::ops::Bound;

/// What is kept as the owners that counting assignments give.
#[derive(Drop)]
pub struct Starts {
    pub(crate) table: Table<(MeterId, Instant), Owner>,
    ghost back: { CanGoBack start_order table },
    ghost dated: { AreDated (start_now table) },
    ghost dated_then: { AreDated (start_then table) },
}

impl Starts {
    // None.
    pub(crate) fn new(alloc: Global) -> Starts
        ensures now { start_now result.table ≡ (λ m t. None) }
        ensures begin { start_then result.table ≡ (λ m t. None) }
    {
        Starts {
            table: Table::new(alloc),
        }
    }

    // Sets whose a meter is from an instant on.
    pub(crate) fn put(
        &mut self,
        meter: MeterId,
        start: Instant,
        owner: Owner,
    ) -> Result<(), ShelfFault>
        ensures put { OnOk result (start_now self.new.table
            ≡ starts_with (start_now self.old.table) meter.0 start (Some owner)) }
        ensures begin { start_then self.new.table ≡ start_then self.old.table }
        ensures memory { IfErr result (λ e. e ≡ Memory) }
    {
        let _second = start.seconds();
        self.table.put((meter, start), owner)
    }

    // Takes the start of a meter at an instant away, if there is one.
    pub(crate) fn delete(&mut self, meter: MeterId, start: Instant) -> Result<(), ShelfFault>
        ensures deleted { OnOk result (start_now self.new.table
            ≡ starts_with (start_now self.old.table) meter.0 start None) }
        ensures begin { start_then self.new.table ≡ start_then self.old.table }
        ensures memory { IfErr result (λ e. e ≡ Memory) }
    {
        self.table.delete((meter, start))
    }

    // Keeps what the upload changed. It takes no memory.
    pub(crate) fn keep(&mut self)
        ensures same { start_now self.new.table ≡ start_now self.old.table }
        ensures begin { start_then self.new.table ≡ start_now self.old.table }
    {
        self.table.keep();
    }

    // Goes back to what stood when the upload began. It takes no memory.
    pub(crate) fn go_back(&mut self)
        ensures back { start_now self.new.table ≡ start_then self.old.table }
        ensures begin { start_then self.new.table ≡ start_then self.old.table }
    {
        self.table.go_back();
    }

    // All starts of a meter, in order.
    pub(crate) fn of(
        &self,
        alloc: Global,
        meter: MeterId,
    ) -> Result<Vec<(Instant, Owner)>, ShelfFault>
        ensures rows { IfOk result (λ found. ListsSeconds (start_now self.now.table meter.0)
            found.items) }
        ensures memory { IfErr result (λ e. e ≡ Memory) }
    {
        let Some(first) = Instant::of(FIRST_SECOND) else {
            unreachable!();
        };
        let Some(last) = Instant::of(LAST_SECOND) else {
            unreachable!();
        };
        let found = self.stretch(alloc, (meter, first), (meter, last))?;
        Ok(found)
    }

    // The starts from one key to another, both included, in order.
    fn stretch(
        &self,
        alloc: Global,
        from: (MeterId, Instant),
        to: (MeterId, Instant),
    ) -> Result<Vec<(Instant, Owner)>, AllocError>
        requires { IsLeBy start_order from to }
        ensures ordered { IsOrdered start_order self.now.table.rows }
        ensures starts { IfOk result (λ found. found.items
            ≡ map (λ e. (e.0.1, e.1))
            (rows_between start_order (Included from) (Included to) self.now.table)) }
    {
        let mut rows = self
            .table
            .rows
            .range((Bound::Included(from), Bound::Included(to)));
        let mut found = Vec::new(alloc);
        while let Some((key, owner)) = rows.next() {
            if !self.table.is_taken(key) {
                found.push((key.1, *owner))?;
            }
        }
        Ok(found)
    }
}
