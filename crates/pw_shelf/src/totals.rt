//! The totals of a store in memory, in order.

ghost use Rattle.std.specs.Prelude.{◌≡◌, IfErr, OnOk};
ghost use Rattle.pw_shelf.specs.Changes.{totals_with};
ghost use Rattle.pw_shelf.specs.Standing.{total_now, total_then};
ghost use Rattle.pw_model.specs.Same.{total_key_order};
ghost use Rattle.pw_shelf.specs.inner.Table.{CanGoBack};
ghost use Rattle.pw_shelf.specs.declared.fault.ShelfFault.TheVariants.{Memory};

use crate::fault::ShelfFault;
use crate::table::Table;
use pw_model::TotalKey;
use std::alloc::Global;

/// What is kept as totals; one that isn't there is 0.
#[derive(Drop)]
pub struct Totals {
    pub(crate) table: Table<TotalKey, u64>,
    ghost back: { CanGoBack total_key_order table },
}

impl Totals {
    // None.
    pub(crate) fn new(alloc: Global) -> Totals
        ensures now { total_now result.table ≡ (λ k. 0) }
        ensures begin { total_then result.table ≡ (λ k. 0) }
    {
        Totals {
            table: Table::new(alloc),
        }
    }

    // The total at a key.
    pub(crate) fn at(&self, key: &TotalKey) -> u64
        ensures { result ≡ total_now self.now.table key.now }
    {
        self.table.at(key).unwrap_or(0)
    }

    // Sets the total at a key.
    pub(crate) fn put(&mut self, key: &TotalKey, amount: u64) -> Result<(), ShelfFault>
        ensures put { OnOk result (total_now self.new.table
            ≡ totals_with (total_now self.old.table) key.now amount) }
        ensures begin { total_then self.new.table ≡ total_then self.old.table }
        ensures memory { IfErr result (λ e. e ≡ Memory) }
    {
        self.table.put(*key, amount)
    }

    // Keeps what the upload changed. It takes no memory.
    pub(crate) fn keep(&mut self)
        ensures same { total_now self.new.table ≡ total_now self.old.table }
        ensures begin { total_then self.new.table ≡ total_now self.old.table }
    {
        self.table.keep();
    }

    // Goes back to what stood when the upload began. It takes no memory.
    pub(crate) fn go_back(&mut self)
        ensures back { total_now self.new.table ≡ total_then self.old.table }
        ensures begin { total_then self.new.table ≡ total_then self.old.table }
    {
        self.table.go_back();
    }
}
