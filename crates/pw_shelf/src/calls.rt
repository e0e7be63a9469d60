//! The calls of a store in memory.

ghost use Rattle.std.specs.Prelude.{IfOk, refl};
ghost use Rattle.pw_shelf.specs.Calls.{IsAsking};
ghost use Rattle.pw_shelf.specs.inner.Kinds.{IsOfKind};
ghost use Rattle.pw_model.specs.Kinds.{ListsHeld};
ghost use Rattle.pw_shelf.specs.Rows.{rows_listed};
ghost use Rattle.pw_shelf.specs.Memory.{state_of, left_of, clean_of, same_of};
ghost use Rattle.pw_shelf.specs.State.{committed};

use crate::fault::ShelfFault;
use crate::lists::Kind;
use crate::memory::MemoryShelf;
use crate::rows;
use crate::shelf::Shelf;
use pw_model::{Contents, Entry, Key, TotalKey};
use pw_obis::{Register, WattHours};
use pw_tariff::{MeterId, Owner};
use pw_time::Instant;
use std::alloc::Global;

impl Shelf for MemoryShelf {
    ghost state = { state_of };

    ghost left = { left_of };

    ghost clean = { clean_of };

    ghost same_store = { same_of };

    fn begin(&mut self) -> Result<(), ShelfFault> {
        self.tally.tick(0);
        self.begun = true;
        Ok(())
    }

    fn commit(&mut self) -> Result<(), ShelfFault> {
        self.tally.tick(0);
        self.kept.keep();
        self.begun = false;
        Ok(())
    }

    fn abandon(&mut self) -> Result<(), ShelfFault> {
        self.tally.tick(0);
        self.kept.go_back();
        self.begun = false;
        Ok(())
    }

    fn holds(&mut self, entry: &Entry) -> Result<bool, ShelfFault> {
        self.tally.tick(0);
        Ok(self.kept.records.has(entry))
    }

    fn contents_at(&mut self, key: &Key) -> Result<Contents, ShelfFault> {
        let found = Ok(self.kept.records.contents_at(key));
        self.tally.tick(rows::of_contents(&found));
        found
    }

    fn add(&mut self, entry: &Entry) -> Result<(), ShelfFault> {
        self.tally.tick(0);
        self.kept.records.insert(*entry)
    }

    fn readings_of(
        &mut self,
        alloc: Global,
        meter: MeterId,
        register: Register,
    ) -> Result<Vec<Entry>, ShelfFault> {
        self.all_of(alloc, Kind::Readings(meter, register))
    }

    fn assignments_of(&mut self, alloc: Global, meter: MeterId) -> Result<Vec<Entry>, ShelfFault> {
        self.all_of(alloc, Kind::Assignments(meter))
    }

    fn topups(&mut self, alloc: Global) -> Result<Vec<Entry>, ShelfFault> {
        self.all_of(alloc, Kind::TopUps)
    }

    fn withdrawals(&mut self, alloc: Global) -> Result<Vec<Entry>, ShelfFault> {
        self.all_of(alloc, Kind::Withdrawals)
    }

    fn count(&mut self) -> Result<u32, ShelfFault> {
        self.tally.tick(0);
        Ok(self.kept.records.count())
    }

    fn point_put(
        &mut self,
        meter: MeterId,
        register: Register,
        instant: Instant,
        wh: WattHours,
    ) -> Result<(), ShelfFault> {
        self.tally.tick(0);
        self.kept.points.put(meter, register, instant, wh)
    }

    fn point_del(
        &mut self,
        meter: MeterId,
        register: Register,
        instant: Instant,
    ) -> Result<(), ShelfFault> {
        self.tally.tick(0);
        self.kept.points.delete(meter, register, instant)
    }

    fn point_before(
        &mut self,
        meter: MeterId,
        register: Register,
        instant: Instant,
    ) -> Result<Option<(Instant, WattHours)>, ShelfFault> {
        let found = Ok(self.kept.points.before(meter, register, instant));
        self.tally.tick(rows::of_option(&found));
        found
    }

    fn point_after(
        &mut self,
        meter: MeterId,
        register: Register,
        instant: Instant,
    ) -> Result<Option<(Instant, WattHours)>, ShelfFault> {
        let found = Ok(self.kept.points.behind(meter, register, instant));
        self.tally.tick(rows::of_option(&found));
        found
    }

    fn points_between(
        &mut self,
        alloc: Global,
        meter: MeterId,
        register: Register,
        from: Instant,
        to: Instant,
    ) -> Result<Vec<(Instant, WattHours)>, ShelfFault> {
        let found = self.kept.points.within(alloc, meter, register, from, to);
        self.tally.tick(rows::of_list(&found));
        found
    }

    fn start_put(
        &mut self,
        meter: MeterId,
        start: Instant,
        owner: Owner,
    ) -> Result<(), ShelfFault> {
        self.tally.tick(0);
        self.kept.starts.put(meter, start, owner)
    }

    fn start_del(&mut self, meter: MeterId, start: Instant) -> Result<(), ShelfFault> {
        self.tally.tick(0);
        self.kept.starts.delete(meter, start)
    }

    fn starts_of(
        &mut self,
        alloc: Global,
        meter: MeterId,
    ) -> Result<Vec<(Instant, Owner)>, ShelfFault> {
        let found = self.kept.starts.of(alloc, meter);
        self.tally.tick(rows::of_list(&found));
        found
    }

    fn total(&mut self, key: &TotalKey) -> Result<u64, ShelfFault> {
        let amount = Ok(self.kept.totals.at(key));
        self.tally.tick(rows::of_total(&amount));
        amount
    }

    fn total_put(&mut self, key: &TotalKey, amount: u64) -> Result<(), ShelfFault> {
        self.tally.tick(0);
        self.kept.totals.put(key, amount)
    }

    ghost once = { λ s _. s.kept.records.once };

    ghost survives = { λ s _ none. none (committed (state_of s)) refl };

    ghost same_yet = { λ s. tt };

    ghost same_then = { λ a b c p q. tt };
}

impl MemoryShelf {
    // All records of a kind, sorted; the tally rises by the rows given.
    fn all_of(&mut self, alloc: Global, kind: Kind) -> Result<Vec<Entry>, ShelfFault>
        ensures rows { IfOk result (λ found. ListsHeld (IsOfKind kind)
            (state_of self.old).content.records found.items) }
        ensures asked { IsAsking state_of left_of clean_of same_of rows_listed result self.old
            self.new }
    {
        let found = self.kept.records.all_of(alloc, kind);
        self.tally.tick(rows::of_list(&found));
        found
    }
}
