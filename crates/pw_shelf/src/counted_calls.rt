//! The calls of a counting shelf: each is passed on and counted, unless it is the one that fails.

ghost use Rattle.std.specs.Prelude.{◌≡◌, ◌+◌, refl};
ghost use Rattle.std.proofs.Common.{◌∙◌};
ghost use Rattle.pw_shelf.specs.Count.{with_refused};
ghost use Rattle.pw_shelf.specs.declared.fault.ShelfFault.TheVariants.{Device};

use crate::count::CountShelf;
use crate::fault::ShelfFault;
use crate::rows;
use crate::shelf::Shelf;
use pw_model::{Contents, Entry, Key, TotalKey};
use pw_obis::{Register, WattHours};
use pw_tariff::{MeterId, Owner};
use pw_time::Instant;
use std::alloc::Global;

impl<S: Shelf> Shelf for CountShelf<S> {
    ghost state = { λ c. with_refused (S.state c.inner) c.refused.count c.refused_abandons.count };

    ghost left = { λ c. S.left c.inner };

    ghost clean = { λ c. S.clean c.inner };

    ghost same_store = { λ old new. (new.made.value ≡ old.made.value) × S.same_store old.inner new.inner };

    fn begin(&mut self) -> Result<(), ShelfFault> {
        if self.plan.fails() {
            return Err(self.refuse());
        }
        let answer = self.inner.begin();
        self.counter.tick(0);
        answer
    }

    fn commit(&mut self) -> Result<(), ShelfFault> {
        if self.plan.fails() {
            return Err(self.refuse());
        }
        let answer = self.inner.commit();
        self.counter.tick(0);
        answer
    }

    fn abandon(&mut self) -> Result<(), ShelfFault> {
        if self.plan.fails_abandon() {
            self.refused_abandons.tick(0);
            return Err(self.refuse());
        }
        let answer = self.inner.abandon();
        self.counter.tick(0);
        answer
    }

    fn holds(&mut self, entry: &Entry) -> Result<bool, ShelfFault> {
        if self.plan.fails() {
            return Err(self.refuse());
        }
        let answer = self.inner.holds(entry);
        self.counter.tick(0);
        answer
    }

    fn contents_at(&mut self, key: &Key) -> Result<Contents, ShelfFault> {
        if self.plan.fails() {
            return Err(self.refuse());
        }
        let answer = self.inner.contents_at(key);
        self.counter.tick(rows::of_contents(&answer));
        answer
    }

    fn add(&mut self, entry: &Entry) -> Result<(), ShelfFault> {
        if self.plan.fails() {
            return Err(self.refuse());
        }
        let answer = self.inner.add(entry);
        self.counter.tick(0);
        answer
    }

    fn readings_of(
        &mut self,
        alloc: Global,
        meter: MeterId,
        register: Register,
    ) -> Result<Vec<Entry>, ShelfFault> {
        if self.plan.fails() {
            return Err(self.refuse());
        }
        let answer = self.inner.readings_of(alloc, meter, register);
        self.counter.tick(rows::of_list(&answer));
        answer
    }

    fn assignments_of(&mut self, alloc: Global, meter: MeterId) -> Result<Vec<Entry>, ShelfFault> {
        if self.plan.fails() {
            return Err(self.refuse());
        }
        let answer = self.inner.assignments_of(alloc, meter);
        self.counter.tick(rows::of_list(&answer));
        answer
    }

    fn topups(&mut self, alloc: Global) -> Result<Vec<Entry>, ShelfFault> {
        if self.plan.fails() {
            return Err(self.refuse());
        }
        let answer = self.inner.topups(alloc);
        self.counter.tick(rows::of_list(&answer));
        answer
    }

    fn withdrawals(&mut self, alloc: Global) -> Result<Vec<Entry>, ShelfFault> {
        if self.plan.fails() {
            return Err(self.refuse());
        }
        let answer = self.inner.withdrawals(alloc);
        self.counter.tick(rows::of_list(&answer));
        answer
    }

    fn count(&mut self) -> Result<u32, ShelfFault> {
        if self.plan.fails() {
            return Err(self.refuse());
        }
        let answer = self.inner.count();
        self.counter.tick(0);
        answer
    }

    fn point_put(
        &mut self,
        meter: MeterId,
        register: Register,
        instant: Instant,
        wh: WattHours,
    ) -> Result<(), ShelfFault> {
        if self.plan.fails() {
            return Err(self.refuse());
        }
        let answer = self.inner.point_put(meter, register, instant, wh);
        self.counter.tick(0);
        answer
    }

    fn point_del(
        &mut self,
        meter: MeterId,
        register: Register,
        instant: Instant,
    ) -> Result<(), ShelfFault> {
        if self.plan.fails() {
            return Err(self.refuse());
        }
        let answer = self.inner.point_del(meter, register, instant);
        self.counter.tick(0);
        answer
    }

    fn point_before(
        &mut self,
        meter: MeterId,
        register: Register,
        instant: Instant,
    ) -> Result<Option<(Instant, WattHours)>, ShelfFault> {
        if self.plan.fails() {
            return Err(self.refuse());
        }
        let answer = self.inner.point_before(meter, register, instant);
        self.counter.tick(rows::of_option(&answer));
        answer
    }

    fn point_after(
        &mut self,
        meter: MeterId,
        register: Register,
        instant: Instant,
    ) -> Result<Option<(Instant, WattHours)>, ShelfFault> {
        if self.plan.fails() {
            return Err(self.refuse());
        }
        let answer = self.inner.point_after(meter, register, instant);
        self.counter.tick(rows::of_option(&answer));
        answer
    }

    fn points_between(
        &mut self,
        alloc: Global,
        meter: MeterId,
        register: Register,
        from: Instant,
        to: Instant,
    ) -> Result<Vec<(Instant, WattHours)>, ShelfFault> {
        if self.plan.fails() {
            return Err(self.refuse());
        }
        let answer = self.inner.points_between(alloc, meter, register, from, to);
        self.counter.tick(rows::of_list(&answer));
        answer
    }

    fn start_put(
        &mut self,
        meter: MeterId,
        start: Instant,
        owner: Owner,
    ) -> Result<(), ShelfFault> {
        if self.plan.fails() {
            return Err(self.refuse());
        }
        let answer = self.inner.start_put(meter, start, owner);
        self.counter.tick(0);
        answer
    }

    fn start_del(&mut self, meter: MeterId, start: Instant) -> Result<(), ShelfFault> {
        if self.plan.fails() {
            return Err(self.refuse());
        }
        let answer = self.inner.start_del(meter, start);
        self.counter.tick(0);
        answer
    }

    fn starts_of(
        &mut self,
        alloc: Global,
        meter: MeterId,
    ) -> Result<Vec<(Instant, Owner)>, ShelfFault> {
        if self.plan.fails() {
            return Err(self.refuse());
        }
        let answer = self.inner.starts_of(alloc, meter);
        self.counter.tick(rows::of_list(&answer));
        answer
    }

    fn total(&mut self, key: &TotalKey) -> Result<u64, ShelfFault> {
        if self.plan.fails() {
            return Err(self.refuse());
        }
        let answer = self.inner.total(key);
        self.counter.tick(rows::of_total(&answer));
        answer
    }

    fn total_put(&mut self, key: &TotalKey, amount: u64) -> Result<(), ShelfFault> {
        if self.plan.fails() {
            return Err(self.refuse());
        }
        let answer = self.inner.total_put(key, amount);
        self.counter.tick(0);
        answer
    }

    ghost once = { λ c clean. S.once c.inner clean };

    ghost survives = { λ c clean. S.survives c.inner clean };

    ghost same_yet = { λ c. (refl, S.same_yet c.inner) };

    ghost same_then = { λ a b c p q. (q.0 ∙ p.0, S.same_then a.inner b.inner c.inner p.1 q.1) };
}

impl<S: Shelf> CountShelf<S> {
    // Counts a call that isn't passed on, and answers its fault.
    fn refuse(&mut self) -> ShelfFault
        ensures fault { result ≡ Device }
        ensures inner { self.new.inner ≡ self.old.inner }
        ensures store { ⟦<CountShelf<S> as Shelf>⟧.same_store self.old self.new }
        ensures refused { self.new.refused.count ≡ self.old.refused.count + 1 }
        ensures abandons { self.new.refused_abandons.count ≡ self.old.refused_abandons.count }
    {
        self.counter.tick(0);
        self.refused.tick(0);
        ShelfFault::Device
    }
}
