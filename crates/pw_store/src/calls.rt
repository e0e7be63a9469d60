//! The calls of the store over SQL.

ghost use Rattle.std.specs.Prelude.{◌≡◌, refl};
ghost use Rattle.std.proofs.Common.{◌∙◌};
ghost use Rattle.sqlite.specs.Held.{state};
ghost use Rattle.sqlite.specs.State.{HasCleanDisk};
ghost use Rattle.pw_shelf.specs.Rows.{rows_at, rows_found, rows_total};
ghost use Rattle.pw_store.specs.Kept.{left_of, once_held, state_of, survives_left};

use crate::asking::{Listed, contents, holds, list_records};
use crate::changes::Change;
use crate::entries::add_entry;
use crate::fault::{device_fault, fault_of, fault_of_ask};
use crate::frontier::behind;
use crate::points::Side;
use crate::questions::{nearest, points_between, starts_of, total};
use crate::shelf::SqlShelf;
use crate::waiting::WaitingPoint;
use pw_model::{Contents, Entry, Key, TotalKey};
use pw_obis::{Register, WattHours};
use pw_schema::roll_back;
use pw_shelf::{Shelf, ShelfFault};
use pw_tariff::{MeterId, Owner};
use pw_time::Instant;
use sqlite::Alter;
use std::alloc::Global;

// What a question is answered. An answer is so many rows, which are counted, and the connection is known to be open.
// Behind a fault it may be shut, and a failure of the device is counted.
macro_rules! answered {
    ($store:expr, $asked:expr, $found:ident, $rows:expr) => {
        match $asked {
            Ok($found) => {
                $store.tally.tick($rows);
                $store.doubtful = false;
                Ok($found)
            }
            Err(fault) => {
                $store.tally.tick(0);
                $store.doubtful = true;
                $store.frontier = None;
                Err(fault_of_ask(fault, &mut $store.failures))
            }
        }
    };
}

impl<S: Alter> Shelf for SqlShelf<S> {
    ghost state = { λ s. state_of s.waiting.items (state S.Store s.conn) (state S.Store s.base.value) s.begun s.failures.count s.failed_abandons.count s.tally.count };

    ghost left = { λ s. left_of (state S.Store s.conn) };

    ghost clean = { λ s. HasCleanDisk (state S.Store s.conn) };

    ghost same_store = { λ old new. new.opened.value ≡ old.opened.value };

    fn begin(&mut self) -> Result<(), ShelfFault> {
        self.begin_upload()
    }

    fn commit(&mut self) -> Result<(), ShelfFault> {
        self.commit_upload()
    }

    fn abandon(&mut self) -> Result<(), ShelfFault> {
        self.tally.tick(0);
        if self.conn.is_autocommit() {
            self.waiting.clear();
            self.begun = false;
            return Ok(());
        }
        match roll_back(&mut self.conn) {
            Ok(()) => {
                self.waiting.clear();
                self.begun = false;
                self.doubtful = true;
                self.frontier = None;
                Ok(())
            }
            Err(error) => {
                self.failed_abandons.tick(0);
                self.doubtful = true;
                self.frontier = None;
                Err(fault_of(error, &mut self.failures))
            }
        }
    }

    fn holds(&mut self, entry: &Entry) -> Result<bool, ShelfFault> {
        let known = self.known_frontier();
        let asked = holds(&mut self.conn, self.doubtful, entry, known);
        self.tally.tick(0);
        match asked {
            Ok((held, frontier)) => {
                self.doubtful = false;
                self.frontier = frontier;
                Ok(held)
            }
            Err(fault) => {
                self.doubtful = true;
                self.frontier = None;
                Err(fault_of_ask(fault, &mut self.failures))
            }
        }
    }

    fn contents_at(&mut self, key: &Key) -> Result<Contents, ShelfFault> {
        let asked = contents(&mut self.conn, self.doubtful, key);
        answered!(self, asked, found, rows_in(&found))
    }

    fn add(&mut self, entry: &Entry) -> Result<(), ShelfFault> {
        self.tally.tick(0);
        if self.conn.is_autocommit() {
            return Err(device_fault(&mut self.failures));
        }
        match add_entry(&mut self.conn, entry) {
            Ok(true) => {
                self.within = self.within.saturating_add(1);
                self.frontier = behind(self.frontier, entry);
                Ok(())
            }
            Ok(false) => Err(device_fault(&mut self.failures)),
            Err(error) => {
                self.doubtful = true;
                self.frontier = None;
                Err(fault_of(error, &mut self.failures))
            }
        }
    }

    fn readings_of(
        &mut self,
        alloc: Global,
        meter: MeterId,
        register: Register,
    ) -> Result<Vec<Entry>, ShelfFault> {
        let which = Listed::Readings(meter, register);
        let readings = list_records(&mut self.conn, self.doubtful, alloc, which);
        answered!(self, readings, found, found.len() as u64)
    }

    fn assignments_of(&mut self, alloc: Global, meter: MeterId) -> Result<Vec<Entry>, ShelfFault> {
        let which = Listed::Assignments(meter);
        let assignments = list_records(&mut self.conn, self.doubtful, alloc, which);
        answered!(self, assignments, found, found.len() as u64)
    }

    fn topups(&mut self, alloc: Global) -> Result<Vec<Entry>, ShelfFault> {
        let topups = list_records(&mut self.conn, self.doubtful, alloc, Listed::TopUps);
        answered!(self, topups, found, found.len() as u64)
    }

    fn withdrawals(&mut self, alloc: Global) -> Result<Vec<Entry>, ShelfFault> {
        let withdrawals = list_records(&mut self.conn, self.doubtful, alloc, Listed::Withdrawals);
        answered!(self, withdrawals, found, found.len() as u64)
    }

    fn count(&mut self) -> Result<u32, ShelfFault> {
        Ok(self.number_held())
    }

    fn point_put(
        &mut self,
        meter: MeterId,
        register: Register,
        instant: Instant,
        wh: WattHours,
    ) -> Result<(), ShelfFault> {
        self.tally.tick(0);
        self.put_point(WaitingPoint {
            meter,
            register,
            instant,
            wh,
        })
    }

    fn point_del(
        &mut self,
        meter: MeterId,
        register: Register,
        instant: Instant,
    ) -> Result<(), ShelfFault> {
        self.tally.tick(0);
        self.take_point(meter, register, instant)
    }

    fn point_before(
        &mut self,
        meter: MeterId,
        register: Register,
        instant: Instant,
    ) -> Result<Option<(Instant, WattHours)>, ShelfFault> {
        let side = Side::Before(instant);
        let before = nearest(
            &mut self.conn,
            self.doubtful,
            self.waiting.as_slice(),
            meter,
            register,
            side,
        );
        answered!(self, before, found, rows_found(&found))
    }

    fn point_after(
        &mut self,
        meter: MeterId,
        register: Register,
        instant: Instant,
    ) -> Result<Option<(Instant, WattHours)>, ShelfFault> {
        let side = Side::Behind(instant);
        let behind = nearest(
            &mut self.conn,
            self.doubtful,
            self.waiting.as_slice(),
            meter,
            register,
            side,
        );
        answered!(self, behind, found, rows_found(&found))
    }

    fn points_between(
        &mut self,
        alloc: Global,
        meter: MeterId,
        register: Register,
        from: Instant,
        to: Instant,
    ) -> Result<Vec<(Instant, WattHours)>, ShelfFault> {
        if let Err(fault) = self.write_within(meter, register, from, to) {
            self.tally.tick(0);
            return Err(fault);
        }
        let asked = points_between(
            &mut self.conn,
            self.doubtful,
            alloc,
            meter,
            register,
            from,
            to,
        );
        answered!(self, asked, found, found.len() as u64)
    }

    fn start_put(
        &mut self,
        meter: MeterId,
        start: Instant,
        owner: Owner,
    ) -> Result<(), ShelfFault> {
        self.tally.tick(0);
        self.replace(
            Change::TakeStart { meter, start },
            Change::PutStart {
                meter,
                start,
                owner,
            },
        )
    }

    fn start_del(&mut self, meter: MeterId, start: Instant) -> Result<(), ShelfFault> {
        self.tally.tick(0);
        self.change(Change::TakeStart { meter, start })?;
        Ok(())
    }

    fn starts_of(
        &mut self,
        alloc: Global,
        meter: MeterId,
    ) -> Result<Vec<(Instant, Owner)>, ShelfFault> {
        let asked = starts_of(&mut self.conn, self.doubtful, alloc, meter);
        answered!(self, asked, found, found.len() as u64)
    }

    fn total(&mut self, key: &TotalKey) -> Result<u64, ShelfFault> {
        let asked = total(&mut self.conn, self.doubtful, key);
        answered!(self, asked, amount, rows_of_total(amount))
    }

    fn total_put(&mut self, key: &TotalKey, amount: u64) -> Result<(), ShelfFault> {
        self.tally.tick(0);
        if amount == 0 {
            self.change(Change::TakeTotal { key: *key })?;
            return Ok(());
        }
        self.put_total(*key, amount)
    }

    ghost once = { λ s clean. once_held (state S.Store.own s.conn) (state S.Store.own s.base.value) s.base_once s.now clean };

    ghost survives = { λ s clean none. survives_left (state S.Store.own s.conn) (S.Store.survives s.conn.store clean) none };

    ghost same_yet = { λ s. refl };

    ghost same_then = { λ a b c p q. q ∙ p };
}

// How many rows an answer of one at most is.
fn rows_found<T>(found: &Option<T>) -> u64
    ensures { result ≡ rows_found found.now }
{
    match found {
        Some(_) => 1,
        None => 0,
    }
}

// How many rows a total is: none where it is 0.
fn rows_of_total(amount: u64) -> u64
    ensures { result ≡ rows_total amount }
{
    if amount == 0 { 0 } else { 1 }
}

// How many rows the contents are.
fn rows_in(found: &Contents) -> u64
    ensures { result ≡ rows_at found.now }
{
    match found {
        Contents::Nothing => 0,
        Contents::One(_) => 1,
        Contents::Several => 2,
    }
}
