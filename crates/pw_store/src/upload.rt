//! A change of points, starts or totals within an upload.

ghost use Rattle.std.specs.Prelude.{◌≡◌, ◌∷◌, [], ℕ, IfOk, OnOk, true};
ghost use Rattle.sqlite.specs.Held.{state};
ghost use Rattle.sqlite.specs.State.{HasCleanDisk};
ghost use Rattle.sqlite.specs.Tree.{Trees};
ghost use Rattle.pw_model.specs.Shelf.{ShelfContent};
ghost use Rattle.pw_shelf.specs.Changes.{with_total};
ghost use Rattle.pw_store.specs.Kept.{written_of};
ghost use Rattle.pw_store.specs.Waiting.{with_waiting};
ghost use Rattle.pw_store.specs.inner.Changing.{Fits, IsFree, IsTaken, changed};
ghost use Rattle.pw_store.specs.inner.AllElse.{KeepsElse};

use crate::changes::{Change, make};
use crate::fault::{device_fault, fault_of};
use crate::shelf::SqlShelf;
use crate::waiting::WaitingPoint;
use pw_model::TotalKey;
use pw_shelf::ShelfFault;
use sqlite::Alter;

impl<S: Alter> SqlShelf<S> {
    // Makes one change, and tells how many rows that has changed. Where the engine has undone the upload, no statement is
    // run.
    pub(crate) fn change(&mut self, change: Change) -> Result<usize, ShelfFault>
        requires begun { self.old.begun ≡ true }
        requires free { HasCleanDisk (state S.Store self.old.conn)
            → IsFree change (state S.Store self.old.conn).now.trees }
        requires fits { Fits change }
        ensures content { HasCleanDisk (state S.Store self.new.conn)
            → IfOk result (λ rows. written_of (state S.Store self.new.conn)
            (state S.Store self.new.base.value)
            ≡ changed change rows (written_of (state S.Store self.old.conn)
            (state S.Store self.old.base.value))) }
        ensures taken { HasCleanDisk (state S.Store self.new.conn)
            → IfOk result (λ rows. IsTaken change rows (state S.Store self.new.conn).now.trees) }
        ensures waits { self.new.waiting ≡ self.old.waiting }
        ensures keeps_else { KeepsElse S.Store result self.old self.new }
    {
        if self.conn.is_autocommit() {
            return Err(device_fault(&mut self.failures));
        }
        match make(&mut self.conn, change) {
            Ok(rows) => {
                self.doubtful = false;
                Ok(rows)
            }
            Err(error) => {
                self.doubtful = true;
                self.frontier = None;
                Err(fault_of(error, &mut self.failures))
            }
        }
    }

    // Makes two changes: what has a key is taken, and then something is put there.
    pub(crate) fn replace(&mut self, take: Change, put: Change) -> Result<(), ShelfFault>
        requires begun { self.old.begun ≡ true }
        requires first { (db : Trees) → IsFree take db }
        requires free { (rows : ℕ) (db : Trees) → IsTaken take rows db → IsFree put db }
        requires fits { Fits take × Fits put }
        requires steady { (rows : ℕ) (c : ShelfContent)
            → (changed take rows c ≡ changed take 1 c) × (changed put rows c ≡ changed put 1 c) }
        ensures content { HasCleanDisk (state S.Store self.new.conn)
            → OnOk result (written_of (state S.Store self.new.conn)
            (state S.Store self.new.base.value)
            ≡ changed put 1 (changed take 1
            (written_of (state S.Store self.old.conn) (state S.Store self.old.base.value)))) }
        ensures waits { self.new.waiting ≡ self.old.waiting }
        ensures keeps_else { KeepsElse S.Store result self.old self.new }
    {
        self.change(take)?;
        self.change(put)?;
        Ok(())
    }

    // Writes a point. Where a row has its key, that is taken first, and the point is put then.
    pub(crate) fn write_point(&mut self, point: WaitingPoint) -> Result<(), ShelfFault>
        requires { self.old.begun ≡ true }
        ensures content { HasCleanDisk (state S.Store self.new.conn)
            → OnOk result (written_of (state S.Store self.new.conn)
            (state S.Store self.new.base.value)
            ≡ with_waiting (point ∷ []) (written_of (state S.Store self.old.conn)
            (state S.Store self.old.base.value))) }
        ensures waits { self.new.waiting ≡ self.old.waiting }
        ensures keeps_else { KeepsElse S.Store result self.old self.new }
    {
        let put = Change::PutPoint { point };
        if self.change(put)? > 0 {
            return Ok(());
        }
        self.change(Change::TakePoint {
            meter: point.meter,
            register: point.register,
            instant: point.instant,
        })?;
        if self.change(put)? > 0 {
            Ok(())
        } else {
            Err(device_fault(&mut self.failures))
        }
    }

    // Sets a total in its row, or puts a row where it has none.
    pub(crate) fn put_total(&mut self, key: TotalKey, amount: u64) -> Result<(), ShelfFault>
        requires begun { self.old.begun ≡ true }
        requires fits { Fits (Change.PutTotal key amount) }
        ensures content { HasCleanDisk (state S.Store self.new.conn)
            → OnOk result (written_of (state S.Store self.new.conn)
            (state S.Store self.new.base.value)
            ≡ with_total (written_of (state S.Store self.old.conn)
            (state S.Store self.old.base.value)) key amount) }
        ensures waits { self.new.waiting ≡ self.old.waiting }
        ensures keeps_else { KeepsElse S.Store result self.old self.new }
    {
        if self.change(Change::SetTotal { key, amount })? > 0 {
            return Ok(());
        }
        self.change(Change::PutTotal { key, amount })?;
        Ok(())
    }
}
