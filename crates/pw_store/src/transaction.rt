//! The calls that begin and end an upload.

ghost use Rattle.std.specs.Prelude.{◌≡◌, ◌+◌, OnErr, OnOk, None, Some, IsSome, [], false, true};
ghost use Rattle.sqlite.specs.Held.{state};
ghost use Rattle.sqlite.specs.State.{HasCleanDisk};
ghost use Rattle.pw_shelf.specs.Calls.{failures_told};
ghost use Rattle.pw_shelf.specs.Left.{LeavesNoMore, LeavesNoMoreOr, LeavesOnly};
ghost use Rattle.pw_store.specs.Kept.{begun_with, left_of, written_of};
ghost use Rattle.pw_store.specs.OpenStore.{held_in};

use crate::fault::{device_fault, fault_of};
use crate::shelf::SqlShelf;
use pw_schema::{begin, commit};
use pw_shelf::ShelfFault;
use sqlite::Alter;
use std::snapshot::Snapshot;

impl<S: Alter> SqlShelf<S> {
    // Begins an upload: what is held now is kept, to be taken back to.
    pub(crate) fn begin_upload(&mut self) -> Result<(), ShelfFault>
        requires { begun_with self.old.begun (state S.Store self.old.base.value) ≡ None }
        ensures begun { OnOk result (begun_with self.new.begun (state S.Store self.new.base.value)
            ≡ Some (held_in S.Store self.old)) }
        ensures unbegun { OnErr result (begun_with self.new.begun
            (state S.Store self.new.base.value) ≡ None) }
        ensures same { HasCleanDisk (state S.Store self.new.conn)
            → held_in S.Store self.new
            ≡ held_in S.Store self.old }
        ensures failures { self.new.failures.count ≡ self.old.failures.count
            + failures_told result }
        ensures abandons { self.new.failed_abandons.count ≡ self.old.failed_abandons.count }
        ensures tally { self.new.tally.count ≡ self.old.tally.count + 1 }
        ensures left { HasCleanDisk (state S.Store self.new.conn)
            → LeavesNoMore (left_of (state S.Store self.old.conn))
            (left_of (state S.Store self.new.conn)) }
        ensures cleanness { HasCleanDisk (state S.Store self.new.conn)
            → HasCleanDisk (state S.Store self.old.conn) }
        ensures store { self.new.opened.value ≡ self.old.opened.value }
    {
        self.tally.tick(0);
        match begin(&mut self.conn) {
            Ok(()) => {
                self.begun = true;
                self.within = self.held;
                self.doubtful = false;
                Ok(())
            }
            Err(error) => {
                self.doubtful = true;
                self.frontier = None;
                Err(fault_of(error, &mut self.failures))
            }
        }
    }

    // Ends the upload, and keeps what it wrote.
    pub(crate) fn commit_upload(&mut self) -> Result<(), ShelfFault>
        requires { IsSome (begun_with self.old.begun (state S.Store self.old.base.value)) }
        ensures ended { OnOk result (begun_with self.new.begun (state S.Store self.new.base.value)
            ≡ None) }
        ensures begun { OnErr result (begun_with self.new.begun (state S.Store self.new.base.value)
            ≡ begun_with self.old.begun (state S.Store self.old.base.value)) }
        ensures same { HasCleanDisk (state S.Store self.new.conn)
            → OnOk result (held_in S.Store self.new ≡ held_in S.Store self.old) }
        ensures failures { self.new.failures.count ≡ self.old.failures.count
            + failures_told result }
        ensures abandons { self.new.failed_abandons.count ≡ self.old.failed_abandons.count }
        ensures tally { self.new.tally.count ≡ self.old.tally.count + 1 }
        ensures kept { HasCleanDisk (state S.Store self.new.conn)
            → OnOk result (LeavesOnly (held_in S.Store self.old)
            (left_of (state S.Store self.new.conn))) }
        ensures stays { HasCleanDisk (state S.Store self.new.conn)
            → OnOk result (left_of (state S.Store self.new.conn) (held_in S.Store self.old)) }
        ensures left { HasCleanDisk (state S.Store self.new.conn)
            → OnErr result (LeavesNoMoreOr (held_in S.Store self.old)
            (left_of (state S.Store self.old.conn)) (left_of (state S.Store self.new.conn))) }
        ensures cleanness { HasCleanDisk (state S.Store self.new.conn)
            → HasCleanDisk (state S.Store self.old.conn) }
        ensures store { self.new.opened.value ≡ self.old.opened.value }
    {
        self.tally.tick(0);
        self.write_waiting()?;
        self.commit_written()
    }

    // Ends the upload, and keeps what is written.
    fn commit_written(&mut self) -> Result<(), ShelfFault>
        requires begun { self.old.begun ≡ true }
        requires none { self.old.waiting.items ≡ [] }
        ensures ended { OnOk result (self.new.begun ≡ false) }
        ensures begun { OnErr result ((self.new.begun ≡ self.old.begun)
            × (self.new.base.value ≡ self.old.base.value)) }
        ensures waits { self.new.waiting ≡ self.old.waiting }
        ensures same { HasCleanDisk (state S.Store self.new.conn)
            → OnOk result (written_of (state S.Store self.new.conn)
            (state S.Store self.new.base.value)
            ≡ written_of (state S.Store self.old.conn) (state S.Store self.old.base.value)) }
        ensures failures { self.new.failures.count ≡ self.old.failures.count
            + failures_told result }
        ensures abandons { self.new.failed_abandons.count ≡ self.old.failed_abandons.count }
        ensures tally { self.new.tally.count ≡ self.old.tally.count }
        ensures kept { HasCleanDisk (state S.Store self.new.conn)
            → OnOk result (LeavesOnly
            (written_of (state S.Store self.old.conn) (state S.Store self.old.base.value))
            (left_of (state S.Store self.new.conn))) }
        ensures stays { HasCleanDisk (state S.Store self.new.conn)
            → OnOk result (left_of (state S.Store self.new.conn)
            (written_of (state S.Store self.old.conn) (state S.Store self.old.base.value))) }
        ensures left { HasCleanDisk (state S.Store self.new.conn)
            → OnErr result (LeavesNoMoreOr
            (written_of (state S.Store self.old.conn) (state S.Store self.old.base.value))
            (left_of (state S.Store self.old.conn)) (left_of (state S.Store self.new.conn))) }
        ensures cleanness { HasCleanDisk (state S.Store self.new.conn)
            → HasCleanDisk (state S.Store self.old.conn) }
        ensures store { self.new.opened.value ≡ self.old.opened.value }
    {
        if self.conn.is_autocommit() {
            return Err(device_fault(&mut self.failures));
        }
        match commit(&mut self.conn) {
            Ok(()) => {
                self.base = Snapshot::of(&self.conn);
                self.held = self.within;
                self.begun = false;
                self.doubtful = false;
                Ok(())
            }
            Err(error) => {
                self.doubtful = true;
                self.frontier = None;
                Err(fault_of(error, &mut self.failures))
            }
        }
    }
}
