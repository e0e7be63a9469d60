//! What is known of the records held without a statement.

ghost use Rattle.std.specs.Prelude.{◌≡◌, ◌+◌, length};
ghost use Rattle.sqlite.specs.Held.{state};
ghost use Rattle.sqlite.specs.State.{HasCleanDisk};
ghost use Rattle.pw_shelf.specs.Left.{LeavesNoMore};
ghost use Rattle.pw_store.specs.Content.{records_of};
ghost use Rattle.pw_store.specs.Frontier.{IsFrontier};
ghost use Rattle.pw_store.specs.Kept.{begun_with, left_of};
ghost use Rattle.pw_store.specs.OpenStore.{held_in};

use crate::frontier::Frontier;
use crate::shelf::SqlShelf;
use sqlite::Alter;

impl<S: Alter> SqlShelf<S> {
    // No statement is run: the number is kept, also of a connection that is shut.
    pub(crate) fn number_held(&mut self) -> u32
        ensures number { HasCleanDisk (state S.Store self.new.conn)
            → result ≡ length (held_in S.Store self.old).records }
        ensures same { held_in S.Store self.new
            ≡ held_in S.Store self.old }
        ensures begun { begun_with self.new.begun (state S.Store self.new.base.value)
            ≡ begun_with self.old.begun (state S.Store self.old.base.value) }
        ensures left { HasCleanDisk (state S.Store self.new.conn)
            → LeavesNoMore (left_of (state S.Store self.old.conn))
            (left_of (state S.Store self.new.conn)) }
        ensures cleanness { HasCleanDisk (state S.Store self.new.conn)
            → HasCleanDisk (state S.Store self.old.conn) }
        ensures store { self.new.opened.value ≡ self.old.opened.value }
        ensures failures { self.new.failures.count ≡ self.old.failures.count }
        ensures abandons { self.new.failed_abandons.count ≡ self.old.failed_abandons.count }
        ensures tally { self.new.tally.count ≡ self.old.tally.count + 1 }
    {
        self.tally.tick(0);
        if self.conn.is_autocommit() {
            return self.held;
        }
        self.within
    }

    // What is known of a register, where the connection is known to be open.
    pub(crate) fn known_frontier(&self) -> Option<Frontier>
        ensures { HasCleanDisk (state S.Store self.entry.now.conn)
            → IsFrontier result (records_of (state S.Store self.entry.now.conn).now.trees) }
    {
        if self.doubtful {
            return None;
        }
        self.frontier
    }
}
