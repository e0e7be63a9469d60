//! The store over SQL, and what it keeps to.

ghost use Rattle.std.specs.Prelude.{◌≡◌};
ghost use Rattle.sqlite.specs.Held.{state};
ghost use Rattle.pw_store.specs.Kept.{BaseIsOnce, NowIsStore, CommittedIsStore, IsSinceBase, IsIdle, IsInside, IsAwake, BaseIsCounted, NowIsKnown};
ghost use Rattle.pw_store.specs.lemmas.OneProof.{BaseIsOnce-prop, NowIsStore-prop, CommittedIsStore-prop, IsSinceBase-prop, IsIdle-prop, IsInside-prop, IsAwake-prop, BaseIsCounted-prop, NowIsKnown-prop, KeepsOpened-prop, NoneWaits-prop};
ghost use Rattle.pw_store.specs.Left.{KeepsOpened};
ghost use Rattle.pw_store.specs.Waiting.{NoneWaits};

use crate::frontier::Frontier;
use crate::waiting::{AT_ONCE, WaitingPoint};
use arrayvec::ArrayVec;
use pw_shelf::Tally;
use sqlite::{Alter, Connection};
use std::snapshot::Snapshot;

/// A store over SQL: a connection, and whether an upload is begun.
pub struct SqlShelf<S: Alter> {
    pub(crate) conn: Connection<S>,
    // the connection as it was when the last upload ended
    pub(crate) base: Snapshot<Connection<S>>,
    // the connection as it was when the store was opened
    pub(crate) opened: Snapshot<Connection<S>>,
    pub(crate) begun: bool,
    // a statement has failed, so the connection may be shut
    pub(crate) doubtful: bool,
    // how many records there were when the last upload ended
    pub(crate) held: u32,
    // how many there are inside the transaction, if there is one
    pub(crate) within: u32,
    pub(crate) failures: Tally,
    pub(crate) failed_abandons: Tally,
    pub(crate) tally: Tally,
    // what is known of the register of the last reading that was looked for
    pub(crate) frontier: Option<Frontier>,
    // points of the upload that wait to be written, in the order in which they were put
    pub(crate) waiting: ArrayVec<WaitingPoint, AT_ONCE>,
    ghost base_once: { BaseIsOnce (state S.Store conn) (state S.Store base.value) } by { BaseIsOnce-prop (state S.Store conn) (state S.Store base.value) },
    ghost now: { NowIsStore (state S.Store conn) } by { NowIsStore-prop (state S.Store conn) },
    ghost committed: { CommittedIsStore (state S.Store conn) } by { CommittedIsStore-prop (state S.Store conn) },
    ghost since: { IsSinceBase (state S.Store conn) (state S.Store base.value) } by { IsSinceBase-prop (state S.Store conn) (state S.Store base.value) },
    ghost idle: { IsIdle (state S.Store conn) begun } by { IsIdle-prop (state S.Store conn) begun },
    ghost inside: { IsInside (state S.Store conn) } by { IsInside-prop (state S.Store conn) },
    ghost awake: { IsAwake (state S.Store conn) doubtful } by { IsAwake-prop (state S.Store conn) doubtful },
    ghost base_counted: { BaseIsCounted (state S.Store conn) held (state S.Store base.value) } by { BaseIsCounted-prop (state S.Store conn) held (state S.Store base.value) },
    ghost now_known: { NowIsKnown (state S.Store conn) within frontier } by { NowIsKnown-prop (state S.Store conn) within frontier },
    ghost keeps: { KeepsOpened (state S.Store conn) (state S.Store opened.value) } by { KeepsOpened-prop (state S.Store conn) (state S.Store opened.value) },
    ghost none_waits: { NoneWaits begun waiting.items } by { NoneWaits-prop begun waiting.items },
}

// It is written out, so that a caller doesn't prove again how each part is dropped.
impl<S: Alter + Drop> Drop for SqlShelf<S> {
    fn drop(self) {
        let _ = self.into_connection();
    }
}

impl<S: Alter> SqlShelf<S> {
    // The connection alone.
    pub(crate) fn into_connection(self) -> Connection<S>
        ensures { result ≡ self.conn }
    {
        let SqlShelf {
            conn,
            base: _,
            opened: _,
            begun: _,
            doubtful: _,
            held: _,
            within: _,
            failures: _,
            failed_abandons: _,
            tally: _,
            frontier: _,
            waiting: _,
        } = self;
        conn
    }
}
