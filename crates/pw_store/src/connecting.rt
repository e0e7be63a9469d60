//! Opening a connection as a store, and closing it.

ghost use Rattle.std.specs.Prelude.{◌≡◌, ◌⊎◌, IfOk, IfErr, IsTrue, false, ◌≤◌, length, []};
ghost use Rattle.sqlite.specs.Held.{state};
ghost use Rattle.sqlite.specs.State.{HasCleanDisk, KeepsCommit, Survives};
ghost use Rattle.pw_tariff.specs.Office.{OfficeFile, office_of};
ghost use Rattle.pw_tariff.specs.Text.{IsOfficeOf};
ghost use Rattle.pw_model.specs.Shelf.{IsTrueContent};
ghost use Rattle.pw_model.specs.Office.{AllOfOffice, most_records};
ghost use Rattle.pw_shelf.specs.State.{committed};
ghost use Rattle.pw_store.specs.Content.{content_of, records_of};
ghost use Rattle.pw_store.specs.Kept.{state_of};
ghost use Rattle.pw_store.specs.Left.{IsOfText, MayBeMade};
ghost use Rattle.pw_store.specs.OpenStore.{HasCountedNothing, Holds, HoldsText, IsCleanAndOpen, IsTextOf, LeavesItAlone, WasOpened};
ghost use Rattle.pw_store.specs.Opening.{IsFound, Opens, Refuses};
ghost use Rattle.pw_store.specs.inner.Opened.{IsStanding};

use crate::fault::OpenFault;
use crate::opening::prepare;
use crate::shelf::SqlShelf;
use crate::watch::{Unwatched, Watch};
use arrayvec::ArrayVec;
use pw_shelf::Tally;
use pw_tariff::Office;
use sqlite::{Alter, Connection};
use std::alloc::Global;
use std::snapshot::Snapshot;

impl<S: Alter> SqlShelf<S> {
    /// Opens a connection as a store of the office of a text: rolls back a transaction that the connection is inside of,
    /// makes the tables where nothing is there, and else judges what is there, and brings a store of version 1 or 2 to
    /// version 3, with the totals of energy that its records give. A refused connection is given back, with what was
    /// committed. Where nothing was there, a crash behind a refusal may leave the tables that were being made, whole; where a
    /// store of version 1 or 2 was, it may leave that store as one of version 3, whole, with the same content.
    pub fn open(
        alloc: Global,
        connection: Connection<S>,
        office_text: &[u8],
    ) -> Result<SqlShelf<S>, (OpenFault, Connection<S>)>
        requires { (office : OfficeFile) × IsOfficeOf office_text.now office }
        ensures content { IfOk result (Holds S.Store
            (λ held. IsTextOf office_text.now
            (λ office. IsFound office (state S.Store connection).committed held))) }
        ensures of_office { IfOk result (Holds S.Store
            (λ held. IsTextOf office_text.now (λ office. AllOfOffice office held.records))) }
        ensures truth { IfOk result (Holds S.Store
            (λ held. IsTextOf office_text.now (λ office. IsTrueContent office held))) }
        ensures few { IfOk result (Holds S.Store (λ held. length held.records ≤ most_records)) }
        ensures kept_text { IfOk result (HoldsText S.Store office_text.now) }
        ensures opened { IfOk result (WasOpened S.Store
            (λ rows. IsTextOf office_text.now (λ office. IsOfText office office_text.now rows))) }
        ensures taken { IfOk result (λ s. HasCleanDisk (state S.Store s.conn)
            → IsTextOf office_text.now
            (λ office. Opens office office_text.now (state S.Store connection).committed)) }
        ensures was_open { IfOk result (λ s. HasCleanDisk (state S.Store s.conn)
            → IsCleanAndOpen (state S.Store connection)) }
        ensures idle { IfOk result (λ s. s.begun ≡ false) }
        ensures counts { IfOk result (HasCountedNothing S.Store) }
        ensures left { IfOk result (LeavesItAlone S.Store) }
        ensures cause { IfErr result (λ e. HasCleanDisk (state S.Store e.1)
            → IsTextOf office_text.now
            (λ office. Refuses office office_text.now (state S.Store connection).committed e.0)) }
        ensures refused { IfErr result (λ e. HasCleanDisk (state S.Store e.1)
            → KeepsCommit (state S.Store connection) (state S.Store e.1) ⊎ (e.1 ≡ connection)) }
        ensures crash { IfErr result (λ e. IsTextOf office_text.now
            (λ office. Survives (state S.Store connection) (state S.Store e.1)
            (MayBeMade office office_text.now (state S.Store connection)))) }
    {
        SqlShelf::open_watched(alloc, connection, office_text, &mut Unwatched)
    }

    /// Opens a connection as `open` does, and tells `watch` how far it is.
    pub fn open_watched<W: Watch>(
        alloc: Global,
        connection: Connection<S>,
        office_text: &[u8],
        watch: &mut W,
    ) -> Result<SqlShelf<S>, (OpenFault, Connection<S>)>
        requires { (office : OfficeFile) × IsOfficeOf office_text.now office }
        ensures content { IfOk result (Holds S.Store
            (λ held. IsTextOf office_text.now
            (λ office. IsFound office (state S.Store connection).committed held))) }
        ensures of_office { IfOk result (Holds S.Store
            (λ held. IsTextOf office_text.now (λ office. AllOfOffice office held.records))) }
        ensures truth { IfOk result (Holds S.Store
            (λ held. IsTextOf office_text.now (λ office. IsTrueContent office held))) }
        ensures few { IfOk result (Holds S.Store (λ held. length held.records ≤ most_records)) }
        ensures kept_text { IfOk result (HoldsText S.Store office_text.now) }
        ensures opened { IfOk result (WasOpened S.Store
            (λ rows. IsTextOf office_text.now (λ office. IsOfText office office_text.now rows))) }
        ensures taken { IfOk result (λ s. HasCleanDisk (state S.Store s.conn)
            → IsTextOf office_text.now
            (λ office. Opens office office_text.now (state S.Store connection).committed)) }
        ensures was_open { IfOk result (λ s. HasCleanDisk (state S.Store s.conn)
            → IsCleanAndOpen (state S.Store connection)) }
        ensures idle { IfOk result (λ s. s.begun ≡ false) }
        ensures counts { IfOk result (HasCountedNothing S.Store) }
        ensures left { IfOk result (LeavesItAlone S.Store) }
        ensures cause { IfErr result (λ e. HasCleanDisk (state S.Store e.1)
            → IsTextOf office_text.now
            (λ office. Refuses office office_text.now (state S.Store connection).committed e.0)) }
        ensures refused { IfErr result (λ e. HasCleanDisk (state S.Store e.1)
            → KeepsCommit (state S.Store connection) (state S.Store e.1) ⊎ (e.1 ≡ connection)) }
        ensures crash { IfErr result (λ e. IsTextOf office_text.now
            (λ office. Survives (state S.Store connection) (state S.Store e.1)
            (MayBeMade office office_text.now (state S.Store connection)))) }
    {
        match Office::read(alloc, office_text) {
            Ok(office) => SqlShelf::open_for(alloc, connection, &office, office_text, watch),
            Err(_) => Err((OpenFault::Memory, connection)),
        }
    }

    // Opens a connection as a store of an office, whose text is kept.
    fn open_for<W: Watch>(
        alloc: Global,
        mut connection: Connection<S>,
        office: &Office,
        office_text: &[u8],
        watch: &mut W,
    ) -> Result<SqlShelf<S>, (OpenFault, Connection<S>)>
        ensures content { IfOk result (Holds S.Store
            (IsFound (office_of office.now) (state S.Store connection).committed)) }
        ensures of_office { IfOk result (Holds S.Store
            (λ held. AllOfOffice (office_of office.now) held.records)) }
        ensures truth { IfOk result (Holds S.Store (IsTrueContent (office_of office.now))) }
        ensures few { IfOk result (Holds S.Store (λ held. length held.records ≤ most_records)) }
        ensures kept_text { IfOk result (HoldsText S.Store office_text.now) }
        ensures opened { IfOk result (WasOpened S.Store
            (IsOfText (office_of office.now) office_text.now)) }
        ensures taken { IfOk result (λ s. HasCleanDisk (state S.Store s.conn)
            → Opens (office_of office.now) office_text.now (state S.Store connection).committed) }
        ensures was_open { IfOk result (λ s. HasCleanDisk (state S.Store s.conn)
            → IsCleanAndOpen (state S.Store connection)) }
        ensures idle { IfOk result (λ s. s.begun ≡ false) }
        ensures counts { IfOk result (HasCountedNothing S.Store) }
        ensures left { IfOk result (LeavesItAlone S.Store) }
        ensures cause { IfErr result (λ e. HasCleanDisk (state S.Store e.1)
            → Refuses (office_of office.now) office_text.now (state S.Store connection).committed
            e.0) }
        ensures refused { IfErr result (λ e. HasCleanDisk (state S.Store e.1)
            → KeepsCommit (state S.Store connection) (state S.Store e.1)) }
        ensures crash { IfErr result (λ e. Survives (state S.Store connection) (state S.Store e.1)
            (MayBeMade (office_of office.now) office_text.now (state S.Store connection))) }
    {
        match prepare(alloc, &mut connection, office, office_text, watch) {
            Ok(held) => Ok(SqlShelf::over(connection, held)),
            Err(fault) => Err((fault, connection)),
        }
    }

    // The store over a connection that is ready to be one, with so many records.
    pub(crate) fn over(connection: Connection<S>, held: u32) -> SqlShelf<S>
        requires standing { HasCleanDisk (state S.Store connection)
            → IsStanding (state S.Store connection) }
        requires counted { HasCleanDisk (state S.Store connection)
            → length (records_of (state S.Store connection).now.trees) ≡ held }
        ensures conn { result.conn ≡ connection }
        ensures base { result.base.value ≡ connection }
        ensures opened { result.opened.value ≡ connection }
        ensures idle { result.begun ≡ false }
        ensures none { result.waiting.items ≡ [] }
        ensures counts { (result.failures.count ≡ 0) × (result.failed_abandons.count ≡ 0)
            × (result.tally.count ≡ 0) }
    {
        // it says that the file lists these tables
        let _ = connection.schema();
        let base = Snapshot::of(&connection);
        let opened = Snapshot::of(&connection);
        SqlShelf {
            conn: connection,
            base,
            opened,
            begun: false,
            doubtful: false,
            held,
            within: held,
            failures: zero(),
            failed_abandons: zero(),
            tally: zero(),
            frontier: None,
            waiting: ArrayVec::new(),
        }
    }

    /// The connection, with what was committed: what an upload that is still begun has written isn't committed.
    pub fn close(self) -> Connection<S>
        ensures same { result ≡ self.conn }
        ensures committed { HasCleanDisk (state S.Store result)
            → IsTrue (state S.Store result).is_open
            → content_of (state S.Store result).committed.trees
            ≡ committed (state_of self.waiting.items (state S.Store self.conn) (state S.Store self.base.value)
            self.begun self.failures.count self.failed_abandons.count self.tally.count) }
    {
        self.into_connection()
    }
}

fn zero() -> Tally
    ensures { result.count ≡ 0 }
{
    Tally::new()
}
