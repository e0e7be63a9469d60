//! Giving a store another office file in the place of its own.

ghost use Rattle.std.specs.Prelude.{◌≡◌, IfErr, IfOk, IsTrue, OnErr, OnOk, false, length, ◌≤◌};
ghost use Rattle.sqlite.specs.Held.{state};
ghost use Rattle.sqlite.specs.State.{HasCleanDisk, KeepsCommit, Survives};
ghost use Rattle.pw_tariff.specs.Office.{OfficeFile, office_of};
ghost use Rattle.pw_tariff.specs.Text.{IsOfficeOf};
ghost use Rattle.pw_model.specs.Office.{AllOfOffice, most_records};
ghost use Rattle.pw_model.specs.Shelf.{IsTrueContent};
ghost use Rattle.pw_schema.specs.Calls.{CommitStays, CommitStaysOnErr, KeepsAllButOffice, LeavesVersion};
ghost use Rattle.pw_schema.specs.Raised.{HasSame, all_but_office};
ghost use Rattle.pw_schema.specs.inner.Calls.{HasOurTables};
ghost use Rattle.pw_store.specs.Content.{content_of};
ghost use Rattle.pw_store.specs.Kept.{IsStore};
ghost use Rattle.pw_store.specs.Left.{AdoptionRefuses, IsOfText, MayBeAdopted};
ghost use Rattle.pw_store.specs.OpenStore.{HasCountedNothing, Holds, HoldsText, IsCleanAndOpen, IsTextOf, LeavesItAlone, WasOpened, held_in};
ghost use Rattle.pw_store.specs.inner.Connections.{CountsRecords, TellsRefusedRows};
ghost use Rattle.pw_store.specs.inner.Opened.{HasAdopted, IsReplaced};

use crate::fault::OpenFault;
use crate::judging::check_rows;
use crate::opening::{roll_back_and_wake, see_office, undo};
use crate::shelf::SqlShelf;
use crate::watch::Watch;
use pw_schema::{StoreVersion, begin, commit, set_office};
use pw_tariff::Office;
use sqlite::{Alter, Connection, Error};
use std::alloc::Global;

impl<S: Alter> SqlShelf<S> {
    /// Gives a store another office file in the place of its own, where all that it holds is such as that office has: each
    /// record one of it, and points, starts and totals those that the records have there. Not one row of the store changes
    /// but that of its office file. A refused store's connection is given back, with what was committed, its own office file
    /// too; a crash behind a refusal leaves that, or the store with the other office file, whole.
    pub fn adopt<W: Watch>(
        self,
        alloc: Global,
        office_text: &[u8],
        watch: &mut W,
    ) -> Result<SqlShelf<S>, (OpenFault, Connection<S>)>
        requires text { (office : OfficeFile) × IsOfficeOf office_text.now office }
        requires idle { self.begun ≡ false }
        ensures same { IfOk result (Holds S.Store
            (λ held. held ≡ held_in S.Store self)) }
        ensures rows { IfOk result (λ s. HasCleanDisk (state S.Store s.conn)
            → HasSame all_but_office (state S.Store self.conn).committed.trees
            (state S.Store s.conn).now.trees) }
        ensures of_office { IfOk result (Holds S.Store
            (λ held. IsTextOf office_text.now (λ office. AllOfOffice office held.records))) }
        ensures truth { IfOk result (Holds S.Store
            (λ held. IsTextOf office_text.now (λ office. IsTrueContent office held))) }
        ensures few { IfOk result (Holds S.Store (λ held. length held.records ≤ most_records)) }
        ensures kept_text { IfOk result (HoldsText S.Store office_text.now) }
        ensures opened { IfOk result (WasOpened S.Store
            (λ rows. IsTextOf office_text.now (λ office. IsOfText office office_text.now rows))) }
        ensures was_clean { IfOk result (λ s. HasCleanDisk (state S.Store s.conn)
            → IsCleanAndOpen (state S.Store self.conn)) }
        ensures idle { IfOk result (λ s. s.begun ≡ false) }
        ensures counts { IfOk result (HasCountedNothing S.Store) }
        ensures left { IfOk result (LeavesItAlone S.Store) }
        ensures cause { IfErr result (λ e. HasCleanDisk (state S.Store e.1)
            → IsTextOf office_text.now
            (λ office. AdoptionRefuses office
            (held_in S.Store self)
            (state S.Store self.conn).committed.trees e.0)) }
        ensures refused { IfErr result (λ e. HasCleanDisk (state S.Store e.1)
            → KeepsCommit (state S.Store self.conn) (state S.Store e.1)) }
        ensures crash { IfErr result (λ e. IsTextOf office_text.now
            (λ office. Survives (state S.Store self.conn) (state S.Store e.1)
            (MayBeAdopted office office_text.now (state S.Store self.conn).committed))) }
    {
        match Office::read(alloc, office_text) {
            Ok(office) => self.adopt_for(alloc, &office, office_text, watch),
            Err(_) => Err((OpenFault::Memory, self.into_connection())),
        }
    }

    // Gives a store the text of an office that was read.
    fn adopt_for<W: Watch>(
        self,
        alloc: Global,
        office: &Office,
        office_text: &[u8],
        watch: &mut W,
    ) -> Result<SqlShelf<S>, (OpenFault, Connection<S>)>
        requires { self.begun ≡ false }
        ensures same { IfOk result (Holds S.Store
            (λ held. held ≡ held_in S.Store self)) }
        ensures rows { IfOk result (λ s. HasCleanDisk (state S.Store s.conn)
            → HasSame all_but_office (state S.Store self.conn).committed.trees
            (state S.Store s.conn).now.trees) }
        ensures of_office { IfOk result (Holds S.Store
            (λ held. AllOfOffice (office_of office.now) held.records)) }
        ensures truth { IfOk result (Holds S.Store (IsTrueContent (office_of office.now))) }
        ensures few { IfOk result (Holds S.Store (λ held. length held.records ≤ most_records)) }
        ensures kept_text { IfOk result (HoldsText S.Store office_text.now) }
        ensures opened { IfOk result (WasOpened S.Store
            (IsOfText (office_of office.now) office_text.now)) }
        ensures was_clean { IfOk result (λ s. HasCleanDisk (state S.Store s.conn)
            → IsCleanAndOpen (state S.Store self.conn)) }
        ensures idle { IfOk result (λ s. s.begun ≡ false) }
        ensures counts { IfOk result (HasCountedNothing S.Store) }
        ensures left { IfOk result (LeavesItAlone S.Store) }
        ensures cause { IfErr result (λ e. HasCleanDisk (state S.Store e.1)
            → AdoptionRefuses (office_of office.now)
            (held_in S.Store self)
            (state S.Store self.conn).committed.trees e.0) }
        ensures refused { IfErr result (λ e. HasCleanDisk (state S.Store e.1)
            → KeepsCommit (state S.Store self.conn) (state S.Store e.1)) }
        ensures crash { IfErr result (λ e. Survives (state S.Store self.conn) (state S.Store e.1)
            (MayBeAdopted (office_of office.now) office_text.now
            (state S.Store self.conn).committed)) }
    {
        let mut connection = self.into_connection();
        match exchange(alloc, &mut connection, office, office_text, watch) {
            Ok(held) => Ok(SqlShelf::over(connection, held)),
            Err(fault) => Err((fault, connection)),
        }
    }
}

// Sets another office file within a transaction, whatever rows the store has.
fn replace<S: Alter>(conn: &mut Connection<S>, text: &[u8]) -> Result<(), Error>
    requires { HasOurTables (state S.Store conn.old) }
    ensures within { LeavesVersion StoreVersion.Third result (state S.Store conn.new) }
    ensures others { KeepsAllButOffice result (state S.Store conn.old) (state S.Store conn.new) }
    ensures kept { CommitStays (state S.Store conn.old) (state S.Store conn.new) }
    ensures crash { Survives (state S.Store conn.old) (state S.Store conn.new) (λ _. ⊥) }
{
    begin(conn)?;
    set_office(conn, text)?;
    Ok(())
}

// Sets another office file within a transaction, if the rows of the store are such as that office has: how many records
// there are.
fn replace_and_check<S: Alter, W: Watch>(
    alloc: Global,
    conn: &mut Connection<S>,
    office: &Office,
    text: &[u8],
    watch: &mut W,
) -> Result<u32, OpenFault>
    requires { HasOurTables (state S.Store conn.old) }
    ensures counted { CountsRecords result (state S.Store conn.new) }
    ensures replaced { HasCleanDisk (state S.Store conn.new)
        → OnOk result (IsReplaced (office_of office.now) text.now (state S.Store conn.old).now
        (state S.Store conn.new)) }
    ensures cause { TellsRefusedRows StoreVersion.Third (office_of office.now) result
        (state S.Store conn.old) (state S.Store conn.new) }
    ensures kept { CommitStays (state S.Store conn.old) (state S.Store conn.new) }
    ensures crash { Survives (state S.Store conn.old) (state S.Store conn.new) (λ _. ⊥) }
{
    replace(conn, text)?;
    let held = check_rows(alloc, conn, office, watch)?;
    see_office(conn, text)?;
    // it says that the file lists these tables
    let _ = conn.schema();
    Ok(held)
}

// Gives a store another office file, if its rows are such as that office has: how many records there are. With a fault the
// transaction may still stand.
fn replace_and_commit<S: Alter, W: Watch>(
    alloc: Global,
    conn: &mut Connection<S>,
    office: &Office,
    text: &[u8],
    watch: &mut W,
) -> Result<u32, OpenFault>
    requires { HasOurTables (state S.Store conn.old) }
    ensures counted { CountsRecords result (state S.Store conn.new) }
    ensures adopted { HasCleanDisk (state S.Store conn.new)
        → OnOk result (HasAdopted (office_of office.now) text.now (state S.Store conn.old).now
        (state S.Store conn.new)) }
    ensures cause { TellsRefusedRows StoreVersion.Third (office_of office.now) result
        (state S.Store conn.old) (state S.Store conn.new) }
    ensures kept { CommitStaysOnErr result (state S.Store conn.old) (state S.Store conn.new) }
    ensures crash { Survives (state S.Store conn.old) (state S.Store conn.new)
        (MayBeAdopted (office_of office.now) text.now (state S.Store conn.old).now) }
{
    let held = replace_and_check(alloc, conn, office, text, watch)?;
    commit(conn)?;
    Ok(held)
}

// Gives a store another office file, if its rows are such as that office has, and else undoes what it did: how many records
// there are.
fn replace_or_undo<S: Alter, W: Watch>(
    alloc: Global,
    conn: &mut Connection<S>,
    office: &Office,
    text: &[u8],
    watch: &mut W,
) -> Result<u32, OpenFault>
    requires { HasOurTables (state S.Store conn.old) }
    ensures counted { CountsRecords result (state S.Store conn.new) }
    ensures adopted { HasCleanDisk (state S.Store conn.new)
        → OnOk result (HasAdopted (office_of office.now) text.now (state S.Store conn.old).now
        (state S.Store conn.new)) }
    ensures cause { TellsRefusedRows StoreVersion.Third (office_of office.now) result
        (state S.Store conn.old) (state S.Store conn.new) }
    ensures kept { CommitStaysOnErr result (state S.Store conn.old) (state S.Store conn.new) }
    ensures crash { Survives (state S.Store conn.old) (state S.Store conn.new)
        (MayBeAdopted (office_of office.now) text.now (state S.Store conn.old).now) }
{
    match replace_and_commit(alloc, conn, office, text, watch) {
        Ok(held) => Ok(held),
        Err(fault) => {
            undo(conn);
            Err(fault)
        }
    }
}

// Gives a store another office file, if the connection is still open and the rows are such as that office has: how many
// records there are.
fn exchange<S: Alter, W: Watch>(
    alloc: Global,
    conn: &mut Connection<S>,
    office: &Office,
    text: &[u8],
    watch: &mut W,
) -> Result<u32, OpenFault>
    requires { HasCleanDisk (state S.Store conn.old) → IsTrue (state S.Store conn.old).is_open
        → IsStore (state S.Store conn.old).committed }
    ensures counted { CountsRecords result (state S.Store conn.new) }
    ensures adopted { HasCleanDisk (state S.Store conn.new)
        → OnOk result (HasAdopted (office_of office.now) text.now
        (state S.Store conn.old).committed (state S.Store conn.new)) }
    ensures was_open { HasCleanDisk (state S.Store conn.new)
        → OnOk result (IsCleanAndOpen (state S.Store conn.old)) }
    ensures cause { HasCleanDisk (state S.Store conn.new)
        → IfErr result (λ fault. AdoptionRefuses (office_of office.now)
        (content_of (state S.Store conn.old).committed.trees)
        (state S.Store conn.old).committed.trees fault) }
    ensures judged { HasCleanDisk (state S.Store conn.new)
        → IfErr result (λ fault. fault ≡ OpenFault.Unclean
        → IsCleanAndOpen (state S.Store conn.old)) }
    ensures kept { CommitStaysOnErr result (state S.Store conn.old) (state S.Store conn.new) }
    ensures crash { OnErr result (Survives (state S.Store conn.old) (state S.Store conn.new)
        (MayBeAdopted (office_of office.now) text.now (state S.Store conn.old).committed)) }
{
    roll_back_and_wake(conn)?;
    replace_or_undo(alloc, conn, office, text, watch)
}
