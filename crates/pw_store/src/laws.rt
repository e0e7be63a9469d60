//! The laws of the store over SQL.
//!
//! No function does anything but call. What counts is its contract.

ghost use Rattle.std.specs.Prelude.{◌≡◌, ◌⊎◌, ◌↔◌, IfErr, IfOk, IsTrue, None};
ghost use Rattle.sqlite.specs.Held.{state};
ghost use Rattle.sqlite.specs.State.{HasCleanDisk};
ghost use Rattle.sqlite.specs.Tree.{Trees};
ghost use Rattle.pw_tariff.specs.Office.{OfficeFile};
ghost use Rattle.pw_tariff.specs.Text.{IsOfficeOf};
ghost use Rattle.pw_model.specs.Shelf.{ShelfContent};
ghost use Rattle.pw_shelf.specs.State.{committed};
ghost use Rattle.pw_store.specs.Content.{content_of};
ghost use Rattle.pw_store.specs.Left.{AdoptedHolds, AdoptedOpens, IsLeftBehind, LeftOpens, UpgradedHolds, UpgradedOpens};
ghost use Rattle.pw_store.specs.Opening.{OpenableOpens};
ghost use Rattle.pw_store.specs.Waiting.{with_waiting};

use crate::fault::OpenFault;
use crate::shelf::SqlShelf;
use pw_shelf::Shelf;
use sqlite::{Alter, Connection};
use std::alloc::Global;

/// A store over SQL is clean exactly where the disk has returned what was written to it; while the connection is open its
/// tables are what is held, and within an upload the points that wait to be written are so beside them; and a crash leaves
/// exactly the contents of the databases that sqlite may leave.
pub fn store_is_its_tables<S: Alter>(shelf: SqlShelf<S>) -> SqlShelf<S>
    ensures clean { ⟦<SqlShelf<S> as Shelf>⟧.clean result
        ↔ HasCleanDisk (state S.Store result.conn) }
    ensures content { IsTrue (state S.Store result.conn).is_open
        → (⟦<SqlShelf<S> as Shelf>⟧.state result).content
        ≡ with_waiting result.waiting.items (content_of (state S.Store result.conn).now.trees) }
    ensures idle { IsTrue (state S.Store result.conn).is_open
        → (⟦<SqlShelf<S> as Shelf>⟧.state result).begun ≡ None
        → (⟦<SqlShelf<S> as Shelf>⟧.state result).content
        ≡ content_of (state S.Store result.conn).now.trees }
    ensures left { (c : ShelfContent) → ⟦<SqlShelf<S> as Shelf>⟧.left result c
        ↔ ((db : Trees) × (state S.Store result.conn).may_leave db × (content_of db ≡ c)) }
{
    shelf
}

/// A store over SQL is the same behind calls: it was opened over the same connection, as that was then.
pub fn store_stays_as_it_was_opened<S: Alter>(old: &SqlShelf<S>, new: &SqlShelf<S>)
    ensures { ⟦<SqlShelf<S> as Shelf>⟧.same_store old.entry.now new.entry.now
        ↔ (new.entry.now.opened.value ≡ old.entry.now.opened.value) }
{}

/// Where nothing is there, or the tables are those of a store of this office, of version 1, 2 or 3, and of this text, `open`
/// refuses them with `Store` or `Memory` alone: what it says of the cause of a refusal leaves no other. And it takes nothing
/// else: its clause `taken` says so of what it opened.
pub fn openable_stores_open()
    ensures { OpenableOpens }
{}

/// A store of an earlier version that a crash has left as one of version 3 opens again, as that store would have: `open`
/// refuses it with `Store` or `Memory` alone.
pub fn upgraded_stores_open()
    ensures { UpgradedOpens }
{}

/// And it holds then what the store of before held.
pub fn upgraded_stores_hold_the_same()
    ensures { UpgradedHolds }
{}

/// A store that a crash has left with another office file in the place of its own, as `adopt` may leave it, opens with that
/// one: `open` refuses it with `Store` or `Memory` alone.
pub fn adopted_stores_open()
    ensures { AdoptedOpens }
{}

/// And it holds then what the store of before held.
pub fn adopted_stores_hold_the_same()
    ensures { AdoptedHolds }
{}

/// What a crash may leave of a store that was opened with a text, where its content is true, of at most 10,000,000 entries
/// of the office, is refused with `Store` or `Memory` alone: what `open` says of the cause of a refusal leaves no other.
pub fn left_stores_open<S: Alter>(shelf: SqlShelf<S>) -> SqlShelf<S>
    ensures { LeftOpens (state S.Store result.conn) (state S.Store result.opened.value) }
{
    shelf
}

/// Opened with that text, such a store is refused with `Store` or `Memory` alone, or has that content.
pub fn left_is_opened_again<S: Alter, T: Alter>(
    alloc: Global,
    shelf: &SqlShelf<S>,
    found: Connection<T>,
    office_text: &[u8],
) -> Result<SqlShelf<T>, (OpenFault, Connection<T>)>
    requires { (office : OfficeFile) × IsOfficeOf office_text.now office }
    ensures refused { IsLeftBehind (state S.Store shelf.entry.now.conn)
        (state S.Store shelf.entry.now.opened.value) office_text.now (state T.Store found)
        → IfErr result (λ e. HasCleanDisk (state T.Store e.1)
        → (e.0 ≡ OpenFault.Store) ⊎ (e.0 ≡ OpenFault.Memory)) }
    ensures content { IsLeftBehind (state S.Store shelf.entry.now.conn)
        (state S.Store shelf.entry.now.opened.value) office_text.now (state T.Store found)
        → IfOk result (λ s. HasCleanDisk (state T.Store s.conn)
        → (⟦<SqlShelf<T> as Shelf>⟧.state s).content
        ≡ content_of (state T.Store found).committed.trees) }
{
    let _ = shelf;
    SqlShelf::open(alloc, found, office_text)
}

/// A store that is closed and opened again holds what was committed last: where an upload was still begun, what it began
/// with.
pub fn closed_is_opened_again<S: Alter>(
    alloc: Global,
    shelf: SqlShelf<S>,
    office_text: &[u8],
) -> Result<SqlShelf<S>, (OpenFault, Connection<S>)>
    requires { (office : OfficeFile) × IsOfficeOf office_text.now office }
    ensures { IfOk result (λ s. HasCleanDisk (state S.Store s.conn)
        → (⟦<SqlShelf<S> as Shelf>⟧.state s).content
        ≡ committed (⟦<SqlShelf<S> as Shelf>⟧.state shelf)) }
{
    SqlShelf::open(alloc, shelf.close(), office_text)
}
