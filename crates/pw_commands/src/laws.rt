//! The law of books over stores over SQL.
//!
//! These functions do nothing but call. What counts is the contract of the public one.

ghost use Rattle.std.specs.Prelude.{◌≡◌, ◌≤◌, ◌⊎◌, IfErr, IfOk, false, length, map};
ghost use Rattle.std.specs.List.{All};
ghost use Rattle.sqlite.specs.Held.{state};
ghost use Rattle.sqlite.specs.State.{HasCleanDisk};
ghost use Rattle.pw_tariff.specs.Office.{office_of};
ghost use Rattle.pw_tariff.specs.Text.{IsOfficeOf};
ghost use Rattle.pw_model.specs.Office.{AllOfOffice, most_records};
ghost use Rattle.pw_model.specs.Shelf.{IsTrueContent, ShelfContent};
ghost use Rattle.pw_shelf.specs.Left.{LeavesOnly};
ghost use Rattle.pw_store.specs.Kept.{left_of};
ghost use Rattle.pw_store.specs.OpenStore.{held_in};
ghost use Rattle.pw_book.specs.Crashes.{IsLeftWhole};
ghost use Rattle.pw_words.specs.Words.{IsLimit};
ghost use Rattle.pw_commands.specs.Crashes.{HoldsWhole, IsCrashed};

use pw_book::Book;
use pw_book::laws::{Sent, uploads_survive_a_crash};
use pw_shelf::Shelf;
use pw_store::laws::left_is_opened_again;
use pw_store::{OpenFault, SqlShelf};
use pw_tariff::Office;
use pw_time::Zone;
use sqlite::{Alter, Connection};
use std::alloc::Global;

/// A store is opened for an office's text, uploads are posted to a book over it, one behind another, and a crash comes
/// behind the last of them (the list may end anywhere). Then what a crash may leave of it, opened with the same text, is
/// refused for the engine's sake or for memory alone, or holds whole uploads, and each that was acknowledged: what was
/// held at the beginning, all entries of the uploads that were accepted, and of the others all entries of one at most.
///
/// It is known where the disk had returned what was written until the crash, and does so in the opening.
pub fn stores_survive_a_crash<S: Alter, T: Alter>(
    alloc: Global,
    connection: Connection<S>,
    office: Office,
    text: &[u8],
    limit: u32,
    uploads: &mut [Sent],
    found: Connection<T>,
) -> Result<
    (SqlShelf<S>, Result<SqlShelf<T>, (OpenFault, Connection<T>)>),
    (OpenFault, Connection<S>, Connection<T>),
>
    requires office { IsOfficeOf text.now office }
    requires limit { IsLimit limit }
    requires of_office { All (λ sent. AllOfOffice (office_of office) sent.entries.items)
        uploads.old }
    ensures entries { map (λ sent. sent.entries) uploads.new
        ≡ map (λ sent. sent.entries) uploads.old }
    ensures refused { IfOk result (λ it. IsCrashed (state S.Store it.0.conn)
        (state T.Store found).committed
        → IfErr it.1 (λ e. HasCleanDisk (state T.Store e.1)
        → (e.0 ≡ OpenFault.Store) ⊎ (e.0 ≡ OpenFault.Memory))) }
    ensures content { IfOk result (λ it. IsCrashed (state S.Store it.0.conn)
        (state T.Store found).committed
        → IfOk it.1 (λ s. HasCleanDisk (state T.Store s.conn)
        → HoldsWhole (office_of office) (state S.Store connection).committed uploads.new
        (⟦<SqlShelf<T> as Shelf>⟧.state s).content)) }
{
    match SqlShelf::open(alloc, connection, text) {
        Ok(shelf) => {
            let left = post_in_turn(alloc, office, shelf, limit, uploads);
            let again = left_is_opened_again(alloc, &left, found, text);
            Ok((left, again))
        }
        Err((fault, connection)) => Err((fault, connection, found)),
    }
}

// Posts uploads, one behind another, to a book over a store: the store behind the last of them.
fn post_in_turn<S: Alter>(
    alloc: Global,
    office: Office,
    shelf: SqlShelf<S>,
    limit: u32,
    uploads: &mut [Sent],
) -> SqlShelf<S>
    requires limit { IsLimit limit }
    requires posted { All (λ sent. AllOfOffice (office_of office) sent.entries.items) uploads.old }
    requires few { HasCleanDisk (state S.Store shelf.conn)
        → length (held_in S.Store shelf).records
        ≤ most_records }
    requires truth { HasCleanDisk (state S.Store shelf.conn)
        → IsTrueContent (office_of office)
        (held_in S.Store shelf) }
    requires of_office { HasCleanDisk (state S.Store shelf.conn)
        → AllOfOffice (office_of office)
        (held_in S.Store shelf).records }
    requires idle { shelf.begun ≡ false }
    requires settled { HasCleanDisk (state S.Store shelf.conn)
        → LeavesOnly (held_in S.Store shelf)
        (left_of (state S.Store shelf.conn)) }
    ensures entries { map (λ sent. sent.entries) uploads.new
        ≡ map (λ sent. sent.entries) uploads.old }
    ensures clean { HasCleanDisk (state S.Store result.conn)
        → HasCleanDisk (state S.Store shelf.conn) }
    ensures opened { result.opened.value ≡ shelf.opened.value }
    ensures left { HasCleanDisk (state S.Store result.conn) → (c : ShelfContent)
        → left_of (state S.Store result.conn) c
        → IsLeftWhole (office_of office)
        (held_in S.Store shelf).records uploads.new
        c }
{
    let mut book = Book::new(office, Zone::central(), shelf, limit);
    uploads_survive_a_crash(&mut book, alloc, uploads);
    book.into_shelf()
}
