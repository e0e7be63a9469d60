//! What a crash leaves behind uploads to a book.

ghost use Rattle.std.specs.Prelude.{◌≡◌, false, map};
ghost use Rattle.std.specs.List.{All};
ghost use Rattle.pw_tariff.specs.Office.{office_of};
ghost use Rattle.pw_model.specs.Office.{AllOfOffice};
ghost use Rattle.pw_model.specs.Counting.{SameMembers};
ghost use Rattle.pw_model.specs.Shelf.{ShelfContent};
ghost use Rattle.pw_shelf.specs.Left.{LeavesOnly};
ghost use Rattle.pw_book.specs.Crashes.{IsLeftWhole, acknowledged};

use crate::book::{Accepted, Book};
use crate::fault::PostFault;
use pw_model::Entry;
use pw_shelf::Shelf;
use std::alloc::Global;

/// An upload's entries, and what a book answered to them, once they are posted.
#[derive(Drop)]
pub struct Sent {
    pub entries: Vec<Entry>,
    pub answer: Option<Result<Accepted, PostFault>>,
}

/// Posts uploads to a book, one behind another, and notes what each was answered.
///
/// A crash behind any of them (the list may end there) leaves whole uploads, and each that was acknowledged: the records
/// held at the beginning, all entries of the uploads that were accepted, and of the others all entries of one at most.
/// That is a true content of the office. It is known where the store has returned what was written, and could at the
/// beginning leave nothing but what it held, as one that was just opened. The store is the same as at the beginning, so
/// that what was known of its making or opening is known still.
pub fn uploads_survive_a_crash<S: Shelf>(book: &mut Book<S>, alloc: Global, uploads: &mut [Sent])
    requires open_yet { book.old.shut ≡ false }
    requires of_office { All (λ sent. AllOfOffice (office_of book.old.office) sent.entries.items)
        uploads.old }
    requires settled { S.clean book.old.shelf → LeavesOnly (S.state book.old.shelf).content
        (S.left book.old.shelf) }
    ensures entries { map (λ sent. sent.entries) uploads.new
        ≡ map (λ sent. sent.entries) uploads.old }
    ensures held { S.clean book.new.shelf → book.new.shut ≡ false
        → SameMembers (S.state book.new.shelf).content.records
        (acknowledged (S.state book.old.shelf).content.records uploads.new) }
    ensures left { S.clean book.new.shelf → (c : ShelfContent) → S.left book.new.shelf c
        → IsLeftWhole (office_of book.old.office) (S.state book.old.shelf).content.records
        uploads.new c }
    ensures cleanness { S.clean book.new.shelf → S.clean book.old.shelf }
    ensures store { S.same_store book.old.shelf book.new.shelf }
{
    for sent in uploads.iter_mut() {
        let answer = book.post(alloc, &sent.entries);
        sent.answer = Some(answer);
    }
}
