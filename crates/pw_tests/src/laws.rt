//! Laws of stores and of books over them, by calls that meet what they ask.

ghost use Rattle.std.specs.Prelude.{◌≡◌, None};
ghost use Rattle.pw_model.specs.Shelf.{no_content};
ghost use Rattle.pw_shelf.specs.Left.{LeavesOnly};

use crate::books::empty_book;
use crate::entries::entries_of;
use crate::sample::{self, FIRST, METER, NEW_YEAR, are_of_office, sample_office};
use pw_book::laws::{Sent, uploads_survive_a_crash};
use pw_shelf::laws::{
    a_crash_leaves_something, memory_leaves_what_was_committed, memory_never_fails,
    records_are_each_once, seen_since_it_was_made,
};
use pw_shelf::{CountShelf, MemoryShelf, Shelf};
use pw_time::Zone;
use std::alloc::Global;
use std::process::Abort;

// A new store in memory, of which its laws hold.
fn new_store(alloc: Global) -> MemoryShelf
    ensures content { (⟦<MemoryShelf as Shelf>⟧.state result).content ≡ no_content }
    ensures idle { (⟦<MemoryShelf as Shelf>⟧.state result).begun ≡ None }
    ensures settled { LeavesOnly (⟦<MemoryShelf as Shelf>⟧.state result).content
        (⟦<MemoryShelf as Shelf>⟧.left result) }
{
    let shelf = MemoryShelf::new(alloc);
    memory_never_fails(&shelf);
    records_are_each_once(&shelf);
    a_crash_leaves_something(&shelf);
    memory_leaves_what_was_committed(&shelf);
    shelf
}

// bears on: pw_shelf laws.rt a_crash_leaves_something ensures
// bears on: pw_shelf laws.rt records_are_each_once ensures
// bears on: pw_shelf laws.rt seen_since_it_was_made ensures
#[test]
fn nothing_is_counted_of_a_new_store(rt: HostRuntime) {
    let counting = CountShelf::new(new_store(rt.alloc()));
    assert!(rt; seen_since_it_was_made(&counting, &counting) == 0);
}

// An upload of the sample office, as it is posted to a book over a new store.
fn posted(rt: &impl Abort, alloc: Global) -> Sent {
    let entries = entries_of(
        rt,
        alloc,
        &[sample::Sent::Assignment(METER, NEW_YEAR, Some(FIRST))],
    );
    let office = sample_office(alloc).expect(rt, "an office");
    assert!(rt; are_of_office(&office, &Zone::central(), &entries));
    let mut book = empty_book(office, new_store(alloc), 100);
    let mut uploads = [Sent {
        entries,
        answer: None,
    }];
    uploads_survive_a_crash(&mut book, alloc, &mut uploads);
    let [sent] = uploads;
    sent
}

// bears on: pw_book laws/crashes.rt uploads_survive_a_crash entries
#[test]
fn an_upload_survives_a_crash(rt: HostRuntime) {
    let sent = posted(&rt, rt.alloc());
    assert!(rt; matches!(sent.answer, Some(Ok(_))));
    assert!(rt; sent.entries.len() == 1);
}
