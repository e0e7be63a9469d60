//! The records of a book, carried into the book of another office.

ghost use Rattle.std.specs.Prelude.{◌+◌, ◌*◌, IsErrOf, IsNone};
ghost use Rattle.pw_tariff.specs.Office.{office_of};
ghost use Rattle.pw_book.specs.Asking.{IsOnlyAsked};
ghost use Rattle.pw_book.specs.Questions.{IsQuestion, failures_asked};
ghost use Rattle.pw_book.specs.declared.fault.BookFault.TheVariants.{Reopen};
ghost use Rattle.pw_carrying.specs.Carrying.{HasUploads, IsCarried, asked_of, posted_of};
ghost use Rattle.pw_carrying.specs.inner.Stages.{CarriesOn, IsListOf, list_place};
ghost use Rattle.pw_book.specs.Posting.{LeavesOnlyContent};

use crate::fault::CarryFault;
use crate::lists::{HeldList, list_at, list_count, records_in};
use crate::progress::Carrying;
use crate::waiting::{Waiting, give_all, post_waiting};
use pw_book::{Basis, Book, PostFault};
use pw_shelf::Shelf;
use std::alloc::Global;

/// Carries all records of a book into the book of another office, each under the names of that office, and answers how many
/// they are: readings first, then assignments, then top-ups, then withdrawals, those too that name what isn't held. What the
/// other book holds already stays.
///
/// They are posted in uploads of at most 10,000. `Record` tells the first record that the other office can't hold. After each
/// fault but `Post(Reopen)` the other book holds what it held before and some of the records, carried: those of the uploads
/// that it took. The book that is read stays as it is. After Ok a crash leaves just what the other book holds then.
pub fn carry_into<S: Shelf, T: Shelf, W: Carrying>(
    alloc: Global,
    from: &mut Book<S>,
    into: &mut Book<T>,
    watch: &mut W,
) -> Result<u32, CarryFault>
    ensures carried { S.clean from.new.shelf → T.clean into.new.shelf
        → IsCarried (record { old = from.old.office; new = into.old.office })
        (S.state from.old.shelf).content.records (T.state into.old.shelf).content.records
        (T.state into.new.shelf).content.records result }
    ensures left { LeavesOnlyContent T.Shelf result into.new.shelf }
    ensures asked { IsQuestion S.Shelf (asked_of result) from.old from.new }
    ensures uploads { HasUploads T.Shelf (posted_of result) into.old into.new }
{
    let held = from.count()?;
    if let Err(fault) = into.still_open() {
        return Err(CarryFault::Post(PostFault::from(fault)));
    }
    let basis = Basis {
        alloc,
        office: &from.office,
        zone: &from.zone,
    };
    let mut waiting = Waiting::new(alloc);
    carry_held(&mut from.shelf, &basis, into, &mut waiting, watch)?;
    post_waiting(&basis, into, &mut waiting, watch)?;
    Ok(held)
}

// Carries all records, but for the last, which wait.
fn carry_held<S: Shelf, T: Shelf, W: Carrying>(
    shelf: &mut S,
    basis: &Basis,
    into: &mut Book<T>,
    waiting: &mut Waiting,
    watch: &mut W,
) -> Result<(), CarryFault>
    requires idle { IsNone (S.state shelf.old).begun }
    ensures carried { S.clean shelf.new → T.clean into.new.shelf
        → CarriesOn basis.now.office.now into.old.office (S.state shelf.old).content.records 0
        (7 * (office_of basis.now.office.now).meters + 2) (T.state into.old.shelf).content.records
        waiting.old.entries.items (T.state into.new.shelf).content.records
        waiting.new.entries.items result }
    ensures open_yet { IsErrOf (asked_of result) Reopen → ⊥ }
    ensures asked { IsOnlyAsked S.Shelf (failures_asked (asked_of result)) shelf.old shelf.new }
    ensures uploads { HasUploads T.Shelf (posted_of result) into.old into.new }
{
    for place in 0..list_count(basis.office) {
        let list = list_at(basis.office, place);
        carry_list(shelf, basis, list, into, waiting, watch)?;
    }
    Ok(())
}

// Carries the records of a list.
fn carry_list<S: Shelf, T: Shelf, W: Carrying>(
    shelf: &mut S,
    basis: &Basis,
    list: HeldList,
    into: &mut Book<T>,
    waiting: &mut Waiting,
    watch: &mut W,
) -> Result<(), CarryFault>
    requires idle { IsNone (S.state shelf.old).begun }
    requires list { IsListOf (office_of basis.now.office.now).meters list }
    ensures carried { S.clean shelf.new → T.clean into.new.shelf
        → CarriesOn basis.now.office.now into.old.office (S.state shelf.old).content.records
        (list_place (office_of basis.now.office.now).meters list)
        (list_place (office_of basis.now.office.now).meters list + 1)
        (T.state into.old.shelf).content.records waiting.old.entries.items
        (T.state into.new.shelf).content.records waiting.new.entries.items result }
    ensures open_yet { IsErrOf (asked_of result) Reopen → ⊥ }
    ensures asked { IsOnlyAsked S.Shelf (failures_asked (asked_of result)) shelf.old shelf.new }
    ensures uploads { HasUploads T.Shelf (posted_of result) into.old into.new }
{
    let records = records_in(basis.alloc, shelf, basis.office, list)?;
    give_all(basis, &records, into, waiting, watch)
}
