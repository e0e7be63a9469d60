//! Records that wait for an upload to another book.

ghost use Rattle.std.specs.Prelude.{◌≡◌, [], ◌∷◌, IfErr};
ghost use Rattle.pw_carrying.specs.Carrying.{HasUploads, posted_of};
ghost use Rattle.pw_carrying.specs.inner.Stages.{Gives, IsNotAsked, Sends};
ghost use Rattle.pw_book.specs.Posting.{LeavesOnlyContent};

use crate::fault::CarryFault;
use crate::progress::Carrying;
use crate::renamed::all_carried;
use pw_book::{Basis, Book};
use pw_model::Entry;
use pw_shelf::Shelf;
use std::alloc::Global;

// How many records an upload has.
const FULL: usize = 10_000;

// Records of a book that wait for an upload to another one, and how many were carried before them.
#[derive(Drop)]
pub(crate) struct Waiting {
    pub(crate) entries: Vec<Entry>,
    carried: u32,
}

impl Waiting {
    // No record waits.
    pub(crate) fn new(alloc: Global) -> Waiting
        ensures { result.entries.items ≡ [] }
    {
        Waiting {
            entries: Vec::new(alloc),
            carried: 0,
        }
    }
}

// Gives some records more, in uploads of as many as are full.
pub(crate) fn give_all<T: Shelf, W: Carrying>(
    basis: &Basis,
    entries: &[Entry],
    into: &mut Book<T>,
    waiting: &mut Waiting,
    watch: &mut W,
) -> Result<(), CarryFault>
    ensures gives { T.clean into.new.shelf → Gives basis.now.office.now into.old.office entries.now
        (T.state into.old.shelf).content.records waiting.old.entries.items
        (T.state into.new.shelf).content.records waiting.new.entries.items result }
    ensures fault { IfErr result IsNotAsked }
    ensures uploads { HasUploads T.Shelf (posted_of result) into.old into.new }
{
    for entry in entries {
        give(basis, entry, into, waiting, watch)?;
    }
    Ok(())
}

// Gives one record more.
fn give<T: Shelf, W: Carrying>(
    basis: &Basis,
    entry: &Entry,
    into: &mut Book<T>,
    waiting: &mut Waiting,
    watch: &mut W,
) -> Result<(), CarryFault>
    ensures gives { T.clean into.new.shelf → Gives basis.now.office.now into.old.office
        (entry.now ∷ []) (T.state into.old.shelf).content.records waiting.old.entries.items
        (T.state into.new.shelf).content.records waiting.new.entries.items result }
    ensures fault { IfErr result IsNotAsked }
    ensures uploads { HasUploads T.Shelf (posted_of result) into.old into.new }
{
    waiting.entries.push(*entry)?;
    if waiting.entries.len() < FULL {
        return Ok(());
    }
    post_waiting(basis, into, waiting, watch)
}

// Posts the records that wait, each under the names of the other office.
pub(crate) fn post_waiting<T: Shelf, W: Carrying>(
    basis: &Basis,
    into: &mut Book<T>,
    waiting: &mut Waiting,
    watch: &mut W,
) -> Result<(), CarryFault>
    ensures sends { T.clean into.new.shelf → Sends basis.now.office.now into.old.office
        (T.state into.old.shelf).content.records waiting.old.entries.items
        (T.state into.new.shelf).content.records waiting.new.entries.items result }
    ensures left { LeavesOnlyContent T.Shelf result into.new.shelf }
    ensures fault { IfErr result IsNotAsked }
    ensures uploads { HasUploads T.Shelf (posted_of result) into.old into.new }
{
    let carried = all_carried(basis, &into.office, &waiting.entries)?;
    into.post(basis.alloc, &carried)?;
    waiting.carried = with_more(waiting.carried, carried.len());
    watch.carried(waiting.carried);
    waiting.entries.clear();
    Ok(())
}

// So many and so many more, up to the greatest number of 32 bits.
fn with_more(carried: u32, more: usize) -> u32 {
    carried.saturating_add(more.min(u32::MAX as usize) as u32)
}
