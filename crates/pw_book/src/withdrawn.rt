//! Which of the records held are withdrawn.

ghost use Rattle.std.specs.Prelude.{◌≡◌, IfOk, IsNone};
ghost use Rattle.pw_model.specs.Counting.{is_withdrawn as is_withdrawn_by, standing_among as standing_of};
ghost use Rattle.pw_shelf.specs.Calls.{failures_told};
ghost use Rattle.pw_book.specs.Asking.{IsOnlyAsked};
ghost use Rattle.pw_book.specs.inner.Withdrawn.{is_something};

use crate::shelf_calls::contents_held;
use pw_model::{Contents, Entry, Key, Named};
use pw_shelf::{Shelf, ShelfFault};
use std::alloc::Global;

// Those of some records that stand.
pub(crate) fn standing_among<S: Shelf>(
    shelf: &mut S,
    alloc: Global,
    records: &[Entry],
) -> Result<Vec<Entry>, ShelfFault>
    requires { IsNone (S.state shelf.old).begun }
    ensures standing { S.clean shelf.new → IfOk result
        (λ all. all.items ≡ standing_of (S.state shelf.old).content.records records.now) }
    ensures asked { IsOnlyAsked S.Shelf (failures_told result) shelf.old shelf.new }
{
    let mut all = Vec::new(alloc);
    for entry in records {
        if !is_withdrawn(shelf, entry)? {
            all.extend_from_slice(&[*entry])?;
        }
    }
    Ok(all)
}

// Whether a record is withdrawn: whether a withdrawal of it is held.
pub(crate) fn is_withdrawn<S: Shelf>(shelf: &mut S, entry: &Entry) -> Result<bool, ShelfFault>
    requires { IsNone (S.state shelf.old).begun }
    ensures withdrawn { S.clean shelf.new → IfOk result
        (λ told. told ≡ is_withdrawn_by (S.state shelf.old).content.records entry.now) }
    ensures asked { IsOnlyAsked S.Shelf (failures_told result) shelf.old shelf.new }
{
    let Some(named) = Named::of(entry) else {
        return Ok(false);
    };
    let contents = contents_held(shelf, &Key::Withdrawal { named })?;
    Ok(is_told(&contents))
}

// Whether a record has the key.
fn is_told(contents: &Contents) -> bool
    ensures { result ≡ is_something contents.now }
{
    match contents {
        Contents::Nothing => false,
        _ => true,
    }
}
