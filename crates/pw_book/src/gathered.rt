//! What an upload has gathered so far: what energies lose and gain, not yet written, and the starts that it knows.

ghost use Rattle.std.specs.Prelude.{◌≡◌, [], None, OnOk};
ghost use Rattle.pw_model.specs.Seconds.{ListsSeconds};
ghost use Rattle.pw_book.specs.inner.Steps.{KeepsContent, KeepsKnown, StillKeepsKnown, TakesStarts, UploadGoesOn};

use crate::starts::Start;
use pw_parts::Changes;
use pw_shelf::{Shelf, ShelfFault};
use pw_tariff::MeterId;
use std::alloc::Global;
use std::collections::BTreeMap;

// The starts of the meter that a store was asked for last, as long as they are those that it keeps: at first of none.
#[derive(Drop)]
pub(crate) struct KnownStarts {
    pub(crate) meter: Option<MeterId>,
    pub(crate) starts: Vec<Start>,
}

// What an upload has gathered so far.
#[derive(Drop)]
pub(crate) struct Gathered {
    pub(crate) changes: Changes,
    pub(crate) known: KnownStarts,
}

// What an upload begins with: no total changes yet, and no meter's starts are known.
pub(crate) fn nothing_gathered(alloc: Global) -> Gathered
    ensures changes { result.changes.rows.entries ≡ [] }
    ensures known { result.known.meter ≡ None }
{
    Gathered {
        changes: Changes {
            rows: BTreeMap::new(alloc),
        },
        known: KnownStarts {
            meter: None,
            starts: Vec::new(alloc),
        },
    }
}

// Knows the starts of a meter: they are asked for, unless it was this meter's that were asked for last.
pub(crate) fn know_starts<S: Shelf>(
    shelf: &mut S,
    alloc: Global,
    meter: MeterId,
    known: &mut KnownStarts,
) -> Result<(), ShelfFault>
    requires { KeepsKnown S.Shelf known.old shelf.old }
    ensures starts { S.clean shelf.new → OnOk result
        (ListsSeconds ((S.state shelf.old).content.start meter.0) known.new.starts.items) }
    ensures known { StillKeepsKnown S.Shelf result known.new shelf.new }
    ensures same { KeepsContent S.Shelf result shelf.old shelf.new }
    ensures tally { TakesStarts S.Shelf 1 meter.0 shelf.old shelf.new }
    ensures kept { UploadGoesOn S.Shelf result shelf.old shelf.new }
{
    if known.meter == Some(meter) {
        return Ok(());
    }
    let starts = shelf.starts_of(alloc, meter)?;
    *known = KnownStarts {
        meter: Some(meter),
        starts,
    };
    Ok(())
}
