//! The entries of an upload, and their order.

ghost use Rattle.std.specs.Prelude.{◌≡◌, ◌∷◌, [], ◌++◌, OnOk};
ghost use Rattle.pw_record.specs.Listed.{AreListed};

use pw_model::{Content, Distinct, Entry, Key};
use std::alloc::AllocError;

/// Appends an entry to those before it.
pub fn append(given: &mut Vec<Entry>, key: Key, content: Content) -> Result<(), AllocError>
    ensures { OnOk result (given.new.items
        ≡ given.old.items ++ record { key = key; content = content } ∷ []) }
{
    given.extend_from_slice(&[Entry { key, content }])?;
    Ok(())
}

/// The entries by key and content, each once.
pub fn in_order(given: Vec<Entry>) -> Distinct
    ensures { AreListed given.items result }
{
    Distinct::of_vec(given)
}
