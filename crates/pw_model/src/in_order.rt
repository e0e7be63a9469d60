//! Records in their order, each once: sorted once, and a type that says so from then on.

ghost use Rattle.std.specs.Prelude.{◌≡◌, ◌≤◌, IfOk, length};
ghost use Rattle.pw_model.specs.Counting.{Member};
ghost use Rattle.pw_model.specs.Lists.{IsInOrder, Lists};
ghost use Rattle.pw_model.specs.Same.{entry_order};

use crate::compare::compare_entries;
use crate::records::Entry;
use std::alloc::{AllocError, Global};
use std::marker::Model;

/// Records in the order of their keys, then of their contents, each once. A contract sees their list.
#[derive(Drop)]
pub struct Distinct {
    entries: Vec<Entry>,
}

impl Model for Distinct {
    ghost use Rattle.std.specs.Prelude.{List};
    ghost use Rattle.pw_model.specs.declared.records.Entry.{Entry};
    ghost use Rattle.pw_model.specs.Lists.{IsInOrder};
    ghost use Rattle.pw_model.specs.Same.{entry_order};

    ghost Value = { List Entry };

    ghost view = { λ d. d.entries.items };

    ghost invariant = { λ d. IsInOrder entry_order d.entries.items };
}

impl Distinct {
    /// The records of a list, each once. It sorts a copy, and fails only where memory is refused.
    pub fn of(alloc: Global, entries: &[Entry]) -> Result<Distinct, AllocError>
        ensures sorted { IfOk result (λ all. Lists entry_order (λ e. Member e entries.now) all) }
        ensures few { IfOk result (λ all. length all ≤ length entries.now) }
    {
        let copy = Vec::from_slice(alloc, entries)?;
        Ok(Distinct::of_vec(copy))
    }

    /// The records of a vector, each once. It sorts the vector where it stands, and takes no memory.
    pub fn of_vec(entries: Vec<Entry>) -> Distinct
        ensures sorted { Lists entry_order (λ e. Member e entries.items) result }
        ensures few { length result ≤ length entries.items }
    {
        let mut all = entries;
        all.sort_unstable_by(|a, b| compare_entries(a, b));
        all.dedup();
        Distinct { entries: all }
    }

    /// The vector of the records, in their order.
    pub fn into_entries(self) -> Vec<Entry>
        ensures { result.items ≡ self }
    {
        self.entries
    }

    /// The records, in their order.
    pub fn entries(&self) -> &[Entry]
        ensures entries { result.now ≡ self.now }
        ensures rising { IsInOrder entry_order result.now }
    {
        &self.entries
    }
}
