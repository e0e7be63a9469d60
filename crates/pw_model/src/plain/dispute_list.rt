//! The disputes of a list of records.

ghost use Rattle.std.specs.Prelude.{◌≤◌, IfOk, length};
ghost use Rattle.pw_model.specs.Lists.{AreDisputes, IsInOrder};
ghost use Rattle.pw_model.specs.Office.{most_records};
ghost use Rattle.pw_model.specs.Same.{entry_order};
ghost use Rattle.pw_model.specs.inner.Search.{AllStand};

use super::alone::has_key_behind;
use super::standing::standing;
use crate::records::{Dispute, Entry};
use std::alloc::{AllocError, Global};

/// The keys that two or more records that stand have, and how many: readings first, then assignments, then top-ups, each by key.
pub fn disputes(alloc: Global, entries: &[Entry]) -> Result<Vec<Dispute>, AllocError>
    requires { length entries.now ≤ most_records }
    ensures { IfOk result (λ disputes. AreDisputes entries.now disputes.items) }
{
    let in_order = standing(alloc, entries)?;
    disputes_among(alloc, &in_order)
}

// The disputes of some records in order, which all stand: each stands at the last record of its key.
fn disputes_among(alloc: Global, in_order: &[Entry]) -> Result<Vec<Dispute>, AllocError>
    requires rising { IsInOrder entry_order in_order.now }
    requires standing { AllStand in_order.now }
    requires few { length in_order.now ≤ most_records }
    ensures { IfOk result (λ disputes. AreDisputes in_order.now disputes.items) }
{
    let mut disputes = Vec::new(alloc);
    // how many records up to this one have its key
    let mut contents = 0;
    for (index, entry) in in_order.iter().enumerate() {
        contents += 1;
        if has_key_behind(in_order, index) {
            continue;
        }
        if contents >= 2 {
            disputes.push(Dispute {
                key: entry.key,
                contents,
            })?;
        }
        contents = 0;
    }
    Ok(disputes)
}
