//! The records of a list that stand.

ghost use Rattle.std.specs.Prelude.{◌≡◌, ◌≤◌, IfOk, length};
ghost use Rattle.pw_model.specs.Counting.{is_withdrawn as is_withdrawn_by, standing as standing_of};
ghost use Rattle.pw_model.specs.Lists.{IsInOrder};
ghost use Rattle.pw_model.specs.Payments.{keys, stands_in};
ghost use Rattle.pw_model.specs.Same.{entry_order, same_key};
ghost use Rattle.pw_model.specs.inner.Search.{AreStanding};

use crate::compare::{compare_keys, is_same_key};
use crate::in_order::Distinct;
use crate::records::{Entry, Key, Named};
use std::alloc::{AllocError, Global};

// The records that stand, in their order, each once.
pub(crate) fn standing(alloc: Global, entries: &[Entry]) -> Result<Vec<Entry>, AllocError>
    ensures standing { IfOk result (λ all. AreStanding entries.now all.items) }
    ensures few { IfOk result (λ all. length all.items ≤ length entries.now) }
{
    let in_order = Distinct::of(alloc, entries)?;
    standing_among(alloc, in_order.entries())
}

// Those of some records in order that stand.
fn standing_among(alloc: Global, in_order: &[Entry]) -> Result<Vec<Entry>, AllocError>
    requires { IsInOrder entry_order in_order.now }
    ensures { IfOk result (λ all. all.items ≡ standing_of in_order.now) }
{
    let mut all = Vec::new(alloc);
    for entry in in_order {
        if !is_withdrawn(in_order, entry) {
            all.extend_from_slice(&[*entry])?;
        }
    }
    Ok(all)
}

// Whether one of some records in order withdraws a record.
pub(crate) fn is_withdrawn(in_order: &[Entry], entry: &Entry) -> bool
    requires { IsInOrder entry_order in_order.now }
    ensures { result ≡ is_withdrawn_by in_order.now entry.now }
{
    match Named::of(entry) {
        Some(named) => has_key(in_order, &Key::Withdrawal { named }),
        None => false,
    }
}

// Whether one of some records in order has a key.
fn has_key(in_order: &[Entry], key: &Key) -> bool
    requires { IsInOrder entry_order in_order.now }
    ensures { result ≡ stands_in same_key key.now (keys in_order.now) }
{
    let place = in_order.partition_point(|other| compare_keys(&other.key, key).is_lt());
    place < in_order.len() && is_same_key(&in_order[place].key, key)
}
