//! Whether records in their order stand alone.

ghost use Rattle.std.specs.Prelude.{◌<◌, ◌↔◌, IsTrue, length};
ghost use Rattle.pw_model.specs.Counting.{Counts, IsNoWithdrawal};
ghost use Rattle.pw_model.specs.Lists.{IsInOrder};
ghost use Rattle.pw_model.specs.Same.{entry_order};
ghost use Rattle.pw_model.specs.inner.Search.{AllStand, IsAt, IsKeyBehind};
ghost use Rattle.pw_model.specs.declared.records.Entry.{Entry};

use crate::compare::{compare_entries, is_same_entry, is_same_key};
use crate::records::Entry;

// Whether a record of some in order, which all stand, counts among them: neither of its neighbours has its key.
pub(crate) fn stands_alone(in_order: &[Entry], index: usize) -> bool
    requires rising { IsInOrder entry_order in_order.now }
    requires standing { AllStand in_order.now }
    requires within { index < length in_order.now }
    ensures { (e : Entry) → IsAt in_order.now index e → IsNoWithdrawal e.content
        → IsTrue result ↔ Counts in_order.now e }
{
    if index > 0 && has_key_behind(in_order, index - 1) {
        return false;
    }
    !has_key_behind(in_order, index)
}

// Whether a record counts among some in order, which all stand.
pub(crate) fn counts_among(in_order: &[Entry], entry: &Entry) -> bool
    requires rising { IsInOrder entry_order in_order.now }
    requires standing { AllStand in_order.now }
    ensures { IsNoWithdrawal entry.now.content → IsTrue result ↔ Counts in_order.now entry.now }
{
    let place = in_order.partition_point(|other| compare_entries(other, entry).is_lt());
    place < in_order.len()
        && is_same_entry(&in_order[place], entry)
        && stands_alone(in_order, place)
}

// Whether the record behind this one has its key.
pub(crate) fn has_key_behind(in_order: &[Entry], index: usize) -> bool
    requires { index < length in_order.now }
    ensures { IsTrue result ↔ IsKeyBehind in_order.now index }
{
    let behind = index + 1;
    behind < in_order.len() && is_same_key(&in_order[index].key, &in_order[behind].key)
}
