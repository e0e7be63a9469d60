//! Which records of a list count.

ghost use Rattle.std.specs.Prelude.{◌≡◌, ◌≤◌, ◌∷◌, ◌↔◌, IfOk, IsTrue, length};
ghost use Rattle.pw_model.specs.Counting.{Counts, IsNoWithdrawal, Member, is_withdrawn as is_withdrawn_by, standing as standing_of};
ghost use Rattle.pw_model.specs.Lists.{IsInOrder, Lists};
ghost use Rattle.pw_model.specs.Payments.{keys, stands_in};
ghost use Rattle.pw_model.specs.Same.{entry_order, same_key};
ghost use Rattle.pw_parts.specs.Groups.{HasSameKey};

use pw_model::{Content, Distinct, Entry, Key, Named, compare_keys, is_same_key};
use std::alloc::{AllocError, Global};

// The records of a list that count, in order: those that stand, whose key no other record that stands has.
pub(crate) fn counting(alloc: Global, entries: &[Entry]) -> Result<Vec<Entry>, AllocError>
    ensures counting { IfOk result (λ counted. Lists entry_order (Counts entries.now)
        counted.items) }
    ensures few { IfOk result (λ counted. length counted.items ≤ length entries.now) }
{
    let standing = standing(alloc, entries)?;
    let counted = alone_among(alloc, &standing)?;
    Ok(counted)
}

// The records of a list that stand, in order.
fn standing(alloc: Global, entries: &[Entry]) -> Result<Vec<Entry>, AllocError>
    ensures standing { IfOk result (λ all. Lists entry_order
        (λ e. Member e (standing_of entries.now)) all.items) }
    ensures few { IfOk result (λ all. length all.items ≤ length entries.now) }
{
    let in_order = Distinct::of(alloc, entries)?;
    let standing = standing_among(alloc, in_order.entries())?;
    Ok(standing)
}

/// The records that count among records in order: those that stand, whose key no other record that stands has. A
/// withdrawal doesn't count.
pub fn counting_among(alloc: Global, records: &[Entry]) -> Result<Vec<Entry>, AllocError>
    ensures counting { IsInOrder entry_order records.now
        → IfOk result (λ counted. Lists entry_order (Counts records.now) counted.items) }
    ensures few { IfOk result (λ counted. length counted.items ≤ length records.now) }
{
    let standing = standing_among(alloc, records)?;
    let counted = alone_among(alloc, &standing)?;
    Ok(counted)
}

// Those of some records in order that stand.
fn standing_among(alloc: Global, records: &[Entry]) -> Result<Vec<Entry>, AllocError>
    ensures standing { IsInOrder entry_order records.now
        → IfOk result (λ all. all.items ≡ standing_of records.now) }
    ensures few { IfOk result (λ all. length all.items ≤ length records.now) }
{
    let mut all = Vec::with_capacity(alloc, records.len())?;
    for entry in records {
        if !is_withdrawn(records, entry) {
            all.push(*entry)?;
        }
    }
    Ok(all)
}

// Whether one of some records in order withdraws a record.
fn is_withdrawn(records: &[Entry], entry: &Entry) -> bool
    ensures { IsInOrder entry_order records.now → result ≡ is_withdrawn_by records.now entry.now }
{
    match Named::of(entry) {
        Some(named) => has_key(records, &Key::Withdrawal { named }),
        None => false,
    }
}

// Whether one of some records in order has a key.
fn has_key(records: &[Entry], key: &Key) -> bool
    ensures { IsInOrder entry_order records.now
        → result ≡ stands_in same_key key.now (keys records.now) }
{
    let place = records.partition_point(|other| compare_keys(&other.key, key).is_lt());
    place < records.len() && is_same_key(&records[place].key, key)
}

// The records that count among records in order that all stand: those whose key no other record has.
fn alone_among(alloc: Global, records: &[Entry]) -> Result<Vec<Entry>, AllocError>
    ensures counting { IsInOrder entry_order records.now → standing_of records.now ≡ records.now
        → IfOk result (λ counted. Lists entry_order (Counts records.now) counted.items) }
    ensures few { IfOk result (λ counted. length counted.items ≤ length records.now) }
{
    let mut counted = Vec::with_capacity(alloc, records.len())?;
    let mut rest = records;
    while let Some((first, others)) = rest.split_first() {
        let same = same_key_behind(first, others);
        if counts_with(first, same) {
            counted.push(*first)?;
        }
        rest = &others[same..];
    }
    Ok(counted)
}

// Whether a record counts behind which so many others have its key.
fn counts_with(entry: &Entry, same: usize) -> bool
    ensures { IsTrue result ↔ ((same ≡ 0) × IsNoWithdrawal entry.now.content) }
{
    match &entry.content {
        Content::Withdrawal => false,
        _ => same == 0,
    }
}

/// How many records behind one have its key.
pub fn same_key_behind(first: &Entry, others: &[Entry]) -> usize
    ensures within { result ≤ length others.now }
    ensures same { IsInOrder entry_order (first.now ∷ others.now)
        → HasSameKey first.now others.now result }
{
    for (i, other) in others.iter().enumerate() {
        if !is_same_key(&first.key, &other.key) {
            return i;
        }
    }
    others.len()
}
