//! What the derived comparisons of keys and contents say, in the words of the definitions.

ghost use Rattle.std.specs.Prelude.{◌≡◌};
ghost use Rattle.pw_model.specs.Same.{entry_order, key_order, same_content, same_entry, same_key, total_order};
ghost use Rattle.pw_model.specs.inner.Keys.{HasReference};

use crate::records::{Content, Entry, Key, Named, TotalKey};
use std::cmp::Ordering;

/// Whether two keys are one.
pub fn is_same_key(a: &Key, b: &Key) -> bool
    ensures { result ≡ same_key a.now b.now }
{
    Key::eq(a, b)
}

/// Whether two contents are one.
pub fn is_same_content(a: &Content, b: &Content) -> bool
    ensures { result ≡ same_content a.now b.now }
{
    Content::eq(a, b)
}

/// Whether two entries are one.
pub fn is_same_entry(a: &Entry, b: &Entry) -> bool
    ensures { result ≡ same_entry a.now b.now }
{
    Entry::eq(a, b)
}

/// Readings stand first, then assignments, then top-ups, then withdrawals; each by its fields in their order.
pub fn compare_keys(a: &Key, b: &Key) -> Ordering
    ensures { result ≡ key_order a.now b.now }
{
    read_reference(a);
    read_reference(b);
    a.cmp(b)
}

/// Entries stand by their keys, then by their contents.
pub fn compare_entries(a: &Entry, b: &Entry) -> Ordering
    ensures { result ≡ entry_order a.now b.now }
{
    read_reference(&a.key);
    read_reference(&b.key);
    Entry::cmp(a, b)
}

/// Energies stand before top-ups; energies by owner (nobody first), period, band and direction, top-ups
/// by account.
pub fn compare_totals(a: &TotalKey, b: &TotalKey) -> Ordering
    ensures { result ≡ total_order a.now b.now }
{
    TotalKey::cmp(a, b)
}

// The reference in a key is one, which the order of references rests on.
fn read_reference(key: &Key)
    ensures { HasReference key.now }
{
    match key {
        Key::TopUp { reference }
        | Key::Withdrawal {
            named: Named::TopUp { reference, .. },
        } => {
            let _text = reference.bytes();
        }
        _ => {}
    }
}
