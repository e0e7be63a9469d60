//! What was topped up.

ghost use Rattle.std.specs.Prelude.{◌≡◌};
ghost use Rattle.pw_model.specs.Payments.{cents_for, keys, stands_in, topped_up as topped_up_of};
ghost use Rattle.pw_model.specs.inner.Search.{paying};
ghost use Rattle.pw_model.specs.Counting.{contents_at as held_at};
ghost use Rattle.pw_model.specs.Same.{same_key};
ghost use Rattle.pw_model.specs.declared.records.Contents.TheVariants.{One};

use super::search::contents_at;
use crate::compare::is_same_key;
use crate::records::{Content, Contents, Entry, Key};
use pw_tariff::AccountId;

/// The counting top-ups of an account, in cents.
pub fn topped_up(entries: &[Entry], account: AccountId) -> u128
    ensures { result ≡ topped_up_of entries.now account.0 }
{
    let mut total = 0;
    for (index, entry) in entries.iter().enumerate() {
        if cents_in(&entry.content, account) > 0
            && !has_payment(&entries[..index], &entry.key, account)
        {
            total += u128::from(cents_at(entries, &entry.key, account));
        }
    }
    total
}

// Whether one of the records has a key, and cents for the account.
fn has_payment(entries: &[Entry], key: &Key, account: AccountId) -> bool
    ensures { result ≡ stands_in same_key key.now (keys (paying account.0 entries.now)) }
{
    for entry in entries {
        if cents_in(&entry.content, account) > 0 && is_same_key(key, &entry.key) {
            return true;
        }
    }
    false
}

// The cents that count for the account at a key.
fn cents_at(entries: &[Entry], key: &Key, account: AccountId) -> u32
    ensures { result ≡ cents_for account.0 (held_at entries.now key.now) }
{
    match contents_at(entries, key) {
        Contents::One(content) => cents_in(&content, account),
        _ => 0,
    }
}

// The cents of a content, where it is a top-up of this account.
fn cents_in(content: &Content, account: AccountId) -> u32
    ensures { result ≡ cents_for account.0 (One content.now) }
{
    match content {
        Content::TopUp {
            account: other,
            cents,
            ..
        } => { if other.0 == account.0 { *cents } else { 0 } }
        _ => 0,
    }
}
