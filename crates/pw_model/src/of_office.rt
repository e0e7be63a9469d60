//! Whether a record is of an office.

ghost use Rattle.std.specs.Prelude.{IsTrue, ◌↔◌};
ghost use Rattle.pw_tariff.specs.Office.{office_of};
ghost use Rattle.pw_model.specs.Office.{HasOwner, IsNamedOf, IsOfOffice};

use crate::limits::MOST_CENTS;
use crate::records::{Content, Entry, Key, Named};
use pw_tariff::{Office, Owner};

/// Whether a record has a content of its key's kind, and all that it names is the office's.
pub fn is_of_office(office: &Office, entry: &Entry) -> bool
    ensures { IsTrue result ↔ IsOfOffice (office_of office.now) entry.now }
{
    if let Key::Withdrawal { named } = &entry.key {
        return matches!(entry.content, Content::Withdrawal) && is_named_of_office(office, named);
    }
    match Named::of(entry) {
        Some(named) => is_named_of_office(office, &named),
        None => false,
    }
}

// Whether all that a reading, an assignment or a top-up names is the office's.
fn is_named_of_office(office: &Office, named: &Named) -> bool
    ensures { IsTrue result ↔ IsNamedOf (office_of office.now) named.now }
{
    match named {
        Named::Reading {
            meter,
            register,
            instant,
            wh,
        } => {
            let _second = instant.seconds();
            let _wh = wh.get();
            meter.0 < office.meters() && office.counts(*meter, *register)
        }
        Named::Assignment {
            meter,
            start,
            owner,
        } => {
            let _second = start.seconds();
            meter.0 < office.meters() && has_owner(office, owner)
        }
        Named::TopUp {
            reference,
            account,
            cents,
            instant,
        } => {
            let _text = reference.bytes();
            let _second = instant.seconds();
            account.0 < office.accounts() && 1 <= *cents && *cents <= MOST_CENTS
        }
    }
}

/// Whether an owner is nobody, or an account of the office.
pub fn has_owner(office: &Office, owner: &Owner) -> bool
    ensures { IsTrue result ↔ HasOwner (office_of office.now) owner.now }
{
    match owner {
        Some(account) => account.0 < office.accounts(),
        None => true,
    }
}
