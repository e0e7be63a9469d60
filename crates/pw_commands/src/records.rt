//! A record in a line, by the names of the office file.

use pw_model::{Entry, Key, Named};
use pw_tariff::{AccountId, MeterId, Office, Owner};
use std::io::{self, Write};

// What a record says, with spaces between: `reading 4D31 I1 2024-01-02T05:00:00Z 1000000`,
// `assignment 4D31 2024-01-01T00:00:00Z A1` (of nobody `-`), `topup P1 A1 5000 2024-01-01T00:00:00Z`; a withdrawal has
// the record that it names behind `withdrawal`.
pub(crate) fn put_record(text: &mut Vec<u8>, office: &Office, entry: &Entry) -> io::Result<()> {
    if let Key::Withdrawal { named } = &entry.key {
        text.write_all(b"withdrawal ")?;
        return put_named(text, office, named);
    }
    match Named::of(entry) {
        Some(named) => put_named(text, office, &named),
        None => Ok(()),
    }
}

fn put_named(text: &mut Vec<u8>, office: &Office, named: &Named) -> io::Result<()> {
    match *named {
        Named::Reading {
            meter,
            register,
            instant,
            wh,
        } => {
            let (id, register, wh) = (meter_name(office, meter), register.name(), wh.get());
            write!(text, "reading {id} {register} {instant} {wh}")
        }
        Named::Assignment {
            meter,
            start,
            owner,
        } => {
            let (id, owner) = (meter_name(office, meter), owner_name(office, owner));
            write!(text, "assignment {id} {start} {owner}")
        }
        Named::TopUp {
            reference,
            account,
            cents,
            instant,
        } => {
            text.write_all(b"topup ")?;
            text.write_all(reference.bytes())?;
            let account = account_name(office, account);
            write!(text, " {account} {cents} {instant}")
        }
    }
}

// The names of what the office has; records of it name nothing else.
fn meter_name(office: &Office, meter: MeterId) -> &str {
    if meter.0 < office.meters() {
        office.meter_name(meter)
    } else {
        ""
    }
}

// The name of an account of the office.
pub(crate) fn account_name(office: &Office, account: AccountId) -> &str {
    if account.0 < office.accounts() {
        office.account_name(account)
    } else {
        ""
    }
}

fn owner_name(office: &Office, owner: Owner) -> &str {
    match owner {
        Some(account) => account_name(office, account),
        None => "-",
    }
}
