//! Records in words: `reading METER REGISTER INSTANT WH`, `assignment METER INSTANT OWNER` and
//! `topup REFERENCE ACCOUNT CENTS INSTANT`. The first words are the key's. `withdrawal` in front of one is its withdrawal,
//! whose key they all are.

use crate::calls::names::{account, meter, meter_name, owner, owner_name};
use crate::calls::words::{instant, register, wh, words_of};
use pw_model::{Content, Entry, Key, Named, Reference};
use pw_tariff::Office;
use std::alloc::Global;
use std::io::Write;
use std::str::from_utf8;

// The records of lines, if each is one, and there is memory for them.
pub(crate) fn records_of(alloc: Global, office: &Office, lines: &[&str]) -> Option<Vec<Entry>> {
    let mut records = Vec::new(alloc);
    for line in lines {
        let record = record_of(office, line)?;
        records.extend_from_slice(&[record]).ok()?;
    }
    Some(records)
}

// The record of a line, if it is one.
pub(crate) fn record_of(office: &Office, line: &str) -> Option<Entry> {
    entry_of(office, &words_of(line))
}

// The record of a line's words, if it is one.
pub(crate) fn entry_of(office: &Office, words: &[&str]) -> Option<Entry> {
    match words {
        ["withdrawal", record @ ..] => {
            let named = named_of(office, record)?;
            Some(Entry {
                key: Key::Withdrawal { named },
                content: Content::Withdrawal,
            })
        }
        _ => {
            let named = named_of(office, words)?;
            Some(named.entry())
        }
    }
}

// The reading, assignment or top-up of a line, if it is one.
fn named_of(office: &Office, words: &[&str]) -> Option<Named> {
    match words {
        ["reading", name, of, at, shown] => Some(Named::Reading {
            meter: meter(office, name)?,
            register: register(of)?,
            instant: instant(at)?,
            wh: wh(shown)?,
        }),
        ["assignment", name, from, of] => Some(Named::Assignment {
            meter: meter(office, name)?,
            start: instant(from)?,
            owner: owner(office, of)?,
        }),
        ["topup", text, name, cents, at] => Some(Named::TopUp {
            reference: Reference::of(text.as_bytes())?,
            account: account(office, name)?,
            cents: cents.parse::<u32>().ok()?,
            instant: instant(at)?,
        }),
        _ => None,
    }
}

// Tells a key in its words, without the end of the line.
pub(crate) fn tell_key<O: Write>(office: &Office, key: &Key, out: &mut O) {
    let _ = match *key {
        Key::Reading {
            meter,
            register,
            instant,
        } => {
            let (meter, register) = (meter_name(office, meter), register.name());
            write!(out, "reading {meter} {register} {instant}")
        }
        Key::Assignment { meter, start } => {
            let meter = meter_name(office, meter);
            write!(out, "assignment {meter} {start}")
        }
        Key::TopUp { reference } => {
            let text = from_utf8(reference.bytes()).unwrap_or("-");
            write!(out, "topup {text}")
        }
        Key::Withdrawal { .. } => write!(out, "withdrawal"),
    };
}

// Tells a content in its words, with the end of the line.
pub(crate) fn tell_content<O: Write>(office: &Office, content: &Content, out: &mut O) {
    let _ = match *content {
        Content::Reading { wh } => {
            let wh = wh.get();
            writeln!(out, "{wh}")
        }
        Content::Assignment { owner } => {
            let owner = owner_name(office, owner);
            writeln!(out, "{owner}")
        }
        Content::TopUp {
            account,
            cents,
            instant,
        } => {
            let account = owner_name(office, Some(account));
            writeln!(out, "{account} {cents} {instant}")
        }
        Content::Withdrawal => writeln!(out, "withdrawal"),
    };
}
