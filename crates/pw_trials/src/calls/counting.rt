//! The calls on what counts at a key, which a record with any content names, and on how records compare.

use crate::calls::asked::Asked;
use crate::calls::entries::{entry_of, tell_content, tell_key};
use crate::calls::names::{account, meter, owner_name};
use crate::calls::words::instant;
use pw_model::plain::{contents_at, owner_at, topped_up};
use pw_model::{Contents, Entry, Named, Reference, is_same_content, is_same_entry, is_same_key};
use pw_tariff::Office;
use std::io::Write;

pub(crate) fn answer<O: Write>(asked: &Asked<'_>, words: &[&str], out: &mut O) -> Option<()> {
    let (office, entries) = (asked.office, asked.entries);
    match words {
        ["contents_at", record @ ..] => {
            let record = entry_of(office, record)?;
            tell_contents(office, contents_at(entries, &record.key), out);
        }
        ["owner_at", name, at] => {
            let owner = owner_at(entries, meter(office, name)?, instant(at)?.seconds());
            let owner = owner_name(office, owner);
            let _ = writeln!(out, "{owner}");
        }
        ["topped_up", name] => {
            let cents = topped_up(entries, account(office, name)?);
            let _ = writeln!(out, "{cents}");
        }
        ["reference"] => tell_reference(b"", out),
        ["reference", text] => tell_reference(text.as_bytes(), out),
        ["compare"] => tell_comparison(entries, out)?,
        ["named", record @ ..] => tell_named(office, &entry_of(office, record)?, out),
        _ => return None,
    }
    Some(())
}

fn tell_contents<O: Write>(office: &Office, contents: Contents, out: &mut O) {
    match contents {
        Contents::Nothing => {
            let _ = out.write_all(b"nothing\n");
        }
        Contents::Several => {
            let _ = out.write_all(b"several\n");
        }
        Contents::One(content) => {
            let _ = out.write_all(b"one ");
            tell_content(office, &content, out);
        }
    }
}

// Whether a text is a reference, whose bytes are then those of the text.
fn tell_reference<O: Write>(text: &[u8], out: &mut O) {
    let is_kept = match Reference::of(text) {
        Some(reference) => reference.bytes() == text,
        None => false,
    };
    let _ = writeln!(out, "{is_kept}");
}

// The record that a withdrawal of this one names, if it can be withdrawn.
fn tell_named<O: Write>(office: &Office, record: &Entry, out: &mut O) {
    let Some(named) = Named::of(record) else {
        let _ = out.write_all(b"none\n");
        return;
    };
    let record = named.entry();
    tell_key(office, &record.key, out);
    let _ = out.write_all(b" ");
    tell_content(office, &record.content, out);
}

// Whether the last two records have the same key, the same content, and are the same; and how keys and records stand in
// order.
fn tell_comparison<O: Write>(entries: &[Entry], out: &mut O) -> Option<()> {
    let [.., a, b] = entries else {
        return None;
    };
    let (key, content) = (
        is_same_key(&a.key, &b.key),
        is_same_content(&a.content, &b.content),
    );
    let (record, keys, order) = (is_same_entry(a, b), a.key.cmp(&b.key), a.cmp(b));
    let _ = writeln!(
        out,
        "key {key} content {content} record {record}, {keys:?} {order:?}"
    );
    Some(())
}
