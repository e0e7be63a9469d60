//! The table of disputes, as text: each key that several records have which aren't withdrawn, and how many they are.

ghost use Rattle.std.specs.Prelude.{◌≡◌, ◌++◌, IfOk, OnOk, codes};
ghost use Rattle.pw_report.specs.Pages.{IsDisputesText};
ghost use Rattle.pw_report.specs.Reports.{IsReport, TellsText};
ghost use Rattle.pw_report.specs.Tables.{dispute_line, disputes_text as text_of_disputes, key_text};

use crate::names::meter_name;
use crate::put::{instant_text, put_number};
use pw_book::{Book, BookFault};
use pw_model::{Dispute, Key};
use pw_shelf::Shelf;
use pw_tariff::Office;
use std::alloc::{AllocError, Global};

/// The disputes, by the records held: the keys that two or more of them have that aren't withdrawn, and how many. Readings
/// first, then assignments, then top-ups; each by its key.
///
/// `Device`, `Memory` and `Reopen` (of a shut book) leave the records as they are.
pub fn disputes_table<S: Shelf>(book: &mut Book<S>, alloc: Global) -> Result<Vec<u8>, BookFault>
    ensures text { TellsText S.Shelf IsDisputesText result book.old book.new }
    ensures report { IsReport S.Shelf result book.old book.new }
{
    let disputes = book.disputes(alloc)?;
    let text = disputes_text(alloc, book.office(), &disputes)?;
    Ok(text)
}

#[tactic(auto, unfolding(crate::specs::Tables::disputes_text))]
fn disputes_text(
    alloc: Global,
    office: &Office,
    disputes: &[Dispute],
) -> Result<Vec<u8>, AllocError>
    ensures { IfOk result (λ text. text.items ≡ text_of_disputes office.now disputes.now) }
{
    let mut text = Vec::from_slice(alloc, b"key records\n")?;
    for dispute in disputes {
        put_dispute(&mut text, office, dispute)?;
    }
    Ok(text)
}

fn put_dispute(text: &mut Vec<u8>, office: &Office, dispute: &Dispute) -> Result<(), AllocError>
    ensures { OnOk result (text.new.items ≡ text.old.items ++ dispute_line office.now dispute.now) }
{
    put_key(text, office, &dispute.key)?;
    text.extend_from_slice(b" ")?;
    put_number(text, u64::from(dispute.contents))?;
    text.extend_from_slice(b"\n")
}

fn put_key(text: &mut Vec<u8>, office: &Office, key: &Key) -> Result<(), AllocError>
    ensures { OnOk result (text.new.items ≡ text.old.items ++ key_text office.now key.now) }
{
    match *key {
        Key::Reading {
            meter,
            register,
            instant,
        } => {
            put_name(text, b"reading", meter_name(office, meter))?;
            put_name(text, b"", register.name().as_bytes())?;
            put_name(text, b"", &instant_text(instant))
        }
        Key::Assignment { meter, start } => {
            put_name(text, b"assignment", meter_name(office, meter))?;
            put_name(text, b"", &instant_text(start))
        }
        Key::TopUp { reference } => put_name(text, b"topup", reference.bytes()),
        Key::Withdrawal { .. } => text.extend_from_slice(b"withdrawal"),
    }
}

// A name behind a word and a space.
fn put_name(text: &mut Vec<u8>, word: &[u8], name: &[u8]) -> Result<(), AllocError>
    ensures { OnOk result (text.new.items ≡ text.old.items ++ (word.now ++ codes " " ++ name.now)) }
{
    text.extend_from_slice(word)?;
    text.extend_from_slice(b" ")?;
    text.extend_from_slice(name)
}
