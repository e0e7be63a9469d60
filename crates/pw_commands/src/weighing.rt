//! What another office file changes, and whether it may take the place of a store's own.

ghost use Rattle.std.specs.Prelude.{◌↔◌, All, IfOk, IsTrue};
ghost use Rattle.pw_moving.specs.Adopting.{IsAdopted, IsMet};
ghost use Rattle.pw_moving.specs.Changes.{AreChanges};
ghost use Rattle.pw_book.specs.Questions.{IsQuestion};
ghost use Rattle.pw_commands.specs.Adoptions.{IsWeighed};

use crate::changes::put_change;
use pw_book::{Book, BookFault};
use pw_carrying::last_reading;
use pw_moving::{Change, Respelling, adopts, changes_between, is_met, may_be_adopted};
use pw_shelf::Shelf;
use pw_tariff::Office;
use pw_time::Instant;
use std::alloc::Global;
use std::io::{self, Write};

/// What a new office file changes, a line for each change; a line for each word that isn't met; and whether the file
/// may take the old one's place.
#[derive(Drop)]
pub struct Weighed {
    pub text: Vec<u8>,
    pub adopts: bool,
}

/// Which changes a new office file has, told, and whether it is adopted over the records of a book: each change may be
/// adopted, with their latest reading that isn't withdrawn as the last one, and each word for a name is met.
///
/// It asks each register of each meter for its readings once. What it leaves of the store is as before.
pub fn weigh<S: Shelf>(
    alloc: Global,
    book: &mut Book<S>,
    new: &Office,
    words: &[Respelling<'_>],
) -> Result<Weighed, BookFault>
    ensures weighed { S.clean book.new.shelf → IfOk result
        (λ weighed. IsWeighed words.now (record { old = book.old.office; new = new.now })
        (S.state book.old.shelf).content.records weighed.adopts) }
    ensures question { IsQuestion S.Shelf result book.old book.new }
{
    book.still_open()?;
    let last = last_reading(alloc, book)?;
    match weigh_files(alloc, book.office(), new, words, &last) {
        Ok(weighed) => Ok(weighed),
        Err(_) => Err(BookFault::Memory),
    }
}

// The same of two offices, and of when the latest reading was taken.
fn weigh_files(
    alloc: Global,
    old: &Office,
    new: &Office,
    words: &[Respelling<'_>],
    last: &Option<Instant>,
) -> io::Result<Weighed>
    ensures { IfOk result (λ weighed. IsTrue weighed.adopts
        ↔ IsAdopted words.now last.now (record { old = old.now; new = new.now })) }
{
    let changes = changes_between(alloc, old, new)?;
    let mut text = Vec::new(alloc);
    put_changes(&mut text, words, last, old, new, changes.as_slice())?;
    let all_met = put_all_unmet(&mut text, words, old, new, changes.as_slice())?;
    let adopts = all_met && adopts(words, *last, old, new, changes.as_slice());
    Ok(Weighed { text, adopts })
}

// A line for each change, and one where there is none.
fn put_changes(
    text: &mut Vec<u8>,
    words: &[Respelling<'_>],
    last: &Option<Instant>,
    old: &Office,
    new: &Office,
    changes: &[Change],
) -> io::Result<()>
    requires { AreChanges (record { old = old.now; new = new.now }) changes.now }
{
    if changes.is_empty() {
        text.write_all(b"nothing is changed that a rule reads\n")?;
    }
    for change in changes {
        let may_be = may_be_adopted(words, *last, old, new, *change);
        put_change(text, old, new, last, *change, may_be)?;
    }
    Ok(())
}

// A line for each word that isn't met; whether there are none of these.
fn put_all_unmet(
    text: &mut Vec<u8>,
    words: &[Respelling<'_>],
    old: &Office,
    new: &Office,
    changes: &[Change],
) -> io::Result<bool>
    requires { AreChanges (record { old = old.now; new = new.now }) changes.now }
    ensures { IfOk result (λ all_met. IsTrue all_met
        ↔ All (IsMet (record { old = old.now; new = new.now })) words.now) }
{
    let mut all_met = true;
    for word in words {
        if !is_met(word, old, new, changes) {
            put_unmet(text, word)?;
            all_met = false;
        }
    }
    Ok(all_met)
}

fn put_unmet(text: &mut Vec<u8>, word: &Respelling<'_>) -> io::Result<()> {
    text.write_all(b"no line is spelt so: --rename ")?;
    text.write_all(word.old)?;
    text.write_all(b" ")?;
    text.write_all(word.new)?;
    text.write_all(b"\n")
}
