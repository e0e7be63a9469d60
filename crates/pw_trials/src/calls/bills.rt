//! The questions to a book on the time between two instants: `bill ACCOUNT FROM UNTIL`, and so `why`, `topups` and `latest`;
//! `energy ACCOUNT PERIOD BAND DIRECTION FROM UNTIL`, with the period and the band by their numbers, from 0; and
//! `days ACCOUNT BEGIN.. END`. The last word may be `end`, the second behind all instants. `energy_in OWNER PERIOD BAND
//! DIRECTION` asks for an energy within a period, however long that is.
//!
//! Each is asked of a new book over a store in memory, which has taken the records that are held. The last line tells
//! how many calls of the store and rows the question took. `empty_book` makes a book that has taken nothing: it tells
//! how many calls and rows that took, how many records there are, and how many calls and rows there were then.

ghost use Rattle.std.specs.Prelude.{◌<◌, IsTrue, length};
ghost use Rattle.pw_model.specs.Office.{HasOwner};
ghost use Rattle.pw_tariff.specs.Office.{office_of, periods_in};

use crate::calls::asked::Asked;
use crate::calls::billed::{
    Class, classes_of, tell_bill, tell_days, tell_last, tell_piece, tell_row,
};
use crate::calls::names::{account, band, direction, owner, period};
use crate::calls::stretches::{Interval, Stretches};
use crate::calls::words::{end, instant};
use crate::posts::post;
use crate::shelves::counting_book;
use pw_bills::{bill, days, energy_between, read_up_to, top_ups_between, why};
use pw_book::{Book, BookFault, PostFault};
use pw_model::has_owner;
use pw_shelf::{CountShelf, Shelf};
use pw_tariff::{AccountId, Office, Owner};
use pw_time::Instant;
use std::alloc::Global;
use std::io::Write;

// The most records that the book takes.
const LIMIT: u32 = 10_000_000;

// What is asked about an account.
#[derive(Drop)]
enum Question {
    Bill(Interval),
    Why(Interval),
    TopUps(Interval),
    Latest(Interval),
    Energy(Interval, Class),
    EnergyIn(Owner, Class),
    Days(Stretches),
}

pub(crate) fn answer<O: Write>(asked: &Asked<'_>, words: &[&str], out: &mut O) -> Option<()> {
    match words {
        ["empty_book"] => tell_empty_book(asked, out),
        ["days", name, rest @ ..] => answer_days(asked, account(asked.office, name)?, rest, out),
        _ => ask(asked, &interval_question(asked.office, words)?, out),
    }
}

// Of stretches of time: their begins, and the end of the last one.
fn answer_days<O: Write>(
    asked: &Asked<'_>,
    account: AccountId,
    words: &[&str],
    out: &mut O,
) -> Option<()> {
    let (until, begins) = words.split_last()?;
    let begins = instants(asked.alloc, begins)?;
    let stretches = Stretches::of(account, begins, end(until)?)?;
    ask(asked, &Question::Days(stretches), out)
}

fn instants(alloc: Global, words: &[&str]) -> Option<Vec<Instant>> {
    let mut instants = Vec::new(alloc);
    for word in words {
        let at = instant(word)?;
        instants.push(at).ok()?;
    }
    Some(instants)
}

// A question on one interval, or on a period.
fn interval_question(office: &Office, words: &[&str]) -> Option<Question> {
    match words {
        ["energy", name, number, letter, word, from, until] => {
            let class = class_of([number, letter, word])?;
            let interval = interval(office, [name, from, until])?;
            Some(Question::Energy(interval, class))
        }
        ["energy_in", name, number, letter, word] => {
            let class = class_of([number, letter, word])?;
            Some(Question::EnergyIn(owner(office, name)?, class))
        }
        [kind, name, from, until] => {
            let interval = interval(office, [name, from, until])?;
            question_of(kind, interval)
        }
        _ => None,
    }
}

// A period and a band, by their numbers, and a direction.
fn class_of(words: [&str; 3]) -> Option<Class> {
    let [number, letter, word] = words;
    Some(Class {
        period: period(number)?,
        band: band(letter)?,
        direction: direction(word)?,
    })
}

fn question_of(kind: &str, interval: Interval) -> Option<Question> {
    match kind {
        "bill" => Some(Question::Bill(interval)),
        "why" => Some(Question::Why(interval)),
        "topups" => Some(Question::TopUps(interval)),
        "latest" => Some(Question::Latest(interval)),
        _ => None,
    }
}

fn interval(office: &Office, words: [&str; 3]) -> Option<Interval> {
    let [name, from, until] = words;
    Interval::of(account(office, name)?, instant(from)?, end(until)?)
}

// Makes the book, lends it to the question, and drops it.
fn ask<O: Write>(asked: &Asked<'_>, question: &Question, out: &mut O) -> Option<()> {
    let office = Office::read(asked.alloc, asked.text).ok()?;
    ask_of(
        asked,
        &mut counting_book(asked.alloc, office, LIMIT),
        question,
        out,
    )
}

// Makes a book that holds nothing.
fn tell_empty_book<O: Write>(asked: &Asked<'_>, out: &mut O) -> Option<()> {
    let office = Office::read(asked.alloc, asked.text).ok()?;
    tell_empty(&mut counting_book(asked.alloc, office, LIMIT), out);
    Some(())
}

// Tells how many calls and rows there were, how many records a book holds, and how many calls and rows there were then.
fn tell_empty<O: Write, S: Shelf>(book: &mut Book<CountShelf<S>>, out: &mut O) {
    let made = book.shelf.seen();
    let _ = writeln!(out, "reads {made}");
    let _ = match book.count() {
        Ok(held) => writeln!(out, "{held} records"),
        Err(fault) => writeln!(out, "{}", fault.line().as_str()),
    };
    let asked = book.shelf.seen();
    let _ = writeln!(out, "reads {asked}");
}

// Posts the records that are held, if they are the office's, and asks.
fn ask_of<O: Write, S: Shelf>(
    asked: &Asked<'_>,
    book: &mut Book<CountShelf<S>>,
    question: &Question,
    out: &mut O,
) -> Option<()> {
    match post(asked.alloc, book, asked.entries) {
        Ok(_) => tell_counted(asked, book, question, out),
        Err(PostFault::Reopen) => return None,
        Err(fault) => {
            let _ = writeln!(out, "{}", fault.line().as_str());
        }
    }
    Some(())
}

// Tells what is answered, and how many calls and rows it took.
fn tell_counted<O: Write, S: Shelf>(
    asked: &Asked<'_>,
    book: &mut Book<CountShelf<S>>,
    question: &Question,
    out: &mut O,
) {
    let before = book.shelf.seen();
    if let Err(fault) = tell_answer(asked, book, question, out) {
        let _ = writeln!(out, "{}", fault.line().as_str());
    }
    let reads = book.shelf.seen().saturating_sub(before);
    let _ = writeln!(out, "reads {reads}");
}

// Asks the book, and tells what it answers. There is no bill of an account that the office doesn't have.
fn tell_answer<O: Write, S: Shelf>(
    asked: &Asked<'_>,
    book: &mut Book<S>,
    question: &Question,
    out: &mut O,
) -> Result<(), BookFault> {
    let (alloc, office) = (asked.alloc, asked.office);
    match question {
        Question::Bill(it) if it.account.0 >= book.office().accounts() => {}
        Question::Bill(it) => {
            let classes = classes_of(alloc, office)?;
            let bill = bill(book, alloc, it.account, it.from, it.until)?;
            tell_bill(office, &classes, &bill, out);
        }
        Question::Why(it) => {
            for piece in &why(book, alloc, it.account, it.from, it.until)? {
                tell_piece(office, piece, out);
            }
        }
        Question::TopUps(it) => {
            for row in &top_ups_between(book, alloc, it.account, it.from, it.until)? {
                tell_row(row, out);
            }
        }
        Question::Latest(it) => {
            for row in &read_up_to(book, alloc, it.account, it.from, it.until)? {
                tell_last(office, row, out);
            }
        }
        Question::Energy(it, class) => tell_energy(asked, book, it, *class, out)?,
        Question::EnergyIn(owner, class) => tell_energy_in(book, *owner, *class, out)?,
        Question::Days(it) => {
            let classes = classes_of(alloc, office)?;
            let energies = days(book, alloc, it.account, &it.begins, it.end)?;
            tell_days(office, &classes, it, &energies, out);
        }
    }
    Ok(())
}

fn tell_energy<O: Write, S: Shelf>(
    asked: &Asked<'_>,
    book: &mut Book<S>,
    interval: &Interval,
    class: Class,
    out: &mut O,
) -> Result<(), BookFault> {
    let Class {
        period,
        band,
        direction,
    } = class;
    let (account, from, until) = (interval.account, interval.from, interval.until);
    let wh = energy_between(
        book,
        asked.alloc,
        account,
        period,
        band,
        direction,
        from,
        until,
    )?;
    let _ = writeln!(out, "{wh}");
    Ok(())
}

// Whether an office has this owner, this period and this band.
fn has_class(office: &Office, owner: Owner, class: Class) -> bool
    ensures owner { IsTrue result → HasOwner (office_of office.now) owner }
    ensures period { IsTrue result → class.period.0 < periods_in office.now }
    ensures band { IsTrue result → class.band.0 < length office.now.bands }
{
    has_owner(office, &owner) && class.period.0 < office.periods() && class.band.0 < office.bands()
}

// Tells the energy of an owner within a period. There is none of what the office doesn't have.
fn tell_energy_in<O: Write, S: Shelf>(
    book: &mut Book<S>,
    owner: Owner,
    class: Class,
    out: &mut O,
) -> Result<(), BookFault> {
    if !has_class(book.office(), owner, class) {
        return Ok(());
    }
    let wh = book.energy_in(owner, class.period, class.band, class.direction)?;
    let _ = writeln!(out, "{wh}");
    Ok(())
}
