//! Rows of text that the office writes down: assignments, top-ups and withdrawals.

use crate::fault::Fault;
use crate::figures::more;
use crate::folder::Folder;
use crate::meter::{Levels, Meter};
use crate::moment::{text_of, utc_text};
use std::alloc::{AllocError, Global};
use std::mem;

/// With which file a row comes: with that of the day, or with that of the next day.
#[derive(Clone, Copy)]
pub enum Comes {
    Today,
    Tomorrow,
}

/// Rows of a kind that stand in no file yet.
#[derive(Drop)]
pub struct Rows {
    alloc: Global,
    kind: &'static str,
    header: &'static str,
    today: String,
    tomorrow: String,
}

impl Rows {
    /// No rows of a kind, whose files begin with a header.
    pub fn new(alloc: Global, kind: &'static str, header: &'static str) -> Rows {
        Rows {
            alloc,
            kind,
            header,
            today: String::new(alloc),
            tomorrow: String::new(alloc),
        }
    }

    /// Adds a row to those that come today, or tomorrow.
    pub fn add(&mut self, comes: Comes, row: &str) -> Result<(), AllocError> {
        let rows = match comes {
            Comes::Today => &mut self.today,
            Comes::Tomorrow => &mut self.tomorrow,
        };
        writeln!(rows, "{row}")
    }

    /// Makes a file of the rows that come today, and counts it, if there are any; those of tomorrow are the next.
    pub fn make_file(&mut self, folder: &mut Folder<'_>, files: &mut u32) -> Result<(), Fault> {
        if !self.today.is_empty() {
            more(files, 1);
            let text = format!(in self.alloc; "{}{}", self.header, self.today)?;
            folder.add_upload(self.kind, text.as_bytes())?;
            self.today.clear();
        }
        mem::swap(&mut self.today, &mut self.tomorrow);
        Ok(())
    }
}

/// A meter's assignment to an account or to nobody, from a second on.
pub fn assignment_row(
    alloc: Global,
    meter: &Meter,
    start: u32,
    owner: Option<u32>,
) -> Result<String, AllocError> {
    let (id, utc) = (meter.id.as_str(), utc_text(start));
    let start = text_of(&utc);
    match owner {
        Some(account) => {
            let number = account.saturating_add(1);
            format!(in alloc; "{id},{start},A{number:03}")
        }
        None => format!(in alloc; "{id},{start},"),
    }
}

/// An account's payment of so many cents at a second.
pub fn topup_row(
    alloc: Global,
    payment: u32,
    account: u32,
    cents: u64,
    second: u32,
) -> Result<String, AllocError> {
    let (number, utc) = (account.saturating_add(1), utc_text(second));
    let instant = text_of(&utc);
    format!(in alloc; "P{payment:06},A{number:03},{cents},{instant}")
}

/// A reading of a meter's first register at a second.
pub fn reading_row(
    alloc: Global,
    meter: &Meter,
    levels: &Levels,
    second: u32,
) -> Result<String, AllocError> {
    let (register, energy) = meter.first_register(levels);
    let (id, utc) = (meter.id.as_str(), utc_text(second));
    let instant = text_of(&utc);
    format!(in alloc; "{id},{register},{instant},{energy}")
}
