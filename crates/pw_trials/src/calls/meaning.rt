//! The calls on what records of the office mean.

ghost use Rattle.std.specs.Prelude.{◌≤◌, IsTrue, length};
ghost use Rattle.pw_model.specs.Office.{AllOfOffice, most_records};
ghost use Rattle.pw_tariff.specs.Office.{office_of};

use crate::calls::asked::Asked;
use crate::calls::entries::{tell_content, tell_key};
use crate::calls::names::{account, band_name, owner_name, period};
use crate::calls::shares::tell_cell;
use pw_model::plain::{OfficeTerms, are_of_office, balance, energy, energy_in};
use pw_model::{Entry, TotalKey};
use pw_parts::{Parts, true_parts};
use pw_tariff::{AccountId, BandId, Cell, Direction, Office, Owner, PeriodId};
use std::io::Write;

// Of which energies: of all periods or of one, and the direction.
type Part = (Option<PeriodId>, Direction);

// The most records of an office.
pub(crate) const MOST_RECORDS: usize = 10_000_000;

pub(crate) fn answer<O: Write>(asked: &Asked<'_>, words: &[&str], out: &mut O) -> Option<()> {
    let is_of_office = is_sound(asked);
    match words {
        ["of_office"] => {
            let _ = writeln!(out, "{is_of_office}");
            Some(())
        }
        _ if is_of_office => answer_sound(asked, words, out),
        _ => None,
    }
}

// Whether these can be the records of an office.
fn is_sound(asked: &Asked<'_>) -> bool
    ensures of_office { IsTrue result → AllOfOffice (office_of asked.now.office.now)
        asked.now.entries.now }
    ensures few { IsTrue result → length asked.now.entries.now ≤ most_records }
{
    let terms = OfficeTerms::new(asked.office, asked.zone);
    are_of_office(&terms, asked.entries) && asked.entries.len() <= MOST_RECORDS
}

fn answer_sound<O: Write>(asked: &Asked<'_>, words: &[&str], out: &mut O) -> Option<()>
    requires of_office { AllOfOffice (office_of asked.now.office.now) asked.now.entries.now }
    requires few { length asked.now.entries.now ≤ most_records }
{
    match words {
        ["imported", rest @ ..] => tell_energies(asked, (part_of(rest)?, Direction::Import), out),
        ["exported", rest @ ..] => tell_energies(asked, (part_of(rest)?, Direction::Export), out),
        ["balance", name] => {
            let terms = OfficeTerms::new(asked.office, asked.zone);
            let account = account(asked.office, name)?;
            let nano = balance(asked.alloc, &terms, asked.entries, account).ok()?;
            let _ = writeln!(out, "{nano}");
            Some(())
        }
        ["parts"] => tell_parts(asked, out),
        _ => None,
    }
}

// All periods where there is no word, or the one of a number.
fn part_of(words: &[&str]) -> Option<Option<PeriodId>> {
    match words {
        [] => Some(None),
        [number] => Some(Some(period(number)?)),
        _ => None,
    }
}

// The energies above 0 in a direction, nobody's first, one band after another: of all periods, or of one.
fn tell_energies<O: Write>(asked: &Asked<'_>, of: Part, out: &mut O) -> Option<()>
    requires of_office { AllOfOffice (office_of asked.now.office.now) asked.now.entries.now }
    requires few { length asked.now.entries.now ≤ most_records }
{
    tell_energies_of(asked, None, of, out)?;
    for account in 0..asked.office.accounts() {
        tell_energies_of(asked, Some(AccountId(account)), of, out)?;
    }
    Some(())
}

fn tell_energies_of<O: Write>(asked: &Asked<'_>, owner: Owner, of: Part, out: &mut O) -> Option<()>
    requires of_office { AllOfOffice (office_of asked.now.office.now) asked.now.entries.now }
    requires few { length asked.now.entries.now ≤ most_records }
{
    for band in 0..asked.office.bands() {
        let wh = energy_asked(asked, owner, BandId(band), of)?;
        if wh > 0 {
            let cell = Cell {
                owner,
                period: of.0.unwrap_or(PeriodId(0)),
                band: BandId(band),
                wh,
            };
            tell_cell(asked.office, &cell, out);
        }
    }
    Some(())
}

fn energy_asked(asked: &Asked<'_>, owner: Owner, band: BandId, of: Part) -> Option<u64>
    requires of_office { AllOfOffice (office_of asked.now.office.now) asked.now.entries.now }
    requires few { length asked.now.entries.now ≤ most_records }
{
    let (alloc, entries) = (asked.alloc, asked.entries);
    let terms = OfficeTerms::new(asked.office, asked.zone);
    let told = match of {
        (None, direction) => energy(alloc, &terms, entries, owner, band, direction),
        (Some(period), direction) => {
            energy_in(alloc, &terms, entries, owner, period, band, direction)
        }
    };
    told.ok()
}

// The points, the starts and the totals.
fn tell_parts<O: Write>(asked: &Asked<'_>, out: &mut O) -> Option<()>
    requires of_office { AllOfOffice (office_of asked.now.office.now) asked.now.entries.now }
    requires few { length asked.now.entries.now ≤ most_records }
{
    let parts = true_parts(asked.alloc, asked.office, asked.zone, asked.entries).ok()?;
    tell_all(asked.office, &parts, out);
    Some(())
}

fn tell_all<O: Write>(office: &Office, parts: &Parts, out: &mut O) {
    tell_entries(office, &parts.points, out);
    tell_entries(office, &parts.starts, out);
    for (key, amount) in &parts.totals {
        tell_total(office, *key, *amount, out);
    }
}

fn tell_entries<O: Write>(office: &Office, entries: &[Entry], out: &mut O) {
    for entry in entries {
        tell_key(office, &entry.key, out);
        let _ = out.write_all(b" ");
        tell_content(office, &entry.content, out);
    }
    let count = entries.len();
    let _ = writeln!(out, "{count} records");
}

fn tell_total<O: Write>(office: &Office, key: TotalKey, amount: u64, out: &mut O) {
    match key {
        TotalKey::Energy {
            owner,
            period,
            band,
            direction,
        } => {
            let (owner, band) = (owner_name(office, owner), band_name(office, band));
            let (period, direction) = (period.0, direction.name());
            let _ = if period > 0 {
                writeln!(out, "{owner} {period} {band} {direction} {amount}")
            } else {
                writeln!(out, "{owner} {band} {direction} {amount}")
            };
        }
        TotalKey::TopUps { account } => {
            let account = owner_name(office, Some(account));
            let _ = writeln!(out, "{account} topped up {amount}");
        }
    }
}
