//! The calls on owners over time, and on differences cut into pieces and shared out. A start is written
//! `INSTANT=OWNER`.

use crate::calls::asked::Asked;
use crate::calls::names::{band_name, owner, owner_name};
use crate::calls::words::{instant, wh};
use pw_tariff::{Cell, Office, Owner, Owners, Piece, Span, apportion, pieces_of};
use pw_time::{Instant, write_utc};
use std::alloc::Global;
use std::io::Write;

pub(crate) fn answer<O: Write>(asked: &Asked<'_>, words: &[&str], out: &mut O) -> Option<()> {
    match words {
        ["owners"] => tell_owners(&[], out),
        ["owners", first, second] => {
            let starts = [
                start_of(asked.office, first)?,
                start_of(asked.office, second)?,
            ];
            tell_owners(&starts, out)
        }
        [what, from, low, to, high, rest @ ..] => {
            let span = span_of([from, low, to, high])?;
            let starts = starts_of(asked.alloc, asked.office, rest)?;
            tell_shares(asked, what, &Owners::of(&starts)?, span, out)
        }
        _ => None,
    }
}

// Whether there are owners of these starts.
fn tell_owners<O: Write>(starts: &[(Instant, Owner)], out: &mut O) -> Option<()> {
    let is_one = Owners::of(starts).is_some();
    let _ = writeln!(out, "{is_one}");
    Some(())
}

fn span_of(words: [&str; 4]) -> Option<Span> {
    let [from, low, to, high] = words;
    Some(Span {
        from: instant(from)?,
        to: instant(to)?,
        low: wh(low)?,
        high: wh(high)?,
    })
}

fn starts_of(alloc: Global, office: &Office, words: &[&str]) -> Option<Vec<(Instant, Owner)>> {
    let mut starts = Vec::new(alloc);
    for word in words {
        let start = start_of(office, word)?;
        starts.push(start).ok()?;
    }
    Some(starts)
}

fn start_of(office: &Office, word: &str) -> Option<(Instant, Owner)> {
    let (from, name) = word.split_once('=')?;
    Some((instant(from)?, owner(office, name)?))
}

// Tells what each owner gets of a difference, or the pieces that it is cut into.
fn tell_shares<O: Write>(
    asked: &Asked<'_>,
    what: &str,
    owners: &Owners<'_>,
    span: Span,
    out: &mut O,
) -> Option<()> {
    if span.from.seconds() >= span.to.seconds() || span.low.get() > span.high.get() {
        return None;
    }
    match what {
        "apportion" => {
            let cells = apportion(asked.alloc, asked.office, asked.zone, owners, span).ok()?;
            for cell in &cells {
                tell_cell(asked.office, cell, out);
            }
        }
        "pieces" => {
            let pieces = pieces_of(asked.alloc, asked.office, asked.zone, owners, span).ok()?;
            for piece in &pieces {
                tell_piece(asked.office, piece, out);
            }
        }
        _ => return None,
    }
    Some(())
}

// Tells what an owner gets in a band; behind the first period its number stands before the band.
pub(crate) fn tell_cell<O: Write>(office: &Office, cell: &Cell, out: &mut O) {
    let (owner, band) = (owner_name(office, cell.owner), band_name(office, cell.band));
    let (period, wh) = (cell.period.0, cell.wh);
    let _ = if period > 0 {
        writeln!(out, "{owner} {period} {band} {wh}")
    } else {
        writeln!(out, "{owner} {band} {wh}")
    };
}

// Where a piece begins and ends, and what its owner gets of it.
fn tell_piece<O: Write>(office: &Office, piece: &Piece, out: &mut O) {
    for end in [piece.begin, piece.until] {
        let _ = out.write_all(&write_utc(end));
        let _ = out.write_all(b" ");
    }
    let cell = Cell {
        owner: piece.owner,
        period: piece.period,
        band: piece.band,
        wh: piece.wh,
    };
    tell_cell(office, &cell, out);
}
