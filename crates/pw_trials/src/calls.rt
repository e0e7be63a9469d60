//! Calls in words: each line of the input is a call, and what it answers is told.
//!
//! A line that tells a record adds it to those that are held; what is asked of records is asked of these. What they mean
//! is told by the plain program of the definitions, and by `true_parts`, with no store and no book below; but the questions
//! on the time between two instants are asked of a book over a store in memory, new for each.
//!
//! Behind the line `no memory`, which is told again, lines are answered where none is given, up to `memory again`. So all
//! lines are read first.

mod asked;
mod billed;
mod bills;
mod counting;
mod days;
pub(crate) mod entries;
mod faults;
mod flows;
mod frames;
mod instants;
mod large;
mod lists;
mod meaning;
mod names;
mod sets;
mod shares;
mod stretches;
mod terms;
mod words;

use crate::tell;
use asked::Asked;
use entries::entry_of;
use pw_model::Entry;
use pw_tariff::Office;
use pw_time::Zone;
use std::alloc::{AllocError, Global};
use std::fs;
use std::io::{self, Write};
use std::str::from_utf8;
use words::{bytes_of, words_of};

// The exit status where the calls can't be made.
const FAILED: u8 = 3;

// Answers the lines of the input for the office of a file, and tells the exit status.
pub(crate) fn answer_calls(rt: &HostRuntime, path: &str) -> u8 {
    let answered = match fs::read(rt, path) {
        Ok(text) => answer_for(rt, &text),
        Err(_) => None,
    };
    match answered {
        Some(status) => status,
        None => {
            let _ = rt.stderr().write_all(b"pw_trials: no office file\n");
            FAILED
        }
    }
}

// Answers the lines for the office of a text, if it is one.
fn answer_for(rt: &HostRuntime, text: &[u8]) -> Option<u8> {
    let office = Office::read(rt.alloc(), text).ok()?;
    match answer_lines(rt, text, &office) {
        Ok(()) => Some(0),
        Err(_) => Some(FAILED),
    }
}

fn answer_lines(rt: &HostRuntime, text: &[u8], office: &Office) -> io::Result<()> {
    let zone = Zone::central();
    let lines = lines_of(rt)?;
    let mut entries = Vec::new(rt.alloc());
    for line in &lines {
        answer(
            rt.alloc(),
            text,
            office,
            &zone,
            &mut entries,
            line,
            &mut rt.stdout(),
        )?;
    }
    Ok(())
}

// The bytes of all lines.
fn lines_of(rt: &HostRuntime) -> io::Result<Vec<Vec<u8>>> {
    let mut lines = Vec::new(rt.alloc());
    for line in rt.lines(rt.alloc()) {
        let line = line?;
        let bytes = bytes_of(rt.alloc(), &line)?;
        lines.push(bytes)?;
    }
    Ok(lines)
}

// Answers one line.
fn answer<O: Write>(
    alloc: Global,
    text: &[u8],
    office: &Office,
    zone: &Zone,
    entries: &mut Vec<Entry>,
    line: &[u8],
    out: &mut O,
) -> Result<(), AllocError> {
    let line = from_utf8(line).unwrap_or("");
    let words = words_of(line);
    match words.as_slice() {
        ["forget"] => entries.clear(),
        ["blocks"] => large::push_blocks(alloc, entries)?,
        ["no", "memory"] => tell(out, b"no memory\n"),
        ["memory", "again"] => tell(out, b"memory again\n"),
        _ => match entry_of(office, &words) {
            Some(entry) => entries.extend_from_slice(&[entry])?,
            None => {
                let asked = Asked {
                    alloc,
                    text,
                    office,
                    zone,
                    entries,
                };
                if tell_answer(&asked, &words, out).is_none() {
                    let _ = writeln!(out, "not understood: {line}");
                }
            }
        },
    }
    Ok(())
}

// Tells what a call answers, by its first word.
fn tell_answer<O: Write>(asked: &Asked<'_>, words: &[&str], out: &mut O) -> Option<()> {
    let [name, ..] = words else {
        return None;
    };
    match *name {
        "crc16" | "block_check" | "frames" => frames::answer(words, out),
        "code" | "sets" | "registers" | "watt_hours" => sets::answer(words, out),
        "utc" | "stamp" | "readout_instant" | "instant" | "week_hour" | "days_read_back" => {
            instants::answer(asked.zone, words, out)
        }
        "want_of_memory" => faults::answer(words, out),
        "day_begin" | "month_span" | "days_of_hours" | "months_in_turn" => {
            days::answer(asked.zone, words, out)
        }
        "terms"
        | "names"
        | "clock"
        | "counts"
        | "band"
        | "band_of_hour"
        | "period"
        | "period_start"
        | "price" => terms::answer(asked, words, out),
        "owners" | "apportion" | "pieces" => shares::answer(asked, words, out),
        "level" | "flow" => flows::answer(asked, words, out),
        "contents_at" | "owner_at" | "topped_up" | "reference" | "compare" | "named" => {
            counting::answer(asked, words, out)
        }
        "bill" | "why" | "topups" | "latest" | "energy" | "energy_in" | "days" | "empty_book" =>
            bills::answer(asked, words, out),
        "last" | "falls" | "disputes" | "readings" | "points" => lists::answer(asked, words, out),
        _ => meaning::answer(asked, words, out),
    }
}
