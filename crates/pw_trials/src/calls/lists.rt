//! The calls that list falls, disputes, readings and points. Behind `last` all but the last row is left out.

use crate::calls::asked::Asked;
use crate::calls::entries::tell_key;
use crate::calls::meaning::MOST_RECORDS;
use crate::calls::names::{meter, meter_name};
use crate::calls::words::register;
use pw_flow::plain::Point;
use pw_model::plain::{disputes, falls, points_of, readings};
use pw_model::{Dispute, Fall, ReadingRow};
use pw_tariff::Office;
use std::io::Write;

pub(crate) fn answer<O: Write>(asked: &Asked<'_>, words: &[&str], out: &mut O) -> Option<()> {
    match words {
        ["last", rest @ ..] => answer_list(asked, rest, true, out),
        _ => answer_list(asked, words, false, out),
    }
}

fn answer_list<O: Write>(
    asked: &Asked<'_>,
    words: &[&str],
    is_last: bool,
    out: &mut O,
) -> Option<()> {
    let (alloc, office, entries) = (asked.alloc, asked.office, asked.entries);
    match words {
        ["falls"] => tell_falls(office, &falls(alloc, entries).ok()?, is_last, out),
        ["disputes"] if entries.len() <= MOST_RECORDS => {
            tell_disputes(office, &disputes(alloc, entries).ok()?, is_last, out);
        }
        [list, name, of] => {
            let (meter, register) = (meter(office, name)?, register(of)?);
            match *list {
                "readings" => {
                    let rows = readings(alloc, entries, meter, register).ok()?;
                    tell_readings(&rows, is_last, out);
                }
                "points" => {
                    let points = points_of(alloc, entries, meter, register).ok()?;
                    tell_points(&points, is_last, out);
                }
                _ => return None,
            }
        }
        _ => return None,
    }
    Some(())
}

// The rows that are told.
fn told<T>(rows: &[T], is_last: bool) -> &[T] {
    if is_last {
        &rows[rows.len().saturating_sub(1)..]
    } else {
        rows
    }
}

fn tell_falls<O: Write>(office: &Office, falls: &[Fall], is_last: bool, out: &mut O) {
    for fall in told(falls, is_last) {
        tell_fall(office, fall, out);
    }
    let count = falls.len();
    let _ = writeln!(out, "{count} falls");
}

fn tell_fall<O: Write>(office: &Office, fall: &Fall, out: &mut O) {
    let (meter, register) = (meter_name(office, fall.meter), fall.register.name());
    let (from, high, to, low) = (fall.from, fall.high.get(), fall.to, fall.low.get());
    let _ = writeln!(out, "{meter} {register} {from} {high} {to} {low}");
}

fn tell_disputes<O: Write>(office: &Office, disputes: &[Dispute], is_last: bool, out: &mut O) {
    for dispute in told(disputes, is_last) {
        tell_key(office, &dispute.key, out);
        let contents = dispute.contents;
        let _ = writeln!(out, " {contents}");
    }
    let count = disputes.len();
    let of_two = disputes
        .iter()
        .filter(|dispute| dispute.contents == 2)
        .count();
    let _ = writeln!(out, "{count} disputes, {of_two} of two records");
}

fn tell_readings<O: Write>(rows: &[ReadingRow], is_last: bool, out: &mut O) {
    for row in told(rows, is_last) {
        tell_reading(row, out);
    }
    let count = rows.len();
    let counting = rows.iter().filter(|row| row.counted).count();
    let _ = writeln!(out, "{count} readings, {counting} counting");
}

fn tell_reading<O: Write>(row: &ReadingRow, out: &mut O) {
    let (instant, wh) = (row.instant, row.wh.get());
    let mark = mark_of(row);
    let _ = writeln!(out, "{instant} {wh} {mark}");
}

fn mark_of(row: &ReadingRow) -> &'static str {
    if row.withdrawn {
        "withdrawn"
    } else if row.counted {
        "counts"
    } else {
        "disputed"
    }
}

fn tell_points<O: Write>(points: &[Point], is_last: bool, out: &mut O) {
    for point in told(points, is_last) {
        let (at, wh) = (point.at, point.watt_hours);
        let _ = writeln!(out, "{at} {wh}");
    }
    let count = points.len();
    let _ = writeln!(out, "{count} points");
}
