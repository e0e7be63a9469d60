//! What a book answers on the time between two instants, told in lines.

use crate::calls::names::{band_name, meter_name};
use crate::calls::stretches::Stretches;
use pw_bills::{Bill, Energies, LastReading, TopUpRow, WhyPiece};
use pw_tariff::{BandId, Direction, Office, PeriodId};
use std::alloc::{AllocError, Global};
use std::io::Write;
use std::str::from_utf8;

// Of which energies: of a period, a band and a direction.
#[derive(Clone, Copy)]
pub(crate) struct Class {
    pub(crate) period: PeriodId,
    pub(crate) band: BandId,
    pub(crate) direction: Direction,
}

// Tells the balances and what was topped up between them, and the energies above 0 of these classes.
pub(crate) fn tell_bill<O: Write>(office: &Office, classes: &[Class], bill: &Bill, out: &mut O) {
    let (begin, topped_up, end) = (bill.begin, bill.topped_up, bill.end);
    let _ = writeln!(out, "begin {begin} topped {topped_up} end {end}");
    for class in classes {
        let wh = bill.wh(class.period, class.band, class.direction);
        tell_class(office, *class, wh, out);
    }
}

// Tells the energies above 0 of these classes in each stretch of time, behind its number.
pub(crate) fn tell_days<O: Write>(
    office: &Office,
    classes: &[Class],
    stretches: &Stretches,
    energies: &Energies,
    out: &mut O,
) {
    for number in 0..stretches.begins.len() {
        for class in classes {
            let wh = energies.wh(number as u16, class.period, class.band, class.direction);
            tell_class_of(office, number, *class, wh, out);
        }
    }
}

// All periods, bands and directions of an office.
pub(crate) fn classes_of(alloc: Global, office: &Office) -> Result<Vec<Class>, AllocError> {
    let mut classes = Vec::new(alloc);
    for period in 0..office.periods() {
        for band in office.band_ids() {
            for direction in [Direction::Import, Direction::Export] {
                classes.push(Class {
                    period: PeriodId(period),
                    band,
                    direction,
                })?;
            }
        }
    }
    Ok(classes)
}

fn tell_class_of<O: Write>(office: &Office, number: usize, class: Class, wh: u64, out: &mut O) {
    if wh > 0 {
        let _ = write!(out, "{number} ");
        tell_class(office, class, wh, out);
    }
}

fn tell_class<O: Write>(office: &Office, class: Class, wh: u64, out: &mut O) {
    if wh > 0 {
        let (period, band) = (class.period.0, band_name(office, class.band));
        let direction = class.direction.name();
        let _ = writeln!(out, "{period} {band} {direction} {wh}");
    }
}

// Tells a piece that gave something: a meter and a register, the two readings, where it begins and ends, and what it gives.
pub(crate) fn tell_piece<O: Write>(office: &Office, why: &WhyPiece, out: &mut O) {
    let (meter, register) = (meter_name(office, why.meter), why.register.name());
    let (from, low, to, high) = (
        why.span.from,
        why.span.low.get(),
        why.span.to,
        why.span.high.get(),
    );
    let _ = write!(out, "{meter} {register} {from} {low} {to} {high} ");
    let (begin, until, wh) = (why.piece.begin, why.piece.until, why.piece.wh);
    let (period, band) = (why.piece.period.0, band_name(office, why.piece.band));
    let _ = writeln!(out, "{begin} {until} {period} {band} {wh}");
}

// Tells a meter and a register, and its latest reading, `-` where there is none.
pub(crate) fn tell_last<O: Write>(office: &Office, row: &LastReading, out: &mut O) {
    let (meter, register) = (meter_name(office, row.meter), row.register.name());
    let _ = match row.last {
        Some((instant, shown)) => writeln!(out, "{meter} {register} {instant} {}", shown.get()),
        None => writeln!(out, "{meter} {register} -"),
    };
}

// Tells a top-up that counts.
pub(crate) fn tell_row<O: Write>(row: &TopUpRow, out: &mut O) {
    let reference = from_utf8(row.reference.bytes()).unwrap_or("-");
    let (cents, instant) = (row.cents, row.instant);
    let _ = writeln!(out, "{reference} {cents} {instant}");
}
