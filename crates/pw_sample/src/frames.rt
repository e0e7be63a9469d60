//! Telegrams and readouts as text.

use crate::meter::{Clock, Levels, Meter, Shown};
use crate::moment::{day_begin, push_digits, push_stamp, text_of, utc_text};
use pw_frame::{block_check, crc16};
use std::alloc::{AllocError, Global};

// How a register's value is told: in kWh with three decimals, or in whole Wh.
#[derive(Clone, Copy)]
enum Unit {
    KilowattHours,
    WattHours,
}

/// The telegram that a meter sends at a second (DSMR P1), with its CRC16.
pub fn telegram(
    alloc: Global,
    meter: &Meter,
    levels: &Levels,
    second: u32,
) -> Result<Vec<u8>, AllocError> {
    let mut text = String::new(alloc);
    push_telegram(&mut text, meter, levels, second)?;
    Ok(text.into_bytes())
}

fn push_telegram(
    text: &mut String,
    meter: &Meter,
    levels: &Levels,
    second: u32,
) -> Result<(), AllocError> {
    text.push_str("/PWB5SAMPLE\r\n\r\n1-3:0.2.8(50)\r\n0-0:1.0.0(")?;
    push_stamp(text, second)?;
    let id = meter.id.as_str();
    write!(text, ")\r\n0-0:96.1.1({id})\r\n")?;
    push_registers(text, "1-0:", meter, levels, Unit::KilowattHours)?;
    text.push_str("0-0:96.14.0(0002)\r\n1-0:1.7.0(00.318*kW)\r\n!")?;
    let check = crc16(text.as_bytes());
    write!(text, "{check:04X}\r\n")
}

/// The readout that a meter sends at five minutes past midnight of a day by its clock (IEC 62056-21), with its block check.
pub fn readout(alloc: Global, meter: &Meter, day: u32) -> Result<Vec<u8>, AllocError> {
    let mut text = String::new(alloc);
    push_block(&mut text, meter, day)?;
    let (id, check) = (meter.id.as_str(), block_check(text.as_bytes()));
    let check = char::from(check);
    let frame = format!(in alloc; "/PWB5{id}\r\n\x02{text}{check}")?;
    Ok(frame.into_bytes())
}

// What stands between the two checked characters of a readout, and the second of them.
fn push_block(text: &mut String, meter: &Meter, day: u32) -> Result<(), AllocError> {
    let utc = utc_text(day_begin(day));
    match meter.clock {
        Clock::Local => {
            let date = text_of(&utc[2..10]);
            write!(text, "0.9.1(00:05:00)\r\n0.9.2({date})\r\n")?;
            push_registers(text, "1-1:", meter, &meter.levels, Unit::WattHours)?;
        }
        _ => {
            text.push_str("0.9.1(000500)\r\n0.9.2(")?;
            push_digits(text, &utc[2..10])?;
            text.push_str(")\r\n")?;
            push_registers(text, "", meter, &meter.levels, Unit::KilowattHours)?;
        }
    }
    text.push_str("!\r\n\x03")
}

// The lines of the registers, each address behind a prefix.
fn push_registers(
    text: &mut String,
    prefix: &str,
    meter: &Meter,
    levels: &Levels,
    unit: Unit,
) -> Result<(), AllocError> {
    push_direction(text, prefix, 1, meter.shown, &levels.import, unit)?;
    if meter.exports {
        push_direction(text, prefix, 2, meter.shown, &levels.export, unit)?;
    }
    Ok(())
}

fn push_direction(
    text: &mut String,
    prefix: &str,
    direction: u8,
    shown: Shown,
    rates: &[u64; 2],
    unit: Unit,
) -> Result<(), AllocError> {
    match shown {
        Shown::Totals => {
            let total = rates[0].saturating_add(rates[1]);
            push_value(text, prefix, direction, 0, total, unit)
        }
        Shown::Rates => {
            push_value(text, prefix, direction, 1, rates[0], unit)?;
            push_value(text, prefix, direction, 2, rates[1], unit)
        }
    }
}

// The line of a register, by the digits of its address.
fn push_value(
    text: &mut String,
    prefix: &str,
    direction: u8,
    rate: u8,
    energy: u64,
    unit: Unit,
) -> Result<(), AllocError> {
    match unit {
        Unit::KilowattHours => {
            let (whole, rest) = (energy / 1000, energy % 1000);
            write!(
                text,
                "{prefix}{direction}.8.{rate}({whole:06}.{rest:03}*kWh)\r\n"
            )
        }
        Unit::WattHours => write!(text, "{prefix}{direction}.8.{rate}({energy}*Wh)\r\n"),
    }
}
