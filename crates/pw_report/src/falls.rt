//! The table of falls, as text: each two neighbouring readings of a register of which the later shows less.

ghost use Rattle.std.specs.Prelude.{◌≡◌, ◌++◌, IfOk, OnOk, codes, decimal};
ghost use Rattle.pw_report.specs.Layout.{instant_text as text_of_instant};
ghost use Rattle.pw_report.specs.Pages.{IsFallsText};
ghost use Rattle.pw_report.specs.Reports.{IsReport, TellsText};
ghost use Rattle.pw_report.specs.Tables.{fall_line, falls_text as text_of_falls};

use crate::names::meter_name;
use crate::put::{instant_text, put_number};
use pw_book::{Book, BookFault};
use pw_model::Fall;
use pw_obis::WattHours;
use pw_shelf::Shelf;
use pw_tariff::Office;
use pw_time::Instant;
use std::alloc::{AllocError, Global};

/// The falls, by the records held: neighbouring readings of which the later shows less. By meter, register and instant.
///
/// `Device`, `Memory` and `Reopen` (of a shut book) leave the records as they are.
pub fn falls_table<S: Shelf>(book: &mut Book<S>, alloc: Global) -> Result<Vec<u8>, BookFault>
    ensures text { TellsText S.Shelf IsFallsText result book.old book.new }
    ensures report { IsReport S.Shelf result book.old book.new }
{
    let falls = book.falls(alloc)?;
    let text = falls_text(alloc, book.office(), &falls)?;
    Ok(text)
}

#[tactic(auto, unfolding(crate::specs::Tables::falls_text))]
fn falls_text(alloc: Global, office: &Office, falls: &[Fall]) -> Result<Vec<u8>, AllocError>
    ensures { IfOk result (λ text. text.items ≡ text_of_falls office.now falls.now) }
{
    let mut text = Vec::from_slice(alloc, b"meter register from wh to wh\n")?;
    for fall in falls {
        put_fall(&mut text, office, fall)?;
    }
    Ok(text)
}

fn put_fall(text: &mut Vec<u8>, office: &Office, fall: &Fall) -> Result<(), AllocError>
    ensures { OnOk result (text.new.items ≡ text.old.items ++ fall_line office.now fall.now) }
{
    text.extend_from_slice(meter_name(office, fall.meter))?;
    text.extend_from_slice(b" ")?;
    text.extend_from_slice(fall.register.name().as_bytes())?;
    put_shown(text, fall.from, fall.high)?;
    put_shown(text, fall.to, fall.low)?;
    text.extend_from_slice(b"\n")
}

// The instant and the Wh of a reading, each behind a space.
fn put_shown(text: &mut Vec<u8>, instant: Instant, wh: WattHours) -> Result<(), AllocError>
    ensures { OnOk result (text.new.items
        ≡ text.old.items ++ (codes " " ++ text_of_instant instant ++ codes " " ++ decimal wh)) }
{
    text.extend_from_slice(b" ")?;
    text.extend_from_slice(&instant_text(instant))?;
    text.extend_from_slice(b" ")?;
    put_number(text, wh.get())
}
