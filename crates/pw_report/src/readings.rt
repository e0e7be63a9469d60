//! The export of readings, as CSV: each reading held, with a mark that says whether it counts, doesn't, or is withdrawn.

ghost use Rattle.std.specs.Prelude.{◌≡◌, ◌<◌, List, IfErr, false, length};
ghost use Rattle.std.specs.List.{flat_map};
ghost use Rattle.pw_book.specs.declared.fault.BookFault.TheVariants.{Memory};
ghost use Rattle.pw_model.specs.Lists.{AreReadings};
ghost use Rattle.pw_model.specs.declared.records.ReadingRow.{ReadingRow as AReading};
ghost use Rattle.pw_obis.specs.declared.reference.Register.{Register as ARegister};
ghost use Rattle.pw_report.specs.Exports.{csv_line, mark, meter_lines, reading_line, readings_header};
ghost use Rattle.pw_report.specs.Names.{meter_name as name_of_meter};
ghost use Rattle.pw_report.specs.Pages.{IsReadingsText};
ghost use Rattle.pw_report.specs.Reports.{IsReport, TellsText};
ghost use Rattle.pw_report.specs.inner.Rows.{AddsLines};
ghost use Rattle.pw_report.specs.inner.Told.{shown_line};

use crate::names::meter_name;
use crate::put::instant_text;
use crate::readiness::still_open;
use crate::rows::{Rows, Tells, tell_each};
use itoa::Buffer;
use pw_book::{Book, BookFault};
use pw_model::ReadingRow;
use pw_obis::Register;
use pw_shelf::Shelf;
use pw_tariff::MeterId;
use std::alloc::Global;

// The register whose readings are told, with the name of its meter.
#[derive(Drop)]
struct Shown<'a> {
    meter: &'a [u8],
    register: Register,
}

/// All readings held, as CSV, each with whether it counts, doesn't, or is withdrawn. By meter, register, instant and Wh.
///
/// `Device`, `Memory` and `Reopen` (of a shut book) leave the records as they are.
pub fn export_readings<S: Shelf>(book: &mut Book<S>, alloc: Global) -> Result<Vec<u8>, BookFault>
    ensures text { TellsText S.Shelf IsReadingsText result book.old book.new }
    ensures report { IsReport S.Shelf result book.old book.new }
{
    still_open(book)?;
    let mut rows = Rows::new(alloc);
    put_header(&mut rows)?;
    for meter in 0..book.office().meters() {
        put_meter(book, alloc, MeterId(meter), &mut rows)?;
    }
    rows.finish()
}

// Writes the header, which all readings and those of one meter have in common.
pub(crate) fn put_header(rows: &mut Rows) -> Result<(), BookFault>
    ensures text { AddsLines result (csv_line readings_header) rows.old rows.new }
    ensures fault { IfErr result (λ fault. fault ≡ Memory) }
{
    rows.put_header(&[b"meter", b"register", b"instant", b"wh", b"counted"])
}

// Writes the readings of a meter, register by register.
pub(crate) fn put_meter<S: Shelf>(
    book: &mut Book<S>,
    alloc: Global,
    meter: MeterId,
    rows: &mut Rows,
) -> Result<(), BookFault>
    requires meter { meter.0 < length book.old.office.meters }
    requires open_yet { book.old.shut ≡ false }
    ensures text { S.clean book.new.shelf → (readings : ARegister → List AReading)
        → ((r : ARegister) → AreReadings (S.state book.old.shelf).content.records meter.0 r
        (readings r)) → AddsLines result
        (meter_lines (name_of_meter book.old.office meter.0) readings) rows.old rows.new }
    ensures report { IsReport S.Shelf result book.old book.new }
{
    for register in &Register::ALL {
        put_register(book, alloc, meter, *register, rows)?;
    }
    Ok(())
}

// Writes the readings of a meter's register.
fn put_register<S: Shelf>(
    book: &mut Book<S>,
    alloc: Global,
    meter: MeterId,
    register: Register,
    rows: &mut Rows,
) -> Result<(), BookFault>
    requires meter { meter.0 < length book.old.office.meters }
    requires open_yet { book.old.shut ≡ false }
    ensures text { S.clean book.new.shelf → (readings : List AReading)
        → AreReadings (S.state book.old.shelf).content.records meter.0 register readings
        → AddsLines result (flat_map
        (reading_line (name_of_meter book.old.office meter.0) register) readings) rows.old
        rows.new }
    ensures report { IsReport S.Shelf result book.old book.new }
{
    let readings = book.readings(alloc, meter, register)?;
    let shown = Shown {
        meter: meter_name(book.office(), meter),
        register,
    };
    tell_each(rows, &shown, &readings)
}

impl Tells<ReadingRow> for Shown<'_> {
    ghost line = { shown_line };

    fn tell(&self, rows: &mut Rows, reading: &ReadingRow) -> Result<(), BookFault> {
        rows.put_field(self.meter)?;
        rows.put_field(self.register.name().as_bytes())?;
        rows.put_field(&instant_text(reading.instant))?;
        rows.put_field(Buffer::new().format(reading.wh.get()).as_bytes())?;
        rows.put_field(mark_of(reading))?;
        rows.end()
    }
}

fn mark_of(reading: &ReadingRow) -> &'static [u8]
    ensures { result.now ≡ mark reading.now }
{
    if reading.withdrawn {
        b"w"
    } else if reading.counted {
        b"1"
    } else {
        b"0"
    }
}
