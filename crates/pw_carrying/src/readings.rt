//! The latest reading that isn't withdrawn.

ghost use Rattle.std.specs.Prelude.{◌≡◌, ◌<◌, IfOk, false, length, not};
ghost use Rattle.pw_book.specs.Questions.{IsQuestion};
ghost use Rattle.pw_carrying.specs.LastReading.{IsLastReading};
ghost use Rattle.pw_carrying.specs.inner.Latest.{IsLastOf, IsReadAmong, IsReadOf, IsReadOfMeter, later};

use pw_book::{Book, BookFault};
use pw_model::ReadingRow;
use pw_obis::Register;
use pw_shelf::Shelf;
use pw_tariff::MeterId;
use pw_time::Instant;
use std::alloc::Global;

/// The instant of the latest reading held that isn't withdrawn, whether it counts or not; none where there is no such
/// reading.
///
/// As with each question to a book, `Device`, `Memory` and `Reopen` (of a shut book) leave the records as they are.
pub fn last_reading<S: Shelf>(
    alloc: Global,
    book: &mut Book<S>,
) -> Result<Option<Instant>, BookFault>
    ensures last { S.clean book.new.shelf → IfOk result
        (λ last. IsLastReading (S.state book.old.shelf).content.records last) }
    ensures question { IsQuestion S.Shelf result book.old book.new }
{
    book.still_open()?;
    let mut last = None;
    for meter in 0..book.office().meters() {
        let here = last_of_meter(alloc, book, MeterId(meter))?;
        last = later(last, here);
    }
    Ok(last)
}

// The latest of a meter.
fn last_of_meter<S: Shelf>(
    alloc: Global,
    book: &mut Book<S>,
    meter: MeterId,
) -> Result<Option<Instant>, BookFault>
    requires meter { meter.0 < length book.old.office.meters }
    requires open_yet { book.old.shut ≡ false }
    ensures last { S.clean book.new.shelf → IfOk result
        (λ last. IsLastOf (IsReadOfMeter (S.state book.old.shelf).content.records meter.0) last) }
    ensures question { IsQuestion S.Shelf result book.old book.new }
{
    let mut last = None;
    for register in &Register::ALL {
        let here = last_of_register(alloc, book, meter, *register)?;
        last = later(last, here);
    }
    Ok(last)
}

// The latest of a register: none where it doesn't count, as then no reading of it is held.
fn last_of_register<S: Shelf>(
    alloc: Global,
    book: &mut Book<S>,
    meter: MeterId,
    register: Register,
) -> Result<Option<Instant>, BookFault>
    requires meter { meter.0 < length book.old.office.meters }
    requires open_yet { book.old.shut ≡ false }
    ensures last { S.clean book.new.shelf → IfOk result
        (λ last. IsLastOf (IsReadOf (S.state book.old.shelf).content.records meter.0 register)
        last) }
    ensures question { IsQuestion S.Shelf result book.old book.new }
{
    if !book.office().counts(meter, register) {
        return Ok(None);
    }
    let rows = book.readings(alloc, meter, register)?;
    Ok(last_among(&rows))
}

// The latest of some rows that isn't withdrawn.
fn last_among(rows: &[ReadingRow]) -> Option<Instant>
    ensures { IsLastOf (IsReadAmong rows.now) result }
{
    let mut last = None;
    for row in rows {
        if stands(row) {
            last = later(last, Some(row.instant));
        }
    }
    last
}

// Whether a reading isn't withdrawn.
fn stands(row: &ReadingRow) -> bool
    ensures { result ≡ not row.now.withdrawn }
{
    !row.withdrawn
}

// The later of two instants, either of which may be missing.
fn later(one: Option<Instant>, other: Option<Instant>) -> Option<Instant>
    ensures { result ≡ later one other }
{
    let Some(first) = one else {
        return other;
    };
    let Some(second) = other else {
        return one;
    };
    if first < second { other } else { one }
}
