//! The office of a file, and what is told of it.

ghost use Rattle.std.specs.Prelude.{◌<◌, IfOk};
ghost use Rattle.pw_tariff.specs.Office.{periods_in};
ghost use Rattle.pw_tariff.specs.Text.{IsOfficeOf};

use crate::fault::Fault;
use crate::files::{LONGEST_OFFICE, read_file};
use pw_tariff::{BandId, Direction, Office, PeriodId};
use pw_time::{Instant, write_utc};
use std::alloc::{AllocError, Global};

// The office of a file, and the file's text.
pub(crate) fn read_office(rt: &HostRuntime, path: &str) -> Result<(Office, Vec<u8>), Fault>
    ensures { IfOk result (λ read. IsOfficeOf read.1.items read.0) }
{
    let text = read_file(rt, path, LONGEST_OFFICE)?;
    let office = Office::read(rt.alloc(), text.as_slice())?;
    Ok((office, text))
}

// `office`, and how many accounts, meters, bands and periods it has; behind that, where it is `verbose`, a line for each
// period.
pub(crate) fn office_text(
    alloc: Global,
    office: &Office,
    verbose: bool,
) -> Result<Vec<u8>, AllocError> {
    let (accounts, meters) = (office.accounts(), office.meters());
    let (bands, periods) = (office.bands(), office.periods());
    let size = format!(in alloc;
        "office accounts {accounts} meters {meters} bands {bands} periods {periods}\n"
    )?;
    let mut text = size.into_bytes();
    if verbose {
        for period in 0..office.periods() {
            put_period(alloc, office, PeriodId(period), &mut text)?;
        }
    }
    Ok(text)
}

// `period` and its start; then of each band its letter, the price of import and that of export, in nano-euro per Wh.
fn put_period(
    alloc: Global,
    office: &Office,
    period: PeriodId,
    text: &mut Vec<u8>,
) -> Result<(), AllocError>
    requires { period.0 < periods_in office.now }
{
    text.extend_from_slice(b"period ")?;
    if let Some(start) = Instant::of(office.period_start(period)) {
        text.extend_from_slice(&write_utc(start))?;
    }
    for band in 0..office.bands() {
        let band = BandId(band);
        let name = office.band_name(band);
        let import = office.price(period, band, Direction::Import);
        let export = office.price(period, band, Direction::Export);
        let prices = format!(in alloc; " {name} {import} {export}")?;
        text.extend_from_slice(prices.as_bytes())?;
    }
    text.extend_from_slice(b"\n")
}
