//! The export of the readings of one meter.

ghost use Rattle.std.specs.Prelude.{◌<◌, length};
ghost use Rattle.pw_report.specs.Pages.{IsOneMeterText};
ghost use Rattle.pw_report.specs.Reports.{IsReport, TellsText};

use crate::readiness::still_open;
use crate::readings::{put_header, put_meter};
use crate::rows::Rows;
use pw_book::{Book, BookFault};
use pw_shelf::Shelf;
use pw_tariff::MeterId;
use std::alloc::Global;

/// The readings held of a meter, as CSV, each with whether it counts, doesn't, or is withdrawn. By register, instant and Wh.
/// It asks for a meter of the office.
///
/// `Device`, `Memory` and `Reopen` (of a shut book) leave the records as they are.
pub fn export_meter<S: Shelf>(
    book: &mut Book<S>,
    alloc: Global,
    meter: MeterId,
) -> Result<Vec<u8>, BookFault>
    requires { meter.0 < length book.old.office.meters }
    ensures text { TellsText S.Shelf (λ office records. IsOneMeterText office records meter.0)
        result book.old book.new }
    ensures report { IsReport S.Shelf result book.old book.new }
{
    still_open(book)?;
    let mut rows = Rows::new(alloc);
    put_header(&mut rows)?;
    put_meter(book, alloc, meter, &mut rows)?;
    rows.finish()
}
