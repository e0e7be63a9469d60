//! The export of energies, as CSV: what each owner used and gave in each band, and what that costs over all periods.

ghost use Rattle.std.specs.Prelude.{◌≡◌, ◌<◌, IfErr, IfOk, false, length};
ghost use Rattle.std.specs.List.{flat_map};
ghost use Rattle.pw_book.specs.declared.fault.BookFault.TheVariants.{Memory};
ghost use Rattle.pw_model.specs.Office.{HasOwner};
ghost use Rattle.pw_report.specs.Exports.{energies_text, energy_cost, energy_row, energy_row_line, owner_rows};
ghost use Rattle.pw_report.specs.Names.{owner_name as name_of_owner};
ghost use Rattle.pw_report.specs.Reports.{IsReport};
ghost use Rattle.pw_report.specs.inner.Rows.{AddsLines};
ghost use Rattle.pw_tariff.specs.Office.{office_of};

use crate::names::{account_name, band_letter};
use crate::readiness::still_open;
use crate::rows::Rows;
use itoa::Buffer;
use pw_book::{Book, BookFault};
use pw_model::price_of;
use pw_shelf::Shelf;
use pw_tariff::{AccountId, BandId, Direction, Office, Owner, PeriodId};
use std::alloc::Global;

/// The energies of nobody and of each account, band by band, as CSV: imported and exported Wh, and what they cost in
/// nano-euro, each at the price of its period.
///
/// `Device`, `Memory` and `Reopen` (of a shut book) leave the records as they are.
pub fn export_energy<S: Shelf>(book: &mut Book<S>, alloc: Global) -> Result<Vec<u8>, BookFault>
    ensures text { S.clean book.new.shelf → IfOk result
        (λ text. text.items ≡ energies_text book.old.office
        (S.state book.old.shelf).content.records) }
    ensures report { IsReport S.Shelf result book.old book.new }
{
    still_open(book)?;
    let mut rows = Rows::new(alloc);
    rows.put_header(&[b"owner", b"band", b"direction", b"wh", b"nano"])?;
    put_owner(book, alloc, None, &mut rows)?;
    for account in 0..book.office().accounts() {
        put_owner(book, alloc, Some(AccountId(account)), &mut rows)?;
    }
    rows.finish()
}

// The energies of an owner, band by band.
fn put_owner<S: Shelf>(
    book: &mut Book<S>,
    alloc: Global,
    owner: Owner,
    rows: &mut Rows,
) -> Result<(), BookFault>
    requires owner { HasOwner (office_of book.old.office) owner }
    requires open_yet { book.old.shut ≡ false }
    ensures text { S.clean book.new.shelf → AddsLines result
        (flat_map (energy_row_line book.old.office)
        (owner_rows book.old.office (S.state book.old.shelf).content.records owner)) rows.old
        rows.new }
    ensures report { IsReport S.Shelf result book.old book.new }
{
    for band in 0..book.office().bands() {
        let band = BandId(band);
        put_direction(book, owner, band, Direction::Import, rows)?;
        put_direction(book, owner, band, Direction::Export, rows)?;
    }
    Ok(())
}

// The energy of an owner in a band and a direction, with what it costs.
fn put_direction<S: Shelf>(
    book: &mut Book<S>,
    owner: Owner,
    band: BandId,
    direction: Direction,
    rows: &mut Rows,
) -> Result<(), BookFault>
    requires owner { HasOwner (office_of book.old.office) owner }
    requires band { band.0 < length book.old.office.bands }
    requires open_yet { book.old.shut ≡ false }
    ensures text { S.clean book.new.shelf → AddsLines result
        (energy_row_line book.old.office
        (energy_row book.old.office (S.state book.old.shelf).content.records owner band.0
        direction)) rows.old rows.new }
    ensures report { IsReport S.Shelf result book.old book.new }
{
    let wh = book.energy(owner, band, direction)?;
    let nano = cost(book, owner, band, direction)?;
    put_energy(rows, book.office(), owner, band, direction, wh, nano)?;
    Ok(())
}

// What the energy of an owner in a band and a direction costs, in nano-euro: in each period at its price.
fn cost<S: Shelf>(
    book: &mut Book<S>,
    owner: Owner,
    band: BandId,
    direction: Direction,
) -> Result<u128, BookFault>
    requires owner { HasOwner (office_of book.old.office) owner }
    requires band { band.0 < length book.old.office.bands }
    requires open_yet { book.old.shut ≡ false }
    ensures cost { S.clean book.new.shelf → IfOk result
        (λ nano. nano ≡ energy_cost book.old.office (S.state book.old.shelf).content.records owner
        band.0 direction) }
    ensures report { IsReport S.Shelf result book.old book.new }
{
    let mut nano: u128 = 0;
    for period in 0..book.office().periods() {
        let period = PeriodId(period);
        let wh = book.energy_in(owner, period, band, direction)?;
        nano += price_of(wh, book.office().price(period, band, direction));
    }
    Ok(nano)
}

// A row: the energy of an owner in a band and a direction, in Wh, and what it costs, in nano-euro.
fn put_energy(
    rows: &mut Rows,
    office: &Office,
    owner: Owner,
    band: BandId,
    direction: Direction,
    wh: u64,
    nano: u128,
) -> Result<(), BookFault>
    requires owner { HasOwner (office_of office.now) owner }
    requires band { band.0 < length office.now.bands }
    ensures text { AddsLines result (energy_row_line office.now
        (record { owner = owner; band = band.0; direction = direction; wh = wh; nano = nano }))
        rows.old rows.new }
    ensures fault { IfErr result (λ fault. fault ≡ Memory) }
{
    rows.put_field(owner_name(office, owner))?;
    rows.put_field(&[band_letter(office, band)])?;
    rows.put_field(direction.name().as_bytes())?;
    rows.put_field(Buffer::new().format(wh).as_bytes())?;
    rows.put_field(Buffer::new().format(nano).as_bytes())?;
    rows.end()
}

// An account's name, `-` for nobody.
fn owner_name(office: &Office, owner: Owner) -> &[u8]
    requires { HasOwner (office_of office.now) owner }
    ensures { result.now ≡ name_of_owner office.now owner }
{
    match owner {
        None => b"-",
        Some(account) => account_name(office, account),
    }
}
