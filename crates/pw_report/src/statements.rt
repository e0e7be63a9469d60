//! The statement of an account, as text: its energies band by band, what was topped up, and its balance.

ghost use Rattle.std.specs.Prelude.{◌≡◌, ◌++◌, ◌<◌, IfOk, OnOk, Some, codes, decimal, false, length};
ghost use Rattle.pw_report.specs.Amounts.{euro_text};
ghost use Rattle.pw_report.specs.Layout.{listed_below};
ghost use Rattle.pw_report.specs.Reports.{IsReport};
ghost use Rattle.pw_report.specs.Tables.{band_line, energy_line, statement_text};

use crate::names::{account_name, band_letter};
use crate::put::{balance_text, put_euro, put_left, put_right};
use itoa::Buffer;
use pw_book::{Book, BookFault};
use pw_shelf::Shelf;
use pw_tariff::{AccountId, BandId, Direction};
use std::alloc::{AllocError, Global};

/// The statement of an account, by the records held: its energies by band, in Wh, what was topped up, and its balance. It
/// asks for an account of the office.
///
/// `Device`, `Memory` and `Reopen` (of a shut book) leave the records as they are.
pub fn statement<S: Shelf>(
    book: &mut Book<S>,
    alloc: Global,
    account: AccountId,
) -> Result<Vec<u8>, BookFault>
    requires { account.0 < length book.old.office.accounts }
    ensures text { S.clean book.new.shelf → IfOk result
        (λ text. text.items ≡ statement_text book.old.office
        (S.state book.old.shelf).content.records account.0) }
    ensures report { IsReport S.Shelf result book.old book.new }
{
    let cents = book.topped_up(account)?;
    let nano = book.balance(account)?;
    let balance = balance_text(alloc, nano)?;
    let mut text = Vec::new(alloc);
    put_head(&mut text, account_name(book.office(), account))?;
    put_energies(book, alloc, account, &mut text)?;
    put_amounts(&mut text, u128::from(cents), &balance)?;
    Ok(text)
}

// Whose statement it is, and the head of its energies.
fn put_head(text: &mut Vec<u8>, name: &[u8]) -> Result<(), AllocError>
    ensures { OnOk result (text.new.items
        ≡ text.old.items ++ codes "account " ++ name.now ++ codes "\n"
        ++ band_line (codes "band") (codes "import Wh") (codes "export Wh")) }
{
    text.extend_from_slice(b"account ")?;
    text.extend_from_slice(name)?;
    text.extend_from_slice(b"\n")?;
    put_band(text, b"band", b"import Wh", b"export Wh")
}

// What was topped up, in cents, and the balance.
fn put_amounts(text: &mut Vec<u8>, cents: u128, balance: &[u8]) -> Result<(), AllocError>
    ensures { OnOk result (text.new.items
        ≡ text.old.items ++ codes "topped up EUR " ++ euro_text cents ++ codes "\n"
        ++ codes "balance EUR " ++ balance.now ++ codes "\n") }
{
    text.extend_from_slice(b"topped up EUR ")?;
    put_euro(text, cents)?;
    text.extend_from_slice(b"\n")?;
    text.extend_from_slice(b"balance EUR ")?;
    text.extend_from_slice(balance)?;
    text.extend_from_slice(b"\n")
}

// The lines of an account's energies, band by band.
fn put_energies<S: Shelf>(
    book: &mut Book<S>,
    alloc: Global,
    account: AccountId,
    text: &mut Vec<u8>,
) -> Result<(), BookFault>
    requires account { account.0 < length book.old.office.accounts }
    requires open_yet { book.old.shut ≡ false }
    ensures text { S.clean book.new.shelf → OnOk result
        (text.new.items ≡ text.old.items
        ++ listed_below (length book.old.office.bands)
        (energy_line book.old.office (S.state book.old.shelf).content.records account.0)) }
    ensures report { IsReport S.Shelf result book.old book.new }
{
    for band in 0..book.office().bands() {
        let band = BandId(band);
        let imported = book.energy(Some(account), band, Direction::Import)?;
        let exported = book.energy(Some(account), band, Direction::Export)?;
        let name = [band_letter(book.office(), band)];
        put_energy(text, &name, imported, exported)?;
    }
    Ok(())
}

// A band's name, and its energies.
fn put_energy(
    text: &mut Vec<u8>,
    name: &[u8],
    imported: u64,
    exported: u64,
) -> Result<(), AllocError>
    ensures { OnOk result (text.new.items
        ≡ text.old.items ++ band_line name.now (decimal imported) (decimal exported)) }
{
    let (mut import, mut export) = (Buffer::new(), Buffer::new());
    put_band(
        text,
        name,
        import.format(imported).as_bytes(),
        export.format(exported).as_bytes(),
    )
}

fn put_band(
    text: &mut Vec<u8>,
    name: &[u8],
    imported: &[u8],
    exported: &[u8],
) -> Result<(), AllocError>
    ensures { OnOk result (text.new.items
        ≡ text.old.items ++ band_line name.now imported.now exported.now) }
{
    put_left(text, 4, name)?;
    put_right(text, 16, imported)?;
    put_right(text, 16, exported)?;
    text.extend_from_slice(b"\n")
}
