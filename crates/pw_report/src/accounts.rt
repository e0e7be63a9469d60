//! The table of accounts, as text: each with its balance in euro, by whole cents that aren't above it.

ghost use Rattle.std.specs.Prelude.{◌≡◌, ◌++◌, IfOk, OnOk};
ghost use Rattle.pw_report.specs.Reports.{IsReport};
ghost use Rattle.pw_report.specs.Tables.{account_line, accounts_text};

use crate::names::account_name;
use crate::put::{balance_text, put_left, put_right};
use crate::readiness::still_open;
use pw_book::{Book, BookFault};
use pw_shelf::Shelf;
use pw_tariff::AccountId;
use std::alloc::{AllocError, Global};

/// The accounts with their balances, by the records held, in the office file's order.
///
/// `Device`, `Memory` and `Reopen` (of a shut book) leave the records as they are.
pub fn accounts_table<S: Shelf>(book: &mut Book<S>, alloc: Global) -> Result<Vec<u8>, BookFault>
    ensures text { S.clean book.new.shelf → IfOk result
        (λ text. text.items ≡ accounts_text book.old.office
        (S.state book.old.shelf).content.records) }
    ensures report { IsReport S.Shelf result book.old book.new }
{
    still_open(book)?;
    let mut text = Vec::new(alloc);
    put_account(&mut text, b"account", b"balance EUR")?;
    for account in 0..book.office().accounts() {
        let account = AccountId(account);
        let nano = book.balance(account)?;
        let balance = balance_text(alloc, nano)?;
        put_account(&mut text, account_name(book.office(), account), &balance)?;
    }
    Ok(text)
}

// A name and an amount, in their places.
fn put_account(text: &mut Vec<u8>, name: &[u8], amount: &[u8]) -> Result<(), AllocError>
    ensures { OnOk result (text.new.items ≡ text.old.items ++ account_line name.now amount.now) }
{
    put_left(text, 32, name)?;
    put_right(text, 16, amount)?;
    text.extend_from_slice(b"\n")
}
