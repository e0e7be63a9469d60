//! The bill of an account for an interval of time, asked of a book.

ghost use Rattle.std.specs.Prelude.{ℕ, ◌<◌, ◌≤◌, IfOk, length};
ghost use Rattle.pw_time.specs.declared.instant.TheConstants.{END_SECOND};
ghost use Rattle.pw_tariff.specs.Office.{office_of};
ghost use Rattle.pw_book.specs.Cost.{RisesAtMost};
ghost use Rattle.pw_book.specs.Questions.{IsQuestion};
ghost use Rattle.pw_bills.specs.Billed.{AreEnoughForBill, TellsBill};
ghost use Rattle.pw_bills.specs.Reads.{CostsMeters};
ghost use Rattle.pw_bills.specs.inner.Settling.{TellsFlows};

use crate::billed::{Bill, bill_from};
use crate::energies::{Energies, days};
use crate::payments::top_ups_between;
use pw_book::{Book, BookFault};
use pw_shelf::Shelf;
use pw_tariff::AccountId;
use pw_time::{END_SECOND, Instant};
use std::alloc::Global;

/// The bill of an account from an instant on and up to and without a later second, by the records
/// held.
///
/// Its end is the balance of all time less what is topped up and flows behind the interval, and its
/// begin is its end less what is topped up and flows in it: so a bill of late times is told by few
/// records. As with each question to a book, `Device`, `Memory` and `Reopen` (of a shut book) leave
/// the records as they are. It asks for an account of the office, and for an end that isn't behind
/// that of all instants.
pub fn bill<S: Shelf>(
    book: &mut Book<S>,
    alloc: Global,
    account: AccountId,
    from: Instant,
    until: u32,
) -> Result<Bill, BookFault>
    requires account { account.0 < length book.old.office.accounts }
    requires later { from < until }
    requires ended { until ≤ END_SECOND }
    ensures bill { S.clean book.new.shelf → IfOk result
        (λ bill. TellsBill (office_of book.old.office) (S.state book.old.shelf).content.records
        account from until bill) }
    ensures cost { S.clean book.new.shelf → (most : ℕ)
        → AreEnoughForBill (office_of book.old.office) (S.state book.old.shelf).content account
        from most → RisesAtMost most (S.state book.old.shelf).tally (S.state book.new.shelf).tally }
    ensures question { IsQuestion S.Shelf result book.old book.new }
{
    let balance = book.balance(account)?;
    let rows = top_ups_between(book, alloc, account, from, END_SECOND)?;
    let energies = flowed(book, alloc, account, from, until)?;
    Ok(bill_from(&book.office, balance, &rows, energies, from, until))
}

// The energies of an account from an instant on: up to a second, and from that on.
fn flowed<S: Shelf>(
    book: &mut Book<S>,
    alloc: Global,
    account: AccountId,
    from: Instant,
    until: u32,
) -> Result<Energies, BookFault>
    requires later { from < until }
    requires ended { until ≤ END_SECOND }
    ensures flows { S.clean book.new.shelf → IfOk result
        (λ energies. TellsFlows (office_of book.old.office)
        (S.state book.old.shelf).content.records account from until energies) }
    ensures cost { CostsMeters S.Shelf account.0 from END_SECOND book.old book.new }
    ensures question { IsQuestion S.Shelf result book.old book.new }
{
    match Instant::of(until) {
        Some(behind) => days(book, alloc, account, &[from, behind], END_SECOND),
        None => days(book, alloc, account, &[from], END_SECOND),
    }
}
