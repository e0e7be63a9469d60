//! Up to when the meters of an account are read.

ghost use Rattle.std.specs.Prelude.{ℕ, ◌<◌, ◌≤◌, IfOk};
ghost use Rattle.pw_time.specs.declared.instant.TheConstants.{END_SECOND};
ghost use Rattle.pw_tariff.specs.Office.{office_of};
ghost use Rattle.pw_book.specs.Cost.{RisesAtMost};
ghost use Rattle.pw_book.specs.Questions.{IsQuestion};
ghost use Rattle.pw_bills.specs.ReadUpTo.{AreEnoughToRead, AreLastReadings};
ghost use Rattle.pw_bills.specs.Reads.{all_meters};
ghost use Rattle.pw_bills.specs.inner.LastReadings.{AddsLatest, ThreeAreRead};

use crate::gathering::{Gathers, Place, gather};
use crate::points::latest_held;
use pw_book::{Book, BookFault};
use pw_obis::{Register, WattHours};
use pw_shelf::{Shelf, ShelfFault};
use pw_tariff::{AccountId, MeterId};
use pw_time::Instant;
use std::alloc::Global;

/// Up to when a register is read.
#[derive(Clone, Copy, Debug, PartialEq, Eq)]
pub struct LastReading {
    /// The meter of the register.
    pub meter: MeterId,
    /// The register, one that counts.
    pub register: Register,
    /// When its latest counting reading was taken, and what it shows; none where there is none.
    pub last: Option<(Instant, WattHours)>,
}

// The registers read, one after another.
#[derive(Drop)]
struct LastReadings {
    rows: Vec<LastReading>,
}

/// Up to when the meters of an account are read, in an interval from an instant on and up to and
/// without a later second, by the records held: of each meter that is the account's for a second of
/// it at least, and of each of its registers that counts, the latest counting reading before the
/// interval's end. By meter, and of a meter by register.
///
/// As with each question to a book, `Device`, `Memory` and `Reopen` (of a shut book) leave the
/// records as they are. It asks for an end that isn't behind that of all instants.
pub fn read_up_to<S: Shelf>(
    book: &mut Book<S>,
    alloc: Global,
    account: AccountId,
    from: Instant,
    until: u32,
) -> Result<Vec<LastReading>, BookFault>
    requires later { from < until }
    requires ended { until ≤ END_SECOND }
    ensures readings { S.clean book.new.shelf → IfOk result
        (λ rows. AreLastReadings (office_of book.old.office)
        (S.state book.old.shelf).content.records account from until rows.items) }
    ensures cost { S.clean book.new.shelf → (most : ℕ → ℕ)
        → AreEnoughToRead (office_of book.old.office) (S.state book.old.shelf).content account.0
        from until most → RisesAtMost (all_meters (office_of book.old.office) most)
        (S.state book.old.shelf).tally (S.state book.new.shelf).tally }
    ensures question { IsQuestion S.Shelf result book.old book.new }
{
    let begins = [from];
    let rows = Vec::new(alloc);
    let mut readings = LastReadings { rows };
    gather(book, alloc, account, &begins, until, &mut readings)?;
    Ok(readings.rows)
}

// A register adds its latest reading up to the last second.
impl Gathers for LastReadings {
    ghost adds = { AddsLatest };

    ghost reads = { ThreeAreRead };

    fn add_register<S: Shelf>(&mut self, shelf: &mut S, place: &Place) -> Result<(), ShelfFault> {
        let last = latest_held(shelf, place)?;
        self.rows.push(LastReading {
            meter: place.meter,
            register: place.register,
            last,
        })?;
        Ok(())
    }
}
