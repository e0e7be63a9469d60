//! The energies of an account in stretches of time.

ghost use Rattle.std.specs.Prelude.{◌≡◌, ◌-◌, ◌<◌, ◌≤◌, ◌^◌, min, Some, IfOk};
ghost use Rattle.pw_time.specs.declared.instant.TheConstants.{END_SECOND};
ghost use Rattle.pw_tariff.specs.Office.{office_of};
ghost use Rattle.pw_book.specs.Questions.{IsQuestion};
ghost use Rattle.pw_months.specs.Between.{energy_between as energy_of};
ghost use Rattle.pw_bills.specs.Energies.{TellsEnergies, energy_told};
ghost use Rattle.pw_bills.specs.Reads.{CostsMeters};
ghost use Rattle.pw_bills.specs.Stretches.{AreStretches, first_of};
ghost use Rattle.pw_bills.specs.inner.Flows.{AddsEnergy, IsOfRegisters};

use crate::gathering::{Gathers, Place, gather};
use crate::points::points_over;
use pw_book::{Book, BookFault};
use pw_model::{TotalKey, direction_of};
use pw_parts::{Change, Changes, Side, add_pairs};
use pw_shelf::{Shelf, ShelfFault};
use pw_tariff::{AccountId, BandId, Direction, PeriodId};
use pw_time::Instant;
use std::alloc::Global;

/// The energies of an account in stretches of time, in each period, band and direction.
#[derive(Drop)]
pub struct Energies {
    // what flows, with the number of a stretch in the place of an account's
    changes: Changes,
}

impl Energies {
    /// The energy in a stretch, by its number from 0, in Wh.
    pub fn wh(&self, stretch: u16, period: PeriodId, band: BandId, direction: Direction) -> u64
        ensures { result ≡ energy_told self.now stretch period band direction }
    {
        let key = TotalKey::Energy {
            owner: Some(AccountId(stretch)),
            period,
            band,
            direction,
        };
        match self.changes.rows.get(&key) {
            Some(change) => capped(change),
            None => 0,
        }
    }
}

// What the registers so far share out to the stretches.
#[derive(Drop)]
struct SharedOut {
    changes: Changes,
}

// A register gives each stretch what its neighbouring pairs share out to the stretch's number: each
// whole pair is shared out once.
impl Gathers for SharedOut {
    ghost adds = { AddsEnergy };

    ghost fits = { IsOfRegisters };

    fn add_register<S: Shelf>(&mut self, shelf: &mut S, place: &Place) -> Result<(), ShelfFault> {
        let points = points_over(shelf, place)?;
        let direction = direction_of(place.register);
        let basis = place.basis;
        add_pairs(
            basis.alloc,
            basis.office,
            basis.zone,
            place.owners,
            direction,
            &points,
            Side::Gains,
            &mut self.changes,
        )?;
        Ok(())
    }
}

// What a total gains, where a word holds it. (Only over a store that isn't clean it can be more.)
fn capped(change: &Change) -> u64
    ensures { result ≡ min change.now.more (2 ^ 64 - 1) }
{
    change.more.min(u128::from(u64::MAX)) as u64
}

/// The energy of an account in a band within a period, in Wh, of the direction, from an instant on
/// and up to and without a later second, by the records held.
///
/// A difference between two readings is shared out whole, by the seconds between them, also where
/// it reaches over the begin or the end. As with each question to a book, `Device`, `Memory` and
/// `Reopen` (of a shut book) leave the records as they are. It asks for an end that isn't behind
/// that of all instants.
pub fn energy_between<S: Shelf>(
    book: &mut Book<S>,
    alloc: Global,
    account: AccountId,
    period: PeriodId,
    band: BandId,
    direction: Direction,
    from: Instant,
    until: u32,
) -> Result<u64, BookFault>
    requires later { from < until }
    requires ended { until ≤ END_SECOND }
    ensures energy { S.clean book.new.shelf → IfOk result
        (λ wh. wh ≡ energy_of (office_of book.old.office) (S.state book.old.shelf).content.records
        (Some account) period.0 band.0 direction from until) }
    ensures cost { CostsMeters S.Shelf account.0 from until book.old book.new }
    ensures question { IsQuestion S.Shelf result book.old book.new }
{
    let begins = [from];
    let energies = days(book, alloc, account, &begins, until)?;
    Ok(energies.wh(0, period, band, direction))
}

/// The energies of an account on days, or in other stretches of time one behind another, by the
/// records held: each from its begin on, up to and without that of the next; the last one up to and
/// without an end.
///
/// It asks for one stretch to 65,536, of a second or more each, and for an end that isn't behind
/// that of all instants. It takes no more calls of the store than one stretch of the whole time
/// would.
pub fn days<S: Shelf>(
    book: &mut Book<S>,
    alloc: Global,
    account: AccountId,
    begins: &[Instant],
    end: u32,
) -> Result<Energies, BookFault>
    requires { AreStretches begins.now end }
    ensures energies { S.clean book.new.shelf → IfOk result
        (λ energies. TellsEnergies (office_of book.old.office)
        (S.state book.old.shelf).content.records account begins.now end energies) }
    ensures cost { CostsMeters S.Shelf account.0 (first_of begins.now end) end book.old book.new }
    ensures question { IsQuestion S.Shelf result book.old book.new }
{
    let changes = Changes::new(alloc);
    let mut shared = SharedOut { changes };
    gather(book, alloc, account, begins, end, &mut shared)?;
    Ok(Energies {
        changes: shared.changes,
    })
}
