//! What a book answers of the records that it holds. A question changes nothing in the store, and a shut book answers
//! none.

ghost use Rattle.std.specs.Prelude.{◌≡◌, ◌+◌, ◌*◌, ◌<◌, IfOk, MatchResult, true, false, length};
ghost use Rattle.pw_tariff.specs.Office.{office_of, periods_in};
ghost use Rattle.pw_model.specs.Energy.{energy as energy_of, energy_in_period};
ghost use Rattle.pw_model.specs.Kinds.{IsAssignment, IsTopUp, IsWithdrawal, ListsHeld};
ghost use Rattle.pw_model.specs.Lists.{AreDisputes, AreFalls, AreReadings, record_count};
ghost use Rattle.pw_model.specs.Office.{HasOwner};
ghost use Rattle.pw_model.specs.Payments.{balance as balance_of, topped_up as cents_of};
ghost use Rattle.pw_book.specs.Cost.{RisesAtMost};
ghost use Rattle.pw_book.specs.Questions.{IsQuestion};

use super::Book;
use crate::assignments::all_assignments;
use crate::balances::balance_held;
use crate::disputes::disputes_held;
use crate::energies::{energy_held, energy_in_held};
use crate::falls::falls_held;
use crate::fault::BookFault;
use crate::rows::rows_held;
use crate::shelf_calls::{count_held, topups_held, total_held, withdrawals_held};
use pw_model::{Dispute, Entry, Fall, ReadingRow, TotalKey};
use pw_obis::Register;
use pw_shelf::Shelf;
use pw_tariff::{AccountId, BandId, Direction, MeterId, Owner, PeriodId};
use std::alloc::Global;

impl<S: Shelf> Book<S> {
    /// The energy of an owner in a band, in Wh, of the direction, by the records held: that of all periods together. It asks
    /// for an account and a band of the office; the owner may be nobody.
    ///
    /// As with each question, `Device`, `Memory` and `Reopen` (of a shut book) leave the records as they are.
    pub fn energy(
        &mut self,
        owner: Owner,
        band: BandId,
        direction: Direction,
    ) -> Result<u64, BookFault>
        requires owner { HasOwner (office_of self.old.office) owner }
        requires band { band.0 < length self.old.office.bands }
        ensures energy { S.clean self.new.shelf → IfOk result
            (λ wh. wh ≡ energy_of (office_of self.old.office)
            (S.state self.old.shelf).content.records owner band.0 direction) }
        ensures cost { RisesAtMost (2 * periods_in self.old.office) (S.state self.old.shelf).tally
            (S.state self.new.shelf).tally }
        ensures question { IsQuestion S.Shelf result self.old self.new }
    {
        self.still_open()?;
        let wh = energy_held(&mut self.shelf, &self.office, owner, band, direction)?;
        Ok(wh)
    }

    /// The energy of an owner in a band within a period, in Wh, of the direction, by the records held. It asks for an account,
    /// a period and a band of the office; the owner may be nobody.
    pub fn energy_in(
        &mut self,
        owner: Owner,
        period: PeriodId,
        band: BandId,
        direction: Direction,
    ) -> Result<u64, BookFault>
        requires owner { HasOwner (office_of self.old.office) owner }
        requires period { period.0 < periods_in self.old.office }
        requires band { band.0 < length self.old.office.bands }
        ensures energy { S.clean self.new.shelf → IfOk result
            (λ wh. wh ≡ energy_in_period (office_of self.old.office)
            (S.state self.old.shelf).content.records owner period.0 band.0 direction) }
        ensures cost { RisesAtMost 2 (S.state self.old.shelf).tally (S.state self.new.shelf).tally }
        ensures question { IsQuestion S.Shelf result self.old self.new }
    {
        self.still_open()?;
        let wh = energy_in_held(
            &mut self.shelf,
            &self.office,
            owner,
            period,
            band,
            direction,
        )?;
        Ok(wh)
    }

    /// What was topped up for an account, in cents, by the records held. It asks for an account of the office.
    pub fn topped_up(&mut self, account: AccountId) -> Result<u64, BookFault>
        requires { account.0 < length self.old.office.accounts }
        ensures topped_up { S.clean self.new.shelf → IfOk result
            (λ cents. cents ≡ cents_of (S.state self.old.shelf).content.records account.0) }
        ensures cost { RisesAtMost 2 (S.state self.old.shelf).tally (S.state self.new.shelf).tally }
        ensures question { IsQuestion S.Shelf result self.old self.new }
    {
        self.still_open()?;
        Ok(total_held(&mut self.shelf, &TotalKey::TopUps { account })?)
    }

    /// The balance of an account, in nano-euro, by the records held: what was topped up, less the price of its imported energy,
    /// plus the price of its exported energy, each energy at the price of its period and band. It asks for an account of the
    /// office.
    pub fn balance(&mut self, account: AccountId) -> Result<i128, BookFault>
        requires { account.0 < length self.old.office.accounts }
        ensures balance { S.clean self.new.shelf → IfOk result
            (λ nano. nano ≡ balance_of (office_of self.old.office)
            (S.state self.old.shelf).content.records account.0) }
        ensures cost { RisesAtMost
            (2 * (2 * (periods_in self.old.office * length self.old.office.bands) + 1))
            (S.state self.old.shelf).tally (S.state self.new.shelf).tally }
        ensures question { IsQuestion S.Shelf result self.old self.new }
    {
        self.still_open()?;
        let nano = balance_held(&mut self.shelf, &self.office, account)?;
        Ok(nano)
    }

    /// The readings held of a register, by instant and then by Wh, each with whether it counts and whether it is withdrawn.
    /// It asks for a meter of the office.
    pub fn readings(
        &mut self,
        alloc: Global,
        meter: MeterId,
        register: Register,
    ) -> Result<Vec<ReadingRow>, BookFault>
        requires { meter.0 < length self.old.office.meters }
        ensures readings { S.clean self.new.shelf → IfOk result
            (λ rows. AreReadings (S.state self.old.shelf).content.records meter.0 register
            rows.items) }
        ensures question { IsQuestion S.Shelf result self.old self.new }
    {
        self.still_open()?;
        let rows = rows_held(&mut self.shelf, alloc, meter, register)?;
        Ok(rows)
    }

    /// The assignments held of all meters, disputed ones too: by meter, start and owner.
    pub fn assignments(&mut self, alloc: Global) -> Result<Vec<Entry>, BookFault>
        ensures assignments { S.clean self.new.shelf → IfOk result
            (λ held. ListsHeld IsAssignment (S.state self.old.shelf).content.records held.items) }
        ensures question { IsQuestion S.Shelf result self.old self.new }
    {
        self.still_open()?;
        let assignments = all_assignments(&mut self.shelf, alloc, &self.office)?;
        Ok(assignments)
    }

    /// The top-ups held, disputed ones too: by reference, account, cents and instant.
    pub fn topups(&mut self, alloc: Global) -> Result<Vec<Entry>, BookFault>
        ensures topups { S.clean self.new.shelf → IfOk result
            (λ held. ListsHeld IsTopUp (S.state self.old.shelf).content.records held.items) }
        ensures question { IsQuestion S.Shelf result self.old self.new }
    {
        self.still_open()?;
        let topups = topups_held(&mut self.shelf, alloc)?;
        Ok(topups)
    }

    /// The withdrawals held, whether the records that they name are held or not: those of readings first, then those of
    /// assignments, then those of top-ups; each by the fields of the record that it names.
    pub fn withdrawals(&mut self, alloc: Global) -> Result<Vec<Entry>, BookFault>
        ensures withdrawals { S.clean self.new.shelf → IfOk result
            (λ held. ListsHeld IsWithdrawal (S.state self.old.shelf).content.records held.items) }
        ensures question { IsQuestion S.Shelf result self.old self.new }
    {
        self.still_open()?;
        let withdrawals = withdrawals_held(&mut self.shelf, alloc)?;
        Ok(withdrawals)
    }

    /// The falls of all registers, by the records held: neighbouring readings of which the later shows less. By meter, register
    /// and instant.
    pub fn falls(&mut self, alloc: Global) -> Result<Vec<Fall>, BookFault>
        ensures falls { S.clean self.new.shelf → IfOk result
            (λ falls. AreFalls (S.state self.old.shelf).content.records falls.items) }
        ensures question { IsQuestion S.Shelf result self.old self.new }
    {
        self.still_open()?;
        let falls = falls_held(&mut self.shelf, alloc, &self.office)?;
        Ok(falls)
    }

    /// The disputes: the keys that two or more of the records held have that aren't withdrawn, and how many. Readings first,
    /// then assignments, then top-ups; each by its key.
    pub fn disputes(&mut self, alloc: Global) -> Result<Vec<Dispute>, BookFault>
        ensures disputes { S.clean self.new.shelf → IfOk result
            (λ disputes. AreDisputes (S.state self.old.shelf).content.records disputes.items) }
        ensures question { IsQuestion S.Shelf result self.old self.new }
    {
        self.still_open()?;
        let disputes = disputes_held(&mut self.shelf, alloc, &self.office)?;
        Ok(disputes)
    }

    /// The number of records held, each counted once.
    pub fn count(&mut self) -> Result<u32, BookFault>
        ensures count { S.clean self.new.shelf → IfOk result
            (λ held. held ≡ record_count (S.state self.old.shelf).content.records) }
        ensures question { IsQuestion S.Shelf result self.old self.new }
    {
        self.still_open()?;
        Ok(count_held(&mut self.shelf)?)
    }

    /// Whether the book answers questions: a shut one answers `Reopen`.
    pub fn still_open(&self) -> Result<(), BookFault>
        ensures { MatchResult result (λ _. self.now.shut ≡ false)
            (λ fault. (self.now.shut ≡ true) × (fault ≡ BookFault.Reopen)) }
    {
        if self.shut {
            Err(BookFault::Reopen)
        } else {
            Ok(())
        }
    }
}
