//! Shares of energy by owner, period and band.

ghost use Rattle.std.specs.Prelude.{◌≡◌, ◌+◌, ◌^◌, ◌<◌, ◌≤◌, ◌↔◌, ℕ, length, slice_index_or, IfOk, IsTrue};
ghost use Rattle.pw_tariff.specs.Cells.{AreAboveZero, AreInOrder, IsBeforeCell, IsBeforeTariff, energy_of_all, owner_place};
ghost use Rattle.pw_tariff.specs.inner.Shares.{IsAdded, IsOfOneClass};

use crate::{BandId, Owner, PeriodId};
use std::alloc::AllocError;

/// What an owner gets in a band within a period, in Wh.
#[derive(Clone, Copy, Debug, PartialEq, Eq)]
pub struct Cell {
    pub owner: Owner,
    pub period: PeriodId,
    pub band: BandId,
    pub wh: u64,
}

// Nobody is 0, and the accounts follow.
fn place(owner: Owner) -> u32
    ensures { result ≡ owner_place owner }
{
    match owner {
        None => 0,
        Some(account) => u32::from(account.0) + 1,
    }
}

impl Cell {
    // Whether its period and its band stand before these.
    fn is_before_tariff(&self, period: PeriodId, band: BandId) -> bool
        ensures { IsTrue result ↔ IsBeforeTariff self.now period.0 band.0 }
    {
        self.period.0 < period.0 || self.period.0 == period.0 && self.band.0 < band.0
    }

    // Whether it stands before the cell of another share.
    fn is_before(&self, share: &Cell) -> bool
        ensures { IsTrue result ↔ IsBeforeCell self.now share.now }
    {
        let own = place(self.owner);
        let other = place(share.owner);
        let tariff = self.is_before_tariff(share.period, share.band);
        own < other || own == other && tariff
    }

    // Whether it is of the owner, the period and the band of another share.
    fn is_like(&self, share: &Cell) -> bool
        ensures { IsTrue result ↔ IsOfOneClass self.now share.now }
    {
        place(self.owner) == place(share.owner)
            && self.period.0 == share.period.0
            && self.band.0 == share.band.0
    }
}

// How many cells from the first on stand before that of a share.
fn before(cells: &[Cell], share: &Cell) -> usize
    ensures bound { result ≤ length cells.now }
    ensures before { (k : ℕ) (d : Cell) → k < result
        → IsBeforeCell (slice_index_or cells.now k d) share.now }
    ensures there { (d : Cell) → result < length cells.now
        → ¬ (IsBeforeCell (slice_index_or cells.now result d) share.now) }
{
    for (i, cell) in cells.iter().enumerate() {
        if !cell.is_before(share) {
            return i;
        }
    }
    cells.len()
}

// Adds a share to the cell of its owner, period and band.
pub(crate) fn add(cells: &mut Vec<Cell>, share: Cell) -> Result<(), AllocError>
    requires in_order { AreInOrder cells.old.items }
    requires above_zero { AreAboveZero cells.old.items }
    requires something { 0 < share.wh }
    requires fits { energy_of_all cells.old.items + share.wh < 2 ^ 64 }
    ensures { IfOk result (λ _. IsAdded cells.old.items cells.new.items share) }
{
    let at = before(cells, &share);
    if at < cells.len() && cells[at].is_like(&share) {
        cells[at].wh += share.wh;
        return Ok(());
    }
    cells.insert(at, share)?;
    Ok(())
}
