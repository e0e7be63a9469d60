//! What totals lose and gain.

ghost use Rattle.std.specs.Prelude.{◌≡◌, ◌+◌, ◌<◌, ◌≤◌, ◌^◌, IfOk, OnOk, cond};
ghost use Rattle.std.specs.BTreeMap.{IsOrdered};
ghost use Rattle.std.specs.List.{filter_map};
ghost use Rattle.pw_model.specs.declared.records.TotalKey.{TotalKey as AnyTotal};
ghost use Rattle.pw_model.specs.Lists.{Lists};
ghost use Rattle.pw_model.specs.Same.{same_total, total_key_order};
ghost use Rattle.pw_tariff.specs.Cells.{AreInOrder, energy_of_all};
ghost use Rattle.pw_parts.specs.Changes.{amount_on, gathered, other_side};
ghost use Rattle.pw_parts.specs.inner.Given.{cells_for};
ghost use Rattle.pw_parts.specs.inner.Totals.{gain, total_in};

use pw_model::TotalKey;
use pw_tariff::{Cell, Direction};
use std::alloc::{AllocError, Global};
use std::collections::BTreeMap;

/// Whether a total loses or gains.
#[derive(Clone, Copy)]
pub enum Side {
    Loses,
    Gains,
}

impl Side {
    /// The other of both.
    pub fn other(self) -> Side
        ensures { result ≡ other_side self }
    {
        match self {
            Side::Loses => Side::Gains,
            Side::Gains => Side::Loses,
        }
    }
}

/// What a total loses and gains: Wh of an energy, cents of top-ups.
#[derive(Clone, Copy)]
pub struct Change {
    pub less: u128,
    pub more: u128,
}

impl Change {
    /// What it loses, or what it gains.
    pub fn on(&self, side: Side) -> u128
        ensures { result ≡ amount_on side self.now }
    {
        match side {
            Side::Loses => self.less,
            Side::Gains => self.more,
        }
    }

    // The same, with so much more on a side.
    fn with(&self, side: Side, amount: u128) -> Change
        requires { amount_on side self.now + amount < 2 ^ 128 }
        ensures more { amount_on side result ≡ amount_on side self.now + amount }
        ensures other { amount_on (other_side side) result ≡ amount_on (other_side side) self.now }
    {
        let Change { less, more } = *self;
        match side {
            Side::Loses => Change {
                less: less + amount,
                more,
            },
            Side::Gains => Change {
                less,
                more: more + amount,
            },
        }
    }
}

/// What totals lose and gain: each stands once, in the order of their keys.
#[derive(Drop)]
pub struct Changes {
    pub rows: BTreeMap<TotalKey, Change>,
}

impl Changes {
    ghost use Rattle.pw_parts.specs.Parts.{by_total};
    ghost use Rattle.pw_parts.specs.declared.changes.Side.{Side as ASide};

    /// None.
    pub fn new(alloc: Global) -> Changes
        ensures { (side : ASide) (k : AnyTotal) → gathered side result.rows k ≡ 0 }
    {
        Changes {
            rows: BTreeMap::new(alloc),
        }
    }

    // What a total loses and gains.
    fn at(&self, key: &TotalKey) -> Change
        ensures { (side : ASide) → amount_on side result ≡ gathered side self.now.rows key.now }
    {
        match self.rows.get(key) {
            Some(change) => *change,
            None => Change { less: 0, more: 0 },
        }
    }

    // Gathers an amount for a total.
    pub(crate) fn add(&mut self, side: Side, key: TotalKey, amount: u64) -> Result<(), AllocError>
        requires fits { gathered side self.old.rows key + amount < 2 ^ 128 }
        ensures gathered { OnOk result ((k : AnyTotal)
            → gathered side self.new.rows k
            ≡ gathered side self.old.rows k + cond (same_total key k) amount 0) }
        ensures other { OnOk result ((k : AnyTotal)
            → gathered (other_side side) self.new.rows k
            ≡ gathered (other_side side) self.old.rows k) }
    {
        let change = self.at(&key).with(side, u128::from(amount));
        self.rows.insert(key, change)?;
        Ok(())
    }

    // Gathers what cells of a direction give.
    pub(crate) fn add_cells(
        &mut self,
        side: Side,
        direction: Direction,
        cells: &[Cell],
    ) -> Result<(), AllocError>
        requires in_order { AreInOrder cells.now }
        requires fits { (k : AnyTotal) → gathered side self.old.rows k + energy_of_all cells.now
            < 2 ^ 128 }
        ensures gathered { OnOk result ((k : AnyTotal)
            → gathered side self.new.rows k
            ≡ gathered side self.old.rows k + cells_for direction cells.now k) }
        ensures all { OnOk result ((k : AnyTotal)
            → gathered side self.new.rows k
            ≤ gathered side self.old.rows k + energy_of_all cells.now) }
        ensures other { OnOk result ((k : AnyTotal)
            → gathered (other_side side) self.new.rows k
            ≡ gathered (other_side side) self.old.rows k) }
    {
        for cell in cells {
            let key = TotalKey::Energy {
                owner: cell.owner,
                period: cell.period,
                band: cell.band,
                direction,
            };
            self.add(side, key, cell.wh)?;
        }
        Ok(())
    }

    // The totals that gain something, by their keys.
    pub(crate) fn gains(&self, alloc: Global) -> Result<Vec<(TotalKey, u64)>, AllocError>
        requires { (k : AnyTotal) → total_in self.now.rows k < 2 ^ 64 }
        ensures { IfOk result (λ totals. Lists by_total
            (λ t. (t.1 ≡ total_in self.now.rows t.0) × (0 < t.1)) totals.items) }
    {
        let gains = self.told(alloc)?;
        Ok(gains)
    }

    // What the rows of the map gain, in its order.
    fn told(&self, alloc: Global) -> Result<Vec<(TotalKey, u64)>, AllocError>
        ensures ordered { IsOrdered total_key_order self.now.rows }
        ensures told { IfOk result (λ gains. gains.items ≡ filter_map gain self.now.rows.entries) }
    {
        self.rows
            .iter()
            .filter_map(|(key, change)| gain_of(key, change))
            .collect(alloc)
    }
}

// What a total gains, if it is something that a word holds.
fn gain_of(key: &TotalKey, change: &Change) -> Option<(TotalKey, u64)>
    ensures { result ≡ gain (key.now, change.now) }
{
    match u64::try_from(change.more) {
        Ok(amount) if amount > 0 => Some((*key, amount)),
        _ => None,
    }
}
