//! Records, their keys and contents, and what is answered about a set of them.

use crate::reference::Reference;
use pw_obis::{Register, WattHours};
use pw_tariff::{AccountId, BandId, Direction, MeterId, Owner, PeriodId};
use pw_time::Instant;

/// What a record speaks of: no two records with one key count.
///
/// Readings come first, then assignments, then top-ups, then withdrawals; each by its fields in their order.
#[derive(Clone, Copy, Debug, PartialEq, Eq, PartialOrd, Ord, Hash)]
pub enum Key {
    /// The reading of a meter's register at an instant.
    Reading {
        meter: MeterId,
        register: Register,
        instant: Instant,
    },
    /// The assignment of a meter from an instant on.
    Assignment {
        meter: MeterId,
        start: Instant,
    },
    /// The top-up with a reference.
    TopUp {
        reference: Reference,
    },
    /// The withdrawal of a record.
    Withdrawal {
        named: Named,
    },
}

/// The record that a withdrawal names, by its key and content, whether it is held or not.
///
/// Readings come first, then assignments, then top-ups; each by its fields in their order.
#[derive(Clone, Copy, Debug, PartialEq, Eq, PartialOrd, Ord, Hash)]
pub enum Named {
    /// A reading.
    Reading {
        meter: MeterId,
        register: Register,
        instant: Instant,
        wh: WattHours,
    },
    /// An assignment.
    Assignment {
        meter: MeterId,
        start: Instant,
        owner: Owner,
    },
    /// A top-up.
    TopUp {
        reference: Reference,
        account: AccountId,
        cents: u32,
        instant: Instant,
    },
}

/// What a record says of its key.
#[derive(Clone, Copy, Debug, PartialEq, Eq, PartialOrd, Ord, Hash)]
pub enum Content {
    /// What the register shows.
    Reading {
        wh: WattHours,
    },
    /// Whose the meter's energy is: an account's, or nobody's.
    Assignment {
        owner: Owner,
    },
    /// What was paid for an account, and when. Cents are 1 to 100,000,000 in a record of an office.
    TopUp {
        account: AccountId,
        cents: u32,
        instant: Instant,
    },
    /// Nothing more: its key names the record that it withdraws.
    Withdrawal,
}

/// A record: a key with a content.
#[derive(Clone, Copy, Debug, PartialEq, Eq, PartialOrd, Ord, Hash)]
pub struct Entry {
    pub key: Key,
    pub content: Content,
}

/// What the records of a set that stand, as none withdraws them, say of a key.
#[derive(Clone, Copy, Debug, PartialEq, Eq)]
pub enum Contents {
    /// No record that stands has the key.
    Nothing,
    /// One record that stands has it; it counts, where it is no withdrawal.
    One(Content),
    /// Several records that stand have it, and none counts.
    Several,
}

/// The key of a kept total.
#[derive(Clone, Copy, Debug, PartialEq, Eq, PartialOrd, Ord, Hash)]
pub enum TotalKey {
    /// The energy of an owner in a band within a period, in Wh.
    Energy {
        owner: Owner,
        period: PeriodId,
        band: BandId,
        direction: Direction,
    },
    /// What was topped up for an account, in cents.
    TopUps {
        account: AccountId,
    },
}

/// Two neighbouring readings of which the later shows less: `high` at `from`, `low` at `to`.
#[derive(Clone, Copy, Debug, PartialEq, Eq)]
pub struct Fall {
    pub meter: MeterId,
    pub register: Register,
    pub from: Instant,
    pub high: WattHours,
    pub to: Instant,
    pub low: WattHours,
}

/// A key that two or more records that stand have, and how many.
#[derive(Clone, Copy, Debug, PartialEq, Eq)]
pub struct Dispute {
    pub key: Key,
    pub contents: u32,
}

/// A reading that is held of a register, whether it counts, and whether it is withdrawn.
#[derive(Clone, Copy, Debug, PartialEq, Eq)]
pub struct ReadingRow {
    pub instant: Instant,
    pub wh: WattHours,
    pub counted: bool,
    pub withdrawn: bool,
}
