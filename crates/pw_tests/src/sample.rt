//! Records of the sample offices on 2024-01-02, a Tuesday.

ghost use Rattle.std.specs.Prelude.{◌↔◌, IsTrue};
ghost use Rattle.pw_model.specs.Office.{AllOfOffice};
ghost use Rattle.pw_tariff.specs.Office.{office_of};

use crate::offices::SAMPLE;
use pw_model::plain::{self, OfficeTerms};
use pw_model::{Content, Entry, Key, Named, Reference};
use pw_obis::{Register, WattHours};
use pw_tariff::{AccountId, BandId, Direction, MeterId, Office, OfficeFault, Owner, PeriodId};
use pw_time::{Instant, Zone};
use std::alloc::Global;

/// 2024-01-02T05:00:00Z, and the hours behind it.
pub const FIVE: u32 = 1_704_171_600;

pub const SIX: u32 = FIVE + 3_600;

pub const SEVEN: u32 = FIVE + 7_200;

/// 2024-01-01T00:00:00Z.
pub const NEW_YEAR: u32 = 1_704_067_200;

pub const FIRST: AccountId = AccountId(0);

pub const SECOND: AccountId = AccountId(1);

pub const LOW: BandId = BandId(0);

pub const HIGH: BandId = BandId(1);

pub const METER: MeterId = MeterId(0);

/// The one period that the sample offices have.
pub const PERIOD: PeriodId = PeriodId(0);

/// An energy of each office: whose it is, in which band and direction.
pub type Kind = (Owner, BandId, Direction);

/// The owners' energies in the bands, in the order in which they are listed.
pub const KINDS: &[Kind] = &[
    (None, LOW, Direction::Import),
    (None, LOW, Direction::Export),
    (None, HIGH, Direction::Import),
    (None, HIGH, Direction::Export),
    (Some(FIRST), LOW, Direction::Import),
    (Some(FIRST), LOW, Direction::Export),
    (Some(FIRST), HIGH, Direction::Import),
    (Some(FIRST), HIGH, Direction::Export),
    (Some(SECOND), LOW, Direction::Import),
    (Some(SECOND), LOW, Direction::Export),
    (Some(SECOND), HIGH, Direction::Import),
    (Some(SECOND), HIGH, Direction::Export),
];

/// The sample office.
pub fn sample_office(alloc: Global) -> Result<Office, OfficeFault> {
    Office::read(alloc, SAMPLE.as_bytes())
}

/// Whether the entries are of an office.
pub fn are_of_office(office: &Office, zone: &Zone, entries: &[Entry]) -> bool
    ensures { IsTrue result ↔ AllOfOffice (office_of office.now) entries.now }
{
    let terms = OfficeTerms::new(office, zone);
    plain::are_of_office(&terms, entries)
}

/// A record, by what is written for it.
#[derive(Clone, Copy)]
pub enum Sent {
    /// the owner of a meter from a second on
    Assignment(MeterId, u32, Owner),
    /// what a register of a meter shows at a second
    Reading(MeterId, Register, u32, u64),
    /// cents that an account topped up at the new year, under a reference
    TopUp(&'static [u8], AccountId, u32),
    /// the withdrawal of such an assignment
    AssignmentWithdrawn(MeterId, u32, Owner),
    /// the withdrawal of such a reading
    ReadingWithdrawn(MeterId, Register, u32, u64),
    /// the withdrawal of such a top-up
    TopUpWithdrawn(&'static [u8], AccountId, u32),
}

/// The entry of what is told, if there is such a one.
pub fn entry_of(sent: Sent) -> Option<Entry> {
    match sent {
        Sent::Assignment(meter, second, owner) => assignment(meter, second, owner),
        Sent::Reading(meter, register, second, watt_hours) => {
            reading(meter, register, second, watt_hours)
        }
        Sent::TopUp(reference, account, cents) => top_up(reference, account, cents),
        Sent::AssignmentWithdrawn(meter, second, owner) => withdrawn(assignment(
            meter, second, owner,
        )),
        Sent::ReadingWithdrawn(meter, register, second, watt_hours) => {
            withdrawn(reading(meter, register, second, watt_hours))
        }
        Sent::TopUpWithdrawn(reference, account, cents) => {
            withdrawn(top_up(reference, account, cents))
        }
    }
}

/// The record of a reading, where the second is an instant and the watt-hours are within their limit.
pub fn reading(meter: MeterId, register: Register, second: u32, watt_hours: u64) -> Option<Entry> {
    let instant = Instant::of(second)?;
    let wh = WattHours::of(watt_hours)?;
    Some(Entry {
        key: Key::Reading {
            meter,
            register,
            instant,
        },
        content: Content::Reading { wh },
    })
}

/// The record of an assignment, where the second is an instant.
pub fn assignment(meter: MeterId, second: u32, owner: Owner) -> Option<Entry> {
    let start = Instant::of(second)?;
    Some(Entry {
        key: Key::Assignment { meter, start },
        content: Content::Assignment { owner },
    })
}

/// The record of a top-up at the new year, where the reference is one.
pub fn top_up(reference: &[u8], account: AccountId, cents: u32) -> Option<Entry> {
    let reference = Reference::of(reference)?;
    let instant = Instant::of(NEW_YEAR)?;
    Some(Entry {
        key: Key::TopUp { reference },
        content: Content::TopUp {
            account,
            cents,
            instant,
        },
    })
}

/// The withdrawal of a record, if there is one, and it can be named.
pub fn withdrawn(record: Option<Entry>) -> Option<Entry> {
    match record {
        Some(record) => withdrawal_of(&record),
        None => None,
    }
}

fn withdrawal_of(record: &Entry) -> Option<Entry> {
    let named = Named::of(record)?;
    Some(Entry {
        key: Key::Withdrawal { named },
        content: Content::Withdrawal,
    })
}
