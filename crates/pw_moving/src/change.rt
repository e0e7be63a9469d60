//! What a new office file says otherwise than the old one.

use pw_obis::Register;
use pw_tariff::{BandId, Direction, MeterId, PeriodId};

/// A list of an office file whose lines have names.
#[derive(Clone, Copy, Debug, PartialEq, Eq)]
pub enum Listed {
    Accounts,
    Meters,
    Bands,
}

/// What a new office file says otherwise than the old one. Places are those of lines in a list, from 0.
#[derive(Clone, Copy, Debug, PartialEq, Eq)]
pub enum Change {
    /// The new list is longer: this line stands behind those of the old one.
    Added {
        list: Listed,
        place: u16,
    },
    /// The old list is longer: the new one has no such line.
    Gone {
        list: Listed,
        place: u16,
    },
    /// At this place another name stands.
    Renamed {
        list: Listed,
        place: u16,
    },
    /// A name of the old list stands at another place of the new one.
    Moved {
        list: Listed,
        from: u16,
        to: u16,
    },
    /// The clock of a meter tells another time.
    Clock {
        meter: MeterId,
    },
    /// A register of a meter counts in the one file, and not in the other.
    Register {
        meter: MeterId,
        register: Register,
    },
    /// A period begins at another instant.
    Start {
        period: PeriodId,
    },
    /// A period stands behind those of the old file.
    NewPeriod {
        period: PeriodId,
    },
    /// The new file has no such period.
    PeriodGone {
        period: PeriodId,
    },
    /// The week of a period has another band at some hour.
    Week {
        period: PeriodId,
    },
    /// A band costs something else in a period.
    Price {
        period: PeriodId,
        band: BandId,
        direction: Direction,
    },
}

/// A name of the old office file, of an account, a meter or a band, and what it is called in the new one.
#[derive(Clone, Copy, Debug, PartialEq, Eq)]
pub struct Respelling<'a> {
    pub old: &'a [u8],
    pub new: &'a [u8],
}
