//! Names of an office.

use pw_tariff::{AccountId, BandId, Direction, MeterId, Office, Owner, PeriodId};

// An account's name, `-` for nobody.
pub(crate) fn owner_name(office: &Office, owner: Owner) -> &str {
    match owner {
        Some(account) if account.0 < office.accounts() => office.account_name(account),
        _ => "-",
    }
}

// The owner of a name, `-` for nobody.
pub(crate) fn owner(office: &Office, word: &str) -> Option<Owner> {
    if word == "-" {
        return Some(None);
    }
    Some(Some(account(office, word)?))
}

pub(crate) fn account(office: &Office, word: &str) -> Option<AccountId> {
    office.account(word.as_bytes())
}

pub(crate) fn meter(office: &Office, word: &str) -> Option<MeterId> {
    office.meter(word.as_bytes())
}

pub(crate) fn meter_name(office: &Office, meter: MeterId) -> &str {
    if meter.0 < office.meters() {
        office.meter_name(meter)
    } else {
        "-"
    }
}

pub(crate) fn band_name(office: &Office, band: BandId) -> char {
    if band.0 < office.bands() {
        office.band_name(band)
    } else {
        '-'
    }
}

// The band of a number.
pub(crate) fn band(word: &str) -> Option<BandId> {
    Some(BandId(word.parse::<u8>().ok()?))
}

// The period of a number.
pub(crate) fn period(word: &str) -> Option<PeriodId> {
    Some(PeriodId(word.parse::<u8>().ok()?))
}

pub(crate) fn direction(word: &str) -> Option<Direction> {
    for direction in [Direction::Import, Direction::Export] {
        if direction.name() == word {
            return Some(direction);
        }
    }
    None
}
