//! Walks over an office's accounts, meters and bands. They take no memory.

ghost use Rattle.std.specs.Prelude.{◌≡◌, ◌-◌, MatchOption};
ghost use Rattle.std.specs.Iterator.{at_most};
ghost use Rattle.pw_tariff.specs.Ids.{AreEnded, GiveNext, ids_below};

use crate::{AccountId, BandId, MeterId};
use std::marker::Model;

/// The accounts of an office as ids, in its file's order.
#[derive(Debug, Drop)]
pub struct AccountIds {
    next: u16,
    end: u16,
}

impl Model for AccountIds {
    ghost use Rattle.pw_tariff.specs.Ids.{Ids};

    ghost Value = { Ids };

    ghost view = { λ ids. record { next = ids.next; end = ids.end } };
}

impl AccountIds {
    // So many ids, from 0 on.
    pub(crate) fn below(end: u16) -> AccountIds
        ensures { result ≡ ids_below end }
    {
        AccountIds { next: 0, end }
    }
}

impl Iterator for AccountIds {
    type Item = AccountId;

    ghost next_gives = { λ old id new. MatchOption id (AreEnded old new) (λ id. GiveNext old id.0 new) };

    ghost remaining = { λ ids. at_most (ids.end - ids.next) };

    fn next(&mut self) -> Option<AccountId> {
        if self.next >= self.end {
            return None;
        }
        let id = AccountId(self.next);
        self.next += 1;
        Some(id)
    }
}

/// The meters of an office as ids, in its file's order.
#[derive(Debug, Drop)]
pub struct MeterIds {
    next: u16,
    end: u16,
}

impl Model for MeterIds {
    ghost use Rattle.pw_tariff.specs.Ids.{Ids};

    ghost Value = { Ids };

    ghost view = { λ ids. record { next = ids.next; end = ids.end } };
}

impl MeterIds {
    // So many ids, from 0 on.
    pub(crate) fn below(end: u16) -> MeterIds
        ensures { result ≡ ids_below end }
    {
        MeterIds { next: 0, end }
    }
}

impl Iterator for MeterIds {
    type Item = MeterId;

    ghost next_gives = { λ old id new. MatchOption id (AreEnded old new) (λ id. GiveNext old id.0 new) };

    ghost remaining = { λ ids. at_most (ids.end - ids.next) };

    fn next(&mut self) -> Option<MeterId> {
        if self.next >= self.end {
            return None;
        }
        let id = MeterId(self.next);
        self.next += 1;
        Some(id)
    }
}

/// The tariff bands of an office as ids, in its file's order.
#[derive(Debug, Drop)]
pub struct BandIds {
    next: u8,
    end: u8,
}

impl Model for BandIds {
    ghost use Rattle.pw_tariff.specs.Ids.{Ids};

    ghost Value = { Ids };

    ghost view = { λ ids. record { next = ids.next; end = ids.end } };
}

impl BandIds {
    // So many ids, from 0 on.
    pub(crate) fn below(end: u8) -> BandIds
        ensures { result ≡ ids_below end }
    {
        BandIds { next: 0, end }
    }
}

impl Iterator for BandIds {
    type Item = BandId;

    ghost next_gives = { λ old id new. MatchOption id (AreEnded old new) (λ id. GiveNext old id.0 new) };

    ghost remaining = { λ ids. at_most (ids.end - ids.next) };

    fn next(&mut self) -> Option<BandId> {
        if self.next >= self.end {
            return None;
        }
        let id = BandId(self.next);
        self.next += 1;
        Some(id)
    }
}
