//! What is fixed before any record comes.

ghost use Rattle.std.specs.Prelude.{◌≡◌};
ghost use Rattle.pw_tariff.specs.Office.{office_of, price_at};
ghost use Rattle.pw_model.specs.Office.{IsOffice};

use pw_obis::Register;
use pw_tariff::{BandId, Direction, MeterId, Office, PeriodId};
use pw_time::{Instant, Zone};
use std::marker::Model;

/// The terms of an office as its file tells them, with the bands that local clocks show in the week of each period.
///
/// It borrows the office and the zone, and takes no memory.
#[derive(Drop)]
pub struct OfficeTerms<'a> {
    office: &'a Office,
    zone: &'a Zone,
}

impl<'a> Model for OfficeTerms<'a> {
    ghost use Rattle.pw_tariff.specs.Office.{OfficeFile};

    ghost Value = { OfficeFile };

    ghost view = { λ t. t.office.now };
}

impl<'a> OfficeTerms<'a> {
    /// The terms of an office. A contract sees them as what its file says.
    pub fn new(office: &'a Office, zone: &'a Zone) -> OfficeTerms<'a>
        ensures file { result ≡ office.now }
        ensures office { IsOffice (office_of office.now) }
    {
        let _accounts = office.accounts();
        OfficeTerms { office, zone }
    }

    // The office itself, for the balances, which ask which of its registers a meter has.
    pub(super) fn office(&self) -> &'a Office
        ensures { result.now ≡ self.now }
    {
        self.office
    }

    /// How many accounts there are.
    pub fn accounts(&self) -> u16
        ensures { result ≡ (office_of self.now).accounts }
    {
        self.office.accounts()
    }

    /// How many meters there are.
    pub fn meters(&self) -> u16
        ensures { result ≡ (office_of self.now).meters }
    {
        self.office.meters()
    }

    /// How many bands there are.
    pub fn bands(&self) -> u8
        ensures { result ≡ (office_of self.now).bands }
    {
        self.office.bands()
    }

    /// How many periods there are.
    pub fn periods(&self) -> u8
        ensures { result ≡ (office_of self.now).periods }
    {
        self.office.periods()
    }

    /// Whether a meter's register counts.
    pub fn counts(&self, meter: MeterId, register: Register) -> bool
        ensures { result ≡ (office_of self.now).counts meter.0 register }
    {
        meter.0 < self.office.meters() && self.office.counts(meter, register)
    }

    /// The band of an instant.
    pub fn band(&self, instant: Instant) -> BandId
        ensures { result.0 ≡ (office_of self.now).band instant }
    {
        self.office.band(instant, self.zone)
    }

    /// The period of an instant.
    pub fn period(&self, instant: Instant) -> PeriodId
        ensures { result.0 ≡ (office_of self.now).period instant }
    {
        self.office.period(instant)
    }

    /// The price of a band in a period, in nano-euro per Wh.
    pub fn price(&self, period: PeriodId, band: BandId, direction: Direction) -> u32
        ensures { result ≡ (office_of self.now).price period.0 band.0 direction }
    {
        price_held(self.office, period, band, direction)
    }
}

// The price of a band in a period of an office: nothing where it hasn't both.
fn price_held(office: &Office, period: PeriodId, band: BandId, direction: Direction) -> u32
    ensures { result ≡ price_at office.now period.0 band.0 direction }
{
    if period.0 >= office.periods() {
        return 0;
    }
    if band.0 >= office.bands() {
        return 0;
    }
    office.price(period, band, direction)
}
