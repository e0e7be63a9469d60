//! An office: its accounts, meters, bands and periods, its prices, and its weeks.

ghost use Rattle.std.specs.Prelude.{◌≡◌, ◌≢◌, ◌<◌, ◌≤◌, ℕ, Some, length, map, slice_get, option_map, string_bytes, IfSome, IfNone};
ghost use Rattle.pw_tariff.specs.Office.{IsSound, IsWeek, band_at, band_named, counts_at, has_register, letter, period_at, period_starts, periods_in, price_at, price_in, price_of, week_of_period};
ghost use Rattle.pw_tariff.specs.Held.{band_of, bands_of, period_of};
ghost use Rattle.pw_tariff.specs.Ids.{ids_below};

use crate::limits::MOST_PRICE;
use crate::walks::{AccountIds, BandIds, MeterIds};
use crate::{AccountId, BandId, Direction, MeterId, PeriodId};
use pw_obis::Register;
use pw_time::{Clock, FIRST_SECOND, Instant, WeekHour, Zone, week_hour};
use std::collections::BTreeMap;
use std::marker::Model;

// A tariff band: its letter, and its prices in nano-euro per Wh.
#[derive(Clone, Copy)]
pub(crate) struct Band {
    pub(crate) name: u8,
    pub(crate) import_price: u32,
    pub(crate) export_price: u32,
}

// A period behind the first: its first second, its week, and in each direction a price for each band, in nano-euro per Wh.
#[derive(Drop)]
pub(crate) struct Period {
    pub(crate) start: Instant,
    pub(crate) week: Vec<String>,
    pub(crate) import_prices: Vec<u32>,
    pub(crate) export_prices: Vec<u32>,
}

// A meter: its id, what its clock tells, and the registers that count.
#[derive(Drop)]
pub(crate) struct Meter {
    pub(crate) id: String,
    pub(crate) clock: Clock,
    pub(crate) registers: Vec<Register>,
}

/// An office, as its file tells it: accounts, meters with their clocks and registers, tariff bands, and periods, each with
/// its prices and the band of each hour of the week.
pub struct Office {
    pub(crate) accounts: Vec<String>,
    pub(crate) bands: Vec<Band>,
    pub(crate) meters: Vec<Meter>,
    // The meters by their ids, so that none is looked for one by one.
    pub(crate) by_id: BTreeMap<Vec<u8>, MeterId>,
    pub(crate) week: Vec<String>,
    pub(crate) later: Vec<Period>,
}

// It is written out, so that a caller doesn't prove again how each part is dropped.
impl Drop for Office {
    fn drop(self) {
        let Office {
            accounts: _,
            bands: _,
            meters: _,
            by_id: _,
            week: _,
            later: _,
        } = self;
    }
}

impl Model for Office {
    ghost use Rattle.pw_tariff.specs.Office.{OfficeFile, IsSound};
    ghost use Rattle.pw_tariff.specs.Held.{AreById, file_of};

    ghost Value = { OfficeFile };

    ghost view = { file_of };

    ghost invariant = { λ o. IsSound (file_of o) × AreById o.meters.items o.by_id };
}

impl Office {
    /// The number of accounts.
    pub fn accounts(&self) -> u16
        ensures count { result ≡ length self.now.accounts }
        ensures sound { IsSound self.now }
    {
        self.accounts.len() as u16
    }

    /// The number of meters.
    pub fn meters(&self) -> u16
        ensures count { result ≡ length self.now.meters }
        ensures sound { IsSound self.now }
    {
        self.meters.len() as u16
    }

    /// The number of tariff bands.
    pub fn bands(&self) -> u8
        ensures count { result ≡ length self.now.bands }
        ensures sound { IsSound self.now }
    {
        self.bands.len() as u8
    }

    /// The number of tariff periods, the first included.
    pub fn periods(&self) -> u8
        ensures count { result ≡ periods_in self.now }
        ensures sound { IsSound self.now }
    {
        self.later.len() as u8 + 1
    }

    /// The accounts as ids, in the file's order.
    pub fn account_ids(&self) -> AccountIds
        ensures { result ≡ ids_below (length self.now.accounts) }
    {
        AccountIds::below(self.accounts())
    }

    /// The meters as ids, in the file's order.
    pub fn meter_ids(&self) -> MeterIds
        ensures { result ≡ ids_below (length self.now.meters) }
    {
        MeterIds::below(self.meters())
    }

    /// The tariff bands as ids, in the file's order.
    pub fn band_ids(&self) -> BandIds
        ensures { result ≡ ids_below (length self.now.bands) }
    {
        BandIds::below(self.bands())
    }

    /// What rows of assignments and of top-ups call an account, and statements print.
    pub fn account_name(&self, account: AccountId) -> &str
        requires { account.0 < length self.now.accounts }
        ensures { slice_get self.now.accounts account.0 ≡ Some result.now }
    {
        self.accounts[account.0 as usize].as_str()
    }

    /// What a meter's telegrams call it, and the path that its readouts are sent to.
    pub fn meter_name(&self, meter: MeterId) -> &str
        requires { meter.0 < length self.now.meters }
        ensures { option_map (λ m. m.id) (slice_get self.now.meters meter.0) ≡ Some result.now }
    {
        self.meters[meter.0 as usize].id.as_str()
    }

    /// The name of a band, one letter from A to Z.
    pub fn band_name(&self, band: BandId) -> char
        requires { band.0 < length self.now.bands }
        ensures { option_map (λ b. b.name) (slice_get self.now.bands band.0) ≡ Some result }
    {
        char::from(self.bands[band.0 as usize].name)
    }

    /// The account that is meant by a name, if the office has it.
    pub fn account(&self, name: &[u8]) -> Option<AccountId>
        ensures some { IfSome result (λ a. slice_get self.now.accounts a.0 ≡ Some name.now) }
        ensures only { IfSome result (λ a. (i : ℕ) → slice_get self.now.accounts i ≡ Some name.now
            → i ≡ a.0) }
        ensures none { IfNone result ((i : ℕ) → slice_get self.now.accounts i ≢ Some name.now) }
    {
        for (i, own) in self.accounts.iter().enumerate() {
            if own.as_bytes() == name {
                return Some(AccountId(i as u16));
            }
        }
        None
    }

    /// The meter that is meant by an id, if the office has it.
    pub fn meter(&self, id: &[u8]) -> Option<MeterId>
        ensures some { IfSome result (λ m. option_map (λ t. t.id) (slice_get self.now.meters m.0)
            ≡ Some id.now) }
        ensures only { IfSome result (λ m. (i : ℕ)
            → option_map (λ t. t.id) (slice_get self.now.meters i) ≡ Some id.now → i ≡ m.0) }
        ensures none { IfNone result ((i : ℕ) → option_map (λ t. t.id) (slice_get self.now.meters i)
            ≢ Some id.now) }
    {
        self.by_id.get(id).copied()
    }

    /// What a meter's clock tells.
    pub fn clock(&self, meter: MeterId) -> Clock
        requires { meter.0 < length self.now.meters }
        ensures { option_map (λ m. m.clock) (slice_get self.now.meters meter.0) ≡ Some result }
    {
        self.meters[meter.0 as usize].clock
    }

    /// Whether a register of a meter counts.
    pub fn counts(&self, meter: MeterId, register: Register) -> bool
        requires { meter.0 < length self.now.meters }
        ensures { result ≡ counts_at self.now meter.0 register }
    {
        holds(&self.meters[meter.0 as usize].registers, register)
    }

    /// The tariff period of an instant: the one with the latest start that isn't later.
    pub fn period(&self, instant: Instant) -> PeriodId
        ensures period { result.0 ≡ period_at self.now instant }
        ensures within { result.0 < periods_in self.now }
        ensures sound { IsSound self.now }
    {
        let mut begun = 0;
        for period in &self.later {
            if period.start.seconds() <= instant.seconds() {
                begun += 1;
            }
        }
        PeriodId(begun)
    }

    /// The first second of a period. That of the first is the first second of all instants.
    pub fn period_start(&self, period: PeriodId) -> u32
        requires { period.0 < periods_in self.now }
        ensures { slice_get (period_starts self.now) period.0 ≡ Some result }
    {
        if period.0 == 0 {
            return FIRST_SECOND;
        }
        self.later[(period.0 - 1) as usize].start.seconds()
    }

    /// The tariff band of an instant, by the weekday and hour that local clocks show, in the week of its period.
    pub fn band(&self, instant: Instant, zone: &Zone) -> BandId
        ensures band { result.0 ≡ band_at self.now instant }
        ensures within { result.0 < length self.now.bands }
    {
        self.band_of_hour(self.period(instant), week_hour(instant, zone))
    }

    /// The tariff band of an hour of the week, in the week of a period.
    pub fn band_of_hour(&self, period: PeriodId, hour: WeekHour) -> BandId
        requires period { period.0 < periods_in self.now }
        requires day { hour.day < 7 }
        requires hour { hour.hour < 24 }
        ensures band { result.0
            ≡ band_named self.now.bands
            (letter (week_of_period self.now period.0) hour.day hour.hour) }
        ensures within { result.0 < length self.now.bands }
    {
        let week = self.week_of(period);
        let letter = week[hour.day as usize].as_bytes()[hour.hour as usize];
        BandId(named(&self.bands, letter) as u8)
    }

    // The week of a period.
    fn week_of(&self, period: PeriodId) -> &[String]
        requires { period.0 < periods_in self.now }
        ensures week { map string_bytes result.now ≡ week_of_period self.now period.0 }
        ensures sound { IsWeek self.now.bands (map string_bytes result.now) }
    {
        if period.0 == 0 {
            return &self.week;
        }
        &self.later[(period.0 - 1) as usize].week
    }

    /// The price of a band in a period and a direction, in nano-euro per Wh.
    pub fn price(&self, period: PeriodId, band: BandId, direction: Direction) -> u32
        requires period { period.0 < periods_in self.now }
        requires band { band.0 < length self.now.bands }
        ensures price { result ≡ price_at self.now period.0 band.0 direction }
        ensures bound { result ≤ MOST_PRICE }
    {
        if period.0 == 0 {
            return self.bands[band.0 as usize].price(direction);
        }
        self.later[(period.0 - 1) as usize].price(band, direction)
    }
}

impl Band {
    // Its own price in a direction: that of the first period.
    fn price(&self, direction: Direction) -> u32
        ensures { result ≡ price_of (Some (band_of self.now)) direction }
    {
        match direction {
            Direction::Import => self.import_price,
            Direction::Export => self.export_price,
        }
    }
}

impl Period {
    // The price of a band in a direction.
    fn price(&self, band: BandId, direction: Direction) -> u32
        requires import_prices { band.0 < length self.now.import_prices.items }
        requires export_prices { band.0 < length self.now.export_prices.items }
        ensures { result ≡ price_in (Some (period_of self.now)) band.0 direction }
    {
        match direction {
            Direction::Import => self.import_prices[band.0 as usize],
            Direction::Export => self.export_prices[band.0 as usize],
        }
    }
}

// The position of the band with a letter, the number of bands where none has it.
pub(crate) fn named(bands: &[Band], letter: u8) -> usize
    ensures { result ≡ band_named (bands_of bands.now) letter }
{
    for (i, band) in bands.iter().enumerate() {
        if band.name == letter {
            return i;
        }
    }
    bands.len()
}

// Whether the register is one of the list.
pub(crate) fn holds(registers: &[Register], register: Register) -> bool
    ensures { result ≡ has_register registers.now register }
{
    registers.contains(&register)
}
