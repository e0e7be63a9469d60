//! The meters of a sample, and the energy that runs through them.

ghost use Rattle.std.specs.Prelude.{◌<◌};

use crate::draws::Draws;
use std::alloc::{AllocError, Global};

/// What a meter's clock tells.
#[derive(Clone, Copy)]
pub enum Clock {
    /// Local time with a season mark: the meter sends telegrams.
    Marked,
    /// UTC+1 all year: it sends readouts.
    Winter,
    /// Central European time without a mark: it sends readouts.
    Local,
}

/// What a meter's registers show of a direction: one total, or two rates.
#[derive(Clone, Copy)]
pub enum Shown {
    Totals,
    Rates,
}

/// What has run through a meter, in Wh, by rate.
#[derive(Clone, Copy)]
pub struct Levels {
    pub import: [u64; 2],
    pub export: [u64; 2],
}

/// Which quarter of an hour of a day has a telegram that comes late, one that comes again, one that is told otherwise as
/// well, and one whose other value is withdrawn then.
#[derive(Clone, Copy)]
pub struct Plan {
    pub late: Option<u32>,
    pub again: Option<u32>,
    pub otherwise: Option<u32>,
    pub withdrawn: Option<u32>,
}

/// A meter as the sample has it: what it shows, whose it is, and what is out of the common with it.
#[derive(Drop)]
pub struct Meter {
    /// Its place in the office file, from 0.
    pub number: u32,
    pub id: String,
    pub clock: Clock,
    pub shown: Shown,
    /// Whether it counts energy that is given back.
    pub exports: bool,
    pub levels: Levels,
    pub plan: Plan,
    /// The account that it is assigned to, by its place in the office file.
    pub owner: Option<u32>,
    /// Readouts that come with those of the next day, and how many they are.
    pub waiting: Vec<u8>,
    pub waiting_frames: u32,
}

impl Meter {
    /// The meter at a place of the office file.
    pub fn at(alloc: Global, number: u32, draws: &mut Draws) -> Result<Meter, AllocError> {
        let clock = clock_at(number);
        let exports = number % 3 != 2;
        let shown = if number % 2 == 0 {
            Shown::Rates
        } else {
            Shown::Totals
        };
        Ok(Meter {
            number,
            id: id_of(alloc, clock, number)?,
            clock,
            shown,
            exports,
            levels: first_levels(exports, draws),
            plan: NO_PLAN,
            owner: Some(first_account(number)),
            waiting: Vec::new(alloc),
            waiting_frames: 0,
        })
    }

    /// Whether it sends telegrams; else it sends readouts.
    pub fn sends_telegrams(&self) -> bool {
        matches!(self.clock, Clock::Marked)
    }

    /// How many registers it shows.
    pub fn registers(&self) -> u32 {
        let directions = if self.exports { 2 } else { 1 };
        match self.shown {
            Shown::Totals => directions,
            Shown::Rates => 2 * directions,
        }
    }

    /// Its first register, and what that shows of levels.
    pub fn first_register(&self, levels: &Levels) -> (&'static str, u64) {
        match self.shown {
            Shown::Totals => ("I0", levels.import[0].saturating_add(levels.import[1])),
            Shown::Rates => ("I1", levels.import[0]),
        }
    }

    /// Lets a quarter of an hour pass.
    pub fn pass(&mut self, quarter: u32, draws: &mut Draws) {
        let by_day = 24 <= quarter && quarter < 88;
        let used = draws.below(if by_day { 300 } else { 80 });
        add(&mut self.levels.import, by_day, used.saturating_add(5));
        if self.exports && 32 <= quarter && quarter < 72 {
            add(&mut self.levels.export, by_day, draws.below(250));
        }
    }

    /// Sets the import register of rate 2 back to a quarter of what it shows.
    pub fn set_back(&mut self) {
        self.levels.import[1] /= 4;
    }
}

// Nothing out of the common.
const NO_PLAN: Plan = Plan {
    late: None,
    again: None,
    otherwise: None,
    withdrawn: None,
};

/// The account of a meter at first: of three meters in a row the first has one account, the other two share one.
pub fn first_account(number: u32) -> u32 {
    2 * (number / 3) + (number % 3).min(1)
}

// Of ten meters in a row the second has a winter clock, the third a local one.
fn clock_at(number: u32) -> Clock {
    match number % 10 {
        1 => Clock::Winter,
        2 => Clock::Local,
        _ => Clock::Marked,
    }
}

// The identifier, with the four digits of the number: of telegrams the characters `M0000` in hexadecimal, as meters send
// theirs.
fn id_of(alloc: Global, clock: Clock, number: u32) -> Result<String, AllocError> {
    match clock {
        Clock::Marked => {
            let (thousands, hundreds) = (number / 1000 % 10, number / 100 % 10);
            let (tens, ones) = (number / 10 % 10, number % 10);
            format!(in alloc; "4D3{thousands}3{hundreds}3{tens}3{ones}")
        }
        _ => format!(in alloc; "Z{number:04}"),
    }
}

fn first_levels(exports: bool, draws: &mut Draws) -> Levels {
    let import = [
        first_level(20_000_000, draws),
        first_level(20_000_000, draws),
    ];
    let export = if exports {
        [first_level(4_000_000, draws), first_level(4_000_000, draws)]
    } else {
        [0, 0]
    };
    Levels { import, export }
}

// From 1,000 kWh up.
fn first_level(bound: u64, draws: &mut Draws) -> u64
    requires { 0 < bound }
{
    draws.below(bound).saturating_add(1_000_000)
}

// Rate 2 is that of the day.
fn add(rates: &mut [u64; 2], by_day: bool, energy: u64) {
    if by_day {
        rates[1] = rates[1].saturating_add(energy);
    } else {
        rates[0] = rates[0].saturating_add(energy);
    }
}
