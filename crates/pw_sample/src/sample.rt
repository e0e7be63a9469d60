//! A sample: the office file, and the uploads day by day.

use crate::desk::Desk;
use crate::draws::Draws;
use crate::fault::Fault;
use crate::figures::{Figures, more};
use crate::folder::Folder;
use crate::meter::{Meter, Plan, first_account};
use crate::moment::{QUARTERS, day_begin, first_midnight, noon};
use crate::office::{account_list, office_text};
use crate::rows::{Comes, topup_row};
use std::alloc::Global;

// The quarter of an hour at which a register is set back.
const SET_BACK: u32 = 50;

// A cooperative whose uploads are being made.
#[derive(Drop)]
struct Cooperative<'a> {
    alloc: Global,
    desk: Desk<'a>,
    draws: Draws,
    accounts: u32,
    meters: Vec<Meter>,
    /// How many payments have a reference: those that came, and those that never come.
    payments: u32,
}

/// Makes a sample of so many meters and days in a folder that isn't there yet.
pub fn make_sample(
    rt: &HostRuntime,
    meters: u32,
    days: u32,
    seed: u64,
    out: &str,
) -> Result<(), Fault> {
    let alloc = rt.alloc();
    let folder = Folder::make(rt, out)?;
    let mut draws = Draws::new(seed);
    let accounts = first_account(meters.saturating_sub(1)).saturating_add(1);
    let meters = all_meters(alloc, meters, &mut draws)?;
    let figures = Figures::of(accounts, meters.as_slice());
    let mut cooperative = Cooperative {
        alloc,
        desk: Desk::new(alloc, folder, figures),
        draws,
        accounts,
        meters,
        payments: 0,
    };
    cooperative.make(days)
}

fn all_meters(alloc: Global, count: u32, draws: &mut Draws) -> Result<Vec<Meter>, Fault> {
    let mut meters = Vec::new(alloc);
    for number in 0..count {
        meters.push(Meter::at(alloc, number, draws)?)?;
    }
    Ok(meters)
}

impl<'a> Cooperative<'a> {
    // The office file, the accounts and so many days of uploads, with the fall in the middle.
    fn make(&mut self, days: u32) -> Result<(), Fault> {
        let fall = days / 2;
        self.write_office(noon(fall))?;
        self.open()?;
        for day in 0..days {
            self.pass(day, fall)?;
        }
        self.close()
    }

    // The office file, whose second tariff period begins at a second, and the list of the accounts.
    fn write_office(&self, later: u32) -> Result<(), Fault> {
        let office = office_text(self.alloc, self.accounts, later, self.meters.as_slice())?;
        self.desk.folder.write("office.toml", office.as_bytes())?;
        let accounts = account_list(self.alloc, self.accounts)?;
        self.desk.folder.write("accounts", accounts.as_bytes())
    }

    // The first assignments, and a top-up of each account.
    fn open(&mut self) -> Result<(), Fault> {
        for meter in self.meters.iter() {
            self.desk
                .assign(meter, first_midnight(), meter.owner, Comes::Today)?;
        }
        self.top_up(0)?;
        self.desk.make_rows()
    }

    // A day of uploads. On the day of the fall a register is set back.
    fn pass(&mut self, day: u32, fall: u32) -> Result<(), Fault> {
        self.take_readouts(day)?;
        self.desk.take_late()?;
        self.make_plans(day);
        for quarter in 0..QUARTERS {
            self.pass_quarter(day, quarter, day == fall && quarter == SET_BACK)?;
        }
        self.desk.take_again()?;
        self.desk.make_file()?;
        self.change_hands(day)?;
        self.assign_wrongly(day)?;
        if day > 0 {
            self.top_up(day)?;
        }
        self.bounce(day)?;
        self.desk.make_rows()
    }

    // What is to come still, the list of the uploads, and the figures.
    fn close(&mut self) -> Result<(), Fault> {
        self.desk.take_late()?;
        self.desk.make_file()?;
        for meter in self.meters.iter_mut() {
            self.desk.make_readouts(meter)?;
        }
        self.desk.make_rows()?;
        self.desk.folder.write_list()?;
        let figures = self.desk.figures.text(self.alloc, self.desk.folder.files)?;
        self.desk.folder.write("figures.txt", figures.as_bytes())
    }

    fn take_readouts(&mut self, day: u32) -> Result<(), Fault> {
        for meter in self.meters.iter_mut() {
            if !meter.sends_telegrams() {
                let drawn = self.draws.below(6);
                self.desk.take_readout(meter, day, drawn == 0, drawn == 1)?;
            }
        }
        Ok(())
    }

    fn make_plans(&mut self, day: u32) {
        for meter in self.meters.iter_mut() {
            if meter.sends_telegrams() {
                meter.plan = plan_of(day == 0 && meter.number == 0, &mut self.draws);
            }
        }
    }

    fn pass_quarter(&mut self, day: u32, quarter: u32, falls: bool) -> Result<(), Fault> {
        for meter in self.meters.iter_mut() {
            if falls && meter.number == 0 {
                meter.set_back();
                more(&mut self.desk.figures.falls, 1);
            }
            if meter.sends_telegrams() {
                self.desk.take(meter, day, quarter)?;
            }
            meter.pass(quarter, &mut self.draws);
        }
        Ok(())
    }

    // Each day one meter of twenty is given to another account, or to nobody, from 10:00 UTC on.
    fn change_hands(&mut self, day: u32) -> Result<(), Fault> {
        for meter in self.meters.iter_mut() {
            if meter.number.saturating_add(day.saturating_mul(3)) % 20 == 0 {
                meter.owner = owner_after(meter, day, self.accounts);
                let start = day_begin(day).saturating_add(36_000);
                self.desk.assign(meter, start, meter.owner, Comes::Today)?;
            }
        }
        Ok(())
    }

    // Each day about one meter of 30 is assigned by mistake, from 12:00 UTC on, and about as many from 14:00 on: the second
    // row comes on the next day, behind its withdrawal.
    fn assign_wrongly(&mut self, day: u32) -> Result<(), Fault> {
        for meter in self.meters.iter() {
            let has_all = day == 0 && meter.number == 0;
            for (second, comes) in [(43_200, Comes::Today), (50_400, Comes::Tomorrow)] {
                if has_all || self.draws.once_in(30) {
                    let owner = owner_after(meter, day, self.accounts);
                    let start = day_begin(day).saturating_add(second);
                    let row = self.desk.assign(meter, start, owner, comes)?;
                    self.desk
                        .withdraw("assignment", row.as_str(), &[Comes::Today])?;
                }
            }
        }
        Ok(())
    }

    // On the first day each account is topped up, on each later one an account of eight.
    fn top_up(&mut self, day: u32) -> Result<(), Fault> {
        for account in 0..self.accounts {
            if day == 0 || self.draws.once_in(8) {
                self.pay(account, day)?;
            }
        }
        Ok(())
    }

    // Each day about one account of 24 has a payment that bounces: it is withdrawn on the next day. About as many have one
    // that never comes: it is withdrawn today, and again on the next day.
    fn bounce(&mut self, day: u32) -> Result<(), Fault> {
        for account in 0..self.accounts {
            let has_all = day == 0 && account == 0;
            if has_all || self.draws.once_in(24) {
                let row = self.pay(account, day)?;
                self.desk
                    .withdraw("topup", row.as_str(), &[Comes::Tomorrow])?;
            }
            if has_all || self.draws.once_in(24) {
                let row = self.payment(account, day)?;
                let comes = [Comes::Today, Comes::Tomorrow];
                self.desk.withdraw("topup", row.as_str(), &comes)?;
            }
        }
        Ok(())
    }

    // A payment that comes today.
    fn pay(&mut self, account: u32, day: u32) -> Result<String, Fault> {
        let row = self.payment(account, day)?;
        more(&mut self.desk.figures.topups, 1);
        self.desk.topups.add(Comes::Today, row.as_str())?;
        Ok(row)
    }

    // A payment under the next reference: from 08:00 to 18:00 UTC, 10 to 199 euro.
    fn payment(&mut self, account: u32, day: u32) -> Result<String, Fault> {
        more(&mut self.payments, 1);
        let second = self.draws.below(36_000) as u32;
        let instant = day_begin(day).saturating_add(28_800).saturating_add(second);
        let cents = self.draws.below(190).saturating_add(10).saturating_mul(100);
        Ok(topup_row(self.alloc, self.payments, account, cents, instant)?)
    }
}

// What of a meter's telegrams of a day is out of the common; each of the four, where it has to be.
fn plan_of(has_all: bool, draws: &mut Draws) -> Plan {
    Plan {
        late: place_in(has_all || draws.once_in(4), 8, 32, draws),
        again: place_in(has_all || draws.once_in(4), 40, 24, draws),
        otherwise: place_in(has_all || draws.once_in(12), 64, 26, draws),
        withdrawn: place_in(has_all || draws.once_in(12), 90, 6, draws),
    }
}

// One of so many places from the first on.
fn place_in(is_planned: bool, first: u32, count: u8, draws: &mut Draws) -> Option<u32> {
    if !is_planned || count == 0 {
        return None;
    }
    let place = draws.below(u64::from(count)) as u32;
    Some(first.saturating_add(place))
}

// The account of a meter that changes hands.
fn owner_after(meter: &Meter, day: u32, accounts: u32) -> Option<u32> {
    match meter.owner {
        None => Some(first_account(meter.number)),
        Some(_) if accounts < 2 || meter.number.saturating_add(day) % 3 == 2 => None,
        Some(owner) => Some(owner.saturating_add(1) % accounts),
    }
}
