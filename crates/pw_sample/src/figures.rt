//! The figures of a sample, counted while it is made.

use crate::meter::{Clock, Meter};
use std::alloc::{AllocError, Global};

/// How many there are of each.
#[derive(Drop)]
pub struct Figures {
    pub accounts: u32,
    pub meters: u32,
    pub marked_meters: u32,
    pub winter_meters: u32,
    pub local_meters: u32,
    pub telegram_files: u32,
    pub readout_files: u32,
    pub assignment_files: u32,
    pub topup_files: u32,
    pub withdrawal_files: u32,
    pub telegrams: u32,
    pub readouts: u32,
    pub late_frames: u32,
    pub repeated_frames: u32,
    pub readings: u32,
    pub assignments: u32,
    pub topups: u32,
    pub withdrawals: u32,
    pub disputed_readings: u32,
    pub falls: u32,
}

impl Figures {
    /// The figures of an office of which no record came yet.
    pub fn of(accounts: u32, meters: &[Meter]) -> Figures {
        let mut figures = NONE;
        figures.accounts = accounts;
        for meter in meters {
            more(&mut figures.meters, 1);
            match meter.clock {
                Clock::Marked => more(&mut figures.marked_meters, 1),
                Clock::Winter => more(&mut figures.winter_meters, 1),
                Clock::Local => more(&mut figures.local_meters, 1),
            }
        }
        figures
    }

    /// A line for each figure: its name and its value. `files` is how many uploads there are.
    pub fn text(&self, alloc: Global, files: u32) -> Result<String, AllocError> {
        let lines = [
            ("accounts", self.accounts),
            ("meters", self.meters),
            ("marked_meters", self.marked_meters),
            ("winter_meters", self.winter_meters),
            ("local_meters", self.local_meters),
            ("files", files),
            ("telegram_files", self.telegram_files),
            ("readout_files", self.readout_files),
            ("assignment_files", self.assignment_files),
            ("topup_files", self.topup_files),
            ("withdrawal_files", self.withdrawal_files),
            ("frames", self.telegrams.saturating_add(self.readouts)),
            ("telegrams", self.telegrams),
            ("readouts", self.readouts),
            ("late_frames", self.late_frames),
            ("repeated_frames", self.repeated_frames),
            ("records", self.records()),
            ("readings", self.readings),
            ("assignments", self.assignments),
            ("topups", self.topups),
            ("withdrawals", self.withdrawals),
            ("disputed_readings", self.disputed_readings),
            ("falls", self.falls),
        ];
        let mut text = String::new(alloc);
        for (name, value) in &lines {
            writeln!(text, "{name} {value}")?;
        }
        Ok(text)
    }

    // What is held: what is withdrawn too, and each withdrawal.
    fn records(&self) -> u32 {
        self.readings
            .saturating_add(self.assignments)
            .saturating_add(self.topups)
            .saturating_add(self.withdrawals)
    }
}

const NONE: Figures = Figures {
    accounts: 0,
    meters: 0,
    marked_meters: 0,
    winter_meters: 0,
    local_meters: 0,
    telegram_files: 0,
    readout_files: 0,
    assignment_files: 0,
    topup_files: 0,
    withdrawal_files: 0,
    telegrams: 0,
    readouts: 0,
    late_frames: 0,
    repeated_frames: 0,
    readings: 0,
    assignments: 0,
    topups: 0,
    withdrawals: 0,
    disputed_readings: 0,
    falls: 0,
};

/// Counts so many more.
pub fn more(figure: &mut u32, count: u32) {
    *figure = figure.saturating_add(count);
}
