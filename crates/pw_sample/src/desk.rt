//! The office's desk: frames come in, and files of them go out.

use crate::fault::Fault;
use crate::figures::{Figures, more};
use crate::folder::Folder;
use crate::frames::{readout, telegram};
use crate::meter::{Levels, Meter};
use crate::moment::quarter_begin;
use crate::rows::{Comes, Rows, assignment_row, reading_row};
use std::alloc::Global;
use std::mem;

// The most frames of a file.
const MOST_FRAMES: u32 = 64;

/// What stands on the desk: the files that are made, and what came and stands in none yet.
#[derive(Drop)]
pub struct Desk<'a> {
    alloc: Global,
    pub folder: Folder<'a>,
    pub figures: Figures,
    pub assignments: Rows,
    pub topups: Rows,
    pub withdrawals: Rows,
    /// Telegrams that have come and stand in no file yet, and how many they are.
    body: Vec<u8>,
    frames: u32,
    /// Telegrams that come with those of the next day.
    late: Vec<Vec<u8>>,
    /// Telegrams that come at the end of the day: some for the second time, some with another value.
    again: Vec<Vec<u8>>,
}

impl<'a> Desk<'a> {
    /// An empty desk.
    pub fn new(alloc: Global, folder: Folder<'a>, figures: Figures) -> Desk<'a> {
        Desk {
            alloc,
            folder,
            figures,
            assignments: Rows::new(alloc, "assignments", "meter,start,account\n"),
            topups: Rows::new(alloc, "topups", "reference,account,cents,instant\n"),
            withdrawals: Rows::new(alloc, "withdrawals", "kind,first,second,third,fourth\n"),
            body: Vec::new(alloc),
            frames: 0,
            late: Vec::new(alloc),
            again: Vec::new(alloc),
        }
    }

    /// Takes what a meter sends at a quarter of an hour: now, late, again or told otherwise, as its plan says.
    pub fn take(&mut self, meter: &Meter, day: u32, quarter: u32) -> Result<(), Fault> {
        let second = quarter_begin(day, quarter);
        more(&mut self.figures.readings, meter.registers());
        if is_at(meter.plan.again, quarter) {
            more(&mut self.figures.repeated_frames, 1);
            self.take_at_end(meter, &meter.levels, second)?;
        }
        if is_at(meter.plan.otherwise, quarter) {
            more(&mut self.figures.disputed_readings, 1);
            more(&mut self.figures.readings, 1);
            self.take_at_end(meter, &wrong_levels(meter), second)?;
        }
        if is_at(meter.plan.withdrawn, quarter) {
            self.take_withdrawn(meter, &wrong_levels(meter), second)?;
        }
        let frame = telegram(self.alloc, meter, &meter.levels, second)?;
        if !is_at(meter.plan.late, quarter) {
            return self.send(frame.as_slice());
        }
        more(&mut self.figures.late_frames, 1);
        Ok(self.late.push(frame)?)
    }

    /// Writes down a meter's assignment to an account or to nobody, from a second on, and answers its row.
    pub fn assign(
        &mut self,
        meter: &Meter,
        start: u32,
        owner: Option<u32>,
        comes: Comes,
    ) -> Result<String, Fault> {
        let row = assignment_row(self.alloc, meter, start, owner)?;
        more(&mut self.figures.assignments, 1);
        self.assignments.add(comes, row.as_str())?;
        Ok(row)
    }

    /// Writes down the withdrawal of a record, by its kind and its row, for the files with which it comes.
    pub fn withdraw(&mut self, kind: &str, row: &str, comes: &[Comes]) -> Result<(), Fault> {
        let row = format!(in self.alloc; "{kind},{row}")?;
        for each in comes {
            self.withdrawals.add(*each, row.as_str())?;
        }
        more(&mut self.figures.withdrawals, 1);
        Ok(())
    }

    // Another value of the first register, and its withdrawal.
    fn take_withdrawn(&mut self, meter: &Meter, levels: &Levels, second: u32) -> Result<(), Fault> {
        more(&mut self.figures.readings, 1);
        self.take_at_end(meter, levels, second)?;
        let row = reading_row(self.alloc, meter, levels, second)?;
        self.withdraw("reading", row.as_str(), &[Comes::Today])
    }

    // A telegram that comes at the end of the day.
    fn take_at_end(&mut self, meter: &Meter, levels: &Levels, second: u32) -> Result<(), Fault> {
        let frame = telegram(self.alloc, meter, levels, second)?;
        Ok(self.again.push(frame)?)
    }

    fn send(&mut self, frame: &[u8]) -> Result<(), Fault> {
        self.body.extend_from_slice(frame)?;
        self.frames = self.frames.saturating_add(1);
        more(&mut self.figures.telegrams, 1);
        if self.frames < MOST_FRAMES {
            return Ok(());
        }
        self.make_file()
    }

    /// Makes files of the rows that come today: assignments, then top-ups, then withdrawals.
    pub fn make_rows(&mut self) -> Result<(), Fault> {
        let (folder, figures) = (&mut self.folder, &mut self.figures);
        self.assignments
            .make_file(folder, &mut figures.assignment_files)?;
        self.topups.make_file(folder, &mut figures.topup_files)?;
        self.withdrawals
            .make_file(folder, &mut figures.withdrawal_files)
    }

    /// Makes a file of the telegrams that stand in none yet.
    pub fn make_file(&mut self) -> Result<(), Fault> {
        if self.body.is_empty() {
            return Ok(());
        }
        more(&mut self.figures.telegram_files, 1);
        self.folder.add_upload("telegrams", self.body.as_slice())?;
        self.body.clear();
        self.frames = 0;
        Ok(())
    }

    /// Takes the telegrams that are late from the day before.
    pub fn take_late(&mut self) -> Result<(), Fault> {
        let frames = mem::replace(&mut self.late, Vec::new(self.alloc));
        self.send_all(frames.as_slice())
    }

    /// Takes the telegrams that come at the end of the day.
    pub fn take_again(&mut self) -> Result<(), Fault> {
        let frames = mem::replace(&mut self.again, Vec::new(self.alloc));
        self.send_all(frames.as_slice())
    }

    fn send_all(&mut self, frames: &[Vec<u8>]) -> Result<(), Fault> {
        for frame in frames {
            self.send(frame.as_slice())?;
        }
        Ok(())
    }

    /// Takes a meter's readout of a day, and makes a file of it and of those that waited; or lets it wait, if it is late; or
    /// both, if it comes again.
    pub fn take_readout(
        &mut self,
        meter: &mut Meter,
        day: u32,
        is_late: bool,
        is_again: bool,
    ) -> Result<(), Fault> {
        more(&mut self.figures.readings, meter.registers());
        if is_late {
            more(&mut self.figures.late_frames, 1);
            self.make_readouts(meter)?;
            return wait(self.alloc, meter, day);
        }
        wait(self.alloc, meter, day)?;
        self.make_readouts(meter)?;
        if !is_again {
            return Ok(());
        }
        more(&mut self.figures.repeated_frames, 1);
        wait(self.alloc, meter, day)
    }

    /// Makes a file of a meter's readouts that wait.
    pub fn make_readouts(&mut self, meter: &mut Meter) -> Result<(), Fault> {
        if meter.waiting.is_empty() {
            return Ok(());
        }
        more(&mut self.figures.readout_files, 1);
        more(&mut self.figures.readouts, meter.waiting_frames);
        self.folder
            .add_readouts(meter.id.as_str(), meter.waiting.as_slice())?;
        meter.waiting.clear();
        meter.waiting_frames = 0;
        Ok(())
    }
}

// Another value of the first register.
fn wrong_levels(meter: &Meter) -> Levels {
    let mut levels = meter.levels;
    levels.import[0] = levels.import[0].saturating_add(7);
    levels
}

// Lets a meter's readout of a day wait.
fn wait(alloc: Global, meter: &mut Meter, day: u32) -> Result<(), Fault> {
    let frame = readout(alloc, meter, day)?;
    meter.waiting_frames = meter.waiting_frames.saturating_add(1);
    Ok(meter.waiting.extend_from_slice(frame.as_slice())?)
}

fn is_at(planned: Option<u32>, quarter: u32) -> bool {
    match planned {
        Some(place) => place == quarter,
        None => false,
    }
}
