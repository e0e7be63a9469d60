//! What a command does, told beside it: how far the opening of a store with many records is, that it changed the store, and
//! how far a load of many files is.

use pw_book::Accepted;
use pw_carrying::Carrying;
use pw_schema::{RecordKind, TotalKind};
use pw_store::{Part, Watch};
use std::fmt;
use std::io::{self, Write};
use std::time::{Clock, Instant};

// From how many records on a person is told.
const MANY: usize = 100_000;

// How many parts of a store an opening checks.
const PARTS: u8 = 10;

const UPGRADED: &[u8] =
    b"powerbook: the store was of an older version and is of version 3 now: an older powerbook won't open it any more\n";

// Takes what stands in a terminal's line away, and goes to its begin.
const CLEARED: &[u8] = b"\r\x1b[K";

/// How far a load of many files is: the files that are through, of how many, and their records, fresh and repeated.
#[derive(Clone, Copy, Debug, PartialEq, Eq)]
pub struct Loaded {
    files: u64,
    all: u64,
    records: u64,
}

impl Loaded {
    pub(crate) fn none_of(all: usize) -> Loaded {
        Loaded {
            files: 0,
            all: all as u64,
            records: 0,
        }
    }

    // A file was accepted.
    pub(crate) fn add(&mut self, accepted: Accepted) {
        let records = u64::from(accepted.fresh) + u64::from(accepted.repeated);
        self.records = self.records.saturating_add(records);
        self.pass();
    }

    // A file is through.
    pub(crate) fn pass(&mut self) {
        self.files = self.files.saturating_add(1);
    }
}

/// What the line of a bar tells between `powerbook: ` and how fast it is.
impl fmt::Display for Loaded {
    ghost use Rattle.std.specs.Prelude.{Some};
    ghost use Rattle.pw_commands.specs.Loads.{loaded_line};

    ghost output = { λ loaded. Some (loaded_line loaded) };

    fn fmt<W: fmt::Write>(&self, f: &mut fmt::Formatter<W>) -> fmt::Result {
        let Loaded {
            files,
            all,
            records,
        } = *self;
        write!(f, "files {files} of {all}, records {records}")
    }
}

/// Who is told how far an opening is, how far a load of many files, and how far a carrying.
pub trait Follow: Watch + Carrying {
    /// One more file is through.
    fn loaded(&mut self, loaded: &Loaded);

    /// A line is about to be written: what stands in its place is taken away.
    fn clear(&mut self);
}

/// Tells that a store was brought to a later version, and a person who waits each part that was checked, where there are
/// many records, and how far a load of many files is, in one line that changes.
#[derive(Drop)]
pub struct Progress<C: Clock, E: Write> {
    clock: C,
    err: E,
    is_waited_for: bool,
    // the records checked so far in an opening
    records: usize,
    // when the first file was through, and how far the load was then
    first: Option<(Instant, Loaded)>,
    is_shown: bool,
}

impl<C: Clock, E: Write> Progress<C, E> {
    /// Lines go to `err`; `is_waited_for` is whether a person waits there. How fast a load is tells the clock.
    pub fn new(clock: C, err: E, is_waited_for: bool) -> Progress<C, E> {
        Progress {
            clock,
            err,
            is_waited_for,
            records: 0,
            first: None,
            is_shown: false,
        }
    }

    // How far a load is; from its second file on how fast, and how long it will take yet.
    fn show(&mut self, loaded: &Loaded) -> io::Result<()> {
        write!(self.err, "powerbook: {loaded}")?;
        let Some((start, first)) = self.first else {
            self.first = Some((Instant::now(&self.clock)?, *loaded));
            return Ok(());
        };
        let seconds = start.elapsed(&self.clock)?.as_secs().max(1);
        let rate = loaded.records.saturating_sub(first.records) / seconds;
        let files = loaded.files.saturating_sub(first.files).max(1);
        let left = seconds.saturating_mul(loaded.all.saturating_sub(loaded.files)) / files;
        write!(self.err, ", {rate} a second, {left} s left")
    }
}

impl<C: Clock, E: Write> Watch for Progress<C, E> {
    fn checked(&mut self, part: Part, rows: usize) {
        let (place, name) = told(part);
        if place == 1 {
            self.records = 0;
        }
        if place <= 6 {
            self.records = self.records.saturating_add(rows);
        }
        if !self.is_waited_for || self.records <= MANY {
            return;
        }
        let _ = writeln!(
            self.err,
            "powerbook: opening the store: {rows} {name} checked, {place} of {PARTS}"
        );
        if place == PARTS {
            let _ = writeln!(
                self.err,
                "powerbook: opening the store: adding up {} records",
                self.records
            );
        }
    }

    fn upgraded(&mut self) {
        let _ = self.err.write_all(UPGRADED);
    }
}

impl<C: Clock, E: Write> Carrying for Progress<C, E> {
    fn carried(&mut self, records: u32) {
        if self.is_waited_for {
            self.clear();
            let _ = write!(self.err, "powerbook: carried {records} records");
            self.is_shown = true;
        }
    }
}

impl<C: Clock, E: Write> Follow for Progress<C, E> {
    fn loaded(&mut self, loaded: &Loaded) {
        if self.is_waited_for {
            self.clear();
            let _ = self.show(loaded);
            self.is_shown = true;
        }
    }

    fn clear(&mut self) {
        if self.is_shown {
            let _ = self.err.write_all(CLEARED);
            self.is_shown = false;
        }
    }
}

// The place of a part in the order of checks, and its name.
fn told(part: Part) -> (u8, &'static str) {
    match part {
        Part::Records(RecordKind::Readings) => (1, "readings"),
        Part::Records(RecordKind::Assignments) => (2, "assignments"),
        Part::Records(RecordKind::TopUps) => (3, "top-ups"),
        Part::Records(RecordKind::WithdrawnReadings) => (4, "withdrawn readings"),
        Part::Records(RecordKind::WithdrawnAssignments) => (5, "withdrawn assignments"),
        Part::Records(RecordKind::WithdrawnTopUps) => (6, "withdrawn top-ups"),
        Part::Points => (7, "points"),
        Part::Starts => (8, "starts"),
        Part::Totals(TotalKind::Energies) => (9, "totals of energy"),
        Part::Totals(TotalKind::Payments) => (PARTS, "totals of top-ups"),
    }
}
