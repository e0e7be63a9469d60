//! Why calls and openings are refused.

ghost use Rattle.std.specs.Prelude.{◌≡◌, ◌+◌, ◌⊎◌};
ghost use Rattle.pw_shelf.specs.Calls.{failures_in};
ghost use Rattle.pw_shelf.specs.declared.fault.ShelfFault.TheVariants.{Device};
ghost use Rattle.pw_store.specs.declared.fault.AskFault.TheVariants.{Statement};
ghost use Rattle.pw_store.specs.inner.Asking.{ask_fault};
ghost use Rattle.pw_store.specs.inner.Changing.{refuses_key};

use pw_line::refused;
use pw_schema::{JudgeFault, ReadFault};
use pw_shelf::{ShelfFault, Tally};
use sqlite::{Constraint, Error, ErrorCode};
use std::fmt;

// Why a question has no answer.
pub(crate) enum AskFault {
    /// A statement was refused.
    Statement(Error),
    /// Memory was refused for the answer.
    Memory,
    /// The rows shown aren't those of a store.
    Unreadable,
}

impl From<Error> for AskFault {
    ghost from_gives = { λ error fault. fault ≡ Statement error };

    fn from(error: Error) -> Self {
        AskFault::Statement(error)
    }
}

impl From<ReadFault> for AskFault {
    ghost from_gives = { λ read fault. fault ≡ ask_fault read };

    fn from(fault: ReadFault) -> Self {
        match fault {
            ReadFault::Memory => AskFault::Memory,
            ReadFault::Wrong => AskFault::Unreadable,
        }
    }
}

// Want of memory, or a failure of the device, which is counted.
pub(crate) fn fault_of(error: Error, failures: &mut Tally) -> ShelfFault
    ensures { failures.new.count ≡ failures.old.count + failures_in result }
{
    match error {
        Error::SqliteFailure(ErrorCode::OutOfMemory) => ShelfFault::Memory,
        _ => device_fault(failures),
    }
}

// A failure of the device, counted.
pub(crate) fn device_fault(failures: &mut Tally) -> ShelfFault
    ensures device { result ≡ Device }
    ensures counted { failures.new.count ≡ failures.old.count + 1 }
{
    failures.tick(0);
    ShelfFault::Device
}

// Whether a row was refused because another has its key.
pub(crate) fn is_key_taken(error: Error) -> bool
    ensures { result ≡ refuses_key error }
{
    match error {
        Error::SqliteFailure(ErrorCode::ConstraintViolation(Constraint::Unique)) => true,
        _ => false,
    }
}

// What a question that has no answer is to a shelf: a failure of the device is counted.
pub(crate) fn fault_of_ask(fault: AskFault, failures: &mut Tally) -> ShelfFault
    ensures { failures.new.count ≡ failures.old.count + failures_in result }
{
    match fault {
        AskFault::Statement(error) => fault_of(error, failures),
        AskFault::Memory => ShelfFault::Memory,
        AskFault::Unreadable => device_fault(failures),
    }
}

/// Why a connection isn't opened.
#[derive(Clone, Copy, Debug, PartialEq, Eq)]
pub enum OpenFault {
    /// `sqlite` refused for another cause than memory.
    Store,
    /// Memory was refused.
    Memory,
    /// The kept office text isn't this one.
    OfficeDiffers,
    /// Another schema version.
    Version,
    /// The tables aren't those of a store, or aren't alone, a row is no record of the office, or points, starts and totals
    /// aren't those of the records.
    Unclean,
}

impl OpenFault {
    ghost use Rattle.pw_store.specs.Faults.{open_told};

    /// The number under which the fault is reported: 70 to 73, or 62.
    pub fn number(self) -> u8
        ensures { result ≡ (open_told self).0 }
    {
        self.told().0
    }

    /// The name under which the fault is reported: that of the variant.
    pub fn name(self) -> &'static str
        ensures { result.now ≡ (open_told self).1 }
    {
        self.told().1
    }

    // The number and the name.
    fn told(self) -> (u8, &'static str)
        ensures number { result.0 ≡ (open_told self).0 }
        ensures name { result.1.now ≡ (open_told self).1 }
    {
        match self {
            OpenFault::Store => (70, "Store"),
            OpenFault::Memory => (62, "Memory"),
            OpenFault::OfficeDiffers => (71, "OfficeDiffers"),
            OpenFault::Version => (72, "Version"),
            OpenFault::Unclean => (73, "Unclean"),
        }
    }
}

/// The fault line without its end: `refused`, the number and the name.
impl fmt::Display for OpenFault {
    ghost use Rattle.std.specs.Prelude.{Some};
    ghost use Rattle.pw_store.specs.Faults.{open_line};

    ghost output = { λ fault. Some (open_line fault) };

    fn fmt<W: fmt::Write>(&self, f: &mut fmt::Formatter<W>) -> fmt::Result {
        f.write_str(refused(self.number(), self.name()).as_str())
    }
}

/// What a refused statement is to an opening.
impl From<Error> for OpenFault {
    ghost use Rattle.pw_store.specs.Faults.{IsOfStatement};

    ghost from_gives = { λ error fault. IsOfStatement error fault };

    fn from(error: Error) -> Self {
        match error {
            Error::SqliteFailure(ErrorCode::OutOfMemory) => OpenFault::Memory,
            _ => OpenFault::Store,
        }
    }
}

// What rows that a judge refused are to an opening.
pub(crate) fn fault_of_rows(fault: JudgeFault) -> OpenFault
    ensures foreign { result ≡ OpenFault.Unclean → fault ≡ JudgeFault.Foreign }
    ensures others { (result ≡ OpenFault.Unclean)
        ⊎ ((result ≡ OpenFault.Memory) ⊎ (result ≡ OpenFault.Store)) }
{
    match fault {
        JudgeFault::Memory => OpenFault::Memory,
        JudgeFault::Foreign => OpenFault::Unclean,
        JudgeFault::Unordered => OpenFault::Store,
    }
}
