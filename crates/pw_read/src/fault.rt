//! Why nothing is printed of a body, and the line that tells it.

ghost use Rattle.std.specs.Prelude.{◌≡◌, ◌<◌};
ghost use Rattle.arrayvec.specs.ArrayString.{array_string_len};
ghost use Rattle.pw_read.specs.FaultLine.{cause_told, fault_line};
ghost use Rattle.pw_read.specs.declared.fault.Cause.TheVariants as cause;
ghost use Rattle.pw_read.specs.declared.fault.Halt.TheVariants as halt;

use pw_frame::{FrameFault, part_refused};
use pw_line::{Line, ROOM};
use pw_obis::{LineFault, ValueFault};
use pw_time::StampFault;
use std::alloc::AllocError;

/// What is wrong with a frame of a body.
#[derive(Clone, Copy, Debug, PartialEq, Eq)]
pub enum Cause {
    /// 10 to 15: no frame stands there.
    Frame(FrameFault),
    /// 20: a line of the block isn't in the grammar of data sets.
    Line(LineFault),
    /// 21 to 23: a register's value.
    Value(ValueFault),
    /// 1 to 7: the stamp of a telegram, or date and time of a readout.
    Instant(StampFault),
}

/// Why the text of a frame can't be written.
#[derive(Clone, Copy, Debug, PartialEq, Eq)]
pub enum Halt {
    Memory,
    Refused(Cause),
}

impl From<AllocError> for Halt {
    ghost from_gives = { λ _ told. told ≡ halt.Memory };

    fn from(_: AllocError) -> Halt {
        Halt::Memory
    }
}

impl From<LineFault> for Halt {
    ghost from_gives = { λ fault told. told ≡ halt.Refused (cause.Line fault) };

    fn from(fault: LineFault) -> Halt {
        Halt::Refused(Cause::Line(fault))
    }
}

impl From<ValueFault> for Halt {
    ghost from_gives = { λ fault told. told ≡ halt.Refused (cause.Value fault) };

    fn from(fault: ValueFault) -> Halt {
        Halt::Refused(Cause::Value(fault))
    }
}

impl From<StampFault> for Halt {
    ghost from_gives = { λ fault told. told ≡ halt.Refused (cause.Instant fault) };

    fn from(fault: StampFault) -> Halt {
        Halt::Refused(Cause::Instant(fault))
    }
}

/// Why a body is refused: the frame's number, from 1, and what is wrong with it.
#[derive(Clone, Copy, Debug, PartialEq, Eq)]
pub struct Refusal {
    pub part: usize,
    pub cause: Cause,
}

/// Why nothing is printed of a body.
#[derive(Clone, Copy, Debug, PartialEq, Eq)]
pub enum ReadFault {
    /// 62: memory was refused.
    Memory,
    /// The body is refused.
    Refused(Refusal),
}

impl Cause {
    // The number under which the cause is reported.
    fn number(self) -> u8
        ensures { result ≡ (cause_told self).0 }
    {
        self.told().0
    }

    // The name under which it is reported: that of the fault that it holds.
    fn name(self) -> &'static str
        ensures { result.now ≡ (cause_told self).1 }
    {
        self.told().1
    }

    // The number and the name.
    fn told(self) -> (u8, &'static str)
        ensures number { result.0 ≡ (cause_told self).0 }
        ensures name { result.1.now ≡ (cause_told self).1 }
    {
        match self {
            Cause::Frame(fault) => (fault.number(), fault.name()),
            Cause::Line(fault) => (fault.number(), fault.name()),
            Cause::Value(fault) => (fault.number(), fault.name()),
            Cause::Instant(fault) => (fault.number(), fault.name()),
        }
    }
}

impl Refusal {
    /// The fault line without its end: `refused`, the number, the name, and `part` with its number; for 10 to 15 `at`
    /// with the place, and for 12 and 14 the stated and the computed check.
    pub fn line(self) -> Line
        ensures text { result.bytes ≡ fault_line self }
        ensures fits { array_string_len result < ROOM }
    {
        let missing = match self.cause {
            Cause::Frame(fault) => Some(fault),
            _ => None,
        };
        part_refused(
            self.cause.number(),
            self.cause.name(),
            self.part as u64,
            missing,
        )
    }
}
