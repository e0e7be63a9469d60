//! Why an upload is refused.

ghost use Rattle.std.specs.Prelude.{◌≡◌, ◌<◌};
ghost use Rattle.arrayvec.specs.ArrayString.{array_string_len};
ghost use Rattle.pw_record.specs.Causes.{cause_told, fault_line};
ghost use Rattle.pw_record.specs.declared.fault.Cause.TheVariants as cause;
ghost use Rattle.pw_record.specs.declared.fault.Halt.TheVariants as halt;
ghost use Rattle.pw_record.specs.inner.Halts.{fault_of_part};

use pw_frame::{FrameFault, part_refused};
use pw_line::{Line, ROOM};
use pw_obis::{LineFault, ValueFault};
use pw_time::StampFault;
use std::alloc::AllocError;

/// What is wrong with a part of a body, or with the body itself.
#[derive(Clone, Copy, Debug, PartialEq, Eq)]
pub enum Cause {
    /// 1 to 7: a stamp, a date and a time, or an instant of a row.
    Instant(StampFault),
    /// 10 to 15: no frame stands there.
    Frame(FrameFault),
    /// 20: a line of the frame's block isn't in the grammar of data sets.
    Line(LineFault),
    /// 21 to 23: the value of a register that counts; 21 also the watt-hours of a row.
    Value(ValueFault),
    /// 40: a telegram has no meter identifier.
    NoMeter,
    /// 41: the office has no meter with the id.
    UnknownMeter,
    /// 42: a frame is of another kind than its path is for, or its meter's clock is.
    WrongKind,
    /// 43: a telegram has no stamp, or a readout lacks its date or its time.
    NoInstant,
    /// 44: a frame shows a register twice, with unlike energies.
    RegisterTwice,
    /// 45: a frame shows no register that counts for its meter.
    NoRegister,
    /// 46: the office has no account with the name.
    UnknownAccount,
    /// 47: a row hasn't the number of fields of its kind.
    CsvForm,
    /// 48: the first row isn't the header of the body's kind, or there is none.
    Header,
    /// 49: cents aren't 1 to 9 digits of a value from 1 to 100,000,000.
    Cents,
    /// 50: a reference isn't 1 to 32 characters of A to Z, a to z, 0 to 9, `-` and `.`.
    Reference,
    /// 51: more than 64 frames, or more than 1,000 rows.
    TooManyParts,
    /// 52: a frame gives two unlike identifiers, stamps, dates or times.
    TwiceGiven,
    /// 53: the first field of a row of withdrawals names no kind of record that can be withdrawn.
    Kind,
    /// 54: a row that withdraws a reading names no register, or one that doesn't count for its meter.
    RegisterName,
    /// 62: memory was refused.
    Memory,
}

/// Why a part of a body gives no entries.
#[derive(Clone, Copy, Debug, PartialEq, Eq)]
pub enum Halt {
    /// Memory was refused, which says nothing of the part.
    Memory,
    Refused(Cause),
}

impl Halt {
    /// The fault of an upload whose part with this number gives no entries.
    pub fn of_part(self, part: u32) -> UploadFault
        ensures { result ≡ fault_of_part self part }
    {
        match self {
            Halt::Memory => MEMORY_FAULT,
            Halt::Refused(cause) => UploadFault { part, cause },
        }
    }
}

impl From<Cause> for Halt {
    ghost from_gives = { λ given told. told ≡ halt.Refused given };

    fn from(cause: Cause) -> Halt {
        Halt::Refused(cause)
    }
}

impl From<AllocError> for Halt {
    ghost from_gives = { λ _ told. told ≡ halt.Memory };

    fn from(_: AllocError) -> Halt {
        Halt::Memory
    }
}

/// Want of memory, in whatever part.
pub const MEMORY_FAULT: UploadFault = UploadFault {
    part: 0,
    cause: Cause::Memory,
};

/// Why an upload is refused, and which part of it.
///
/// A part is a frame, or a row behind the header; they are counted from 1. A fault before the first part, as that of a
/// header, has the part 0, and so has want of memory.
#[derive(Clone, Copy, Debug, PartialEq, Eq)]
pub struct UploadFault {
    pub part: u32,
    pub cause: Cause,
}

impl Cause {
    /// The number under which the cause is reported.
    pub fn number(self) -> u8
        ensures { result ≡ (cause_told self).0 }
    {
        self.told().0
    }

    /// The name under which the cause is reported: that of the variant, or of the fault that it holds.
    pub fn name(self) -> &'static str
        ensures { result.now ≡ (cause_told self).1 }
    {
        self.told().1
    }

    // The number and the name.
    fn told(self) -> (u8, &'static str)
        ensures number { result.0 ≡ (cause_told self).0 }
        ensures name { result.1.now ≡ (cause_told self).1 }
    {
        match self {
            Cause::Instant(fault) => (fault.number(), fault.name()),
            Cause::Frame(fault) => (fault.number(), fault.name()),
            Cause::Line(fault) => (fault.number(), fault.name()),
            Cause::Value(fault) => (fault.number(), fault.name()),
            Cause::NoMeter => (40, "NoMeter"),
            Cause::UnknownMeter => (41, "UnknownMeter"),
            Cause::WrongKind => (42, "WrongKind"),
            Cause::NoInstant => (43, "NoInstant"),
            Cause::RegisterTwice => (44, "RegisterTwice"),
            Cause::NoRegister => (45, "NoRegister"),
            Cause::UnknownAccount => (46, "UnknownAccount"),
            Cause::CsvForm => (47, "CsvForm"),
            Cause::Header => (48, "Header"),
            Cause::Cents => (49, "Cents"),
            Cause::Reference => (50, "Reference"),
            Cause::TooManyParts => (51, "TooManyParts"),
            Cause::TwiceGiven => (52, "TwiceGiven"),
            Cause::Kind => (53, "Kind"),
            Cause::RegisterName => (54, "RegisterName"),
            Cause::Memory => (62, "Memory"),
        }
    }
}

impl From<StampFault> for Cause {
    ghost from_gives = { λ fault told. told ≡ cause.Instant fault };

    fn from(fault: StampFault) -> Cause {
        Cause::Instant(fault)
    }
}

impl From<LineFault> for Cause {
    ghost from_gives = { λ fault told. told ≡ cause.Line fault };

    fn from(fault: LineFault) -> Cause {
        Cause::Line(fault)
    }
}

impl From<ValueFault> for Cause {
    ghost from_gives = { λ fault told. told ≡ cause.Value fault };

    fn from(fault: ValueFault) -> Cause {
        Cause::Value(fault)
    }
}

impl UploadFault {
    /// The fault line without its end: `refused`, the number, the name, and `part` with its number; for 10 to 15 `at`
    /// with the place, and for 12 and 14 the stated and the computed check.
    pub fn line(self) -> Line
        ensures text { result.bytes ≡ fault_line self }
        ensures fits { array_string_len result < ROOM }
    {
        let missing = match self.cause {
            Cause::Frame(fault) => Some(fault),
            _ => None,
        };
        part_refused(
            self.cause.number(),
            self.cause.name(),
            u64::from(self.part),
            missing,
        )
    }
}
