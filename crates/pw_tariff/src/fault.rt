//! Why an office file is refused.

use std::alloc::{AllocError, AllocFailed};
use std::fmt;

/// Why a text is no office file.
#[derive(Clone, Copy, Debug, Drop, PartialEq, Eq)]
pub enum OfficeFault {
    /// The text isn't UTF-8, or isn't TOML.
    Toml,
    /// A key is missing, or its value is of another kind.
    MissingField,
    /// A name, an id, a clock or a register isn't written as it has to be.
    BadName,
    /// A name stands twice in its list.
    TwiceNamed,
    /// The week isn't seven texts of 24 bands' letters.
    Week,
    /// A price is out of range.
    Price,
    /// A meter counts a total beside one of its rates.
    RegistersOverlap,
    /// There are no accounts, no bands or no meters, or a meter counts no register.
    Empty,
    /// There are more than 256 accounts, 8 bands, 1,024 meters or 15 later periods.
    TooMany,
    /// A later period doesn't begin at a whole hour of UTC behind the start of the one before it, or doesn't have one price
    /// for each band.
    Period,
    /// Memory was refused.
    Memory,
}

impl OfficeFault {
    ghost use Rattle.std.specs.Prelude.{◌≡◌};
    ghost use Rattle.pw_tariff.specs.Faults.{office_fault_told};

    /// The number under which the fault is reported: 30 to 39, and 62.
    pub fn number(self) -> u8
        ensures { result ≡ (office_fault_told self).0 }
    {
        self.told().0
    }

    /// The name under which the fault is reported: that of the variant.
    pub fn name(self) -> &'static str
        ensures { result.now ≡ (office_fault_told self).1 }
    {
        self.told().1
    }

    // The number and the name.
    fn told(self) -> (u8, &'static str)
        ensures number { result.0 ≡ (office_fault_told self).0 }
        ensures name { result.1.now ≡ (office_fault_told self).1 }
    {
        match self {
            OfficeFault::Toml => (30, "Toml"),
            OfficeFault::MissingField => (31, "MissingField"),
            OfficeFault::BadName => (32, "BadName"),
            OfficeFault::TwiceNamed => (33, "TwiceNamed"),
            OfficeFault::Week => (34, "Week"),
            OfficeFault::Price => (35, "Price"),
            OfficeFault::RegistersOverlap => (36, "RegistersOverlap"),
            OfficeFault::Empty => (37, "Empty"),
            OfficeFault::TooMany => (38, "TooMany"),
            OfficeFault::Period => (39, "Period"),
            OfficeFault::Memory => (62, "Memory"),
        }
    }
}

/// The fault line without its end: `refused`, the number, the name.
impl fmt::Display for OfficeFault {
    ghost use Rattle.std.specs.Prelude.{Some};
    ghost use Rattle.pw_tariff.specs.Faults.{office_fault_line};

    ghost output = { λ fault. Some (office_fault_line fault) };

    fn fmt<W: fmt::Write>(&self, f: &mut fmt::Formatter<W>) -> fmt::Result {
        let number = self.number();
        let name = self.name();
        write!(f, "refused {number} {name}")
    }
}

impl From<AllocError> for OfficeFault {
    ghost use Rattle.std.specs.Prelude.{◌≡◌};
    ghost use Rattle.pw_tariff.specs.declared.fault.OfficeFault.TheVariants.{Memory};

    ghost from_gives = { λ _ fault. fault ≡ Memory };

    fn from(_: AllocError) -> OfficeFault {
        OfficeFault::Memory
    }
}

impl<T: Drop> From<AllocFailed<T>> for OfficeFault {
    ghost use Rattle.std.specs.Prelude.{◌≡◌};
    ghost use Rattle.pw_tariff.specs.declared.fault.OfficeFault.TheVariants.{Memory};

    ghost from_gives = { λ _ fault. fault ≡ Memory };

    fn from(_: AllocFailed<T>) -> OfficeFault {
        OfficeFault::Memory
    }
}
