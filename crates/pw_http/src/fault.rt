//! Why a conversation stops.

use pw_line::refused;
use std::fmt;

/// Why a conversation stops before its end.
#[derive(Clone, Copy, Debug, PartialEq, Eq)]
pub enum WireFault {
    /// 80: the reader failed.
    Read,
    /// 81: the writer failed.
    Write,
    /// 82: the reader was called as often as is allowed.
    TooManyTurns,
    /// 62: memory was refused.
    Memory,
}

impl WireFault {
    ghost use Rattle.std.specs.Prelude.{◌≡◌};
    ghost use Rattle.pw_http.specs.Faults.{wire_told};

    /// The number under which the fault is reported: 80 to 82, or 62.
    pub fn number(self) -> u8
        ensures { result ≡ (wire_told self).0 }
    {
        self.told().0
    }

    /// The name under which the fault is reported: that of the variant.
    pub fn name(self) -> &'static str
        ensures { result.now ≡ (wire_told self).1 }
    {
        self.told().1
    }

    // The number and the name.
    fn told(self) -> (u8, &'static str)
        ensures number { result.0 ≡ (wire_told self).0 }
        ensures name { result.1.now ≡ (wire_told self).1 }
    {
        match self {
            WireFault::Read => (80, "Read"),
            WireFault::Write => (81, "Write"),
            WireFault::TooManyTurns => (82, "TooManyTurns"),
            WireFault::Memory => (62, "Memory"),
        }
    }
}

/// The fault line without its end: `refused`, the number and the name.
impl fmt::Display for WireFault {
    ghost use Rattle.std.specs.Prelude.{Some};
    ghost use Rattle.pw_http.specs.Faults.{wire_line};

    ghost output = { λ fault. Some (wire_line fault) };

    fn fmt<W: fmt::Write>(&self, f: &mut fmt::Formatter<W>) -> fmt::Result {
        f.write_str(refused(self.number(), self.name()).as_str())
    }
}
