//! How faults are reported.

ghost use Rattle.std.specs.Prelude.{◌≡◌};
ghost use Rattle.pw_obis.specs.Faults.{line_fault_told, value_fault_told};

use crate::value::ValueFault;

/// 20: a line isn't in the grammar. Its first byte stands at the place `at` of the block.
#[derive(Clone, Copy, Debug, PartialEq, Eq)]
pub struct LineFault {
    pub at: usize,
}

impl LineFault {
    /// The number under which the fault is reported: 20.
    pub fn number(self) -> u8
        ensures { result ≡ line_fault_told.0 }
    {
        20
    }

    /// The name under which the fault is reported.
    pub fn name(self) -> &'static str
        ensures { result.now ≡ line_fault_told.1 }
    {
        "Line"
    }
}

impl ValueFault {
    /// The number under which the fault is reported, from 21 to 23.
    pub fn number(self) -> u8
        ensures { result ≡ (value_fault_told self).0 }
    {
        self.told().0
    }

    /// The name under which the fault is reported: that of the variant.
    pub fn name(self) -> &'static str
        ensures { result.now ≡ (value_fault_told self).1 }
    {
        self.told().1
    }

    // The number and the name.
    fn told(self) -> (u8, &'static str)
        ensures number { result.0 ≡ (value_fault_told self).0 }
        ensures name { result.1.now ≡ (value_fault_told self).1 }
    {
        match self {
            ValueFault::Digits => (21, "Digits"),
            ValueFault::Unit => (22, "Unit"),
            ValueFault::TooLarge => (23, "TooLarge"),
        }
    }
}
