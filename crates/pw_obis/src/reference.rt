//! Codes and registers.

ghost use Rattle.std.specs.Prelude.{◌≡◌};
ghost use Rattle.pw_obis.specs.Registers.{register_name};

/// The OBIS code of an address, `A-B:C.D.E*F`, by its value groups (IEC 62056-6-1).
///
/// Only C and D always stand there. F is kept as it is read, from `*F` and from `&F` alike.
#[derive(Clone, Copy, PartialEq, Eq, Hash, Debug)]
pub struct Code {
    pub a: Option<u8>,
    pub b: Option<u8>,
    pub c: u8,
    pub d: u8,
    pub e: Option<u8>,
    pub f: Option<u8>,
}

/// A cumulative register of active energy: import (delivered to the client) or export (delivered
/// by the client), as the total, rate 1 or rate 2.
#[derive(Clone, Copy, PartialEq, Eq, PartialOrd, Ord, Hash, Debug)]
pub enum Register {
    /// Import, total: `1.8.0`.
    I0,
    /// Import, rate 1: `1.8.1`.
    I1,
    /// Import, rate 2: `1.8.2`.
    I2,
    /// Export, total: `2.8.0`.
    E0,
    /// Export, rate 1: `2.8.1`.
    E1,
    /// Export, rate 2: `2.8.2`.
    E2,
}

impl Register {
    /// The registers in their order: import, then export, each as the total, rate 1 and rate 2.
    pub const ALL: [Register; 6] = [
        Register::I0,
        Register::I1,
        Register::I2,
        Register::E0,
        Register::E1,
        Register::E2,
    ];

    /// The name under which the register is printed and stated: that of the variant.
    pub fn name(self) -> &'static str
        ensures { result.now ≡ register_name self }
    {
        match self {
            Register::I0 => "I0",
            Register::I1 => "I1",
            Register::I2 => "I2",
            Register::E0 => "E0",
            Register::E1 => "E1",
            Register::E2 => "E2",
        }
    }
}
