//! The place of a register, and which way energy flows that it counts.

ghost use Rattle.std.specs.Prelude.{◌≡◌, ◌<◌};
ghost use Rattle.pw_tariff.specs.Office.{register_place as place_told};
ghost use Rattle.pw_model.specs.Same.{direction_of as direction_told};

use pw_obis::Register;
use pw_tariff::Direction;

/// The place of a register in the order I0, I1, I2, E0, E1, E2, from 0.
pub fn register_place(register: Register) -> u32
    ensures place { result ≡ place_told register }
    ensures within { result < 6 }
{
    match register {
        Register::I0 => 0,
        Register::I1 => 1,
        Register::I2 => 2,
        Register::E0 => 3,
        Register::E1 => 4,
        Register::E2 => 5,
    }
}

/// The direction of a register: I0, I1 and I2 count imported energy, E0, E1 and E2 exported energy.
pub fn direction_of(register: Register) -> Direction
    ensures { result ≡ direction_told register }
{
    match register {
        Register::I0 | Register::I1 | Register::I2 => Direction::Import,
        Register::E0 | Register::E1 | Register::E2 => Direction::Export,
    }
}
