//! What holds of the definitions themselves: each has exactly one answer. And of the registers: the list of all.

ghost use Rattle.std.specs.Prelude.{◌≡◌, Option, List};
ghost use Rattle.pw_obis.specs.Address.{IsCodeOf};
ghost use Rattle.pw_obis.specs.FirstValue.{IsFirstValue};
ghost use Rattle.pw_obis.specs.Laws.{ExactlyOne, IsOutcome};
ghost use Rattle.pw_obis.specs.References.{IsRegisterOf};
ghost use Rattle.pw_obis.specs.Registers.{registers};
ghost use Rattle.pw_obis.specs.Value.{IsEnergy};

use crate::address::code;
use crate::data_set::{Set, first_value};
use crate::meaning::register;
use crate::reader::Sets;
use crate::reference::{Code, Register};
use crate::value::watt_hours;

/// Each block has one list of sets, or one refusal with one list of sets before it.
pub fn each_block_has_one_outcome(block: &[u8])
    ensures { ExactlyOne (IsOutcome block.now) }
{
    let _ = Sets::new(block);
}

/// One code meets the definition of an address's code, or none does: whoever reads the address reads the same.
pub fn each_address_has_one_code_or_none(address: &[u8])
    ensures { ExactlyOne (IsCodeOf address.now) }
{
    let _ = code(address);
}

/// A code is of one register, or of none: no set counts in two.
pub fn each_code_has_one_register_or_none(code: &Code)
    ensures { ExactlyOne (IsRegisterOf code.now) }
{
    let _ = register(code);
}

/// One value of a set is its first, the one that counts; a set that was made by hand may have none.
pub fn each_set_has_one_first_value(set: &Set)
    ensures { ExactlyOne (IsFirstValue set.now.values.now) }
{
    let _ = first_value(set);
}

/// One energy meets the definition of a value's, or one fault: no text is read as two, or refused for two reasons.
pub fn each_value_has_one_energy_or_fault(value: &[u8])
    ensures { ExactlyOne (IsEnergy value.now) }
{
    let _ = watt_hours(value);
}

/// The constant of all registers holds each once, in their order.
pub fn all_registers_stand_in_order()
    ensures { Register.ALL ≡ registers }
{}
