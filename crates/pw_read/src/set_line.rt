//! The line that is printed of a set.

ghost use Rattle.std.specs.Prelude.{◌≡◌, ℕ, ◌++◌, List, IfSome, IfNone, IfErr, OnOk, Ok};
ghost use Rattle.pw_obis.specs.Address.{IsCodeOf};
ghost use Rattle.pw_read.specs.Lines.{IsTextName, line_of, SetShows};
ghost use Rattle.pw_obis.specs.inner.Given.{set_text};
ghost use Rattle.pw_read.specs.inner.Sets.{SetHalts};

use crate::fault::Halt;
use pw_frame::Kind;
use pw_obis::{
    Code, Set, first_value, is_date, is_identifier, is_stamp, is_time, register, watt_hours,
};
use std::alloc::{AllocError, Global};

// The name under which a set's first value is printed as it stands: identifier and stamp belong to telegrams, time and
// date to readouts.
fn text_name(kind: Kind, code: &Code) -> Option<&'static str>
    ensures some { IfSome result (λ name. IsTextName kind code.now name.now) }
    ensures none { IfNone result ((name : List ℕ) → IsTextName kind code.now name → ⊥) }
{
    match kind {
        Kind::Telegram if is_identifier(code) => Some("meter"),
        Kind::Telegram if is_stamp(code) => Some("stamp"),
        Kind::Readout if is_time(code) => Some("time"),
        Kind::Readout if is_date(code) => Some("date"),
        _ => None,
    }
}

/// Writes the line of a set behind the text, where its code has one.
pub fn put_set(text: &mut Vec<u8>, alloc: Global, kind: Kind, set: &Set) -> Result<(), Halt>
    requires { IsCodeOf set.now.address.now set.now.code }
    ensures ok { OnOk result ((line : List ℕ) × SetShows kind (set_text set.now) (Ok line)
        × (text.new.items ≡ text.old.items ++ line)) }
    ensures err { IfErr result (SetHalts kind (set_text set.now)) }
{
    let Some(code) = set.code else {
        return Ok(());
    };
    let value = first_value(set);
    if let Some(name) = text_name(kind, &code) {
        put_line(text, name.as_bytes(), value)?;
        return Ok(());
    }
    let Some(register) = register(&code) else {
        return Ok(());
    };
    let energy = watt_hours(value)?;
    let digits = format!(in alloc; "{}", energy.get())?;
    put_line(text, register.name().as_bytes(), digits.as_bytes())?;
    Ok(())
}

/// Writes a name, a space and a value as a line.
pub fn put_line(text: &mut Vec<u8>, name: &[u8], value: &[u8]) -> Result<(), AllocError>
    ensures { OnOk result (text.new.items ≡ text.old.items ++ line_of name.now value.now) }
{
    text.extend_from_slice(name)?;
    text.extend_from_slice(b" ")?;
    text.extend_from_slice(value)?;
    text.extend_from_slice(b"\n")
}
