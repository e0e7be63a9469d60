//! The meters of an office file.

ghost use Rattle.std.specs.Prelude.{◌≡◌, ◌&&◌, ◌||◌, ◌≤◌, IfOk, MatchResult, Some, length, map, string_bytes};
ghost use Rattle.toml.specs.View.{array_view, table_view};
ghost use Rattle.pw_tariff.specs.inner.Checks.{IsRefusal};
ghost use Rattle.pw_tariff.specs.inner.Checks.{Passes};
ghost use Rattle.pw_tariff.specs.Held.{AreById, meter_of};
ghost use Rattle.pw_tariff.specs.inner.Held.{table_in};
ghost use Rattle.pw_tariff.specs.inner.Held.{ids_of};
ghost use Rattle.pw_tariff.specs.Office.{has_register, overlap};
ghost use Rattle.pw_tariff.specs.Text.{id_of, meter_checks, meter_of_table, meters_checks, meters_of_table, register_checks, register_of, registers_checks, registers_in_turn, registers_of, tables_of};
ghost use Rattle.pw_tariff.specs.inner.Checks.{meters_in_turn};
ghost use Rattle.pw_tariff.specs.Words.{is_new};

use crate::limits::{LONGEST_METER_ID, MOST_METERS};
use crate::office::{Meter, holds};
use crate::table::{are_tables, check_length, list_at, text_at, texts_at};
use crate::words::{clock_named, is_name, is_new, register_named};
use crate::{MeterId, OfficeFault};
use pw_obis::Register;
use std::alloc::{AllocError, Global};
use std::collections::BTreeMap;
use toml::Table;
use toml::value::Array;

// The meters, or the first refusal.
pub(crate) fn read_meters(alloc: Global, table: &Table) -> Result<Vec<Meter>, OfficeFault>
    ensures { MatchResult result
        (λ v. Passes (meters_checks (table_view table.now))
        × (map meter_of v.items ≡ meters_of_table (table_view table.now)))
        (λ e. IsRefusal (meters_checks (table_view table.now)) e) }
{
    let Some(array) = list_at(table, "meter") else {
        return Err(OfficeFault::MissingField);
    };
    if !are_tables(array) {
        return Err(OfficeFault::MissingField);
    }
    check_length(array.len(), MOST_METERS)?;
    read_each(alloc, array)
}

// The meters of a list of tables, one after another, or the first refusal.
fn read_each(alloc: Global, array: &Array) -> Result<Vec<Meter>, OfficeFault>
    requires { tables_of (array_view array.now) ≡ Some (map table_in array.now.items) }
    ensures { MatchResult result
        (λ v. Passes (meters_in_turn (map table_in array.now.items))
        × (map meter_of v.items ≡ map meter_of_table (map table_in array.now.items)))
        (λ e. IsRefusal (meters_in_turn (map table_in array.now.items)) e) }
{
    let mut meters = Vec::new(alloc);
    for value in array {
        let Some(table) = value.as_table() else {
            return Err(OfficeFault::MissingField);
        };
        let meter = read_meter(alloc, table, &meters)?;
        meters.push(meter)?;
    }
    Ok(meters)
}

// One meter behind the earlier ones, or its first refusal.
fn read_meter(alloc: Global, table: &Table, earlier: &[Meter]) -> Result<Meter, OfficeFault>
    ensures { MatchResult result
        (λ m. Passes (meter_checks (ids_of earlier.now) (table_view table.now))
        × (meter_of m ≡ meter_of_table (table_view table.now))
        × (id_of (table_view table.now) ≡ string_bytes m.id))
        (λ e. IsRefusal (meter_checks (ids_of earlier.now) (table_view table.now)) e) }
{
    let Some(id) = text_at(table, "id") else {
        return Err(OfficeFault::MissingField);
    };
    let Some(clock) = text_at(table, "clock") else {
        return Err(OfficeFault::MissingField);
    };
    let texts = texts_at(alloc, table, "registers")?;
    if !is_name(LONGEST_METER_ID, id.as_bytes()) {
        return Err(OfficeFault::BadName);
    }
    if !is_new_id(id.as_bytes(), earlier) {
        return Err(OfficeFault::TwiceNamed);
    }
    let Some(clock) = clock_named(clock.as_bytes()) else {
        return Err(OfficeFault::BadName);
    };
    let registers = read_registers(alloc, &texts)?;
    let id = String::from_str(alloc, id)?;
    Ok(Meter {
        id,
        clock,
        registers,
    })
}

// The meters by their ids.
pub(crate) fn by_id(
    alloc: Global,
    meters: &[Meter],
) -> Result<BTreeMap<Vec<u8>, MeterId>, AllocError>
    requires { length meters.now ≤ MOST_METERS }
    ensures { IfOk result (λ places. AreById meters.now places) }
{
    let mut places = BTreeMap::new(alloc);
    for (i, meter) in meters.iter().enumerate() {
        let id = Vec::from_slice(alloc, meter.id.as_bytes())?;
        places.insert(id, MeterId(i as u16))?;
    }
    Ok(places)
}

// None of the earlier meters' ids.
fn is_new_id(id: &[u8], earlier: &[Meter]) -> bool
    ensures { result ≡ is_new id.now (ids_of earlier.now) }
{
    for other in earlier {
        if other.id.as_bytes() == id {
            return false;
        }
    }
    true
}

// The registers of a meter that count, or the first refusal of their list.
fn read_registers(alloc: Global, texts: &[String]) -> Result<Vec<Register>, OfficeFault>
    ensures { MatchResult result
        (λ v. Passes (registers_checks (map string_bytes texts.now))
        × (v.items ≡ registers_of (map string_bytes texts.now)))
        (λ e. IsRefusal (registers_checks (map string_bytes texts.now)) e) }
{
    if texts.is_empty() {
        return Err(OfficeFault::Empty);
    }
    let registers = named_registers(alloc, texts)?;
    if overlap(&registers) {
        return Err(OfficeFault::RegistersOverlap);
    }
    Ok(registers)
}

// The registers of a list of texts, each once.
fn named_registers(alloc: Global, texts: &[String]) -> Result<Vec<Register>, OfficeFault>
    ensures { MatchResult result
        (λ v. Passes (registers_in_turn (map string_bytes texts.now))
        × (v.items ≡ registers_of (map string_bytes texts.now)))
        (λ e. IsRefusal (registers_in_turn (map string_bytes texts.now)) e) }
{
    let mut registers = Vec::new(alloc);
    for (i, text) in texts.iter().enumerate() {
        let register = read_register(text.as_bytes(), &texts[..i])?;
        registers.push(register)?;
    }
    Ok(registers)
}

// One register behind the earlier ones, or its first refusal.
fn read_register(text: &[u8], earlier: &[String]) -> Result<Register, OfficeFault>
    ensures { MatchResult result
        (λ r. Passes (register_checks (map string_bytes earlier.now) text.now)
        × (r ≡ register_of text.now))
        (λ e. IsRefusal (register_checks (map string_bytes earlier.now) text.now) e) }
{
    let Some(register) = register_named(text) else {
        return Err(OfficeFault::BadName);
    };
    if !is_new(text, earlier) {
        return Err(OfficeFault::TwiceNamed);
    }
    Ok(register)
}

// A total beside one of its rates.
fn overlap(registers: &[Register]) -> bool
    ensures { result ≡ overlap registers.now }
{
    let import = has_both(registers, Register::I0, Register::I1, Register::I2);
    let export = has_both(registers, Register::E0, Register::E1, Register::E2);
    import || export
}

// A total beside the first or the second of its rates.
fn has_both(registers: &[Register], total: Register, first: Register, second: Register) -> bool
    ensures { result ≡ (has_register registers.now total &&
        (has_register registers.now first || has_register registers.now second)) }
{
    let total = holds(registers, total);
    let first = holds(registers, first);
    let second = holds(registers, second);
    total && (first || second)
}
