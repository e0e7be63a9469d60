//! The value of a register.

ghost use Rattle.std.specs.Prelude.{◌≡◌, ℕ, ◌-◌, ◌^◌, ◌<◌, ◌≤◌, List, IfSome, IfNone};
ghost use Rattle.std.specs.Str.Parse.{AllDigits};
ghost use Rattle.pw_obis.specs.Value.{InUnit, unit_text, HasUnit, Decimal, thousandths, IsEnergy};
ghost use Rattle.pw_obis.specs.inner.Numbers.{IsCounted};

use crate::energy::{LARGEST_WATT_HOURS, WattHours};
use crate::texts::{find, is_numeral, with_digits};

/// Why a register's value has no energy.
#[derive(Clone, Copy, PartialEq, Eq, Debug)]
pub enum ValueFault {
    /// 21: the number isn't written as its unit asks.
    Digits,
    /// 22: no unit, or another one than `kWh` and `Wh`.
    Unit,
    /// 23: more than [`LARGEST_WATT_HOURS`].
    TooLarge,
}

// A unit in which energy is read.
#[derive(Clone, Copy)]
enum EnergyUnit {
    KilowattHour,
    WattHour,
}

// The unit that a text has behind its first `*`, and the number in front.
fn measured(text: &[u8]) -> Option<(EnergyUnit, &[u8])>
    ensures some { IfSome result (λ m. InUnit text.now m.1.now (unit_text m.0)) }
    ensures none { IfNone result (HasUnit text.now → ⊥) }
{
    let star = find(text, b'*');
    let number = &text[..star];
    let unit = &text[star..];
    if unit == b"*kWh".as_slice() {
        return Some((EnergyUnit::KilowattHour, number));
    }
    if unit == b"*Wh".as_slice() {
        return Some((EnergyUnit::WattHour, number));
    }
    None
}

// The whole part of 1,000 times a decimal number, from its digits and its decimals.
fn scaled(whole: &[u8], decimals: &[u8]) -> Option<WattHours>
    requires whole { AllDigits 10 whole.now }
    requires decimals { AllDigits 10 decimals.now }
    ensures some { IfSome result (λ wh. (wh ≡ thousandths whole.now decimals.now)
        × (wh ≤ LARGEST_WATT_HOURS)) }
    ensures none { IfNone result (LARGEST_WATT_HOURS < thousandths whole.now decimals.now) }
{
    let kilo = with_digits(0, whole)?;
    let taken = &decimals[..decimals.len().min(3)];
    let number = with_digits(kilo, taken)?;
    WattHours::of(number * place_value(taken.len()))
}

// What a number with so many decimals is multiplied by.
fn place_value(places: usize) -> u64
    requires { places ≤ 3 }
    ensures value { result ≡ 10 ^ (3 - places) }
    ensures small { result ≤ 1000 }
{
    match places {
        0 => 1000,
        1 => 100,
        2 => 10,
        _ => 1,
    }
}

// The digits before the point, and those behind it.
fn parts(number: &[u8]) -> Option<(&[u8], &[u8])>
    ensures some { IfSome result (λ p. Decimal number.now p.0.now p.1.now) }
    ensures none { IfNone result ((whole decimals : List ℕ) → Decimal number.now whole decimals
        → ⊥) }
{
    let point = find(number, b'.');
    let whole = &number[..point];
    if !is_numeral(whole) {
        return None;
    }
    if point == number.len() {
        return Some((whole, &number[point..]));
    }
    let decimals = &number[point + 1..];
    if !is_numeral(decimals) {
        return None;
    }
    Some((whole, decimals))
}

// The energy of a number of kWh.
fn kilowatt_hours(number: &[u8]) -> Result<WattHours, ValueFault>
    ensures { IsCounted EnergyUnit.KilowattHour number.now result }
{
    let Some((whole, decimals)) = parts(number) else {
        return Err(ValueFault::Digits);
    };
    match scaled(whole, decimals) {
        Some(energy) => Ok(energy),
        None => Err(ValueFault::TooLarge),
    }
}

// The energy of a number of Wh.
fn plain_watt_hours(number: &[u8]) -> Result<WattHours, ValueFault>
    ensures { IsCounted EnergyUnit.WattHour number.now result }
{
    if !is_numeral(number) {
        return Err(ValueFault::Digits);
    }
    let Some(value) = with_digits(0, number) else {
        return Err(ValueFault::TooLarge);
    };
    WattHours::of(value).ok_or(ValueFault::TooLarge)
}

// The energy of a number in a unit.
fn counted(unit: EnergyUnit, number: &[u8]) -> Result<WattHours, ValueFault>
    ensures { IsCounted unit number.now result }
{
    match unit {
        EnergyUnit::KilowattHour => kilowatt_hours(number),
        EnergyUnit::WattHour => plain_watt_hours(number),
    }
}

/// The energy that a register's value states, in whole Wh: `000123.456*kWh` or `123456*Wh`.
///
/// The number of kWh may have decimals, of which those after the third are dropped; leading zeros
/// count nothing. IEC 62056-21 (data message) and the DSMR P1 Companion Standard 5.0.2.
///
/// # Errors
/// 22 without a unit or with another one, 21 where the number isn't of the unit's form, 23 above
/// [`LARGEST_WATT_HOURS`].
pub fn watt_hours(text: &[u8]) -> Result<WattHours, ValueFault>
    ensures { IsEnergy text.now result }
{
    let Some((unit, number)) = measured(text) else {
        return Err(ValueFault::Unit);
    };
    counted(unit, number)
}
