//! The values of a row, each read at its place.

ghost use Rattle.std.specs.Prelude.{◌≡◌, ◌<◌, ◌≤◌, ◌^◌, ℕ, List, pos, IfNone, IfSome};
ghost use Rattle.sqlite.specs.declared.types.Value.TheVariants.{Int, Text};
ghost use Rattle.sqlite.specs.Order.{column};
ghost use Rattle.pw_obis.specs.declared.energy.TheConstants.{LARGEST_WATT_HOURS};
ghost use Rattle.pw_tariff.specs.Office.{register_place};
ghost use Rattle.pw_tariff.specs.Cells.{owner_place};
ghost use Rattle.pw_time.specs.Instants.{IsInstant};
ghost use Rattle.pw_model.specs.References.{IsReference};
ghost use Rattle.pw_model.specs.Same.{direction_place};
ghost use Rattle.pw_schema.specs.Rows.{IsDirection, IsNumber, IsRegister, direction_at, number, owner_at, register_at};

use pw_model::Reference;
use pw_obis::{Register, WattHours};
use pw_tariff::{AccountId, BandId, Direction, MeterId, Owner, PeriodId};
use pw_time::Instant;
use sqlite::Row;
use sqlite::types::ValueRef;

/// The number that stands at a place of a row, if one does that fits.
pub fn number_at(row: &Row, at: usize) -> Option<u32>
    ensures some { IfSome result (λ n. column row.now at ≡ Int (pos n)) }
    ensures none { IfNone result ((n : ℕ) → n < 2 ^ 32 → column row.now at ≡ Int (pos n) → ⊥) }
{
    match row.get_ref(at) {
        Ok(ValueRef::Int(value)) => u32::try_from(value).ok(),
        _ => None,
    }
}

/// The amount that stands at a place of a row, if one does: a number that isn't negative.
pub fn amount_at(row: &Row, at: usize) -> Option<u64>
    ensures some { IfSome result (λ n. column row.now at ≡ Int (pos n)) }
    ensures none { IfNone result ((n : ℕ) → column row.now at ≡ Int (pos n) → ⊥) }
{
    match row.get_ref(at) {
        Ok(ValueRef::Int(value)) => u64::try_from(value).ok(),
        _ => None,
    }
}

/// The watt-hours that stand at a place of a row, if they do.
pub fn wh_at(row: &Row, at: usize) -> Option<WattHours>
    ensures some { IfSome result (λ wh. column row.now at ≡ Int (pos wh)) }
    ensures none { IfNone result ((n : ℕ) → n ≤ LARGEST_WATT_HOURS → column row.now at ≡ Int (pos n)
        → ⊥) }
{
    let amount = amount_at(row, at)?;
    WattHours::of(amount)
}

// The reference that stands at a place of a row, if one does.
pub(crate) fn reference_at(row: &Row, at: usize) -> Option<Reference>
    ensures some { IfSome result (λ reference. column row.now at ≡ Text reference) }
    ensures none { IfNone result ((t : List ℕ) → IsReference t → column row.now at ≡ Text t → ⊥) }
{
    match row.get_ref(at) {
        Ok(ValueRef::Text(text)) => Reference::of(text),
        _ => None,
    }
}

// The position of an account or a meter that stands at a place of a row, if one does that fits.
fn position_at(row: &Row, at: usize) -> Option<u16>
    ensures some { IfSome result (λ position. column row.now at ≡ Int (pos position)) }
    ensures none { IfNone result ((n : ℕ) → n < 2 ^ 16 → column row.now at ≡ Int (pos n) → ⊥) }
{
    let number = number_at(row, at)?;
    u16::try_from(number).ok()
}

// The account that stands at a place of a row, by its position, if one does that fits.
pub(crate) fn account_at(row: &Row, at: usize) -> Option<AccountId>
    ensures some { IfSome result (λ account. column row.now at ≡ Int (pos account.0)) }
    ensures none { IfNone result ((n : ℕ) → n < 2 ^ 16 → column row.now at ≡ Int (pos n) → ⊥) }
{
    let position = position_at(row, at)?;
    Some(AccountId(position))
}

// The meter that stands at a place of a row, by its position, if one does that fits.
pub(crate) fn meter_at(row: &Row, at: usize) -> Option<MeterId>
    ensures some { IfSome result (λ meter. column row.now at ≡ Int (pos meter.0)) }
    ensures none { IfNone result ((n : ℕ) → n < 2 ^ 16 → column row.now at ≡ Int (pos n) → ⊥) }
{
    let position = position_at(row, at)?;
    Some(MeterId(position))
}

// The period that stands at a place of a row, by its position, if one does that fits.
pub(crate) fn period_at(row: &Row, at: usize) -> Option<PeriodId>
    ensures some { IfSome result (λ period. column row.now at ≡ Int (pos period.0)) }
    ensures none { IfNone result ((n : ℕ) → n < 2 ^ 8 → column row.now at ≡ Int (pos n) → ⊥) }
{
    let number = number_at(row, at)?;
    let position = u8::try_from(number).ok()?;
    Some(PeriodId(position))
}

// The band that stands at a place of a row, by its position, if one does that fits.
pub(crate) fn band_at(row: &Row, at: usize) -> Option<BandId>
    ensures some { IfSome result (λ band. column row.now at ≡ Int (pos band.0)) }
    ensures none { IfNone result ((n : ℕ) → n < 2 ^ 8 → column row.now at ≡ Int (pos n) → ⊥) }
{
    let number = number_at(row, at)?;
    let position = u8::try_from(number).ok()?;
    Some(BandId(position))
}

/// The instant that stands at a place of a row, if one does.
pub fn instant_at(row: &Row, at: usize) -> Option<Instant>
    ensures some { IfSome result (λ instant. column row.now at ≡ Int (pos instant)) }
    ensures none { IfNone result ((n : ℕ) → IsInstant n → column row.now at ≡ Int (pos n) → ⊥) }
{
    let seconds = number_at(row, at)?;
    Instant::of(seconds)
}

// The register that stands at a place of a row, by its own place, if one does.
pub(crate) fn register_at(row: &Row, at: usize) -> Option<Register>
    ensures some { IfSome result (λ register.
        (register ≡ register_at (number (column row.now at))) × IsRegister (column row.now at)) }
    ensures none { IfNone result (IsRegister (column row.now at) → ⊥) }
{
    let place = number_at(row, at)?;
    register_of(place)
}

fn register_of(place: u32) -> Option<Register>
    ensures some { IfSome result (λ register.
        (register ≡ register_at place) × (place ≡ register_place register)) }
    ensures none { IfNone result (6 ≤ place) }
{
    match place {
        0 => Some(Register::I0),
        1 => Some(Register::I1),
        2 => Some(Register::I2),
        3 => Some(Register::E0),
        4 => Some(Register::E1),
        5 => Some(Register::E2),
        _ => None,
    }
}

/// The owner that stands at a place of a row, by its own place, if one does that fits.
pub fn owner_at(row: &Row, at: usize) -> Option<Owner>
    ensures some { IfSome result (λ owner. (owner ≡ owner_at (number (column row.now at)))
        × IsNumber (column row.now at)) }
    ensures none { IfNone result ((n : ℕ) → n ≤ 2 ^ 16 → column row.now at ≡ Int (pos n) → ⊥) }
{
    let place = number_at(row, at)?;
    owner_of(place)
}

fn owner_of(place: u32) -> Option<Owner>
    ensures some { IfSome result (λ owner. (owner ≡ owner_at place) × (place ≡ owner_place owner)) }
    ensures none { IfNone result (2 ^ 16 < place) }
{
    if place == 0 {
        return Some(None);
    }
    let position = u16::try_from(place - 1).ok()?;
    Some(Some(AccountId(position)))
}

// The direction that stands at a place of a row, by its own place, if one does.
pub(crate) fn direction_at(row: &Row, at: usize) -> Option<Direction>
    ensures some { IfSome result (λ direction.
        (direction ≡ direction_at (number (column row.now at))) × IsDirection (column row.now at)) }
    ensures none { IfNone result (IsDirection (column row.now at) → ⊥) }
{
    let place = number_at(row, at)?;
    direction_of(place)
}

fn direction_of(place: u32) -> Option<Direction>
    ensures some { IfSome result (λ direction.
        (direction ≡ direction_at place) × (place ≡ direction_place direction)) }
    ensures none { IfNone result (2 ≤ place) }
{
    match place {
        0 => Some(Direction::Import),
        1 => Some(Direction::Export),
        _ => None,
    }
}
