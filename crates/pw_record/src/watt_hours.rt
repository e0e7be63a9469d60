//! Watt-hours as text, where no unit stands behind them.

ghost use Rattle.std.specs.Prelude.{ℕ, IfSome, IfNone};
ghost use Rattle.pw_record.specs.WattHours.{IsWattHours};

use crate::digits::number_of;
use pw_obis::{LARGEST_WATT_HOURS, WattHours};

/// The watt-hours of a text of 1 to 11 digits.
pub fn watt_hours(text: &[u8]) -> Option<WattHours>
    ensures some { IfSome result (λ wh. IsWattHours text.now wh) }
    ensures none { IfNone result ((wh : ℕ) → IsWattHours text.now wh → ⊥) }
{
    let number = number_of(text, 11, LARGEST_WATT_HOURS)?;
    WattHours::of(number)
}
