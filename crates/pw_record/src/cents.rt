//! Cents as text.

ghost use Rattle.std.specs.Prelude.{◌≡◌, ℕ, IfSome, IfNone};
ghost use Rattle.pw_record.specs.Cents.{IsCents};

use crate::digits::number_of;
use pw_model::MOST_CENTS;

/// The cents of a text of 1 to 9 digits, from 1 to 100,000,000.
pub fn cents(text: &[u8]) -> Option<u32>
    ensures some { IfSome result (λ cents. IsCents text.now cents) }
    ensures none { IfNone result ((cents : ℕ) → IsCents text.now cents → ⊥) }
{
    match number_of(text, 9, u64::from(MOST_CENTS)) {
        Some(cents) if cents > 0 => Some(cents as u32),
        _ => None,
    }
}
