//! Numbers in decimal digits.

ghost use Rattle.std.specs.Prelude.{◌≡◌, ◌<◌, ◌≤◌, IfSome, IfNone, length};
ghost use Rattle.std.specs.Str.Parse.{AllDigits, digits_value, digits_value_after};
ghost use Rattle.pw_obis.specs.declared.energy.TheConstants.{LARGEST_WATT_HOURS};

/// The number, up to `most`, of a text of 1 to `most_digits` digits.
pub fn number_of(text: &[u8], most_digits: usize, most: u64) -> Option<u64>
    requires { most ≤ LARGEST_WATT_HOURS }
    ensures some { IfSome result (λ n. (1 ≤ length text.now) × (length text.now ≤ most_digits)
        × AllDigits 10 text.now × (n ≡ digits_value 10 text.now) × (n ≤ most)) }
    ensures none { IfNone result (1 ≤ length text.now → length text.now ≤ most_digits
        → AllDigits 10 text.now → most < digits_value 10 text.now) }
{
    if text.is_empty() || text.len() > most_digits {
        return None;
    }
    with_digits(0, text, most)
}

/// What digits make of a number that they are put behind, up to `most`; `None` also where not all are digits.
pub fn with_digits(number: u64, digits: &[u8], most: u64) -> Option<u64>
    requires start { number ≤ most }
    requires room { most ≤ LARGEST_WATT_HOURS }
    ensures some { IfSome result (λ n. AllDigits 10 digits.now
        × (n ≡ digits_value_after 10 number digits.now) × (n ≤ most)) }
    ensures none { IfNone result (AllDigits 10 digits.now
        → most < digits_value_after 10 number digits.now) }
{
    match digits {
        [] => Some(number),
        [digit, others @ ..] => {
            if !digit.is_ascii_digit() {
                return None;
            }
            let more = number * 10 + u64::from(*digit - b'0');
            if more > most {
                return None;
            }
            with_digits(more, others, most)
        }
    }
}
