//! Parts of a line, put behind a text.

ghost use Rattle.std.specs.Prelude.{◌≡◌, ◌++◌, OnOk, IfOk, decimal, replicate};
ghost use Rattle.pw_model.specs.Payments.{nano_in_cent};
ghost use Rattle.pw_report.specs.Amounts.{balance_text as text_of_balance, cents_below, euro_text, signed_euro_text};
ghost use Rattle.pw_report.specs.Layout.{instant_text as text_of_instant, left, right};

use itoa::Buffer;
use pw_model::NANO_IN_CENT;
use pw_time::{Instant, write_utc};
use std::alloc::{AllocError, Global};

// A text in so many places at least, with spaces behind it.
pub(crate) fn put_left(text: &mut Vec<u8>, width: usize, field: &[u8]) -> Result<(), AllocError>
    ensures { OnOk result (text.new.items ≡ text.old.items ++ left width field.now) }
{
    text.extend_from_slice(field)?;
    put_spaces(text, width.saturating_sub(field.len()))
}

// A text in so many places at least, with spaces before it.
pub(crate) fn put_right(text: &mut Vec<u8>, width: usize, field: &[u8]) -> Result<(), AllocError>
    ensures { OnOk result (text.new.items ≡ text.old.items ++ right width field.now) }
{
    put_spaces(text, width.saturating_sub(field.len()))?;
    text.extend_from_slice(field)
}

// So many spaces.
fn put_spaces(text: &mut Vec<u8>, count: usize) -> Result<(), AllocError>
    ensures { OnOk result (text.new.items ≡ text.old.items ++ replicate count 32) }
{
    for _ in 0..count {
        text.push(b' ')?;
    }
    Ok(())
}

// An instant in UTC.
#[tactic(auto, unfolding(crate::specs::Layout::instant_text))]
pub(crate) fn instant_text(instant: Instant) -> [u8; 20]
    ensures { result ≡ text_of_instant instant }
{
    write_utc(instant)
}

// A number, in decimal digits.
pub(crate) fn put_number(text: &mut Vec<u8>, number: u64) -> Result<(), AllocError>
    ensures { OnOk result (text.new.items ≡ text.old.items ++ decimal number) }
{
    text.extend_from_slice(Buffer::new().format(number).as_bytes())
}

// Cents as euro, a point, and two digits.
pub(crate) fn put_euro(text: &mut Vec<u8>, cents: u128) -> Result<(), AllocError>
    ensures { OnOk result (text.new.items ≡ text.old.items ++ euro_text cents) }
{
    text.extend_from_slice(Buffer::new().format(cents / 100).as_bytes())?;
    let rest = (cents % 100) as u8;
    text.push(b'.')?;
    text.push(b'0' + rest / 10)?;
    text.push(b'0' + rest % 10)?;
    Ok(())
}

// Cents, which may be below 0, as euro.
pub(crate) fn put_cents(text: &mut Vec<u8>, cents: i128) -> Result<(), AllocError>
    ensures { OnOk result (text.new.items ≡ text.old.items ++ signed_euro_text cents) }
{
    if cents < 0 {
        text.push(b'-')?;
    }
    put_euro(text, cents.unsigned_abs())
}

// An amount of nano-euro as the greatest whole cents that aren't above it.
pub(crate) fn balance_text(alloc: Global, nano: i128) -> Result<Vec<u8>, AllocError>
    ensures { IfOk result (λ text. text.items ≡ text_of_balance nano) }
{
    let cents = nano.div_euclid(NANO_IN_CENT as i128);
    let mut text = Vec::new(alloc);
    if cents < 0 {
        text.push(b'-')?;
    }
    put_euro(&mut text, cents.unsigned_abs())?;
    Ok(text)
}
