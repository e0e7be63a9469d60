//! Amounts in nano-euro.

ghost use Rattle.std.specs.Prelude.{◌≡◌, ◌*◌, ◌<◌, ◌^◌, pos, ◌+ℤ◌, ◌-ℤ◌};

/// What energy costs at a price in nano-euro per Wh.
pub fn price_of(wh: u64, price: u32) -> u128
    ensures price { result ≡ price * wh }
    ensures bound { result < 2 ^ 96 }
{
    u128::from(price) * u128::from(wh)
}

/// What is left of what was paid, in nano-euro: less what imported energy costs, plus what exported energy brings.
pub fn left_over(paid: u128, imported: u128, exported: u128) -> i128
    requires paid { paid < 2 ^ 120 }
    requires imported { imported < 2 ^ 120 }
    requires exported { exported < 2 ^ 120 }
    ensures { result ≡ (pos paid -ℤ pos imported) +ℤ pos exported }
{
    paid as i128 - imported as i128 + exported as i128
}
