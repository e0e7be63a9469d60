//! Numbers of two digits, read and written.

ghost use Rattle.std.specs.Prelude.{ℕ, ◌≡◌, ◌≢◌, ◌+◌, ◌/◌, ◌%◌, ◌<◌, MatchOption};
ghost use Rattle.pw_time.specs.Texts.{run_together, separated, two_digits};
ghost use Rattle.pw_time.specs.inner.Texts.{IsDecimalDigit};
ghost use Rattle.pw_time.specs.inner.Texts.{AreTwoDigits};

// The number of two digits.
pub(crate) fn two_digits(tens: u8, ones: u8) -> Option<u8>
    ensures { MatchOption result (¬ (IsDecimalDigit tens × IsDecimalDigit ones))
        (λ n. (n < 100) × (tens ≡ 48 + n / 10) × (ones ≡ 48 + n % 10)) }
{
    match (tens, ones) {
        (b'0'..=b'9', b'0'..=b'9') => Some((tens - b'0') * 10 + (ones - b'0')),
        _ => None,
    }
}

// Three numbers of two digits each, one directly after the other.
pub(crate) fn run_together(text: &[u8]) -> Option<(u8, u8, u8)>
    ensures { MatchOption result ((a b c : ℕ) → AreTwoDigits a b c → text.now ≢ run_together a b c)
        (λ n. AreTwoDigits n.0 n.1 n.2 × (text.now ≡ run_together n.0 n.1 n.2)) }
{
    let [a, b, c, d, e, f] = *text else {
        return None;
    };
    Some((two_digits(a, b)?, two_digits(c, d)?, two_digits(e, f)?))
}

// Three numbers of two digits each, with a byte between them.
pub(crate) fn separated(byte: u8, text: &[u8]) -> Option<(u8, u8, u8)>
    ensures { MatchOption result ((a b c : ℕ) → AreTwoDigits a b c
        → text.now ≢ separated byte a b c)
        (λ n. AreTwoDigits n.0 n.1 n.2 × (text.now ≡ separated byte n.0 n.1 n.2)) }
{
    let [a, b, first, c, d, second, e, f] = *text else {
        return None;
    };
    if first != byte || second != byte {
        return None;
    }
    Some((two_digits(a, b)?, two_digits(c, d)?, two_digits(e, f)?))
}

// The two digits of a number below 100.
pub(crate) fn digits_of(number: u8) -> [u8; 2]
    requires { number < 100 }
    ensures { result ≡ two_digits number }
{
    [b'0' + number / 10, b'0' + number % 10]
}
