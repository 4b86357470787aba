//! Numbers as decimal digits.
ghost use Rattle.std.specs.Prelude.{◌≡◌, ◌^◌};
ghost use Rattle.table.specs.Numbers.{number_of, with_digit, counter_of};

// The most digits that a counter may have.
const MOST_DIGITS: usize = 20;

/// The number that bytes spell, if it is below 2^64: digits, leading zeros allowed (this project's rule).
pub fn number(bytes: &[u8]) -> Option<u64>
    ensures { result ≡ number_of (2 ^ 64) bytes.now }
{
    if bytes.is_empty() {
        return None;
    }
    let mut value: u64 = 0;
    for b in bytes {
        value = with_digit(value, *b)?;
    }
    Some(value)
}

// The number with one more digit at its end.
fn with_digit(value: u64, b: u8) -> Option<u64>
    ensures { result ≡ with_digit (2 ^ 64) value b }
{
    if !b.is_ascii_digit() {
        return None;
    }
    value.checked_mul(10)?.checked_add(u64::from(b - b'0'))
}

/// The number that data spells as a counter: 1 to 20 digits, with a value below 2^64 (this project's rule).
pub(crate) fn counter(bytes: &[u8]) -> Option<u64>
    ensures { result ≡ counter_of bytes.now }
{
    if bytes.len() <= MOST_DIGITS {
        number(bytes)
    } else {
        None
    }
}
