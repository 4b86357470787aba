//! Numbers: decimal, and without leading zeros.
ghost use Rattle.std.specs.Prelude.{◌≡◌};
ghost use Rattle.schedules.specs.Numbers.{has_leading_zero, number_in};

use table::number;

/// The number that a field spells, if it is at least `low` and below `high`.
pub fn number_in(low: usize, high: usize, field: &[u8]) -> Option<usize>
    ensures { result ≡ number_in low high field.now }
{
    let number = number(field)? as usize;
    if has_leading_zero(field) || number < low || number >= high {
        return None;
    }
    Some(number)
}

fn has_leading_zero(field: &[u8]) -> bool
    ensures { result ≡ has_leading_zero field.now }
{
    field.len() > 1 && field[0] == b'0'
}
