//! Splits: bytes as what stands before the first byte of a kind, and what stands after it.
ghost use Rattle.std.specs.Prelude.{◌≡◌, ◌<◌, IfSome, length, option_map};
ghost use Rattle.schedules.specs.Splits.{split_once};

use memchr::memchr;

/// What stands before the first such byte, and what stands after it; `None` if there is none.
pub fn split_once(byte: u8, bytes: &[u8]) -> Option<(&[u8], &[u8])>
    ensures parts { option_map (λ c. (c.0.now, c.1.now)) result ≡ split_once byte bytes.now }
    ensures shorter { IfSome result (λ c. length c.1.now < length bytes.now) }
{
    let at = memchr(byte, bytes)?;
    Some((&bytes[..at], &bytes[at + 1..]))
}
