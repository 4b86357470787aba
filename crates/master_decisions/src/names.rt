//! Names of masters.
ghost use Rattle.std.specs.Prelude.{◌≡◌, ◌/◌, ◌%◌, bit_xor};

/// How many names of masters there are, by which their epochs are told apart: 2^32.
pub(crate) const NAMES: u64 = 0x1_0000_0000;

/// A master's name, which no other has: it is made of all bits of the number of its start.
pub fn name_of(start: u64) -> u32
    ensures { result ≡ bit_xor start (start / NAMES) % NAMES }
{
    ((start ^ (start / NAMES)) % NAMES) as u32
}
