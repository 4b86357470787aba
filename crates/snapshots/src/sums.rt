//! Bytes of which only the sum is kept.
ghost use Rattle.std.specs.Prelude.{◌≡◌, ◌++◌, ◌<◌, [], length};
ghost use Rattle.std.specs.List.{fold};
ghost use Rattle.snapshots.specs.Sums.{Halves, halves, sum_of, with_byte};

use ends::Passed;
use std::marker::Model;

// Both halves of a sum are below this (RFC 1950, section 8.2).
const MODULUS: u32 = 65_521;

/// Bytes that have passed, of which the sum is kept. Contracts see the bytes.
#[derive(Drop)]
pub struct Tally {
    bytes: Passed,
    low: u32,
    high: u32,
}

impl Model for Tally {
    ghost use Rattle.std.specs.Prelude.{ℕ, List};
    ghost use Rattle.snapshots.specs.Sums.{AreHalves};

    ghost Value = { List ℕ };

    ghost view = { λ t. t.bytes };

    ghost invariant = { λ t. AreHalves t.bytes t.low t.high };
}

impl Tally {
    /// No byte.
    #[tactic(auto, unfolding(crate::specs::Sums::halves_of))]
    pub fn new() -> Tally
        ensures { result ≡ [] }
    {
        Tally {
            bytes: Passed::new(),
            low: 1,
            high: 0,
        }
    }

    /// These bytes have passed after the others.
    #[tactic(auto, unfolding(crate::specs::Sums::halves_of))]
    pub fn add(&mut self, bytes: &[u8])
        ensures { self.new ≡ self.old ++ bytes.now }
    {
        let (low, high) = summed(self.low, self.high, bytes);
        self.bytes.add(bytes);
        self.low = low;
        self.high = high;
    }

    /// The sum, if these bytes pass too.
    #[tactic(auto, unfolding(crate::specs::Sums::halves_of, crate::specs::Sums::sum_of))]
    pub fn sum_with(&self, bytes: &[u8]) -> u32
        ensures { result ≡ sum_of (self.now ++ bytes.now) }
    {
        let (low, high) = summed(self.low, self.high, bytes);
        high * 65_536 + low
    }
}

// The halves after these bytes.
fn summed(low: u32, high: u32, bytes: &[u8]) -> (u32, u32)
    requires low { low < 65521 }
    requires high { high < 65521 }
    ensures halves { halves result.0 result.1 ≡ fold with_byte (halves low high) bytes.now }
    ensures low { result.0 < 65521 }
    ensures high { result.1 < 65521 }
{
    let mut low = low;
    let mut high = high;
    for byte in bytes {
        low = (low + u32::from(*byte)) % MODULUS;
        high = (high + low) % MODULUS;
    }
    (low, high)
}
