//! Sets of servers.
ghost use Rattle.std.specs.Prelude.{◌≡◌, ◌<◌, ◌≤◌, ◌*◌, ◌^◌, ◌%◌, ℕ};
ghost use Rattle.std.specs.Int.{bit_at};
ghost use Rattle.in_process_links.specs.ServerSets.{IsLowest, steps_after};

/// A set of servers, by their ids, which are below 32.
#[derive(Clone, Copy, Debug, PartialEq, Eq)]
pub struct ServerSet {
    // The bit of each server.
    bits: u32,
}

impl ServerSet {
    ghost use Rattle.std.specs.Prelude.{◌≡◌, ◌<◌, ◌≤◌, ◌%◌, ◌==◌, ◌||◌, ℕ, true, false, IfSome, MatchOption};
    ghost use Rattle.in_process_links.specs.ServerSets.{IsWithout, has_server, steps_after};

    /// The set without servers.
    pub fn new() -> ServerSet
        ensures { (id : ℕ) → has_server result id ≡ false }
    {
        ServerSet { bits: 0 }
    }

    /// Adds a server.
    pub fn add(&mut self, id: u8)
        ensures { (j : ℕ) → has_server self.new j ≡ ((j == id % 32) || has_server self.old j) }
    {
        self.bits |= bit(id);
    }

    /// Adds all servers of another set.
    pub fn merge(&mut self, other: ServerSet)
        ensures { (id : ℕ) → has_server self.new id ≡ (has_server self.old id || has_server other id) }
    {
        self.bits |= other.bits;
    }

    /// Takes one out: the first one after `last`, and after the highest id the lowest. None if the set is empty.
    pub fn take_after(&mut self, last: u8) -> Option<u8>
        ensures taken { MatchOption result
            ((self.new ≡ self.old) × ((id : ℕ) → has_server self.old id ≡ false))
            (λ id. IsWithout id self.old self.new) }
        ensures first { IfSome result
            (λ id. (j : ℕ) → has_server self.old j ≡ true → steps_after last id ≤ steps_after last j) }
    {
        if self.bits == 0 {
            return None;
        }
        let id = first_after(self.bits, last);
        self.bits &= !bit(id);
        Some(id)
    }
}

// The first server after `last` of a set that has one.
fn first_after(bits: u32, last: u8) -> u8
    requires { 0 < bits }
    ensures server { result < 32 }
    ensures had { bit_at bits result ≡ 1 }
    ensures first { (j : ℕ) → bit_at bits j ≡ 1 → steps_after last result ≤ steps_after last j }
{
    let above = bits & u32::MAX.wrapping_shl(u32::from(last) + 1);
    if above == 0 {
        lowest(bits)
    } else {
        lowest(above)
    }
}

// The lowest server of a set that has one.
#[tactic(auto, using(crate::proofs::ServerBits::lowest_set))]
fn lowest(bits: u32) -> u8
    requires { 0 < bits }
    ensures { IsLowest bits result }
{
    (bits.trailing_zeros() % 32) as u8
}

// The bit of a server.
fn bit(id: u8) -> u32
    ensures { result ≡ 1 * 2 ^ (id % 32) % 2 ^ 32 }
{
    1u32.wrapping_shl(u32::from(id))
}
