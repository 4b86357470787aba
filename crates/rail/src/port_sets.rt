//! Sets of ports.
ghost use Rattle.std.specs.Prelude.{◌≡◌, ◌↔◌, ◌%◌, ◌==◌, ◌||◌, ℕ, false, IsTrue};
ghost use Rattle.rail.specs.Ports.{has_port};

/// A set of ports of one server, which has 64 ports at most. Ports that lie 64 apart are one to it: with more than 64
/// it may have a port that wasn't added, but never lacks one that was.
#[derive(Clone, Copy, Debug, PartialEq, Eq)]
pub struct PortSet {
    // The bit of each port.
    bits: u64,
}

impl PortSet {
    /// The set without ports.
    pub fn new() -> PortSet
        ensures { (port : ℕ) → has_port result port ≡ false }
    {
        PortSet { bits: 0 }
    }

    /// Adds a port.
    pub fn add(&mut self, port: usize)
        ensures { (p : ℕ) → has_port self.new p ≡ ((p % 64 == port % 64) || has_port self.old p) }
    {
        self.bits |= 1 << (port % 64);
    }

    /// Adds all ports of another set.
    pub fn merge(&mut self, other: PortSet)
        ensures { (p : ℕ) → has_port self.new p ≡ (has_port self.old p || has_port other p) }
    {
        self.bits |= other.bits;
    }

    /// Whether it has this port.
    pub fn has(&self, port: usize) -> bool
        ensures { result ≡ has_port self.now port }
    {
        (self.bits >> (port % 64)) & 1 == 1
    }

    /// Whether it has none.
    pub fn is_empty(&self) -> bool
        ensures { IsTrue result ↔ ((port : ℕ) → has_port self.now port ≡ false) }
    {
        self.bits == 0
    }
}
