//! Views: sets of servers that are known to have failed, and the chain's order in one.
ghost use Rattle.std.specs.Prelude.{◌≡◌, ℕ, ◌<◌, ◌≤◌, ◌+◌, ◌-◌, IfSome};
ghost use Rattle.node.specs.Views as views;

use std::marker::Model;

/// The most servers of a chain.
pub const SERVERS: u8 = 16;

/// A set of servers below 16: those that are known to have failed (this project's rule).
/// Contracts see a number, server i being the bit of value 2^i.
#[derive(Clone, Copy, Debug, PartialEq, Eq)]
pub struct View {
    bits: u16,
}

impl Model for View {
    ghost use Rattle.std.specs.Prelude.{ℕ};

    ghost Value = { ℕ };

    ghost view = { λ v. v.bits };

    ghost inverse = { λ n. record { bits = n } };
}

impl View {
    /// The view that names nobody.
    pub fn empty() -> View
        ensures { result ≡ 0 }
    {
        View { bits: 0 }
    }

    /// The view whose server i is the bit of value 2^i.
    pub fn from_bits(bits: u16) -> View
        ensures { result ≡ bits }
    {
        View { bits }
    }

    /// Its bits: server i is the bit of value 2^i.
    pub fn bits(self) -> u16
        ensures { result ≡ self }
    {
        self.bits
    }

    /// One server alone.
    #[tactic(auto, unfolding(crate::specs::Views::single))]
    pub fn single(i: u8) -> View
        requires server { i < 16 }
        ensures { result ≡ views.single i }
    {
        View { bits: 1 << i }
    }

    /// Whether it names this server.
    #[tactic(auto, unfolding(crate::specs::Views::has))]
    pub fn has(self, i: u8) -> bool
        requires server { i < 16 }
        ensures { result ≡ views.has self i }
    {
        (self.bits >> i) & 1 == 1
    }

    /// Those that one of the two names.
    #[tactic(auto, unfolding(crate::specs::Views::union))]
    pub fn union(self, other: View) -> View
        ensures { result ≡ views.union self other }
    {
        View {
            bits: self.bits | other.bits,
        }
    }

    /// Whether the other names a server that this one doesn't.
    #[tactic(auto, unfolding(crate::specs::Views::adds))]
    pub fn adds(self, other: View) -> bool
        ensures { result ≡ views.adds self other }
    {
        self.union(other).bits != self.bits
    }

    /// Whether it names only servers of a chain of `count`.
    #[tactic(auto, unfolding(crate::specs::Views::is_below))]
    pub fn is_below(self, count: u8) -> bool
        requires chain { count ≤ 16 }
        ensures { result ≡ views.is_below self count }
    {
        u32::from(self.bits) < 1 << count
    }

    // The least server outside it from `k` on, in a chain of `count`.
    #[tactic(auto, using(crate::proofs::ViewShapes::next_within, crate::proofs::ViewShapes::next_past))]
    fn next_from(self, k: u8, count: u8) -> Option<u8>
        requires chain { count ≤ 16 }
        ensures next { result ≡ views.next_from self k (count - k) }
        ensures within { IfSome result (λ j. j < count) }
    {
        for i in k..count {
            if !self.has(i) {
                return Some(i);
            }
        }
        None
    }

    /// The greatest server outside it below this one, or `None` if there is none.
    #[tactic(auto, using(crate::proofs::ViewShapes::predecessor_more, crate::proofs::ViewShapes::predecessor_zero))]
    pub fn predecessor(self, i: u8) -> Option<u8>
        requires server { i ≤ 16 }
        ensures predecessor { result ≡ views.predecessor self i }
        ensures below { IfSome result (λ p. p < i) }
    {
        let mut k = i;
        while k > 0 {
            k -= 1;
            if !self.has(k) {
                return Some(k);
            }
        }
        None
    }

    /// The least server outside it above this one, in a chain of `count`, or `None` if there is none.
    pub fn successor(self, count: u8, i: u8) -> Option<u8>
        requires chain { count ≤ 16 }
        requires server { i < count }
        ensures next { result ≡ views.successor self count i }
        ensures within { IfSome result (λ j. j < count) }
    {
        self.next_from(i + 1, count)
    }

    /// The least server outside it, in a chain of `count`, or `None` if there is none.
    pub fn head(self, count: u8) -> Option<u8>
        requires chain { count ≤ 16 }
        ensures first { result ≡ views.head self count }
        ensures within { IfSome result (λ j. j < count) }
    {
        self.next_from(0, count)
    }

    /// The greatest server outside it, in a chain of `count`, or `None` if there is none.
    pub fn tail(self, count: u8) -> Option<u8>
        requires chain { count ≤ 16 }
        ensures last { result ≡ views.tail self count }
        ensures within { IfSome result (λ j. j < count) }
    {
        self.predecessor(count)
    }
}
