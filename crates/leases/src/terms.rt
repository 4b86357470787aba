//! How long a lease runs, and how long a master waits for its end.
ghost use Rattle.std.specs.Prelude.{◌≡◌, ◌≤◌, ◌*◌, ◌↔◌, IsSome, IfSome};
ghost use Rattle.leases.specs.Clocks.{IsSurelyOver, wait_for};

use std::marker::Model;

/// How many nanoseconds a second has.
pub const SECOND: u64 = 1_000_000_000;

/// The most that a clock may move at once: a hundredth of a second, in nanoseconds.
pub const GRAIN: u64 = 10_000_000;

/// The longest term, in seconds.
pub const LONGEST: u64 = 3_600;

/// The term of a lease: 1 to 3,600 seconds. Contracts see how many nanoseconds it is.
#[derive(Clone, Copy, Debug, PartialEq, Eq)]
pub struct Term {
    nanoseconds: u64,
}

impl Model for Term {
    ghost use Rattle.std.specs.Prelude.{ℕ, ◌<◌, ◌^◌};

    ghost Value = { ℕ };

    ghost view = { λ t. t.nanoseconds };

    ghost inverse = { λ n. record { nanoseconds = n } };

    ghost invariant = { λ t. t.nanoseconds < 2 ^ 42 };
}

impl Term {
    /// The term of this many seconds, if they are 1 to 3,600.
    pub fn of_seconds(seconds: u64) -> Option<Term>
        ensures allowed { IsSome result ↔ ((1 ≤ seconds) × (seconds ≤ LONGEST)) }
        ensures exact { IfSome result (λ term. term ≡ seconds * SECOND) }
    {
        if seconds == 0 || seconds > LONGEST {
            return None;
        }
        Some(Term {
            nanoseconds: seconds * SECOND,
        })
    }

    /// The term of this many nanoseconds, if they are those of 1 to 3,600 seconds. A frame carries a term so.
    pub fn of_nanoseconds(nanoseconds: u64) -> Option<Term>
        ensures allowed { IsSome result ↔ ((SECOND ≤ nanoseconds) × (nanoseconds ≤ LONGEST * SECOND)) }
        ensures exact { IfSome result (λ term. term ≡ nanoseconds) }
    {
        if nanoseconds < SECOND || nanoseconds > LONGEST * SECOND {
            return None;
        }
        Some(Term { nanoseconds })
    }

    /// How many nanoseconds it is.
    pub fn nanoseconds(self) -> u64
        ensures { result ≡ self }
    {
        self.nanoseconds
    }

    /// How many nanoseconds a master waits, by its own clock, until the term is surely over by a server's: the term and
    /// a grain, a tenth more since clocks differ, and one for rounding.
    pub fn wait(self) -> u64
        ensures exact { result ≡ wait_for self }
        ensures over { IsSurelyOver self result }
    {
        let term = self.nanoseconds + GRAIN;
        term + term / 10 + 1
    }
}
