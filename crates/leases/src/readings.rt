//! Readings of clocks.
ghost use Rattle.std.specs.Prelude.{◌≡◌, ◌-◌, ◌^◌, IfSome, min};
ghost use Rattle.std.specs.Duration.{as_nanos};

use std::time::{Clock, Duration};

/// What was known, and what a clock showed after that: who was gone as far as a server knew, or what a server told its
/// master, or nothing (`()`). Only `Reading::after` makes one, which is given what is known and reads the clock then.
/// So no number is made up, none is older than what was known by it, and a reading serves once: it isn't `Copy`, nor
/// `Clone`. Which clock is read is up to who calls.
#[derive(Debug, Drop)]
pub struct Reading<T> {
    known: T,
    shown: u64,
}

impl<T: Copy> Reading<T> {
    /// Reads the clock, now that this is known. None if it can't be read.
    pub fn after<C: Clock>(clock: &C, known: T) -> Option<Reading<T>>
        ensures { IfSome result (λ reading. reading.known ≡ known) }
    {
        match clock.monotonic() {
            Ok(reading) => Some(Reading {
                known,
                shown: nanoseconds_of(reading),
            }),
            Err(_) => None,
        }
    }

    /// What was known before the clock was read.
    pub fn known(&self) -> T
        ensures { result ≡ self.now.known }
    {
        self.known
    }

    /// What the clock showed, in nanoseconds.
    pub fn shown(&self) -> u64
        ensures { result ≡ self.now.shown }
    {
        self.shown
    }
}

/// How many nanoseconds a clock shows, by a reading of it; at most 2^64 - 1, which is 584 years. From then on it seems
/// to stand still, and no lease holds.
pub fn nanoseconds_of(reading: Duration) -> u64
    ensures { result ≡ min (as_nanos reading) (2 ^ 64 - 1) }
{
    match u64::try_from(reading.as_nanos()) {
        Ok(nanoseconds) => nanoseconds,
        Err(_) => u64::MAX,
    }
}
