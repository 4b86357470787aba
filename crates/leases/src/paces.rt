//! How often a master sends beats, and for how long a server may be silent.
ghost use Rattle.std.specs.Prelude.{◌≡◌, ◌≤◌, ◌<◌, ◌*◌, ◌↔◌, IsSome, IfSome, IsTrue};

use crate::terms::Term;

/// How many nanoseconds a millisecond has.
pub const MILLISECOND: u64 = 1_000_000;

/// The usual time between two beats, in milliseconds.
pub const BEAT: u64 = 300;

/// The usual time after which a silent server is told that it is gone, in milliseconds.
pub const AFTER: u64 = 3_000;

/// The longest time for each of them, in milliseconds: an hour.
pub const SLOWEST: u64 = 3_600_000;

/// How often a master sends beats, and for how long a server may be silent, in nanoseconds.
#[derive(Clone, Copy, Debug, PartialEq, Eq)]
pub struct Paces {
    /// The time between two beats.
    pub beat: u64,
    /// A server that wasn't heard for so long is told that it is gone.
    pub after: u64,
    ghost positive: { 0 < beat },
    ghost ordered: { beat < after },
}

impl Paces {
    /// A beat each `beat` milliseconds, which is 1 at least, and silence for `after` milliseconds, which is more than a
    /// beat and an hour at most. None for other numbers.
    pub fn of_milliseconds(beat: u64, after: u64) -> Option<Paces>
        ensures allowed { IsSome result ↔ ((1 ≤ beat) × (beat < after) × (after ≤ SLOWEST)) }
        ensures beat { IfSome result (λ paces. paces.beat ≡ beat * MILLISECOND) }
        ensures after { IfSome result (λ paces. paces.after ≡ after * MILLISECOND) }
    {
        if beat == 0 || beat >= after || after > SLOWEST {
            return None;
        }
        Some(Paces {
            beat: beat * MILLISECOND,
            after: after * MILLISECOND,
        })
    }

    /// A beat each 300 ms, and silence for three seconds.
    pub fn usual() -> Paces
        ensures beat { result.beat ≡ BEAT * MILLISECOND }
        ensures after { result.after ≡ AFTER * MILLISECOND }
    {
        Paces {
            beat: BEAT * MILLISECOND,
            after: AFTER * MILLISECOND,
        }
    }

    /// Whether a lease of this term can be kept up by such beats: it is longer than two pauses. A shorter one ends
    /// again and again between two beats, however fast the way is; the server serves by fits then, and nothing worse
    /// comes of it. That the term is longer by the way there and back as well isn't tested here.
    pub fn keep_up(self, term: Term) -> bool
        ensures { IsTrue result ↔ (2 * self.beat < term) }
    {
        self.beat.saturating_mul(2) < term.nanoseconds()
    }
}
