//! Who takes frames.
ghost use Rattle.std.specs.Prelude.{◌≡◌, ℕ, ◌+◌, ◌++◌, ◌∷◌, [], List, OnOk, OnErr, MatchResult};
ghost use Rattle.wire.specs.Spellings.{IsFrame};
ghost use Rattle.peers.specs.Links.{MayCome};

use std::sync::Wait;
use thiserror::Error;
use wire::Frame;

/// A frame that wasn't taken.
#[derive(Clone, Copy, Debug, PartialEq, Eq, Error)]
#[error("a frame isn't taken")]
pub struct TakeFault;

/// One who takes frames, one after another.
pub trait Taker {
    ghost use Rattle.wire.specs.declared.frames.Frame.{Frame};

    /// The frames that it has taken, in order.
    ghost taken: { Self → List Frame };

    /// What holds of its value before a frame that it takes, the frame, and its value after it.
    ghost hears: { Self → Frame → Self → Type 0 };

    /// The same of a frame that it doesn't take.
    ghost misses: { Self → Frame → Self → Type 0 };

    /// How often it has failed to take a frame.
    ghost failures: { Self → ℕ };

    /// Takes a frame whose fields are all in their ranges, and whose message, if it is one, may be given to a server.
    /// It may wait. It fails if it answers an error.
    fn take<R: Wait>(&mut self, rt: &R, frame: Frame) -> Result<(), TakeFault>
        requires frame { IsFrame frame }
        requires message { MayCome frame }
        ensures taken { OnOk result (taken self.new ≡ taken self.old ++ frame ∷ []) }
        ensures refused { OnErr result (taken self.new ≡ taken self.old) }
        ensures heard { OnOk result (hears self.old frame self.new) }
        ensures missed { OnErr result (misses self.old frame self.new) }
        ensures counted { MatchResult result
            (λ _. failures self.new ≡ failures self.old)
            (λ _. failures self.new ≡ failures self.old + 1) };
}
