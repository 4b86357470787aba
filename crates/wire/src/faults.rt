//! Why frames can't be written or read.
ghost use Rattle.std.specs.Prelude.{◌≡◌};
ghost use Rattle.wire.specs.declared.faults.WireFault.TheVariants.{Memory};

use std::alloc::{AllocError, AllocFailed};
use thiserror::Error;

/// Why frames can't be written or read.
#[derive(Clone, Copy, Debug, PartialEq, Eq, Error)]
pub enum WireFault {
    /// There is no memory for a frame, its bytes or a piece.
    #[error("out of memory")]
    Memory,
    /// A field of the frame at the front is out of its range; it stays so.
    #[error("malformed frame")]
    Malformed,
    /// `Malformed` or `OldFormat` was met; no more bytes are taken.
    #[error("the stream is closed")]
    Closed,
    /// The frame at the front begins with 1, as an older server's does; it stays so.
    #[error("peer speaks format 1")]
    OldFormat,
}

impl From<AllocError> for WireFault {
    ghost from_gives = { λ _ e. e ≡ Memory };

    fn from(_e: AllocError) -> WireFault {
        WireFault::Memory
    }
}

impl<T: Drop> From<AllocFailed<T>> for WireFault {
    ghost from_gives = { λ _ e. e ≡ Memory };

    fn from(_e: AllocFailed<T>) -> WireFault {
        WireFault::Memory
    }
}
