//! Why a call of the threads' layer is refused.
use std::alloc::{AllocError, AllocFailed};
use thiserror::Error;

/// Why a call is refused.
#[derive(Clone, Copy, Debug, PartialEq, Eq, Error)]
pub enum RailFault {
    /// Out of memory.
    #[error("out of memory")]
    Memory,
    /// The other side is gone, or the server is stopped.
    #[error("closed")]
    Closed,
    /// A link has failed.
    #[error("link down")]
    LinkDown,
    /// No reader could be made.
    #[error("no reader")]
    NoReader,
}

impl From<AllocError> for RailFault {
    ghost use Rattle.std.specs.Prelude.{◌≡◌};
    ghost use Rattle.rail.specs.declared.faults.RailFault.TheVariants.{Memory};

    ghost from_gives = { λ _ e. e ≡ Memory };

    fn from(_e: AllocError) -> RailFault {
        RailFault::Memory
    }
}

impl<T: Drop> From<AllocFailed<T>> for RailFault {
    ghost use Rattle.std.specs.Prelude.{◌≡◌};
    ghost use Rattle.rail.specs.declared.faults.RailFault.TheVariants.{Memory};

    ghost from_gives = { λ _ e. e ≡ Memory };

    fn from(_e: AllocFailed<T>) -> RailFault {
        RailFault::Memory
    }
}
