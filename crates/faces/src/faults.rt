//! Why a call on a server's face is refused.
use std::alloc::AllocError;
use thiserror::Error;

/// Why a call is refused.
#[derive(Clone, Copy, Debug, PartialEq, Eq, Error)]
pub enum FaceFault {
    /// Out of memory.
    #[error("out of memory")]
    Memory,
    /// The face isn't shown any more, or the server can take nothing more.
    #[error("closed")]
    Closed,
}

impl From<AllocError> for FaceFault {
    ghost use Rattle.std.specs.Prelude.{◌≡◌};
    ghost use Rattle.faces.specs.declared.faults.FaceFault.TheVariants.{Memory};

    ghost from_gives = { λ _ e. e ≡ Memory };

    fn from(_e: AllocError) -> FaceFault {
        FaceFault::Memory
    }
}
