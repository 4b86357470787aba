//! Why a session refuses.
ghost use Rattle.std.specs.Prelude.{◌≡◌};
ghost use Rattle.proto.specs.declared.faults.ProtoFault.TheVariants.{Memory};

use std::alloc::{AllocError, AllocFailed};
use thiserror::Error;

/// Why a session refuses.
#[derive(Clone, Copy, Debug, PartialEq, Eq, Error)]
pub enum ProtoFault {
    /// No room for a piece, a key, data or the output; nothing has changed.
    #[error("out of memory")]
    Memory,
    /// No more bytes are taken.
    #[error("the session is closed")]
    Closed,
}

impl From<AllocError> for ProtoFault {
    ghost from_gives = { λ _ e. e ≡ Memory };

    fn from(_e: AllocError) -> ProtoFault {
        ProtoFault::Memory
    }
}

impl<T: Drop> From<AllocFailed<T>> for ProtoFault {
    ghost from_gives = { λ _ e. e ≡ Memory };

    fn from(_e: AllocFailed<T>) -> ProtoFault {
        ProtoFault::Memory
    }
}
