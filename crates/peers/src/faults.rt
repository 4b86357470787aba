//! Why a link between servers fails.
ghost use Rattle.std.specs.Prelude.{◌≡◌};
ghost use Rattle.peers.specs.declared.faults.LinkFault.TheVariants.{Memory, Take, Write};

use crate::TakeFault;
use ends::WriteFault;
use std::alloc::AllocError;
use thiserror::Error;

/// Why a frame isn't put, or a peer isn't served any more.
#[derive(Clone, Copy, Debug, PartialEq, Eq, Error)]
pub enum LinkFault {
    /// No memory was left.
    #[error("out of memory")]
    Memory,
    /// A read failed.
    #[error("the link can't be read")]
    Read,
    /// A write failed.
    #[error("the link can't be written")]
    Write,
    /// A frame wasn't taken.
    #[error("a frame isn't taken")]
    Take,
}

impl From<AllocError> for LinkFault {
    ghost from_gives = { λ _ e. e ≡ Memory };

    fn from(_e: AllocError) -> LinkFault {
        LinkFault::Memory
    }
}

impl From<WriteFault> for LinkFault {
    ghost from_gives = { λ _ e. e ≡ Write };

    fn from(_e: WriteFault) -> LinkFault {
        LinkFault::Write
    }
}

impl From<TakeFault> for LinkFault {
    ghost from_gives = { λ _ e. e ≡ Take };

    fn from(_e: TakeFault) -> LinkFault {
        LinkFault::Take
    }
}
