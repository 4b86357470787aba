//! How serving a connection comes to an end.
ghost use Rattle.std.specs.Prelude.{◌≡◌};

use std::alloc::AllocError;
use thiserror::Error;

/// How a connection came to its end.
#[derive(Clone, Copy, Debug, PartialEq, Eq)]
pub enum End {
    /// The input has ended.
    Input,
    /// The client said `quit`, or sent a line that is too long.
    Closed,
}

/// Why a connection isn't served any more.
#[derive(Clone, Copy, Debug, PartialEq, Eq, Error)]
pub enum ServeFault {
    /// No memory was left.
    #[error("out of memory")]
    Memory,
    /// A read failed.
    #[error("the input can't be read")]
    Read,
    /// A write failed.
    #[error("the output can't be written")]
    Write,
    /// A call got no reply.
    #[error("a call got no reply")]
    Call,
}

impl From<AllocError> for ServeFault {
    ghost use Rattle.serving.specs.declared.endings.ServeFault.TheVariants.{Memory};

    ghost from_gives = { λ _ e. e ≡ Memory };

    fn from(_e: AllocError) -> ServeFault {
        ServeFault::Memory
    }
}
