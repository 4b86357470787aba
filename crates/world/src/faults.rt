//! Faults: why there is no scene, or no event in one.
ghost use Rattle.std.specs.Prelude.{◌≡◌};
ghost use Rattle.world.specs.declared.faults.SceneFault.TheVariants.{Memory};

use std::alloc::{AllocError, AllocFailed};
use thiserror::Error;

/// Why there is no scene, or no event in one.
#[derive(Clone, Copy, Debug, PartialEq, Eq, Error)]
pub enum SceneFault {
    /// Memory ran out.
    #[error("out of memory")]
    Memory,
    /// The servers are not 1 to 16.
    #[error("a chain has 1 to 16 servers")]
    BadCount,
    /// More than 64 homes, or one that is no server.
    #[error("more than 64 homes, or one that is no server")]
    BadHomes,
    /// An earlier event ran out of memory.
    #[error("an earlier event ran out of memory")]
    Spoiled,
}

impl From<AllocError> for SceneFault {
    ghost from_gives = { λ _ e. e ≡ Memory };

    fn from(_e: AllocError) -> SceneFault {
        SceneFault::Memory
    }
}

impl<T: Drop> From<AllocFailed<T>> for SceneFault {
    ghost from_gives = { λ _ e. e ≡ Memory };

    fn from(_e: AllocFailed<T>) -> SceneFault {
        SceneFault::Memory
    }
}
