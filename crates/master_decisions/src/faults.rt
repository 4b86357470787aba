//! Why a master ends before its input does.

use std::alloc::{AllocError, AllocFailed};
use wire::Reason;

/// Why a master ends before its input does.
#[derive(Clone, Copy)]
pub enum MasterFault {
    /// No memory was left.
    Memory,
    /// This server refuses the master.
    Refused(u8, Reason),
    /// The number of servers is none of a chain, or a clock or a thread is missing.
    Run,
    /// A master watches, and each server has failed.
    NoServer,
}

impl From<AllocError> for MasterFault {
    ghost use Rattle.std.specs.Prelude.{◌≡◌};
    ghost use Rattle.master_decisions.specs.declared.faults.MasterFault.TheVariants.{Memory};

    ghost from_gives = { λ _ fault. fault ≡ Memory };

    fn from(_e: AllocError) -> MasterFault {
        MasterFault::Memory
    }
}

impl<T: Drop> From<AllocFailed<T>> for MasterFault {
    ghost use Rattle.std.specs.Prelude.{◌≡◌};
    ghost use Rattle.master_decisions.specs.declared.faults.MasterFault.TheVariants.{Memory};

    ghost from_gives = { λ _ fault. fault ≡ Memory };

    fn from(_e: AllocFailed<T>) -> MasterFault {
        MasterFault::Memory
    }
}
