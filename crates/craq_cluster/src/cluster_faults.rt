//! Why a chain of servers in one process can't be run.
ghost use Rattle.std.specs.Prelude.{◌≡◌, ◌⊎◌, ◌↔◌};

use command_line::{FAILED, MEMORY};
use craq_process::OpenFault;
use ends::Sink;
use io_threads::FrontEndFault;
use lines::text;
use sockets::ListenFault;
use std::alloc::{AllocError, AllocFailed};
use thiserror::Error;

/// Why a chain can't be run.
#[derive(Clone, Copy, Debug, PartialEq, Eq, Error)]
pub enum ClusterFault {
    /// No memory was left.
    #[error("out of memory")]
    Memory,
    /// Nobody can listen on this port, for this reason.
    #[error("cannot listen on 127.0.0.1 port {0}{words}", words = .1.words())]
    Port(u16, ListenFault),
    /// The chain has no such server.
    #[error("run failed")]
    Run,
}

impl ClusterFault {
    /// The exit status: 3 if memory is out, else 1.
    pub(crate) fn status(self) -> u8
        ensures some { (result ≡ FAILED) ⊎ (result ≡ MEMORY) }
        ensures memory { (result ≡ MEMORY) ↔ (self ≡ ClusterFault.Memory) }
    {
        match self {
            ClusterFault::Memory => MEMORY,
            _ => FAILED,
        }
    }

    /// Tells the fault in one line. It allocates nothing.
    pub(crate) fn tell<X: Sink>(self, errors: &mut X) {
        let _ = writeln!(text(errors), "craq: {self}");
    }
}

impl From<AllocError> for ClusterFault {
    ghost use Rattle.std.specs.Prelude.{◌≡◌};
    ghost use Rattle.craq_cluster.specs.declared.cluster_faults.ClusterFault.TheVariants.{Memory};

    ghost from_gives = { λ _ e. e ≡ Memory };

    fn from(_e: AllocError) -> ClusterFault {
        ClusterFault::Memory
    }
}

impl From<OpenFault> for ClusterFault {
    fn from(e: OpenFault) -> ClusterFault {
        match e {
            OpenFault::Memory => ClusterFault::Memory,
            OpenFault::Run => ClusterFault::Run,
        }
    }
}

impl From<FrontEndFault> for ClusterFault {
    fn from(e: FrontEndFault) -> ClusterFault {
        match e {
            FrontEndFault::Memory => ClusterFault::Memory,
            FrontEndFault::Numbers => ClusterFault::Run,
        }
    }
}

impl<T: Drop> From<AllocFailed<T>> for ClusterFault {
    ghost use Rattle.std.specs.Prelude.{◌≡◌};
    ghost use Rattle.craq_cluster.specs.declared.cluster_faults.ClusterFault.TheVariants.{Memory};

    ghost from_gives = { λ _ e. e ≡ Memory };

    fn from(_e: AllocFailed<T>) -> ClusterFault {
        ClusterFault::Memory
    }
}
