//! The master: it tells the servers that live which one has failed.
ghost use Rattle.std.specs.Prelude.{◌≡◌, ◌≤◌, IfOk, OnOk, OnErr};
ghost use Rattle.node.specs.declared.masters.MasterFault.TheVariants.{Memory};
ghost use Rattle.node.specs.Masters.{notices, told, notices_from};

use crate::View;
use std::alloc::{AllocError, AllocFailed, Global};
use std::marker::Model;
use thiserror::Error;

/// Why a master refuses a notice.
#[derive(Clone, Copy, Debug, PartialEq, Eq, Error)]
pub enum MasterFault {
    /// Memory is wanting; nothing has changed.
    #[error("out of memory")]
    Memory,
}

impl From<AllocError> for MasterFault {
    ghost from_gives = { λ _ e. e ≡ Memory };

    fn from(_e: AllocError) -> MasterFault {
        MasterFault::Memory
    }
}

impl<T: Drop> From<AllocFailed<T>> for MasterFault {
    ghost from_gives = { λ _ e. e ≡ Memory };

    fn from(_e: AllocFailed<T>) -> MasterFault {
        MasterFault::Memory
    }
}

/// How many servers a chain has, and which of them have failed so far (this project's rule). Contracts see a
/// `MasterState`.
#[derive(Drop)]
pub struct Master {
    count: u8,
    gone: View,
}

impl Model for Master {
    ghost use Rattle.std.specs.Prelude.{◌≤◌};
    ghost use Rattle.node.specs.Masters.{MasterState};

    ghost Value = { MasterState };

    ghost view = { λ m. record { count = m.count; gone = m.gone } };

    ghost invariant = { λ m. m.count ≤ 16 };
}

impl Master {
    /// The master of a chain of `count` servers, 1 to 16. It allocates nothing.
    pub fn new(count: u8) -> Master
        requires chain { (1 ≤ count) × (count ≤ 16) }
        ensures { result ≡ record { count = count; gone = 0 } }
    {
        Master {
            count,
            gone: View::empty(),
        }
    }

    /// Server `j` has failed. The notices (i, j) to give: one for each other server i that lives, in the order of their
    /// ids; none if `j` was known to have failed already or isn't of the chain. Refused if memory is out, it
    /// leaves the master as it was. At most 16 looks.
    pub fn gone(&mut self, alloc: Global, j: u8) -> Result<Vec<(u8, u8)>, MasterFault>
        ensures notices { IfOk result (λ given. given.items ≡ notices self.old j) }
        ensures told { OnOk result (self.new ≡ told self.old j) }
        ensures unchanged { OnErr result (self.new ≡ self.old) }
    {
        if j >= self.count || self.gone.has(j) {
            return Ok(Vec::new(alloc));
        }
        let gone = self.gone.union(View::single(j));
        let given = notices(alloc, gone, j, self.count)?;
        self.gone = gone;
        Ok(given)
    }
}

// A notice (i, j) for each of `count` servers that lives.
#[tactic(auto, using(crate::proofs::NoticeShapes::notices_within, crate::proofs::NoticeShapes::notices_past))]
fn notices(alloc: Global, gone: View, j: u8, count: u8) -> Result<Vec<(u8, u8)>, MasterFault>
    requires chain { count ≤ 16 }
    ensures { IfOk result (λ given. given.items ≡ notices_from gone j 0 count) }
{
    let mut given = Vec::new(alloc);
    for i in 0..count {
        if !gone.has(i) {
            given.push((i, j))?;
        }
    }
    Ok(given)
}
