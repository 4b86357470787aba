//! The notices that a master has brought.
ghost use Rattle.std.specs.Prelude.{◌≡◌, ◌++◌, ◌∷◌, [], OnOk, OnErr};
ghost use Rattle.node.specs.declared.messages.Input.TheVariants.{Gone};
ghost use Rattle.rail.specs.Inlets.{with_inbox_message};
ghost use Rattle.rail.specs.declared.inbox_messages.InboxMessage.TheVariants.{Took};

use crate::ghost_lists::GhostList;
use peers::TakeFault;
use rail::Inlet;
use std::alloc::Global;
use std::marker::Model;
use std::snapshot::Snapshot;
use std::sync::Wait;

/// The servers of which a master has brought a notice, in order. Only `bring_notice` adds one, so each notice went
/// through an inlet. It takes no memory. Contracts see a list.
#[derive(Drop)]
pub struct Notices {
    told: GhostList<u8>,
}

impl Model for Notices {
    ghost use Rattle.std.specs.Prelude.{List, ℕ};

    ghost Value = { List ℕ };

    ghost view = { λ n. n.told };
}

impl Notices {
    /// None.
    pub(crate) fn new(alloc: Global) -> Notices
        ensures { result ≡ [] }
    {
        Notices {
            told: GhostList::new(alloc),
        }
    }

    /// Brings the notice that server `j` has failed by this inlet. Refused if the worker is gone, or memory runs out;
    /// then it doesn't count as brought.
    pub(crate) fn bring_notice<R: Wait>(
        &mut self,
        rt: &R,
        inlet: &mut Inlet,
        j: u8,
    ) -> Result<(), TakeFault>
        ensures brought { OnOk result (inlet.new ≡ with_inbox_message inlet.old (Took (Gone j))) }
        ensures told { OnOk result (self.new ≡ self.old ++ j ∷ []) }
        ensures refused { OnErr result (self.new ≡ self.old) }
    {
        if inlet.gone(rt, j).is_ok() && self.told.add(Snapshot::of(&j)).is_ok() {
            return Ok(());
        }
        Err(TakeFault)
    }
}
