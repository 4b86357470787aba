//! Lists that contracts alone see.
ghost use Rattle.std.specs.Prelude.{◌≡◌, ◌++◌, ◌∷◌, [], OnOk, OnErr};

use std::alloc::{AllocError, Global};
use std::marker::Model;
use std::snapshot::Snapshot;

/// A list that only contracts see. It takes no memory, however long it is: a snapshot has no bytes.
#[derive(Drop)]
pub struct GhostList<T> {
    snapshots: Vec<Snapshot<T>>,
}

impl<T> Model for GhostList<T> {
    ghost use Rattle.std.specs.Prelude.{List, map};

    ghost Value = { List T };

    ghost view = { λ h. map (λ s. s.value) h.snapshots.items };
}

impl<T> GhostList<T> {
    /// The empty list.
    pub fn new(alloc: Global) -> GhostList<T>
        ensures { result ≡ [] }
    {
        GhostList {
            snapshots: Vec::new(alloc),
        }
    }

    /// Appends the value of a snapshot. Fails only if memory runs out, and then changes nothing.
    pub fn add(&mut self, snapshot: Snapshot<T>) -> Result<(), AllocError>
        ensures ok { OnOk result (self.new ≡ self.old ++ snapshot.value ∷ []) }
        ensures err { OnErr result (self.new ≡ self.old) }
    {
        self.snapshots.push(snapshot)?;
        Ok(())
    }
}
