//! Trees that a clear took away, freed a few entries at a time.
ghost use Rattle.std.specs.Prelude.{◌≡◌, []};

use std::alloc::Global;
use std::collections::BTreeMap;
use std::mem;
use table::TreeKey;

// How many entries one sweep frees: so a sweep stays short beside an update, which adds one entry at most.
const AT_ONCE: usize = 32;

/// Trees that nothing needs any more. Each sweep frees a few of their entries, so that nobody waits for all of them.
#[derive(Drop)]
pub struct DeferredFree<V: Drop> {
    trees: Vec<BTreeMap<TreeKey, V>>,
}

impl<V: Drop> DeferredFree<V> {
    /// No trees. It allocates nothing.
    pub fn new(alloc: Global) -> DeferredFree<V> {
        DeferredFree {
            trees: Vec::new(alloc),
        }
    }

    /// Empties a tree, whose entries are freed by later sweeps; at once if memory is out. In constant time else.
    pub fn take(&mut self, tree: &mut BTreeMap<TreeKey, V>)
        ensures { tree.new.entries ≡ [] }
    {
        if tree.is_empty() {
            return;
        }
        let alloc = *self.trees.allocator();
        let taken = mem::replace(tree, BTreeMap::new(alloc));
        if let Err(failed) = self.trees.push(taken) {
            drop(failed);
        }
    }

    /// Frees some entries of these trees.
    pub fn sweep(&mut self) {
        for _ in 0..AT_ONCE {
            let Some(tree) = self.trees.last_mut() else {
                return;
            };
            if tree.pop_first().is_none() {
                self.trees.pop();
            }
        }
    }
}
