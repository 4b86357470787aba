//! What an index had before it was cleared, taken apart in small steps.
ghost use Rattle.std.specs.Prelude.{◌≡◌, ◌+◌, ◌<◌, ◌↔◌, IsTrue, length, if◌then◌else◌};
ghost use Rattle.hash_index.specs.Tables.{joined};
ghost use Rattle.hash_index.specs.Indexes.{steps};

use crate::buckets::Bucket;
use crate::rows::Rows;
use std::alloc::Global;
use std::collections::BTreeMap;
use std::marker::Model;
use table::TreeKey;

/// The entries that an index had before it was cleared. Each step frees a little, so that nobody waits for all of them.
/// Contracts see the entries that are left (`IndexContents` of the specs).
#[derive(Drop)]
pub struct Remains<V: Drop> {
    alloc: Global,
    rows: Rows<Bucket<V>>,
    tree: BTreeMap<TreeKey, V>,
}

impl<V: Drop> Model for Remains<V> {
    ghost use Rattle.hash_index.specs.Indexes.{IndexContents};

    ghost Value = { IndexContents V };

    ghost view = { λ r. record { buckets = r.rows; rest = r.tree.entries } };
}

impl<V: Drop> Remains<V> {
    pub(crate) fn new(
        alloc: Global,
        rows: Rows<Bucket<V>>,
        tree: BTreeMap<TreeKey, V>,
    ) -> Remains<V>
        ensures { result ≡ record { buckets = rows; rest = tree.entries } }
    {
        Remains { alloc, rows, tree }
    }

    /// Frees one entry, or a bucket that has none. False if nothing is left. So there are as many steps as entries and
    /// buckets (`steps`).
    pub fn step(&mut self) -> bool
        ensures left { IsTrue result ↔ (0 < steps self.old) }
        ensures less { steps self.new + (if result then 1 else 0) ≡ steps self.old }
    {
        if self.tree.pop_first().is_some() {
            return true;
        }
        step_rows(self.alloc, &mut self.rows)
    }
}

// Frees the last entry of the last bucket, or that bucket if it has none. False if there is no bucket.
fn step_rows<V: Drop>(alloc: Global, rows: &mut Rows<Bucket<V>>) -> bool
    ensures left { IsTrue result ↔ (0 < length rows.old + length (joined rows.old)) }
    ensures less { length rows.new + length (joined rows.new) + (if result then 1 else 0)
        ≡ length rows.old + length (joined rows.old) }
{
    let count = rows.len();
    if count == 0 {
        return false;
    }
    let last = count - 1;
    if rows.get(last).as_slice().is_empty() {
        rows.pop();
        return true;
    }
    let mut bucket = rows.swap(last, Bucket::new(alloc));
    bucket.pop();
    drop(rows.swap(last, bucket));
    true
}
