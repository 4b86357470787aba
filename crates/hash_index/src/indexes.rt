//! The index: a hash table, and a tree of the entries whose bucket was full.
ghost use Rattle.std.specs.Prelude.{◌≡◌, ◌↔◌, ℕ, length, [], Some, None, IfOk, IfErr, IfSome, IfNone, IsSome, OnOk};
ghost use Rattle.std.specs.Prelude.{OnErr};
ghost use Rattle.std.specs.Prelude.{IsTrue, ◌<◌};
ghost use Rattle.std.specs.Option.{option_copied, is_some};
ghost use Rattle.std.specs.List.{IsDistinct};
ghost use Rattle.std.specs.Map.{keys_of};
ghost use Rattle.std.specs.Ordering.{eq_by_cmp};
ghost use Rattle.table.specs.Keys.{tree_key_cmp};
ghost use Rattle.std.specs.Prelude.{◌++◌};
ghost use Rattle.hash_index.specs.Entries.{value_at, AreApart};
ghost use Rattle.hash_index.specs.Tables.{joined, bucket_at, HasNow};
ghost use Rattle.hash_index.specs.Indexes.{entries, found_at, HasAt, IsPlaceOf};
ghost use Rattle.hash_index.specs.Retained.{HasRetained};

use crate::hash_tables::HashTable;
use crate::places::Place;
use crate::remains::Remains;
use crate::retains::Retain;
use crate::trees;
use std::alloc::{AllocFailed, Global};
use std::collections::BTreeMap;
use std::marker::Model;
use std::mem;
use table::{Key, TreeKey};

/// Values by key. Time is constant in the number of entries, but for keys that were made to meet in one bucket: those
/// beyond its 48 cost a search in a tree. It grows by one bucket at a time, so no call waits for a whole table.
/// Contracts see its entries, in an order that no clause says (`IndexContents` of the specs), and speak of what a key
/// has (`found_at`).
#[derive(Drop)]
pub struct Index<V: Drop> {
    table: HashTable<V>,
    more: BTreeMap<TreeKey, V>,
    len: usize,
}

impl<V: Drop> Model for Index<V> {
    ghost use Rattle.hash_index.specs.Indexes.{IndexContents, IsIndex};

    ghost Value = { IndexContents V };

    ghost view = { λ x. record { buckets = x.table; rest = x.more.entries } };

    ghost invariant = { λ x. IsIndex x.table x.more.entries x.len };
}

impl<V: Drop> Index<V> {
    /// No entries. It allocates nothing.
    pub fn new(alloc: Global) -> Index<V>
        ensures { entries result ≡ [] }
    {
        Index {
            table: HashTable::new(alloc),
            more: BTreeMap::new(alloc),
            len: 0,
        }
    }

    /// How many entries there are. No two of them have one key.
    pub fn len(&self) -> usize
        ensures len { result ≡ length (entries self.now) }
        ensures distinct { IsDistinct (eq_by_cmp tree_key_cmp) (keys_of (entries self.now)) }
    {
        self.len
    }

    /// Whether there are no entries.
    pub fn is_empty(&self) -> bool
        ensures { IsTrue result ↔ (length (entries self.now) ≡ 0) }
    {
        self.len == 0
    }

    /// The value of a key, if it has one.
    pub fn get(&self, key: &Key) -> Option<&V>
        ensures { option_copied result ≡ found_at self.now key.now }
    {
        match self.table.find(key.tree_key()) {
            Some((bucket, slot)) => Some(self.table.value(bucket, slot)),
            None => self.more.get(key.tree_key()),
        }
    }

    /// Where the entry of a key stands, if it has one: for `swap_at`.
    pub fn place(&self, key: &Key) -> Option<Place>
        ensures place { IfSome result (λ place. IsPlaceOf self.now place key.now) }
        ensures absent { IfNone result (found_at self.now key.now ≡ None) }
    {
        if let Some((bucket, slot)) = self.table.find(key.tree_key()) {
            return Some(Place::Slot(bucket, slot));
        }
        match self.more.get(key.tree_key()) {
            Some(_) => Some(Place::Tree),
            None => None,
        }
    }

    /// Puts a value in the place of a key's own, and gives that one. It searches only if the place is in the tree, and
    /// isn't refused. The place stays the key's.
    pub fn swap_at(&mut self, place: Place, key: &Key, value: V) -> V
        requires { IsPlaceOf self.old place key.now }
        ensures old { Some result ≡ found_at self.old key.now }
        ensures updates { HasAt key.now (Some value) self.old self.new }
        ensures place { IsPlaceOf self.new place key.now }
    {
        match place {
            Place::Slot(bucket, slot) => self.table.swap(bucket, slot, value),
            Place::Tree => trees::swap(&mut self.more, key.tree_key(), value),
        }
    }

    /// Sets the value of a key, and gives the value that it had, if it had one. Refused only for a key that has none:
    /// if memory for its own entry is out (or there are 2^64 - 1 entries). Then nothing changes, and the value comes
    /// back.
    pub fn insert(&mut self, key: &Key, value: V) -> Result<Option<V>, AllocFailed<V>>
        ensures old { IfOk result (λ old. old ≡ found_at self.old key.now) }
        ensures updates { OnOk result (HasAt key.now (Some value) self.old self.new) }
        ensures absent { OnErr result (found_at self.old key.now ≡ None) }
        ensures err { OnErr result (entries self.new ≡ entries self.old) }
        ensures value_returned { IfErr result (λ failed. failed.value ≡ value) }
    {
        match self.place(key) {
            Some(place) => Ok(Some(self.swap_at(place, key, value))),
            None => match self.add(key, value) {
                Ok(()) => Ok(None),
                Err(failed) => Err(failed),
            },
        }
    }

    /// Takes the entry of a key away, and gives its value, if it has one.
    pub fn remove(&mut self, key: &Key) -> Option<V>
        ensures value { result ≡ found_at self.old key.now }
        ensures updates { HasAt key.now None self.old self.new }
    {
        if let Some((bucket, slot)) = self.table.find(key.tree_key()) {
            let value = self.table.remove(bucket, slot);
            self.len -= 1;
            return Some(value);
        }
        let Some(value) = self.more.remove(key.tree_key()) else {
            return None;
        };
        self.len -= 1;
        Some(value)
    }

    /// Takes the entries away whose values aren't to stay, and makes of the others what `R` makes of them. It allocates
    /// nothing. Time is linear in the number of entries and buckets.
    pub fn retain<R: Retain<V>>(&mut self)
        ensures { HasRetained R.outcome self.old self.new }
    {
        let gone = self.table.retain::<R>();
        let rest = trees::retain::<V, R>(&mut self.more);
        self.len -= gone;
        self.len -= rest;
    }

    /// How many buckets there are: with `bucket` and `rest`, for a walk over all entries.
    pub fn buckets(&self) -> usize
        ensures { result ≡ length self.now.buckets }
    {
        self.table.len()
    }

    /// The entries of a bucket.
    pub fn bucket(&self, i: usize) -> &[(TreeKey, V)]
        requires { i < length self.now.buckets }
        ensures { result.now ≡ bucket_at self.now.buckets i }
    {
        self.table.bucket(i)
    }

    /// The entries whose bucket was full.
    pub fn rest(&self) -> &BTreeMap<TreeKey, V>
        ensures { result.now.entries ≡ self.now.rest }
    {
        &self.more
    }

    /// Takes all entries away, in constant time, and gives them, to be freed in small steps.
    pub fn clear(&mut self) -> Remains<V>
        ensures empty { entries self.new ≡ [] }
        ensures remains { result ≡ self.old }
    {
        let alloc = self.table.allocator();
        let Index { table, more, .. } = mem::replace(self, Index::new(alloc));
        Remains::new(alloc, table.into_rows(), more)
    }

    // Adds an entry for a key that has none, and splits a bucket if they are full on average.
    fn add(&mut self, key: &Key, value: V) -> Result<(), AllocFailed<V>>
        requires { found_at self.old key.now ≡ None }
        ensures ok { OnOk result (HasAt key.now (Some value) self.old self.new) }
        ensures err { OnErr result (entries self.new ≡ entries self.old) }
        ensures value_returned { IfErr result (λ failed. failed.value ≡ value) }
    {
        let Some(len) = self.len.checked_add(1) else {
            return Err(AllocFailed { value });
        };
        add_entry(&mut self.table, &mut self.more, key, value)?;
        self.len = len;
        self.table.grow(len.saturating_sub(self.more.len()));
        Ok(())
    }
}

// Adds an entry for a key that has none: to its bucket, or to the tree if that is full.
fn add_entry<V: Drop>(
    table: &mut HashTable<V>,
    more: &mut BTreeMap<TreeKey, V>,
    key: &Key,
    value: V,
) -> Result<(), AllocFailed<V>>
    requires apart { AreApart (joined table.old ++ more.old.entries) }
    requires absent { value_at (joined table.old ++ more.old.entries) key.now ≡ None }
    ensures ok { OnOk result (HasNow key.now (Some value) (joined table.old ++ more.old.entries)
        (joined table.new ++ more.new.entries)) }
    ensures err { OnErr result (joined table.new ++ more.new.entries ≡ joined table.old ++ more.old.entries) }
    ensures value_returned { IfErr result (λ failed. failed.value ≡ value) }
    ensures apart { AreApart (joined table.new ++ more.new.entries) }
{
    let Ok(tree_key) = key.to_tree_key() else {
        return Err(AllocFailed { value });
    };
    if table.is_full(key.tree_key()) {
        return trees::add(more, tree_key, value);
    }
    table.add(tree_key, value)
}
