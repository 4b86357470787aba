//! The store: the items at the floor, and the entries above it.
ghost use Rattle.std.specs.Prelude.{◌≡◌, ◌≤◌, ◌+◌, ◌↔◌, OnOk, OnErr, IfOk, IsTrue, IsSome, IfSome};
ghost use Rattle.std.specs.FinMap as map;
ghost use Rattle.std.specs.Option.{option_copied};
ghost use Rattle.std.specs.Iterator.Runs.{YieldsRefsInOrder};
ghost use Rattle.std.specs.VecDeque.Iter.{deque_iter_rest, deque_iter_steps};
ghost use Rattle.versions.specs.declared.stores.StoreFault.TheVariants.{Memory};
ghost use Rattle.versions.specs.Stores.{IsStore, opening_store, last_number, value_at, IsClean, entries_after};
ghost use Rattle.versions.specs.Stores.{items_put, pushed, acked_to, dropped_to};

use crate::changes::{note, settle_first};
use crate::items::items_of;
use crate::lookups::{is_above, item_from};
use crate::numbers::Numbers;
use crate::packed_records::Record;
use crate::queues::give_back;
use crate::records::record_of;
use crate::{DeferredFree, Entry};
use std::alloc::{AllocError, Global};
use std::collections::vec_deque::Iter;
use std::collections::{BTreeMap, VecDeque};
use std::marker::Model;
use table::{Item, Key, TreeKey};
use thiserror::Error;

// The room that the entries keep if none is left: enough for a chain under load, without a block of memory each
// time.
const KEPT: usize = 1_024;

/// Why a store refuses an entry.
#[derive(Clone, Copy, Debug, PartialEq, Eq, Error)]
pub enum StoreFault {
    /// Out of memory; nothing has changed.
    #[error("out of memory")]
    Memory,
}

impl From<AllocError> for StoreFault {
    ghost from_gives = { λ _ e. e ≡ Memory };

    fn from(_e: AllocError) -> StoreFault {
        StoreFault::Memory
    }
}

/// The items at a number, the floor, and the entries of the log above it. An item stands once: in the base, or in its
/// entry. Contracts see the base, the floor, the entries above it and the commit number (`StoreState`).
#[derive(Drop)]
pub struct Store {
    alloc: Global,
    records: BTreeMap<TreeKey, Record>,
    entries: VecDeque<Entry>,
    clears: Numbers,
    // What clears took away.
    deferred_free: DeferredFree<Record>,
    floor: u64,
    acked: u64,
    last: u64,
}

impl Model for Store {
    ghost use Rattle.std.specs.Coded.{codes};
    ghost use Rattle.versions.specs.Stores.{StoreState, coded_items};

    ghost Value = { StoreState };

    ghost coded = { Prim.hlevel (codes, coded_items) };

    ghost use Rattle.versions.specs.Records.{base_of, IsHeld};

    ghost view = { λ s. record {
      base = base_of s.records.entries;
      floor = s.floor;
      rest = s.entries.items;
      acked = s.acked;
    } };

    ghost invariant = { λ s. IsHeld s.records.entries s.clears s.entries.items s.floor s.acked s.last };
}

impl Store {
    /// An empty store: floor, commit number and last number are 0. It allocates nothing.
    pub fn new(alloc: Global) -> Store
        ensures { result ≡ opening_store }
    {
        Store {
            alloc,
            records: BTreeMap::new(alloc),
            entries: VecDeque::new(alloc),
            clears: Numbers::new(alloc),
            deferred_free: DeferredFree::new(alloc),
            floor: 0,
            acked: 0,
            last: 0,
        }
    }

    /// The number up to which all entries are in the base.
    pub fn floor(&self) -> u64
        ensures floor { result ≡ self.now.floor }
        ensures store { IsStore self.now }
    {
        self.floor
    }

    /// The greatest number that is known to be acknowledged, from the floor to the last.
    pub fn acked(&self) -> u64
        ensures acked { result ≡ self.now.acked }
        ensures store { IsStore self.now }
    {
        self.acked
    }

    /// The number of the last entry, or the floor if there is none above it.
    pub fn last(&self) -> u64
        ensures last { result ≡ last_number self.now }
        ensures store { IsStore self.now }
    {
        self.last
    }

    /// Adds the entry with the next number. When out of memory it leaves the store as it was.
    /// Time is logarithmic in the number of keys. No later call takes memory for this entry.
    pub fn push(&mut self, entry: Entry) -> Result<(), StoreFault>
        requires next { entry.number ≡ last_number self.old + 1 }
        ensures ok { OnOk result (self.new ≡ pushed self.old entry) }
        ensures err { OnErr result (self.new ≡ self.old) }
    {
        let number = entry.number();
        self.entries.reserve(1)?;
        note(self.alloc, &mut self.records, &mut self.clears, &entry)?;
        self.entries.push_back_reserved(entry);
        self.last = number;
        Ok(())
    }

    /// Raises the commit number to `n`, in constant time.
    pub fn ack(&mut self, n: u64)
        requires above { self.old.acked ≤ n }
        requires known { n ≤ last_number self.old }
        ensures { self.new ≡ acked_to self.old n }
    {
        self.acked = n;
    }

    /// Raises the floor to `n`: the items of the entries up to it move to the base. No item is copied, and no memory
    /// taken. Time is logarithmic in the number of keys for each entry. A clear among them takes time linear in the
    /// number of keys that have a record, whose items it takes away; but the last entry's takes constant time, and the
    /// items are freed by and by, some at each later call. If no entry is left, the room that many of them took is
    /// given back.
    pub fn drop_to(&mut self, n: u64)
        requires above { self.old.floor ≤ n }
        requires acked { n ≤ self.old.acked }
        ensures { self.new ≡ dropped_to self.old n }
    {
        let count = n - self.floor;
        settle_first(
            &mut self.records,
            &mut self.clears,
            &mut self.entries,
            &mut self.deferred_free,
            count,
        );
        give_back(&mut self.entries, KEPT);
        self.deferred_free.sweep();
        self.floor = n;
    }

    /// The newest version of a key, dirty or not: its item, or none. Time is logarithmic in the number of keys.
    pub fn newest(&self, key: &Key) -> Option<&Item>
        ensures { option_copied result ≡ value_at self.now key.now (last_number self.now) }
    {
        let record = record_of(&self.records, key)?;
        let set = record.last();
        item_from(
            record.item(),
            &self.entries,
            self.floor,
            set,
            self.clears.last(),
        )
    }

    /// The version of a key at the number `n`: its item then, or none (CRAQ, "Chain Replication with Apportioned
    /// Queries"). Time is logarithmic in the number of keys and in the number of versions of the key and of clears
    /// above the floor.
    pub fn at(&self, key: &Key, n: u64) -> Option<&Item>
        requires above { self.now.floor ≤ n }
        requires known { n ≤ last_number self.now }
        ensures { option_copied result ≡ value_at self.now key.now n }
    {
        let record = record_of(&self.records, key)?;
        let set = record.last_up_to(n);
        item_from(
            record.item(),
            &self.entries,
            self.floor,
            set,
            self.clears.last_up_to(n),
        )
    }

    /// The entries above the number `n`, in order. In constant time.
    pub fn entries_after(&self, n: u64) -> Iter<'_, Entry>
        requires above { self.now.floor ≤ n }
        requires known { n ≤ last_number self.now }
        ensures rest { deque_iter_rest result ≡ entries_after self.now n }
        // By this a loop over them, or a chain of iterators, is proved.
        ensures runs { YieldsRefsInOrder (deque_iter_steps {X = Entry}) deque_iter_rest }
    {
        let first = (n - self.floor) as usize;
        self.entries.range(first..)
    }

    /// The items of the base with their keys: put one after another, they make it. They share their data and their
    /// keys' bytes. Time is linear in the number of keys.
    pub fn base(&self) -> Result<Vec<(Key, Item)>, AllocError>
        ensures { IfOk result (λ found. items_put map.empty found.items ≡ self.now.base) }
    {
        items_of(self.alloc, &self.records)
    }

    /// Whether no entry above the commit number puts, drops or clears the key
    /// (CRAQ, "Chain Replication with Apportioned Queries"). Time is logarithmic in the number of keys.
    pub fn is_clean(&self, key: &Key) -> bool
        ensures clean { IsTrue result ↔ IsClean self.now key.now }
    {
        self.clean_version(key).is_some()
    }

    /// The newest version of a clean key: its item, or none. `None` exactly if an entry above the acknowledged
    /// number puts, drops or clears the key (CRAQ, "Chain Replication with Apportioned Queries"). One search: time is
    /// logarithmic in the number of keys.
    pub fn clean_version(&self, key: &Key) -> Option<Option<&Item>>
        ensures clean { IsSome result ↔ IsClean self.now key.now }
        ensures newest { IfSome result (λ item. option_copied item ≡ value_at self.now key.now (last_number self.now)) }
    {
        let cleared = self.clears.last();
        if is_above(self.acked, cleared) {
            return None;
        }
        let Some(record) = record_of(&self.records, key) else {
            return Some(None);
        };
        let newest = record.last();
        if is_above(self.acked, newest) {
            return None;
        }
        Some(item_from(record.item(), &self.entries, self.floor, newest, cleared))
    }
}
